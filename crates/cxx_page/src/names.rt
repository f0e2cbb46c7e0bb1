//! Printed names: a stem, `__` and a number.
ghost use Rattle.std.specs.Prelude.{[], ◌∷◌};
ghost use Rattle.cxx_model.specs.Printing.Names.{printed_name};
ghost use Rattle.cxx_page.specs.Sheets.{Writes, put, word_of};

use crate::fault::PlainFault;
use crate::page::Page;
use cxx_reading::Role;
use cxx_stems::stem;
use itoa::Buffer;

#[tactic(auto, unfolding(cxx_model::specs::Printing::Names::printed_name))]
/// Writes the printed name of what has this name and this number in the text.
pub fn write_name(page: &mut Page, role: Role, word: &[u8], number: u32) -> Result<(), PlainFault>
    ensures { Writes result page.new (put (word_of role (printed_name number word.now) ∷ []) page.old) }
{
    let mut buffer = Buffer::new();
    page.word_in_parts(role, stem(word), b"__", buffer.format(number).as_bytes())
}

//! Initializers (8.5).
ghost use Rattle.std.specs.Prelude.{◌∷◌, ◌≡◌, ◌<◌, codes, length};
ghost use Rattle.cxx_page.specs.Sheets.{Writes, put};
ghost use Rattle.cxx_reading.specs.Plain.{is_empty};
ghost use Rattle.cxx_reading.specs.Words.{keyword_word};
ghost use Rattle.cxx_phrase_text.specs.Named.{trees_of};
ghost use Rattle.cxx_phrase_text.specs.Written.{element_at, initializer_at};

use crate::names::Names;
use crate::operands::write_element;
use cxx_model::TreeId;
use cxx_page::{Page, PlainFault};
use cxx_reading::Role;

#[tactic(auto, using(cxx_page::proofs::Put::put_more))]
fn write_equals<N: Names>(names: &N, page: &mut Page, number: TreeId) -> Result<(), PlainFault>
    requires ready { N.is_ready names.now }
    requires known { number.0 < length (trees_of (N.named names.now)) }
    ensures { Writes result page.new (put (keyword_word (codes "=") ∷ element_at (N.named names.now) number) page.old) }
{
    page.word(Role::Alone, b"=")?;
    write_element(names, page, number)
}

// Whether nothing is written.
fn is_nothing(spelling: &[u8]) -> bool
    ensures { result ≡ is_empty spelling.now }
{
    spelling.is_empty()
}

/// Writes the initializer with a number, behind the declarator of its object: `=` and what stands behind it, or nothing
/// where none is written.
pub fn write_initializer<N: Names>(
    names: &N,
    page: &mut Page,
    number: TreeId,
) -> Result<(), PlainFault>
    requires ready { N.is_ready names.now }
    requires known { number.0 < length (trees_of (N.named names.now)) }
    ensures { Writes result page.new (put (initializer_at (N.named names.now) number) page.old) }
{
    let node = names.state().node(number);
    if is_nothing(node.spelling.as_slice()) {
        return Ok(());
    }
    write_equals(names, page, number)
}

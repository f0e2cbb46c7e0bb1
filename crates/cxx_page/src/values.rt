//! Values as literals (2.13.1).
ghost use Rattle.std.specs.Prelude.{◌≡◌, [], ◌∷◌, negsuc, decimal, codes};
ghost use Rattle.cxx_reading.specs.Words.{keyword_word, literal_word, minus_word, value_suffix as value_suffix_of, value_words};
ghost use Rattle.cxx_page.specs.Sheets.{Writes, put};

use crate::fault::PlainFault;
use crate::page::Page;
use cxx_reading::Role;
use itoa::Buffer;

/// The suffix of the first type that holds a value.
fn value_suffix(value: u128) -> &'static [u8]
    ensures { result.now ≡ value_suffix_of value }
{
    if value < 2_147_483_648 {
        b""
    } else if value < 9_223_372_036_854_775_808 {
        b"L"
    } else {
        b"UL"
    }
}

/// Writes a value as a literal.
pub(crate) fn write_literal(page: &mut Page, value: u128) -> Result<(), PlainFault>
    ensures { Writes result page.new (put (literal_word value ∷ []) page.old) }
{
    let mut buffer = Buffer::new();
    page.word_in_parts(
        Role::Alone,
        buffer.format(value).as_bytes(),
        value_suffix(value),
        b"",
    )
}

#[tactic(auto, using(crate::proofs::Put::put_more))]
fn write_negative(page: &mut Page, magnitude: u128) -> Result<(), PlainFault>
    ensures { Writes result page.new (put (minus_word ∷ literal_word magnitude ∷ []) page.old) }
{
    page.word(Role::Leads, b"-")?;
    write_literal(page, magnitude)
}

/// Writes `-9223372036854775807L - 1`, since the least value has no literal.
#[tactic(auto, using(crate::proofs::Put::put_more))]
fn write_one_less(page: &mut Page) -> Result<(), PlainFault>
    ensures { Writes result page.new (put (keyword_word (codes "-") ∷ literal_word 1 ∷ []) page.old) }
{
    page.word(Role::Alone, b"-")?;
    write_literal(page, 1)
}

/// Writes the least value.
#[tactic(auto, using(crate::proofs::Put::put_two_and_two))]
fn write_least(page: &mut Page) -> Result<(), PlainFault>
    ensures { Writes result page.new (put (value_words (negsuc 9223372036854775807)) page.old) }
{
    write_negative(page, 9_223_372_036_854_775_807)?;
    write_one_less(page)
}

/// Writes a value of an integer: a negative one is the negation of a literal.
#[tactic(auto, using(crate::proofs::Integers::nonnegative))]
pub fn write_value(page: &mut Page, value: i128) -> Result<(), PlainFault>
    ensures { Writes result page.new (put (value_words value) page.old) }
{
    if value >= 0 {
        return write_literal(page, value.unsigned_abs());
    }
    if value == -9_223_372_036_854_775_808 {
        return write_least(page);
    }
    write_negative(page, value.unsigned_abs())
}

ghost use Rattle.std.specs.Prelude.{◌≡◌, ◌==◌};
ghost use Rattle.cxx_model.specs.Text.Spelling as spec;
ghost use Rattle.cxx_model.specs.Text.Continuing as goes;

use cxx_literals::{is_exponent, is_sign};

/// Space, tab, newline, vertical tab, form feed and carriage return.
pub fn is_white(b: u8) -> bool
    ensures { result ≡ spec.is_white b }
{
    b == b' ' || (9 <= b && b <= 13)
}

pub fn is_newline(b: u8) -> bool
    ensures { result ≡ spec.is_newline b }
{
    b == b'\n'
}

/// Space and tab.
pub fn is_blank(b: u8) -> bool
    ensures { result ≡ spec.is_blank b }
{
    b == b' ' || b == b'\t'
}

/// Letters, digits and `_` (2.10).
pub fn is_word(b: u8) -> bool
    ensures { result ≡ spec.is_word b }
{
    b.is_ascii_alphanumeric() || b == b'_'
}

pub fn begins_word(b: u8) -> bool
    ensures { result ≡ spec.begins_word b }
{
    b.is_ascii_alphabetic() || b == b'_'
}

pub fn is_quote(b: u8) -> bool
    ensures { result ≡ spec.is_quote b }
{
    b == b'\'' || b == b'"'
}

/// Whether a byte goes on with a number that ends in `last` (2.9).
pub fn number_goes_on(last: u8, b: u8) -> bool
    ensures { result ≡ goes.number_goes_on last b }
{
    is_word(b) || b == b'.' || (is_sign(b) && is_exponent(last))
}

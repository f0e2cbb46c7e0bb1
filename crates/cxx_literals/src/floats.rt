//! Floating literals (2.13.3), which the profile leaves out.

ghost use Rattle.std.specs.Prelude.{◌≡◌};
ghost use Rattle.cxx_model.specs.Text.Spelling as spec;
ghost use Rattle.cxx_literals.specs.Floats.{is_fraction};

use crate::bytes::{is_exponent, is_l, is_sign};
use crate::runs::digits_len;

/// Whether a text begins with a digit.
pub fn begins_with_digit(text: &[u8]) -> bool
    ensures { result ≡ spec.begins_with_digit text.now }
{
    match text {
        [] => false,
        [b, ..] => b.is_ascii_digit(),
    }
}

fn after_digits(text: &[u8]) -> &[u8]
    ensures { result.now ≡ spec.after_digits text.now }
{
    &text[digits_len(text)..]
}

fn is_floating_suffix(text: &[u8]) -> bool
    ensures { result ≡ spec.is_floating_suffix text.now }
{
    match text {
        [] => true,
        [b] => *b == b'f' || *b == b'F' || is_l(*b),
        _ => false,
    }
}

/// Digits, and a suffix.
fn ends_exponent(text: &[u8]) -> bool
    ensures { result ≡ spec.ends_exponent text.now }
{
    begins_with_digit(text) && is_floating_suffix(after_digits(text))
}

fn unsigned_exponent(text: &[u8]) -> &[u8]
    ensures { result.now ≡ spec.unsigned_exponent text.now }
{
    match text {
        [b, rest @ ..] if is_sign(*b) => rest,
        _ => text,
    }
}

/// An exponent, with its sign and digits, and a suffix.
fn is_exponent_part(text: &[u8]) -> bool
    ensures { result ≡ spec.is_exponent_part text.now }
{
    match text {
        [] => false,
        [b, rest @ ..] => is_exponent(*b) && ends_exponent(unsigned_exponent(rest)),
    }
}

/// What stands behind a dot.
fn is_fraction(has_digits: bool, text: &[u8]) -> bool
    ensures { result ≡ is_fraction has_digits text.now }
{
    let rest = after_digits(text);
    (has_digits || begins_with_digit(text)) && (is_floating_suffix(rest) || is_exponent_part(rest))
}

/// What stands behind the digits before a dot or an exponent.
fn is_floating_rest(has_digits: bool, text: &[u8]) -> bool
    ensures { result ≡ spec.is_floating_rest has_digits text.now }
{
    match text {
        [b'.', rest @ ..] => is_fraction(has_digits, rest),
        _ => has_digits && is_exponent_part(text),
    }
}

/// Whether a whole text is a floating literal (2.13.3).
pub fn is_floating(text: &[u8]) -> bool
    ensures { result ≡ spec.is_floating text.now }
{
    is_floating_rest(begins_with_digit(text), after_digits(text))
}

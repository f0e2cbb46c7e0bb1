//! How far a string goes (2.13.4).

ghost use Rattle.std.specs.Prelude.{◌≡◌, ◌==◌, ◌&&◌, ◌||◌, not};
ghost use Rattle.std.specs.List.{list_any};
ghost use Rattle.cxx_model.specs.declared.token.TokenKind.TheVariants as kind;
ghost use Rattle.cxx_model.specs.Text.Spelling as spec;
ghost use Rattle.cxx_strings.specs.Pieces.{Finds, closed_len, is_sound};

use crate::bytes::is_newline;
use cxx_literals::{any_bad, any_universal};

/// Whether each character of a body is one that a string may have.
fn is_sound(wide: bool, body: &[u8]) -> bool
    ensures { result ≡ is_sound wide body.now }
{
    !any_bad(wide, body) && !any_universal(body)
}

/// Whether a byte escapes the next one.
fn escapes(escaped: bool, b: u8) -> bool
    ensures { result ≡ (not escaped && b == 92) }
{
    !escaped && b == b'\\'
}

/// Whether a byte ends a string.
fn ends_string(escaped: bool, b: u8) -> bool
    ensures { result ≡ (not escaped && b == 34) }
{
    !escaped && b == b'"'
}

/// How many bytes a body has with the quote behind it, where its characters are sound.
fn closed_len(wide: bool, body: &[u8]) -> Option<usize>
    ensures { result ≡ closed_len wide body.now }
{
    if is_sound(wide, body) {
        Some(body.len() + 1)
    } else {
        None
    }
}

/// How much of what stands behind a `"` belongs to the string: up to the next `"` that no backslash escapes.
pub fn string_len(wide: bool, rest: &[u8]) -> Option<usize>
    ensures { Finds (spec.literal wide 34) rest.now (spec.Good kind.Text) result }
{
    let mut escaped = false;
    for (i, b) in rest.iter().enumerate() {
        if is_newline(*b) {
            return None;
        }
        if ends_string(escaped, *b) {
            return closed_len(wide, &rest[..i]);
        }
        escaped = escapes(escaped, *b);
    }
    None
}

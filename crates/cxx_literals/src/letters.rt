//! The characters of a literal and their escapes (2.13.2).

ghost use Rattle.std.specs.Prelude.{◌≡◌, ◌≤◌, ◌<◌, ◌||◌, ◌==◌, length};
ghost use Rattle.std.specs.List.{list_any};
ghost use Rattle.cxx_model.specs.Text.Spelling as spec;
ghost use Rattle.cxx_literals.specs.Escapes.{letter_at, letter_of, capped, escape_seen};

use crate::bytes::is_octal;
use crate::runs::{hexadecimal_len, octal_len};
use crate::values::value_of;

/// One character of a literal: its value, an escape that there is not, or a universal character name.
#[derive(Clone, Copy)]
pub enum Letter {
    Value(u128),
    Unknown,
    Universal,
}

/// A character, and how many bytes belong to it.
#[derive(Clone, Copy)]
pub struct Found {
    pub len: usize,
    pub is: Letter,
}

/// The values of the simple escapes.
fn simple_escape(b: u8) -> Option<u8>
    ensures { result ≡ spec.simple_escape b }
{
    match b {
        b'\'' | b'"' | b'?' | b'\\' => Some(b),
        b'a' => Some(7),
        b'b' => Some(8),
        b'f' => Some(12),
        b'n' => Some(10),
        b'r' => Some(13),
        b't' => Some(9),
        b'v' => Some(11),
        _ => None,
    }
}

/// Up to three octal digits.
fn octal_escape(text: &[u8]) -> Found
    ensures { escape_seen result ≡ capped (spec.octal_escape text.now) }
{
    let len = octal_len(text).min(3);
    Found {
        len,
        is: Letter::Value(value_of(8, &text[..len])),
    }
}

/// `x` and all hexadecimal digits behind it, of which there is one at least.
fn hexadecimal_escape(text: &[u8]) -> Found
    ensures { escape_seen result ≡ capped (spec.hexadecimal_escape text.now) }
{
    let len = hexadecimal_len(text);
    if len == 0 {
        return Found {
            len: 1,
            is: Letter::Unknown,
        };
    }
    Found {
        len: 1 + len,
        is: Letter::Value(value_of(16, &text[..len])),
    }
}

/// `u` or `U` and up to four or eight hexadecimal digits.
fn universal_escape(most: usize, text: &[u8]) -> Found
    ensures { escape_seen result ≡ capped (spec.universal_escape most text.now) }
{
    Found {
        len: 1 + hexadecimal_len(text).min(most),
        is: Letter::Universal,
    }
}

/// What stands behind a backslash.
fn escape(text: &[u8]) -> Found
    ensures { escape_seen result ≡ capped (spec.escape text.now) }
{
    if text.is_empty() {
        return Found {
            len: 0,
            is: Letter::Unknown,
        };
    }
    let b = text[0];
    let rest = &text[1..];
    if let Some(value) = simple_escape(b) {
        return Found {
            len: 1,
            is: Letter::Value(u128::from(value)),
        };
    }
    if is_octal(b) {
        octal_escape(text)
    } else if b == b'x' {
        hexadecimal_escape(rest)
    } else if b == b'u' {
        universal_escape(4, rest)
    } else if b == b'U' {
        universal_escape(8, rest)
    } else {
        Found {
            len: 1,
            is: Letter::Unknown,
        }
    }
}

/// The first character of a body; each byte past 127 is one.
pub fn first_letter(text: &[u8]) -> Found
    requires { 0 < length text.now }
    ensures value { escape_seen result ≡ capped (letter_at text.now) }
    ensures some { 0 < result.len }
    ensures within { result.len ≤ length text.now }
{
    let b = text[0];
    if b == b'\\' {
        let found = escape(&text[1..]);
        Found {
            len: 1 + found.len,
            is: found.is,
        }
    } else {
        Found {
            len: 1,
            is: Letter::Value(u128::from(b)),
        }
    }
}

/// Whether an escape is none, or its value is more than the character holds.
fn is_bad(wide: bool, letter: Letter) -> bool
    ensures { result ≡ spec.is_bad_letter wide (letter_of letter) }
{
    match letter {
        Letter::Value(value) => value > if wide { 4_294_967_295 } else { 255 },
        Letter::Unknown => true,
        Letter::Universal => false,
    }
}

/// Whether a character is written by a universal character name.
pub fn is_universal(letter: Letter) -> bool
    ensures { result ≡ spec.is_universal_letter (letter_of letter) }
{
    match letter {
        Letter::Universal => true,
        _ => false,
    }
}

/// Whether some character of a body is an escape that there is not, or has more than a character holds.
pub fn any_bad(wide: bool, body: &[u8]) -> bool
    ensures { result ≡ list_any (spec.is_bad_letter wide) (spec.letters 0 body.now) }
{
    let mut rest = body;
    while !rest.is_empty() {
        let found = first_letter(rest);
        if is_bad(wide, found.is) {
            return true;
        }
        rest = &rest[found.len..];
    }
    false
}

/// Whether some character of a body is written by a universal character name.
pub fn any_universal(body: &[u8]) -> bool
    ensures { result ≡ list_any spec.is_universal_letter (spec.letters 0 body.now) }
{
    let mut rest = body;
    while !rest.is_empty() {
        let found = first_letter(rest);
        if is_universal(found.is) {
            return true;
        }
        rest = &rest[found.len..];
    }
    false
}

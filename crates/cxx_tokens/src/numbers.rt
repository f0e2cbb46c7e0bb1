//! Number tokens (2.9, 2.13.1, 2.13.3).

ghost use Rattle.std.specs.Prelude.{◌≡◌, ◌≤◌, None, true, false, length, take, drop};
ghost use Rattle.cxx_model.specs.Text.Spelling as spec;
ghost use Rattle.cxx_model.specs.Text.Continuing as goes;
ghost use Rattle.cxx_model.specs.Text.Tokens.{IsLongest};
ghost use Rattle.cxx_tokens.specs.Pieces.{spelled, piece_of, begins_numeral};

use crate::bytes::number_goes_on;
use crate::piece::{Piece, Spelled};
use cxx_literals::{integer_parts, integer_type, is_floating};
use cxx_model::{Base, TokenKind, TokenReason};

/// Whether a text begins with a digit, or with a dot and a digit.
pub fn begins_number(text: &[u8]) -> bool
    ensures { result ≡ begins_numeral text.now }
{
    match text {
        [] => false,
        [b] => b.is_ascii_digit(),
        [b, c, ..] => b.is_ascii_digit() || (*b == b'.' && c.is_ascii_digit()),
    }
}

/// The type of an integer literal that some type holds.
pub fn type_of(text: &[u8]) -> Option<Base>
    ensures { result ≡ spec.type_of_parts (spec.integer_parts text.now) }
{
    match integer_parts(text) {
        Some(parts) => integer_type(&parts),
        None => None,
    }
}

fn integer_by(kind: Option<Base>) -> Spelled
    ensures { spelled result ≡ spec.integer_by kind }
{
    match kind {
        Some(_) => Spelled::Good(TokenKind::Integer),
        None => Spelled::Ill(TokenReason::NumberTooLarge),
    }
}

fn no_integer(text: &[u8]) -> Spelled
    ensures { spelled result ≡ spec.number_by None (spec.is_floating text.now) }
{
    if is_floating(text) {
        Spelled::Ill(TokenReason::FloatingLiteral)
    } else {
        Spelled::Ill(TokenReason::BadNumber)
    }
}

/// The whole run is judged.
fn number_kind(text: &[u8]) -> Spelled
    ensures { spelled result ≡ spec.number_kind text.now }
{
    match integer_parts(text) {
        Some(parts) => integer_by(integer_type(&parts)),
        None => no_integer(text),
    }
}

/// How many bytes go on with a number that begins with `first`.
fn number_len(first: u8, rest: &[u8]) -> usize
    ensures within { result ≤ length rest.now }
    ensures number { spec.is_number_rest first (take result rest.now) ≡ true }
    ensures ends { goes.starts (goes.number_goes_on (goes.last_of first (take result rest.now))) (drop result rest.now) ≡ false }
{
    let mut last = first;
    for (i, b) in rest.iter().enumerate() {
        if !number_goes_on(last, *b) {
            return i;
        }
        last = *b;
    }
    rest.len()
}

/// The longest front of a text that begins as a number.
pub fn number(fresh: bool, text: &[u8]) -> Piece
    requires { begins_numeral text.now ≡ true }
    ensures { IsLongest fresh text.now (piece_of result) }
{
    let len = 1 + number_len(text[0], &text[1..]);
    Piece {
        len,
        spells: number_kind(&text[..len]),
    }
}

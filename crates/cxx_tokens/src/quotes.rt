//! Literals in quotes (2.13.2, 2.13.4).

ghost use Rattle.std.specs.Prelude.{◌≡◌, ◌==◌, ◌&&◌, not, true};
ghost use Rattle.cxx_model.specs.Text.Spelling as spec;
ghost use Rattle.cxx_model.specs.Text.Continuing.{IsLongestBy};
ghost use Rattle.cxx_tokens.specs.Pieces.{spelled};

use crate::bytes::is_newline;
use crate::piece::{Piece, Spelled};
use cxx_literals::{any_bad, any_universal, first_letter, is_universal};
use cxx_model::{TokenKind, TokenReason};

/// What a body between single quotes spells: the first reason that holds, in their order.
fn character_kind(wide: bool, body: &[u8]) -> Spelled
    ensures { spelled result ≡ spec.character_by wide (spec.letters 0 body.now) }
{
    if body.is_empty() {
        return Spelled::Ill(TokenReason::UnfinishedLiteral);
    }
    let first = first_letter(body);
    if any_bad(wide, body) {
        Spelled::Ill(TokenReason::BadEscape)
    } else if first.len < body.len() {
        Spelled::Ill(TokenReason::MultiCharacter)
    } else if is_universal(first.is) {
        Spelled::Ill(TokenReason::UniversalName)
    } else {
        Spelled::Good(TokenKind::Character)
    }
}

/// What a body between double quotes spells.
fn string_kind(wide: bool, body: &[u8]) -> Spelled
    ensures { spelled result ≡ spec.string_by wide (spec.letters 0 body.now) }
{
    if any_bad(wide, body) {
        Spelled::Ill(TokenReason::BadEscape)
    } else if any_universal(body) {
        Spelled::Ill(TokenReason::UniversalName)
    } else {
        Spelled::Good(TokenKind::Text)
    }
}

fn literal_kind(wide: bool, quote: u8, body: &[u8]) -> Spelled
    ensures { spelled result ≡ spec.literal_kind wide quote body.now }
{
    if quote == b'\'' {
        character_kind(wide, body)
    } else {
        string_kind(wide, body)
    }
}

/// Whether a byte escapes the next one.
fn escapes(escaped: bool, b: u8) -> bool
    ensures { result ≡ (not escaped && b == 92) }
{
    !escaped && b == b'\\'
}

/// Whether a byte ends a literal with this quote.
fn ends_literal(quote: u8, escaped: bool, b: u8) -> bool
    ensures { result ≡ (not escaped && b == quote) }
{
    !escaped && b == quote
}

/// The longest front of what stands behind a quote. A newline ends no literal, and a quote ends it unless a backslash
/// stands before it.
pub fn literal(wide: bool, quote: u8, rest: &[u8]) -> Piece
    requires { spec.is_quote quote ≡ true }
    ensures { IsLongestBy (spec.literal wide quote) rest.now result.len (spelled result.spells) }
{
    let mut escaped = false;
    for (i, b) in rest.iter().enumerate() {
        if is_newline(*b) {
            return Piece {
                len: i,
                spells: Spelled::Ill(TokenReason::UnfinishedLiteral),
            };
        }
        if ends_literal(quote, escaped, *b) {
            return Piece {
                len: i + 1,
                spells: literal_kind(wide, quote, &rest[..i]),
            };
        }
        escaped = escapes(escaped, *b);
    }
    Piece {
        len: rest.len(),
        spells: Spelled::Ill(TokenReason::UnfinishedLiteral),
    }
}

//! Keywords, names, operators that are words, and wide literals (2.5, 2.10, 2.11).

ghost use Rattle.std.specs.Prelude.{◌≡◌, true};
ghost use Rattle.cxx_model.specs.Text.Spelling as spec;
ghost use Rattle.cxx_model.specs.Text.Continuing as goes;
ghost use Rattle.cxx_model.specs.Text.Tokens.{IsLongest};
ghost use Rattle.cxx_tokens.specs.Pieces.{spelled, piece_of, begins_wide};

use crate::bytes::is_quote;
use crate::piece::{Piece, Spelled};
use crate::quotes::literal;
use crate::runs::word_len;
use crate::tables::{number_beside, number_in};
use cxx_model::{TokenKind, keyword, punct};

#[tactic(auto, unfolding(cxx_model::specs::Text::Spelling::keywords))]
fn keyword_of(text: &[u8]) -> Option<u8>
    ensures { result ≡ spec.number_in spec.keywords text.now }
{
    match number_in(&keyword::SPELLINGS, text) {
        Some(n) => Some(n as u8),
        None => None,
    }
}

#[tactic(auto, unfolding(cxx_model::specs::Text::Spelling::alternatives))]
fn alternative_of(text: &[u8]) -> Option<u8>
    ensures { result ≡ spec.number_beside spec.alternatives text.now }
{
    number_beside(&punct::ALTERNATIVES, text)
}

#[tactic(auto, unfolding(cxx_model::specs::Text::Spelling::word_kind))]
fn word_kind(text: &[u8]) -> Spelled
    ensures { spelled result ≡ spec.word_kind text.now }
{
    match (keyword_of(text), alternative_of(text)) {
        (Some(n), _) => Spelled::Good(TokenKind::Keyword(n)),
        (None, Some(n)) => Spelled::Good(TokenKind::Punct(n)),
        (None, None) => Spelled::Good(TokenKind::Name),
    }
}

/// Whether a text begins with `L` and a quote.
fn begins_wide(text: &[u8]) -> bool
    ensures { result ≡ begins_wide text.now }
{
    match text {
        [first, second, ..] => *first == b'L' && is_quote(*second),
        _ => false,
    }
}

/// The longest front of a text that begins with `L` and a quote.
fn wide(fresh: bool, text: &[u8]) -> Piece
    requires { begins_wide text.now ≡ true }
    ensures { IsLongest fresh text.now (piece_of result) }
{
    let found = literal(true, text[1], &text[2..]);
    Piece {
        len: 2 + found.len,
        spells: found.spells,
    }
}

/// The longest front of a text that begins as a word.
pub fn word(fresh: bool, text: &[u8]) -> Piece
    requires { goes.starts spec.begins_word text.now ≡ true }
    ensures { IsLongest fresh text.now (piece_of result) }
{
    if begins_wide(text) {
        return wide(fresh, text);
    }
    let len = 1 + word_len(&text[1..]);
    Piece {
        len,
        spells: word_kind(&text[..len]),
    }
}

//! Operators and punctuators (2.5, 2.12).

ghost use Rattle.std.specs.Prelude.{◌≡◌, ◌<◌, ◌≤◌, [], ◌∷◌, Some, length};
ghost use Rattle.cxx_model.specs.Text.Spelling as spec;
ghost use Rattle.cxx_model.specs.Text.Tokens.{IsLongest};
ghost use Rattle.cxx_tokens.specs.Pieces.{spelled, spelled_option, comes_second, operator_number, operator_of, operator_at, piece_of, IsOperatorText};

use crate::piece::{Piece, Spelled};
use crate::tables::{number_beside, number_in};
use cxx_model::{TokenKind, TokenReason, punct};

#[tactic(auto, unfolding(cxx_model::specs::Text::Spelling::operators))]
fn primary_number(text: &[u8]) -> Option<u8>
    ensures { result ≡ spec.number_in spec.operators text.now }
{
    match number_in(&punct::SPELLINGS, text) {
        Some(n) => Some(n as u8),
        None => None,
    }
}

#[tactic(auto, unfolding(cxx_model::specs::Text::Spelling::digraphs))]
fn digraph_number(text: &[u8]) -> Option<u8>
    ensures { result ≡ spec.number_beside spec.digraphs text.now }
{
    number_beside(&punct::DIGRAPHS, text)
}

/// The number of an operator by either spelling.
fn operator_number(text: &[u8]) -> Option<u8>
    ensures { result ≡ operator_number text.now }
{
    match primary_number(text) {
        Some(n) => Some(n),
        None => digraph_number(text),
    }
}

/// The number of an operator of one byte.
fn alone_number(b: u8) -> Option<u8>
    ensures { result ≡ operator_number (b ∷ []) }
{
    match b {
        b'{' => Some(punct::LEFT_BRACE),
        b'}' => Some(punct::RIGHT_BRACE),
        b'[' => Some(punct::LEFT_BRACKET),
        b']' => Some(punct::RIGHT_BRACKET),
        b'(' => Some(punct::LEFT_PARENTHESIS),
        b')' => Some(punct::RIGHT_PARENTHESIS),
        b';' => Some(punct::SEMICOLON),
        b':' => Some(punct::COLON),
        b'?' => Some(punct::QUESTION),
        b'.' => Some(punct::DOT),
        b'+' => Some(punct::PLUS),
        b'-' => Some(punct::MINUS),
        b'*' => Some(punct::STAR),
        b'/' => Some(punct::SLASH),
        b'%' => Some(punct::PERCENT),
        b'^' => Some(punct::CARET),
        b'&' => Some(punct::AMPERSAND),
        b'|' => Some(punct::BAR),
        b'~' => Some(punct::TILDE),
        b'!' => Some(punct::EXCLAMATION),
        b'=' => Some(punct::EQUALS),
        b'<' => Some(punct::LESS),
        b'>' => Some(punct::GREATER),
        b',' => Some(punct::COMMA),
        _ => operator_number(&[b]),
    }
}

/// What a text of one byte spells as an operator.
#[tactic(auto, unfolding(cxx_model::specs::Text::Spelling::operator))]
fn alone(b: u8) -> Spelled
    ensures { Some (spelled result) ≡ operator_of (b ∷ []) }
{
    match alone_number(b) {
        Some(n) => Spelled::Good(TokenKind::Punct(n)),
        None => Spelled::Ill(TokenReason::StrayByte),
    }
}

/// Whether a byte is the second of some operator.
fn comes_second(b: u8) -> bool
    ensures { result ≡ comes_second b }
{
    match b {
        b'%' | b'&' | b'*' | b'+' | b'-' | b'.' | b':' | b'<' | b'=' | b'>' | b'|' => true,
        _ => false,
    }
}

/// What a whole text spells as an operator. Each byte spells something by itself.
#[tactic(auto, unfolding(cxx_model::specs::Text::Spelling::operator))]
fn operator_of(text: &[u8]) -> Option<Spelled>
    requires { 0 < length text.now }
    ensures { spelled_option result ≡ operator_of text.now }
{
    match operator_number(text) {
        Some(n) => Some(Spelled::Good(TokenKind::Punct(n))),
        None if text.len() == 1 => Some(Spelled::Ill(TokenReason::StrayByte)),
        None => None,
    }
}

fn operator_at(text: &[u8], len: usize) -> Option<Spelled>
    requires { 0 < len }
    ensures { spelled_option result ≡ operator_at text.now len }
{
    if len <= text.len() {
        operator_of(&text[..len])
    } else {
        None
    }
}

/// The same of more bytes than one: none where the second is that of no operator.
#[tactic(auto, using(crate::proofs::Shorter::none_longer, crate::proofs::Shorter::none_short))]
fn longer_at(text: &[u8], len: usize) -> Option<Spelled>
    requires { 2 ≤ len }
    ensures { spelled_option result ≡ operator_at text.now len }
{
    match text {
        [_, second, ..] => {
            if comes_second(*second) {
                operator_at(text, len)
            } else {
                None
            }
        }
        _ => None,
    }
}

/// The longest front of a text that begins as an operator, or with a byte with which no token begins.
pub fn operator(fresh: bool, text: &[u8]) -> Piece
    requires { IsOperatorText text.now }
    ensures { IsLongest fresh text.now (piece_of result) }
{
    if let Some(spells) = longer_at(text, 3) {
        return Piece { len: 3, spells };
    }
    if let Some(spells) = longer_at(text, 2) {
        return Piece { len: 2, spells };
    }
    let spells = alone(text[0]);
    Piece { len: 1, spells }
}

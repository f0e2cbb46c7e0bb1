//! The longest piece at the front of a text (2.4).

ghost use Rattle.std.specs.Prelude.{◌≡◌, ◌<◌, true, false, length};
ghost use Rattle.cxx_model.specs.Text.Tokens.{IsLongest};
ghost use Rattle.cxx_model.specs.Text.Continuing as goes;
ghost use Rattle.cxx_model.specs.Text.Spelling as spec;
ghost use Rattle.cxx_tokens.specs.Pieces.{piece_of, spelled_option, begins_with, IsOtherText};

use crate::bytes::{begins_word, is_quote, is_white};
use crate::comments::{comment, line_len};
use crate::markers::marker;
use crate::numbers::{begins_number, number};
use crate::operators::operator;
use crate::piece::{Piece, Spelled};
use crate::quotes::literal;
use crate::words::word;
use cxx_model::TokenReason;

/// The longest front of a text that begins with a quote.
fn quoted(fresh: bool, text: &[u8]) -> Piece
    requires { goes.starts spec.is_quote text.now ≡ true }
    ensures { IsLongest fresh text.now (piece_of result) }
{
    let found = literal(false, text[0], &text[1..]);
    Piece {
        len: 1 + found.len,
        spells: found.spells,
    }
}

/// The longest front of a text that begins with `#`.
fn hash(fresh: bool, text: &[u8]) -> Piece
    requires { begins_with 35 text.now ≡ true }
    ensures { IsLongest fresh text.now (piece_of result) }
{
    if !fresh {
        return Piece {
            len: 1,
            spells: Spelled::Ill(TokenReason::Directive),
        };
    }
    let found = marker(&text[1..]);
    Piece {
        len: 1 + found.len,
        spells: found.spells,
    }
}

/// The longest front of a text that begins with `/`.
fn slash(fresh: bool, text: &[u8]) -> Piece
    requires first { begins_with 47 text.now ≡ true }
    ensures { IsLongest fresh text.now (piece_of result) }
{
    match text {
        [_, b'/', ..] => Piece {
            len: 2 + line_len(&text[2..]),
            spells: Spelled::Blank,
        },
        [_, b'*', ..] => {
            let found = comment(&text[2..]);
            Piece {
                len: 2 + found.len,
                spells: found.spells,
            }
        }
        _ => operator(fresh, text),
    }
}

/// The longest front of a text that begins with a backslash.
fn backslash(fresh: bool, text: &[u8]) -> Piece
    requires { begins_with 92 text.now ≡ true }
    ensures { IsLongest fresh text.now (piece_of result) }
{
    match text {
        [_, b'u' | b'U', ..] => Piece {
            len: 2,
            spells: Spelled::Ill(TokenReason::UniversalName),
        },
        _ => Piece {
            len: 1,
            spells: Spelled::Ill(TokenReason::StrayByte),
        },
    }
}

/// The longest front of a text that begins with `%`.
fn percent(fresh: bool, text: &[u8]) -> Piece
    requires { begins_with 37 text.now ≡ true }
    ensures { IsLongest fresh text.now (piece_of result) }
{
    match text {
        [_, b':', ..] => Piece {
            len: 2,
            spells: Spelled::Ill(TokenReason::Directive),
        },
        _ => operator(fresh, text),
    }
}

/// The longest front of a text that begins with neither white space nor a word, a number or a quote.
fn other(fresh: bool, text: &[u8]) -> Piece
    requires { IsOtherText text.now }
    ensures { IsLongest fresh text.now (piece_of result) }
{
    match text[0] {
        b'#' => hash(fresh, text),
        b'/' => slash(fresh, text),
        b'\\' => backslash(fresh, text),
        b'%' => percent(fresh, text),
        _ => operator(fresh, text),
    }
}

/// `fresh`: only blanks stand before the text on its line.
pub fn front(fresh: bool, text: &[u8]) -> Piece
    requires { 0 < length text.now }
    ensures { IsLongest fresh text.now (piece_of result) }
{
    let first = text[0];
    if is_white(first) {
        Piece {
            len: 1,
            spells: Spelled::Blank,
        }
    } else if begins_word(first) {
        word(fresh, text)
    } else if begins_number(text) {
        number(fresh, text)
    } else if is_quote(first) {
        quoted(fresh, text)
    } else {
        other(fresh, text)
    }
}

/// What a whole text spells, where no marker line begins.
pub fn spelling_of(text: &[u8]) -> Option<Spelled>
    ensures { spelled_option result ≡ spec.spelling_of false text.now }
{
    if text.is_empty() {
        return None;
    }
    let piece = front(false, text);
    if piece.len == text.len() {
        Some(piece.spells)
    } else {
        None
    }
}

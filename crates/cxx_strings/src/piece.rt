//! The piece at the front of a text, as far as strings go (2.4, 2.7, 2.13.4).

ghost use Rattle.std.specs.Prelude.{◌≡◌, ◌<◌, ◌≤◌, true, length, slice_index};
ghost use Rattle.cxx_strings.specs.Pieces.{Begins, begins_wide};
ghost use Rattle.cxx_tokens.specs.Pieces.{begins_with};

use crate::blanks::{comment_len, line_len, marker_len};
use crate::bytes::is_white;
use crate::string::string_len;

/// White space or a string of so many bytes, or what is neither.
#[derive(Clone, Copy)]
pub enum Piece {
    Blank(usize),
    Text(usize),
    Other,
}

/// Whether a text begins with `L` and a `"`.
fn begins_wide(text: &[u8]) -> bool
    ensures { result ≡ begins_wide text.now }
{
    match text {
        [first, second, ..] => *first == b'L' && *second == b'"',
        _ => false,
    }
}

/// The piece that begins with `"`.
fn narrow(fresh: bool, text: &[u8]) -> Piece
    requires { begins_with 34 text.now ≡ true }
    ensures { Begins fresh text.now result }
{
    match string_len(false, &text[1..]) {
        Some(len) => Piece::Text(1 + len),
        None => Piece::Other,
    }
}

/// The piece that begins with `L` and a `"`.
fn wide(fresh: bool, text: &[u8]) -> Piece
    requires { begins_wide text.now ≡ true }
    ensures { Begins fresh text.now result }
{
    match string_len(true, &text[2..]) {
        Some(len) => Piece::Text(2 + len),
        None => Piece::Other,
    }
}

/// The piece that begins with `#`.
fn hash(fresh: bool, text: &[u8]) -> Piece
    requires { begins_with 35 text.now ≡ true }
    ensures { Begins fresh text.now result }
{
    if !fresh {
        return Piece::Other;
    }
    match marker_len(&text[1..]) {
        Some(len) => Piece::Blank(1 + len),
        None => Piece::Other,
    }
}

/// The piece that begins with `/*`.
fn comment(fresh: bool, text: &[u8]) -> Piece
    requires long { 2 ≤ length text.now }
    requires first { begins_with 47 text.now ≡ true }
    requires second { slice_index text.now 1 ≡ 42 }
    ensures { Begins fresh text.now result }
{
    match comment_len(&text[2..]) {
        Some(len) => Piece::Blank(2 + len),
        None => Piece::Other,
    }
}

/// The piece that begins with `/`.
fn slash(fresh: bool, text: &[u8]) -> Piece
    requires { begins_with 47 text.now ≡ true }
    ensures { Begins fresh text.now result }
{
    match text {
        [_, b'/', ..] => Piece::Blank(2 + line_len(&text[2..])),
        [_, b'*', ..] => comment(fresh, text),
        _ => Piece::Other,
    }
}

/// `fresh`: only blanks stand before the text on its line.
pub fn piece_at(fresh: bool, text: &[u8]) -> Piece
    requires { 0 < length text.now }
    ensures { Begins fresh text.now result }
{
    let first = text[0];
    if is_white(first) {
        Piece::Blank(1)
    } else if first == b'"' {
        narrow(fresh, text)
    } else if begins_wide(text) {
        wide(fresh, text)
    } else if first == b'#' {
        hash(fresh, text)
    } else if first == b'/' {
        slash(fresh, text)
    } else {
        Piece::Other
    }
}

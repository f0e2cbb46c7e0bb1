//! Strings side by side, with one space between two (2.13.4).

ghost use Rattle.std.specs.Prelude.{◌≡◌, ◌<◌, length, IfOk};
ghost use Rattle.cxx_model.specs.Text.Tokens.{fresh_after, fresh_past};
ghost use Rattle.cxx_strings.specs.SideBySide as definition;
ghost use Rattle.cxx_strings.specs.Spacing.{IsWritten, Passes, with_next};

use crate::bytes::is_blank;
use crate::piece::{Piece, piece_at};
use cxx_model::{Listed, Text};
use std::alloc::{AllocError, Global};

/// Whether only blanks stand on the line up to and with a byte.
fn fresh_after(b: u8, fresh: bool) -> bool
    ensures { result ≡ fresh_after b fresh }
{
    b == b'\n' || (fresh && is_blank(b))
}

/// Whether only blanks stand on the line up to the end of a text.
fn fresh_past(text: &[u8], fresh: bool) -> bool
    ensures { result ≡ fresh_past text.now fresh }
{
    let mut fresh = fresh;
    for b in text {
        fresh = fresh_after(*b, fresh);
    }
    fresh
}

/// Writes a string, behind a space where another was written.
fn add(spaced: &mut Vec<u8>, string: &[u8]) -> Result<(), AllocError>
    ensures { IfOk result (λ _. spaced.new.items ≡ with_next spaced.old.items string.now) }
{
    if !spaced.is_empty() {
        spaced.push(b' ')?;
    }
    spaced.extend_from_slice(string)
}

/// Passes the piece at the front of a text, which is written if it is a string: how many bytes it has, or `None` where
/// it is neither a string nor white space.
fn next(spaced: &mut Vec<u8>, fresh: bool, rest: &[u8]) -> Result<Option<usize>, AllocError>
    requires { 0 < length rest.now }
    ensures { IfOk result (λ passed. Passes spaced.old.items fresh rest.now spaced.new.items passed) }
{
    match piece_at(fresh, rest) {
        Piece::Blank(len) => Ok(Some(len)),
        Piece::Text(len) => {
            add(spaced, &rest[..len])?;
            Ok(Some(len))
        }
        Piece::Other => Ok(None),
    }
}

/// The strings of a text with one space between two, or `None` where something else stands in it.
fn spaced(alloc: Global, text: &[u8]) -> Result<Option<Vec<u8>>, AllocError>
    ensures { IfOk result (λ spaced. IsWritten text.now spaced) }
{
    let mut spaced = Vec::new(alloc);
    let mut rest = text;
    let mut fresh = false;
    while !rest.is_empty() {
        match next(&mut spaced, fresh, rest)? {
            Some(len) => {
                fresh = fresh_past(&rest[..len], fresh);
                rest = &rest[len..];
            }
            None => return Ok(None),
        }
    }
    Ok(Some(spaced))
}

/// The strings of a text alone, with one space between two; a text in which something else stands than strings and
/// white space is given as it is.
pub fn side_by_side(alloc: Global, text: &[u8]) -> Result<Text, AllocError>
    ensures { IfOk result (λ spelling. spelling ≡ definition.side_by_side text.now) }
{
    match spaced(alloc, text)? {
        Some(spaced) => Ok(Listed::from_vec(spaced)),
        None => Text::from_slice(alloc, text),
    }
}

//! How far comments, lines and marker lines go (2.7). What is no white space there is `None`.

ghost use Rattle.std.specs.Prelude.{◌≡◌, ◌==◌, ◌&&◌, true};
ghost use Rattle.cxx_model.specs.Text.Continuing.{IsLongestBy, comment};
ghost use Rattle.cxx_model.specs.Text.Spelling as spec;
ghost use Rattle.cxx_strings.specs.Pieces.{Finds};
ghost use Rattle.cxx_tokens.specs.MarkerWords.{makes_marker};

use crate::bytes::{blanks_len, is_newline, word_len};
use cxx_literals::begins_with_digit;

fn is_star(b: u8) -> bool
    ensures { result ≡ (b == 42) }
{
    b == b'*'
}

/// Whether a byte ends a comment, behind a star or not.
fn ends_comment(star: bool, b: u8) -> bool
    ensures { result ≡ (star && b == 47) }
{
    star && b == b'/'
}

/// How much of what stands behind `/*` belongs to the comment: up to the first `*/`.
pub fn comment_len(rest: &[u8]) -> Option<usize>
    ensures { Finds comment rest.now spec.Blank result }
{
    let mut star = false;
    for (i, b) in rest.iter().enumerate() {
        if ends_comment(star, *b) {
            return Some(i + 1);
        }
        star = is_star(*b);
    }
    None
}

/// How many bytes stand before the next newline, or before the end.
pub fn line_len(rest: &[u8]) -> usize
    ensures { IsLongestBy spec.within_line rest.now result spec.Blank }
{
    for (i, b) in rest.iter().enumerate() {
        if is_newline(*b) {
            return i;
        }
    }
    rest.len()
}

/// Whether `#` and this word begin a marker line: the word begins with a digit, or it is `line` or `pragma`.
fn makes_marker(word: &[u8]) -> bool
    ensures { result ≡ makes_marker word.now }
{
    begins_with_digit(word) || word == b"line".as_slice() || word == b"pragma".as_slice()
}

/// How much of what stands behind a `#` belongs to the marker line, where only blanks stand before it on its line.
pub fn marker_len(rest: &[u8]) -> Option<usize>
    ensures { Finds (spec.hash true) rest.now spec.Blank result }
{
    let blanks = blanks_len(rest);
    let behind = &rest[blanks..];
    let word = word_len(behind);
    if makes_marker(&behind[..word]) {
        Some(blanks + word + line_len(&behind[word..]))
    } else {
        None
    }
}

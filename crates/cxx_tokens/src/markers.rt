//! Marker lines and directives.

ghost use Rattle.std.specs.Prelude.{◌≡◌, true};
ghost use Rattle.cxx_model.specs.Text.Spelling as spec;
ghost use Rattle.cxx_model.specs.Text.Continuing.{IsLongestBy};
ghost use Rattle.cxx_tokens.specs.Pieces.{spelled};
ghost use Rattle.cxx_tokens.specs.MarkerWords.{makes_marker};

use crate::comments::line_len;
use crate::piece::{Piece, Spelled};
use crate::runs::{blanks_len, word_len};
use cxx_literals::begins_with_digit;
use cxx_model::TokenReason;

/// Whether `#` and this word begin a marker line: the word begins with a digit, or it is `line` or `pragma`.
fn makes_marker(word: &[u8]) -> bool
    ensures { result ≡ makes_marker word.now }
{
    begins_with_digit(word) || word == b"line".as_slice() || word == b"pragma".as_slice()
}

/// The longest front of what stands behind a `#` before which only blanks stand on its line.
pub fn marker(rest: &[u8]) -> Piece
    ensures { IsLongestBy (spec.hash true) rest.now result.len (spelled result.spells) }
{
    let blanks = blanks_len(rest);
    let behind = &rest[blanks..];
    let word = word_len(behind);
    if makes_marker(&behind[..word]) {
        Piece {
            len: blanks + word + line_len(&behind[word..]),
            spells: Spelled::Blank,
        }
    } else {
        Piece {
            len: blanks + word,
            spells: Spelled::Ill(TokenReason::Directive),
        }
    }
}

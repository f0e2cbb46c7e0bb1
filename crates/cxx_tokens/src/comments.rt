//! Comments, and the ends of lines (2.7).

ghost use Rattle.std.specs.Prelude.{◌≡◌, ◌==◌, ◌&&◌};
ghost use Rattle.cxx_model.specs.Text.Spelling as spec;
ghost use Rattle.cxx_model.specs.Text.Continuing.{IsLongestBy, comment};
ghost use Rattle.cxx_tokens.specs.Pieces.{spelled};

use crate::bytes::is_newline;
use crate::piece::{Piece, Spelled};
use cxx_model::TokenReason;

fn is_star(b: u8) -> bool
    ensures { result ≡ (b == 42) }
{
    b == b'*'
}

/// Whether a byte ends a comment, behind a star or not.
fn ends_comment(star: bool, b: u8) -> bool
    ensures { result ≡ (star && b == 47) }
{
    star && b == b'/'
}

/// The longest front of what stands behind `/*`: up to the first `*/`.
pub fn comment(rest: &[u8]) -> Piece
    ensures { IsLongestBy comment rest.now result.len (spelled result.spells) }
{
    let mut star = false;
    for (i, b) in rest.iter().enumerate() {
        if ends_comment(star, *b) {
            return Piece {
                len: i + 1,
                spells: Spelled::Blank,
            };
        }
        star = is_star(*b);
    }
    Piece {
        len: rest.len(),
        spells: Spelled::Ill(TokenReason::UnfinishedComment),
    }
}

/// How many bytes stand before the next newline, or before the end.
pub fn line_len(rest: &[u8]) -> usize
    ensures { IsLongestBy spec.within_line rest.now result spec.Blank }
{
    for (i, b) in rest.iter().enumerate() {
        if is_newline(*b) {
            return i;
        }
    }
    rest.len()
}

//! Numbers.
ghost use Rattle.std.specs.Prelude.{◌≡◌};
ghost use Rattle.cxx_words.specs.Words.{depth_of as depth_of_text, is_digit as is_digit_of, value_from, within_most};

use crate::job::MOST_DEPTH;

fn is_digit(byte: u8) -> bool
    ensures { result ≡ is_digit_of byte }
{
    matches!(byte, b'0'..=b'9')
}

// The value of decimal digits, where it is one of a depth.
fn value_of(text: &[u8]) -> Option<u32>
    ensures { result ≡ within_most (value_from 0 text.now) }
{
    let mut value = 0;
    for byte in text {
        if !is_digit(*byte) {
            return None;
        }
        value = 10 * value + (*byte - b'0') as u32;
        if value > MOST_DEPTH {
            return None;
        }
    }
    if value >= 1 { Some(value) } else { None }
}

/// The depth that a text gives.
pub(crate) fn depth_of(text: &[u8]) -> Option<u32>
    ensures { result ≡ depth_of_text text.now }
{
    match text {
        [] | [b'0', ..] => None,
        _ => value_of(text),
    }
}

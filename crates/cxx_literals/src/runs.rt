//! How many digits of a kind a text begins with.

ghost use Rattle.std.specs.Prelude.{◌≡◌, ◌≤◌, length};
ghost use Rattle.std.specs.List.{prefix_len};
ghost use Rattle.std.specs.Char as char;
ghost use Rattle.cxx_model.specs.Text.Spelling as spec;

use crate::bytes::is_octal;

pub fn digits_len(text: &[u8]) -> usize
    ensures value { result ≡ prefix_len char.is_ascii_digit text.now }
    ensures within { result ≤ length text.now }
{
    text.iter().take_while(|b| b.is_ascii_digit()).count()
}

pub fn hexadecimal_len(text: &[u8]) -> usize
    ensures value { result ≡ prefix_len char.is_ascii_hexdigit text.now }
    ensures within { result ≤ length text.now }
{
    text.iter().take_while(|b| b.is_ascii_hexdigit()).count()
}

pub fn octal_len(text: &[u8]) -> usize
    ensures value { result ≡ prefix_len spec.is_octal text.now }
    ensures within { result ≤ length text.now }
{
    text.iter().take_while(|b| is_octal(**b)).count()
}

//! How many bytes of a kind a text begins with.

ghost use Rattle.std.specs.Prelude.{◌≡◌, ◌≤◌, length};
ghost use Rattle.std.specs.List.{prefix_len};
ghost use Rattle.cxx_model.specs.Text.Spelling as spec;

use crate::bytes::{is_blank, is_word};

pub fn blanks_len(text: &[u8]) -> usize
    ensures value { result ≡ prefix_len spec.is_blank text.now }
    ensures within { result ≤ length text.now }
{
    text.iter().take_while(|b| is_blank(**b)).count()
}

pub fn word_len(text: &[u8]) -> usize
    ensures value { result ≡ prefix_len spec.is_word text.now }
    ensures within { result ≤ length text.now }
{
    text.iter().take_while(|b| is_word(**b)).count()
}

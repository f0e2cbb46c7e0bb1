//! The stem of a printed name.
ghost use Rattle.std.specs.Prelude.{◌≡◌};
ghost use Rattle.cxx_model.specs.Printing.Names.{is_digits, is_tag, untagged, stem};

/// Whether these are one or more digits.
fn is_digits(text: &[u8]) -> bool
    ensures { result ≡ is_digits text.now }
{
    !text.is_empty() && text.iter().all(|byte| byte.is_ascii_digit())
}

/// Whether this is `__` and one or more digits.
fn is_tag(text: &[u8]) -> bool
    ensures { result ≡ is_tag text.now }
{
    match text {
        [one, two, digits @ ..] => *one == b'_' && *two == b'_' && is_digits(digits),
        _ => false,
    }
}

/// The name without the tag at its end.
fn untagged(word: &[u8]) -> &[u8]
    ensures { result.now ≡ untagged word.now }
{
    for i in 0..word.len() {
        if is_tag(&word[i..]) {
            return &word[..i];
        }
    }
    word
}

/// What a printed name begins with.
pub fn stem(word: &[u8]) -> &[u8]
    ensures { result.now ≡ stem word.now }
{
    let text = untagged(word);
    if text.is_empty() { b"n" } else { text }
}

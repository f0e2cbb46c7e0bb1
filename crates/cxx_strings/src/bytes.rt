ghost use Rattle.std.specs.Prelude.{◌≡◌, ◌≤◌, length};
ghost use Rattle.std.specs.List.{prefix_len};
ghost use Rattle.cxx_model.specs.Text.Spelling as spec;

/// Space, tab, newline, vertical tab, form feed and carriage return.
pub fn is_white(b: u8) -> bool
    ensures { result ≡ spec.is_white b }
{
    b == b' ' || (9 <= b && b <= 13)
}

pub fn is_newline(b: u8) -> bool
    ensures { result ≡ spec.is_newline b }
{
    b == b'\n'
}

/// Space and tab.
pub fn is_blank(b: u8) -> bool
    ensures { result ≡ spec.is_blank b }
{
    b == b' ' || b == b'\t'
}

/// Letters, digits and `_` (2.10).
fn is_word(b: u8) -> bool
    ensures { result ≡ spec.is_word b }
{
    b.is_ascii_alphanumeric() || b == b'_'
}

/// How many blanks a text begins with.
pub fn blanks_len(text: &[u8]) -> usize
    ensures value { result ≡ prefix_len spec.is_blank text.now }
    ensures within { result ≤ length text.now }
{
    text.iter().take_while(|b| is_blank(**b)).count()
}

/// How many letters, digits and `_` a text begins with.
pub fn word_len(text: &[u8]) -> usize
    ensures value { result ≡ prefix_len spec.is_word text.now }
    ensures within { result ≤ length text.now }
{
    text.iter().take_while(|b| is_word(**b)).count()
}

//! The tables of spellings.

ghost use Rattle.std.specs.Prelude.{◌≡◌, ◌<◌, length, position, bytes_eq, map, IfSome};
ghost use Rattle.cxx_model.specs.Text.Spelling as spec;

/// The place of a spelling in a table.
pub fn number_in(table: &[&[u8]], text: &[u8]) -> Option<usize>
    ensures value { result ≡ position (λ entry. bytes_eq text.now entry.now) table.now }
    ensures within { IfSome result (λ n. n < length table.now) }
{
    table.iter().position(|entry| text == *entry)
}

/// The number that stands beside a spelling in a table.
pub fn number_beside(table: &[(&[u8], u8)], text: &[u8]) -> Option<u8>
    ensures { result ≡ spec.number_beside (map (λ entry. (entry.0.now, entry.1)) table.now) text.now }
{
    for entry in table {
        if text == entry.0 {
            return Some(entry.1);
        }
    }
    None
}

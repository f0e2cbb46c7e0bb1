//! Words for operators (13.5).
ghost use Rattle.std.specs.Prelude.{◌≡◌, map};
ghost use Rattle.std.specs.List.{slice_get};
ghost use Rattle.cxx_stems.specs.Names.{operator_word, text_or_none};

/// A word for each operator, in the order of the numbers of `cxx_model::punct`; a call and a subscript by their opening
/// brackets. What no operator function has has none.
pub static WORDS: [&[u8]; 49] = [
    b"",
    b"",
    b"op_index",
    b"",
    b"op_call",
    b"",
    b"",
    b"",
    b"",
    b"",
    b"",
    b"",
    b"",
    b"op_plus",
    b"op_minus",
    b"op_star",
    b"op_slash",
    b"op_percent",
    b"op_caret",
    b"op_amp",
    b"op_bar",
    b"op_tilde",
    b"op_bang",
    b"op_assign",
    b"op_less",
    b"op_greater",
    b"op_plus_assign",
    b"op_minus_assign",
    b"op_star_assign",
    b"op_slash_assign",
    b"op_percent_assign",
    b"op_caret_assign",
    b"op_amp_assign",
    b"op_bar_assign",
    b"op_shl",
    b"op_shr",
    b"op_shr_assign",
    b"op_shl_assign",
    b"op_eq",
    b"op_ne",
    b"op_le",
    b"op_ge",
    b"op_and",
    b"op_or",
    b"op_inc",
    b"op_dec",
    b"op_comma",
    b"",
    b"op_arrow",
];

#[tactic(auto, using(crate::proofs::Words::word_some, crate::proofs::Words::word_none))]
/// The word at a place, and where there is none, nothing.
fn word_at(words: &[&'static [u8]], place: usize) -> &'static [u8]
    ensures { result.now ≡ text_or_none (slice_get (map (λ entry. entry.now) words.now) place) }
{
    match words.get(place) {
        Some(word) => *word,
        None => b"",
    }
}

/// The word for the operator with this number.
#[tactic(auto, unfolding(crate::specs::Names::operator_word))]
pub(crate) fn operator_word(operator: u8) -> &'static [u8]
    ensures { result.now ≡ operator_word operator }
{
    word_at(&WORDS, operator as usize)
}

//! What a printed text reads as: the tokens of the text of words are those words.
//!
//! There is no code here that runs. Each function is a law about the definitions of `cxx_model` and `cxx_reading`, which
//! its contract states and the check proves.
#![tactic(auto)]

mod printed_lines;
mod printed_names;

pub use printed_lines::{
    apart_words_are_a_line, plain_form_is_tokens, read_words_are_spelled, word_ends_before_a_byte,
    words_are_tokens,
};
pub use printed_names::{
    printed_name_gives_its_number, printed_name_gives_its_stem, printed_name_is_a_name,
    printed_name_is_no_letter, printed_name_is_printed_over, printed_name_keeps_its_stem,
};

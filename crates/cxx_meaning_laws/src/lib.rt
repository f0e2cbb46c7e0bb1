//! What a reader expects of the definitions of conversions, as contracts of functions that do nothing.
//!
//! There is no code here that runs. Each function is a law about the definitions of `cxx_meaning`, which its contract
//! states and the check proves.
#![tactic(auto)]

mod arithmetic;
mod pointers;
mod sequences;

pub use arithmetic::usual_groups;
pub use pointers::{
    arms_convert, common_pointers_convert, compared_operands_convert, null_pointers_convert,
};
pub use sequences::{
    first_criterion_is_proper_subsequence, proper_subsequence_is_better, proper_subsequences_chain,
    rank_is_that_of_the_worst_step, values_keep_their_type,
};

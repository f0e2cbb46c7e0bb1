//! Tokens: the text of a unit cut into the longest tokens (2.1, 2.4).
//!
//! `tokens` answers the token list, the first place at which no token of the profile begins, or that the unit has too
//! many tokens. `literal_type` and `literal_value` are the type and the value of a literal by its spelling.
#![tactic(auto)]

mod bytes;
mod comments;
mod fault;
mod front;
mod literal;
mod markers;
mod numbers;
mod operators;
mod piece;
mod quotes;
mod read;
mod reader;
mod runs;
mod tables;
mod width;
mod words;

pub use cxx_model::TokenReason;
pub use fault::TokenFault;
pub use literal::{each_literal_has_a_value, literal_type, literal_value};
pub use read::{one_token_list, tokens};

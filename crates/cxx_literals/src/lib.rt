//! Literals: what the characters of a number or of a quoted text say (2.13).
//!
//! `integer_parts` and `integer_type` take an integer literal apart and give it its type, and `is_floating` tells a
//! floating literal. `first_letter`, `any_bad` and `any_universal` read what stands between quotes. Where a literal ends
//! in a text is not asked here.
#![tactic(auto)]

mod bytes;
mod floats;
mod integers;
mod letters;
mod runs;
mod values;

pub use bytes::{is_exponent, is_sign};
pub use floats::{begins_with_digit, is_floating};
pub use integers::{IntegerParts, integer_parts, integer_type};
pub use letters::{Found, Letter, any_bad, any_universal, first_letter, is_universal};

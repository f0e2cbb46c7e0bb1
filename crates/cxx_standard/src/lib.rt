//! Standard conversion sequences (clause 4), their order (13.3.3.2), and sizes.
#![tactic(auto)]

mod classes;
mod kinds;
pub mod laws;
mod levels;
mod order;
mod reference;
mod sequence;
mod table;
mod values;

pub use classes::is_derived;
pub use cxx_model::Order;
pub use kinds::{TypeKind, is_function, kind_of, value_kind};
pub use levels::{cv_of, is_cv_within, pointee, same_cv};
pub use order::{compare, is_pointing};
pub use sequence::{standard_sequence, steps_between};
pub use table::{is_complete, is_pending, promoted};
pub use values::{is_floating, is_null, promoted_base, same_base};

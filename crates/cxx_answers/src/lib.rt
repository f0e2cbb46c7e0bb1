//! The questions of expressions, answered by the declarations so far (3.4, 5.3.3, 5.19, 13.3).
#![tactic(auto)]

mod answering;
mod associated;
mod besides;
mod calls;
mod constants;
mod defaults;
mod givers;
mod making;
mod measured;
mod members;
mod names;
mod object;
mod record;
mod seen;
mod sizes;
pub mod typed;

pub use answering::Answering;
pub use calls::{call_here, call_member_here};
pub use constants::{constant_here, is_null_here, value_here};
pub use defaults::{
    begin_default, begin_later, end_default, end_later, is_default_later, offer_default,
};
pub use members::{member_here, naming_here, qualifier_here};
pub use names::{bound_here, name_here};
pub use sizes::size_here;

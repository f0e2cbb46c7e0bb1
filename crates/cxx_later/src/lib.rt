//! Default arguments and bodies of functions in a class (8.3.6, 9.3).
//!
//! All members of a class are known in the default arguments and the bodies of its functions (9.2 p2), so these are passed
//! over where they stand, and read where the outermost class has ended. The tree of a body then stands in the tree of the
//! class with a number of its own production, over the declarator of its function. That of a default argument stands before
//! that declarator, in a tree with the scope of its list of parameters and the index of its parameter. Walks over the trees
//! of the members find those in order.
#![tactic(auto)]

mod defaults;
mod found;
mod passing;
mod waiting;

pub use defaults::{defaults_kept, deferred_passed, passed_default};
pub use found::{LaterDefault, all_defaults};
pub use passing::{body_later, ends_where, forward_to};
pub use waiting::{Waiting, all_waiting, name_declared};

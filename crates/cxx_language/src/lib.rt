//! What a unit is whose initializers, bounds and enumerators are expressions: the definitions, in `specs/`, and the readers of
//! its objects, of declarations in blocks, and of using-directives and other names of namespaces.
//!
//! The definitions tie the readers of declarations and those of expressions together, and answer what these ask by the
//! declarations so far. The readers stand over anyone who reads specifiers, declarators and initializers as they say.
#![tactic(auto)]

mod blocks;
mod conditions;
mod declares;
mod functions;
mod initializers;
mod known;
mod objects;
mod spaces;

pub use blocks::read_local_declaration;
pub use conditions::read_declared_condition;
pub use declares::{Declares, Reader};
pub use known::constant_value;
pub use spaces::{alias_or_not, member_using_at, using_at};

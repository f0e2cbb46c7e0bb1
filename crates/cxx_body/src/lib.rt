//! The bodies of functions (8.4): who reads what statements are made of, by the readers of expressions and of local
//! declarations, and says what the expressions of statements become.
#![tactic(auto)]

mod body;
mod expressions;
mod functions;
mod heads;
mod kinds;
mod phrasing;
mod values;

pub use functions::read_function_body;
pub use phrasing::Phrasing;

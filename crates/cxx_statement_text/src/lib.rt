//! Statements in the plain form.
#![tactic(auto)]

mod calls;
mod conditions;
mod form;
mod heads;
mod lines;
mod names;
mod objects;
mod production;
mod standing;
mod statements;
mod text;

pub use calls::add_statement_calls;
pub use names::StatementNames;
pub use text::{write_body, write_statement};

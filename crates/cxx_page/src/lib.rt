//! Words of a plain form on a page that holds no more than it may, and types written inside out round a name.
//!
//! A word is written with the space that its role and that of the word before it want. Each writer has one clause: the
//! page after it is the page before it with the words of the definition, or these do not fit.
#![tactic(auto)]

mod fault;
mod laws;
mod names;
mod page;
mod tags;
mod types;
mod values;
mod words;

pub use fault::PlainFault;
pub use laws::{declarations_have_sides, lines_are_texts};
pub use names::write_name;
pub use page::Page;
pub use tags::Tags;
pub use types::{write_declaration_back, write_declaration_front, write_type};
pub use values::write_value;

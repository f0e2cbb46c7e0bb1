//! What a reading is: the definitions, in `specs/`, and plain types that they share with the code above.
//!
//! They say how declarations are read from tokens, in the terms of clauses 3, 7 and 8 of ISO/IEC 14882:1998: trees,
//! the state of a reading, specifiers, declarators, enumerations, and what is declared. The crates above are proved
//! equal to them.
#![tactic(auto)]

mod laws;
mod region;
mod role;
mod specifier;

pub use laws::forbidden_types_are_refused;
pub use region::Region;
pub use role::Role;
pub use specifier::{CoreWord, Naming, SignWord, SizeWord, SpecifierPlace, StorageWord, TypeWords};

//! The tokens that are still to be read, what is read of them, and its trees: what all readers of tokens stand on.
#![tactic(auto)]

mod beginnings;
mod cursor;
mod declarator;
mod name;
mod nodes;
mod outline;
mod specifiers;
mod turn;
mod words;

pub use beginnings::{begins_operand, begins_unary, is_member_pointer, no_expression};
pub use cursor::{Cursor, Spelled, fault_at, is_end, is_keyword, is_name, is_punct};
pub use declarator::{Declarator, Layer, LayerList, ParameterTypes};
pub use name::NameToken;
pub use nodes::{
    joined, last_part, last_place, node_from, path_to, path_to_option, place_of, push,
};
pub use outline::{Fits, Outline, Run};
pub use specifiers::{Specifiers, no_specifiers_yet};
pub use turn::Turn;
pub use words::{TypeWord, base_of_words, storage_word, type_word, with_word};

//! The trees of a reading, and its state.
//!
//! A node counts the tokens that are left before its first token and behind its last one, so no reader keeps a
//! position.
#![tactic(auto)]

mod asked;
mod bodies;
mod class_scopes;
mod given;
mod kept;
mod linked;
mod maker;
mod noting;
mod paths;
mod spaces;
mod state;
mod trees;

pub use kept::{
    Binding, BindingList, Contending, ContendingList, Decided, DecidedList, Fallback, FallbackList,
    Offer, OfferList, Piece, PieceList,
};
pub use maker::MakesTypes;
pub use paths::is_plain_path;
pub use state::State;
pub use trees::Trees;

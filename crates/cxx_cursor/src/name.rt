use cxx_model::{Place, TokenKind, Word};

/// A token with its spelling, kept.
#[derive(Drop)]
pub struct NameToken {
    pub kind: TokenKind,
    pub place: Place,
    pub spelling: Word,
}

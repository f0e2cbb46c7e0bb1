use cxx_model::{TokenKind, TokenReason};

/// White space, a token, or the beginning of what is no token of the profile.
#[derive(Clone, Copy)]
pub enum Spelled {
    Blank,
    Good(TokenKind),
    Ill(TokenReason),
}

/// A front of a text, and what it spells.
#[derive(Clone, Copy)]
pub struct Piece {
    pub len: usize,
    pub spells: Spelled,
}

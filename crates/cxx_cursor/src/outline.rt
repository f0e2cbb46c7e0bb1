//! What is seen of declarations without reading them (6.8, 8.2).

/// What a run of specifiers holds: no type, a type, or what no initializer begins with.
#[derive(Clone, Copy)]
pub enum Run {
    NoType,
    AType,
    Surely,
}

/// What was read of a declarator: how many brackets are open round its name, and whether it has one.
#[derive(Clone, Copy)]
pub struct Outline {
    pub brackets: u64,
    pub is_named: bool,
}

/// Whether a declarator fits.
#[derive(Clone, Copy)]
pub enum Fits {
    Fits,
    FitsNot,
}

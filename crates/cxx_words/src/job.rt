//! What a run does.

/// The depth of instances where no words choose one.
pub const DEFAULT_DEPTH: u32 = 64;

/// The largest depth that words may choose.
pub const MOST_DEPTH: u32 = 256;

/// What a run writes of a whole unit.
#[derive(Clone, Copy, Debug, PartialEq, Eq)]
pub enum Mode {
    /// Its plain form.
    Bind,
    /// Its calls, each with the candidates and what became of them.
    Calls,
}

/// What the words of a command line choose.
#[derive(Clone, Copy, Debug, PartialEq, Eq)]
pub struct Job {
    pub mode: Mode,
    /// How deep instances of templates may nest.
    pub depth: u32,
}

/// What the user chooses for a run.
#[derive(Clone, Copy, PartialEq, Eq)]
pub struct Options {
    /// How deep instances of templates may nest.
    pub depth: u32,
}

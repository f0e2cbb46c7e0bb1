/// What stands behind a bracket where a type may stand (8.2).
#[derive(Clone, Copy)]
pub enum TypeShape {
    NoType,
    /// A type up to the end of the bracket.
    Closed,
    /// What begins nothing but a type, whatever follows.
    Surely,
}

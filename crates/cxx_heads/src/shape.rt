/// What was read of a declarator: how many brackets are open, and whether cv words may stand there, as they do behind `*`
/// and behind parameters.
#[derive(Clone, Copy)]
pub struct Shape {
    pub brackets: u64,
    pub takes_cv: bool,
}

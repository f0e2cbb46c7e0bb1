use cxx_model::{First, Second};

/// The steps of a standard conversion sequence, without the two types between which it leads (13.3.3.1.1).
#[derive(Clone, Copy)]
pub struct SequenceSteps {
    pub first: Option<First>,
    pub second: Option<Second>,
    /// A qualification (4.4).
    pub third: bool,
    /// A reference is bound to the operand itself (8.5.3).
    pub binding: bool,
}

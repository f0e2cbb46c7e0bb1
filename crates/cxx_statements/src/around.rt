//! What stands around a statement, and what was read with it.

use crate::values::Values;
use cxx_model::{TreeId, TreeIdList, TypeId};

/// The switch to which labels belong: the promoted type of what it is over, and the labels so far (6.4.2).
#[derive(Drop)]
pub(crate) struct Switch {
    pub of: TypeId,
    pub values: Values,
    pub has_default: bool,
}

#[derive(Drop)]
pub(crate) struct Around {
    /// Whether there is a loop to go on with (6.6.2).
    pub in_loop: bool,
    /// Whether there is a loop or a switch to end (6.6.1).
    pub breaks: bool,
    pub switch: Option<Switch>,
}

/// A statement, and what stands around the next one.
#[derive(Drop)]
pub(crate) struct Stated {
    pub tree: TreeId,
    pub around: Around,
}

/// Statements or labels, and what stands around the next one.
#[derive(Drop)]
pub(crate) struct Several {
    pub trees: TreeIdList,
    pub around: Around,
}

/// A label, and its switch behind it.
#[derive(Drop)]
pub(crate) struct Labelled {
    pub tree: TreeId,
    pub switch: Switch,
}

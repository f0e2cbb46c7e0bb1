//! Paths of bases that share their ends (10.1).
ghost use Rattle.std.specs.Prelude.{◌≡◌, ◌≤◌, ◌∷◌, length, IfOk, OnOk};
ghost use Rattle.cxx_subobjects.specs.Steps.{AreEarlier, Grows, path_at, paths_of};

use cxx_model::NumberList;
use std::alloc::{AllocError, Global};

/// A path: the position of a base, and the number of the path from there. The empty path has the number 0, and the first
/// step makes the path with the number 1.
#[derive(Clone, Copy)]
pub(crate) struct Step {
    pub index: u32,
    pub rest: usize,
}

/// The number of a path with a position in front.
pub(crate) fn lengthened(
    steps: &mut Vec<Step>,
    index: u32,
    rest: usize,
) -> Result<usize, AllocError>
    requires { rest ≤ length steps.old.items }
    ensures is { IfOk result (λ number. path_at (paths_of steps.new.items) number ≡ index ∷ path_at (paths_of steps.old.items) rest) }
    ensures known { IfOk result (λ number. number ≤ length steps.new.items) }
    ensures grows { OnOk result (Grows steps.old.items steps.new.items) }
    ensures earlier { OnOk result (AreEarlier steps.old.items → AreEarlier steps.new.items) }
{
    steps.push(Step { index, rest })?;
    Ok(steps.len())
}

/// The path with a number.
pub(crate) fn path(alloc: Global, steps: &[Step], number: usize) -> Result<NumberList, AllocError>
    requires earlier { AreEarlier steps.now }
    requires known { number ≤ length steps.now }
    ensures { IfOk result (λ path. path ≡ path_at (paths_of steps.now) number) }
{
    let mut path = Vec::new(alloc);
    let mut at = number;
    while at > 0 {
        let step = steps[at - 1];
        path.push(step.index)?;
        at = step.rest;
    }
    Ok(NumberList::from_vec(path))
}

//! Paths of base positions that share their ends, so that a longer path takes no more than one step (10.2).

ghost use Rattle.std.specs.Prelude.{◌≡◌, ◌<◌, ◌++◌, [], ◌∷◌, Some, length, IfOk, OnOk};
ghost use Rattle.std.specs.List.{slice_get};
ghost use Rattle.cxx_members.specs.Ways.{path_at};

use cxx_model::NumberList;
use std::alloc::{AllocError, Global};
use std::marker::Model;

/// The position of a base, and the number of the path on from there.
#[derive(Clone, Copy)]
pub(crate) struct Step {
    pub index: u32,
    pub rest: usize,
}

/// Paths by their numbers. That with number 0 leads nowhere, and each step makes one more.
#[derive(Drop)]
pub(crate) struct Paths {
    pub(crate) steps: Vec<Step>,
}

impl Model for Paths {
    ghost use Rattle.std.specs.Prelude.{ℕ, List};
    ghost use Rattle.cxx_inherited.specs.Paths.{AreLinked, paths_of};

    ghost Value = { List (List ℕ) };

    ghost view = { λ paths. paths_of paths.steps.items };

    ghost invariant = { λ paths. AreLinked 0 paths.steps.items };
}

fn step_at(steps: &[Step], place: usize) -> Step
    requires { place < length steps.now }
    ensures { slice_get steps.now place ≡ Some result }
{
    steps[place]
}

impl Paths {
    /// The path that leads nowhere alone.
    pub fn new(alloc: Global) -> Paths
        ensures { result ≡ [] ∷ [] }
    {
        Paths {
            steps: Vec::new(alloc),
        }
    }

    /// Adds a path with the position of a base in front, and answers its number.
    #[tactic(auto, using(crate::proofs::Linking::paths_push, crate::proofs::Linking::linked_push, crate::proofs::Linking::paths_count))]
    pub fn add(&mut self, index: u32, rest: usize) -> Result<usize, AllocError>
        requires { rest < length self.old }
        ensures number { IfOk result (λ number. number ≡ length self.old) }
        ensures added { OnOk result (self.new ≡ self.old ++ (index ∷ path_at self.old rest) ∷ []) }
    {
        self.steps.push(Step { index, rest })?;
        Ok(self.steps.len())
    }

    // The step of a path that leads somewhere.
    fn step(&self, number: usize) -> Step
        requires known { number < length self.now }
        requires some { 0 < number }
        ensures is { path_at self.now number ≡ result.index ∷ path_at self.now result.rest }
        ensures earlier { result.rest < number }
    {
        step_at(self.steps.as_slice(), number - 1)
    }

    // The first path leads nowhere.
    fn first(&self)
        ensures { path_at self.now 0 ≡ [] }
    {
        let _ = &self.steps;
    }

    /// The path with a number.
    pub fn path(&self, alloc: Global, number: usize) -> Result<NumberList, AllocError>
        requires { number < length self.now }
        ensures { IfOk result (λ path. path ≡ path_at self.now number) }
    {
        self.first();
        let mut path = Vec::new(alloc);
        let mut number = number;
        while number != 0 {
            let step = self.step(number);
            path.push(step.index)?;
            number = step.rest;
        }
        Ok(NumberList::from_vec(path))
    }
}

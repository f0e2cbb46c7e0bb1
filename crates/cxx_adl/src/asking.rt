//! What is asked: the facts of a graph, and the table of its types.

ghost use Rattle.std.specs.Prelude.{◌≡◌, ◌<◌, length, IfSome};
ghost use Rattle.std.specs.List.{slice_get};
ghost use Rattle.std.specs.Option.{option_copied};
ghost use Rattle.cxx_model.specs.Facts.Fitted.{IsFactBelow, IsGraphBelow};
ghost use Rattle.cxx_adl.specs.Views.{specialisation_in};

use cxx_graph::Graph;
use cxx_model::{ClassId, Fact, FactId, Specialisation, Steps};
use cxx_types::TypeTable;
use std::alloc::Global;
use std::sync::ledger::Ledger;

#[derive(Clone, Copy)]
pub(crate) struct Asking<'a> {
    pub alloc: Global,
    pub graph: &'a Graph,
    pub types: &'a TypeTable,
}

impl Asking<'_> {
    /// The fact with a number, where there is one.
    pub fn fact(&self, number: FactId) -> Option<&Fact>
        ensures { option_copied result ≡ slice_get self.now.graph.now.facts number.0 }
    {
        self.graph.facts().get(number.0 as usize)
    }

    /// The fact with a number, where there is one. It takes one step.
    #[tactic(auto, using(crate::proofs::Bases::fact_below))]
    pub fn read<L: Ledger>(&self, number: u64, steps: &mut Steps<L>) -> Option<&Fact>
        requires { IsGraphBelow (length self.now.types.now) self.now.graph.now }
        ensures is { option_copied result ≡ slice_get self.now.graph.now.facts number }
        ensures below { IfSome result (λ fact. IsFactBelow (length self.now.types.now) fact.now) }
    {
        if number < u64::from(self.graph.length()) {
            Some(self.graph.fact(FactId(number as u32), steps))
        } else {
            None
        }
    }

    /// For what a class was reserved, where it is a specialisation (14.7.1).
    pub fn specialisation(&self, class: ClassId) -> Option<&Specialisation>
        ensures { option_copied result ≡ specialisation_in (slice_get self.now.graph.now.classes class.0) }
    {
        if class.0 < self.graph.class_count() {
            self.graph.specialisation(class)
        } else {
            None
        }
    }
}

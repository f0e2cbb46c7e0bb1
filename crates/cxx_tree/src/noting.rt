//! What is kept of each declaration for sizes (5.3.3), and for the members that classes declare by themselves (12).

ghost use Rattle.std.specs.Prelude.{◌≡◌, ◌+◌, [], length, take, Some, IfSome};
ghost use Rattle.cxx_model.specs.Facts.Declarations.{graph_at};
ghost use Rattle.cxx_model.specs.Facts.Fitted.{Fitted};
ghost use Rattle.cxx_implicit.specs.Noted.{Notes as Implies};
ghost use Rattle.cxx_sizes.specs.Noted.{Notes as Measures};
ghost use Rattle.cxx_tree.specs.Noting.{AreNoted};

use cxx_graph::Graph;
use cxx_implicit::SpecialMembers;
use cxx_model::FactId;
use cxx_sizes::Layouts;
use cxx_types::TypeTable;
use std::alloc::Global;

/// What is kept of the declarations so far, unless there was no memory for it.
#[derive(Drop)]
pub(crate) struct Noting {
    // What sizes need.
    pub(crate) layouts: Option<Layouts>,
    // What the members need that classes declare by themselves.
    pub(crate) special: Option<SpecialMembers>,
}

// Notes the last declaration for sizes.
fn measured(
    layouts: Option<Layouts>,
    graph: &Graph,
    types: &TypeTable,
    number: FactId,
) -> Option<Layouts>
    requires last { number.0 + 1 ≡ length graph.now.facts }
    requires fitted { Fitted graph.now types.now }
    requires noted { IfSome layouts (λ kept. Measures kept (take number.0 (graph_at types.now graph.now).facts)) }
    ensures { IfSome result (λ kept. Measures kept (graph_at types.now graph.now).facts) }
{
    let Some(mut layouts) = layouts else {
        return None;
    };
    match layouts.note(graph, types, number) {
        Ok(()) => Some(layouts),
        Err(_) => None,
    }
}

// Notes the last declaration for the members that classes declare by themselves.
fn implied(
    special: Option<SpecialMembers>,
    graph: &Graph,
    types: &TypeTable,
    number: FactId,
) -> Option<SpecialMembers>
    requires last { number.0 + 1 ≡ length graph.now.facts }
    requires fitted { Fitted graph.now types.now }
    requires noted { IfSome special (λ kept. Implies kept (take number.0 (graph_at types.now graph.now).facts)) }
    ensures { IfSome result (λ kept. Implies kept (graph_at types.now graph.now).facts) }
{
    let Some(mut special) = special else {
        return None;
    };
    match special.note(graph, types, number) {
        Ok(()) => Some(special),
        Err(_) => None,
    }
}

impl Noting {
    // What is kept of no declarations.
    pub(crate) fn new(alloc: Global) -> Noting
        ensures { AreNoted result [] }
    {
        Noting {
            layouts: Some(Layouts::new(alloc)),
            special: Some(SpecialMembers::new(alloc)),
        }
    }

    // Notes the last declaration.
    pub(crate) fn note(&mut self, graph: &Graph, types: &TypeTable, number: FactId)
        requires last { number.0 + 1 ≡ length graph.now.facts }
        requires fitted { Fitted graph.now types.now }
        requires noted { AreNoted self.old (take number.0 (graph_at types.now graph.now).facts) }
        ensures { AreNoted self.new (graph_at types.now graph.now).facts }
    {
        let layouts = self.layouts.take();
        self.layouts = measured(layouts, graph, types, number);
        let special = self.special.take();
        self.special = implied(special, graph, types, number);
    }
}

//! The layouts of the classes of a graph.
ghost use Rattle.std.specs.Prelude.{◌≡◌, ◌+◌, ◌<◌, [], length, take, Ok, Some, OnErr, OnOk};
ghost use Rattle.std.specs.List.{slice_get};
ghost use Rattle.cxx_meaning.specs.Conversions.Sizes as sizes;
ghost use Rattle.cxx_model.specs.Facts.Declarations.{fact_at, graph_at};
ghost use Rattle.cxx_model.specs.Facts.Fitted.{Fitted, IsEntityBelow};
ghost use Rattle.cxx_model.specs.Types.Numbers.{type_at};
ghost use Rattle.cxx_sizes.specs.Noted.{AreNoted, AreSameKept, AreSameLayouts, IsNoted, Measures, Notes};

use crate::classes::{layout_in, put};
use crate::extents::{added, class_in, concerned, extent_of, ready, referred};
use cxx_graph::Graph;
use cxx_meaning::{Extent, Layout, SizeReason};
use cxx_model::{ClassId, Entity, Fact, FactId, OutOfMemory, ScopeKind, TypeId};
use cxx_types::TypeTable;
use std::alloc::Global;

/// Why there is no size.
#[derive(Clone, Copy)]
pub enum SizeFault {
    /// The type is `void`, a function, an array with no bound, a class that is not complete, or has such a part.
    NoSize,
    /// It is past the greatest size of an object.
    TooLarge,
    /// The class must be complete first (14.7.1).
    Needs(ClassId),
}

/// What is kept of the facts of a graph, so that each part of a class is laid out once. It notes each fact when it is added.
#[derive(Drop)]
pub struct Layouts {
    pub(crate) scopes: Vec<ScopeKind>,
    pub(crate) classes: Vec<Layout>,
}

fn fact_of(graph: &Graph, number: FactId) -> &Fact
    requires { number.0 < length graph.now.facts }
    ensures { slice_get graph.now.facts number.0 ≡ Some result.now }
{
    &graph.facts()[number.0 as usize]
}

// What a declaration that begins no scope changes.
fn note_member(
    scopes: &Vec<ScopeKind>,
    classes: &mut Vec<Layout>,
    graph: &Graph,
    types: &TypeTable,
    fact: &Fact,
) -> Result<(), OutOfMemory>
    requires known { IsEntityBelow (length types.now) fact.now.what }
    requires fitted { Fitted graph.now types.now }
    ensures ok { OnOk result (AreNoted scopes.now.items (graph_at types.now graph.now).facts (fact_at types.now fact.now) classes.old.items classes.new.items) }
    ensures err { OnErr result (AreSameLayouts classes.old.items classes.new.items) }
{
    match concerned(scopes, types, fact) {
        None => Ok(()),
        Some(class) => {
            let layout = added(classes, graph, types, &fact.what, layout_in(classes, class));
            put(classes, class, layout)
        }
    }
}

// The size of an extent.
fn size_in(extent: Result<Extent, SizeReason>) -> Result<u64, SizeFault>
    ensures { Measures result (Ok (sizes.size_in extent)) }
{
    match extent {
        Ok(extent) => Ok(extent.size),
        Err(SizeReason::NoSize) => Err(SizeFault::NoSize),
        Err(SizeReason::TooLarge) => Err(SizeFault::TooLarge),
    }
}

impl Layouts {
    /// The layouts by no facts.
    #[tactic(auto, unfolding(cxx_meaning::specs::Conversions::Sizes::layouts_of), using(crate::proofs::Noting::nothing_noted))]
    pub fn new(alloc: Global) -> Layouts
        ensures { Notes result [] }
    {
        Layouts {
            scopes: Vec::new(alloc),
            classes: Vec::new(alloc),
        }
    }

    // Notes one fact.
    fn note_fact(
        &mut self,
        graph: &Graph,
        types: &TypeTable,
        fact: &Fact,
    ) -> Result<(), OutOfMemory>
        requires known { IsEntityBelow (length types.now) fact.now.what }
        requires fitted { Fitted graph.now types.now }
        ensures ok { OnOk result (IsNoted (graph_at types.now graph.now).facts (fact_at types.now fact.now) self.old self.new) }
        ensures err { OnErr result (AreSameKept self.old self.new) }
    {
        match &fact.what {
            Entity::Scope { kind, .. } => {
                self.scopes.push(*kind)?;
                Ok(())
            }
            _ => note_member(&self.scopes, &mut self.classes, graph, types, fact),
        }
    }

    /// Notes the last fact of a graph. An `Err` changes nothing.
    pub fn note(
        &mut self,
        graph: &Graph,
        types: &TypeTable,
        number: FactId,
    ) -> Result<(), OutOfMemory>
        requires last { number.0 + 1 ≡ length graph.now.facts }
        requires fitted { Fitted graph.now types.now }
        requires noted { Notes self.old (take number.0 (graph_at types.now graph.now).facts) }
        ensures ok { OnOk result (Notes self.new (graph_at types.now graph.now).facts) }
        ensures err { OnErr result (Notes self.new (take number.0 (graph_at types.now graph.now).facts)) }
    {
        let fact = fact_of(graph, number);
        self.note_fact(graph, types, fact)
    }

    fn object_extent(
        &self,
        graph: &Graph,
        types: &TypeTable,
        of: TypeId,
    ) -> Result<Extent, SizeReason>
        requires known { of.0 < length types.now }
        requires fitted { Fitted graph.now types.now }
        requires noted { Notes self.now (graph_at types.now graph.now).facts }
        ensures { result ≡ sizes.object_extent (graph_at types.now graph.now) (type_at types.now of.0) }
    {
        extent_of(&self.classes, graph, types, of)
    }

    /// How many bytes an object of a type takes, and for a reference an object to which it refers (5.3.3). The facts of
    /// the graph were noted.
    #[tactic(auto, unfolding(cxx_meaning::specs::Conversions::Sizes::size_of))]
    pub fn size_of(&self, graph: &Graph, types: &TypeTable, of: TypeId) -> Result<u64, SizeFault>
        requires known { of.0 < length types.now }
        requires fitted { Fitted graph.now types.now }
        requires noted { Notes self.now (graph_at types.now graph.now).facts }
        ensures { Measures result (sizes.size_of (graph_at types.now graph.now) (type_at types.now of.0)) }
    {
        let of = referred(types, of);
        match ready(graph, types, class_in(graph, types, of)) {
            Err(class) => Err(SizeFault::Needs(class)),
            Ok(()) => size_in(self.object_extent(graph, types, of)),
        }
    }
}

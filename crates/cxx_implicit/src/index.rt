//! What is kept of the facts of a graph, so that nothing is gone over when a class ends.
ghost use Rattle.std.specs.Prelude.{◌≡◌, ◌+◌, ◌<◌, [], ℕ, length, nat_eq, take, Some, OnErr, OnOk};
ghost use Rattle.std.specs.List.{slice_get};
ghost use Rattle.cxx_model.specs.Facts.Declarations.{declares_at, fact_at, graph_at};
ghost use Rattle.cxx_model.specs.Facts.Fitted.{Fitted, IsEntityBelow};
ghost use Rattle.cxx_implicit.specs.Members as definition;
ghost use Rattle.cxx_implicit.specs.Noted.{ArePartsNoted, AreSameKept, IsNoted, IsSaid, Notes, class_in_kind, said_class as said_class_of};
ghost use Rattle.cxx_implicit.specs.Rows.{AreSameRows};

use crate::passing::part_in;
use crate::rows::Rows;
use crate::specials::{Special, make_place, put, special_in, with_fact};
use cxx_graph::Graph;
use cxx_model::{ClassId, Entity, Fact, FactId, OutOfMemory, ScopeKind};
use cxx_types::TypeTable;
use std::alloc::Global;

/// What the classes of a graph declare of their special member functions (12), and of which classes their bases and
/// members are. It notes each fact when it is added.
#[derive(Drop)]
pub struct SpecialMembers {
    pub(crate) scopes: Vec<ScopeKind>,
    pub(crate) specials: Vec<Special>,
    pub(crate) parts: Rows,
}

fn class_of_kind(kind: ScopeKind) -> Option<ClassId>
    ensures { result ≡ class_in_kind (Some kind) }
{
    match kind {
        ScopeKind::Class(class) => Some(class),
        _ => None,
    }
}

// The class to whose scope a declaration belongs (9.2).
fn holder_of(scopes: &Vec<ScopeKind>, fact: &Fact) -> Option<ClassId>
    ensures { result ≡ class_in_kind (slice_get scopes.now.items fact.now.scope.0) }
{
    match scopes.get(fact.scope.0 as usize) {
        Some(kind) => class_of_kind(*kind),
        None => None,
    }
}

// The class of which a declaration says something.
fn concerned(scopes: &Vec<ScopeKind>, types: &TypeTable, fact: &Fact) -> Option<ClassId>
    ensures { result ≡ definition.concerned (class_in_kind (slice_get scopes.now.items fact.now.scope.0)) (declares_at types.now fact.now.what) }
{
    let _ = types;
    match &fact.what {
        Entity::Ancestor { class, .. } => Some(*class),
        _ => holder_of(scopes, fact),
    }
}

// Adds a part of a class, where there is one. An `Err` changes no row.
fn push_part(parts: &mut Rows, class: ClassId, part: Option<ClassId>) -> Result<(), OutOfMemory>
    ensures added { OnOk result (ArePartsNoted part (Some class) parts.old parts.new) }
    ensures unchanged { OnErr result (AreSameRows parts.old parts.new) }
{
    match part {
        None => Ok(()),
        Some(part) => parts.push(class.0, part),
    }
}

fn fact_of(graph: &Graph, number: FactId) -> &Fact
    requires { number.0 < length graph.now.facts }
    ensures { slice_get graph.now.facts number.0 ≡ Some result.now }
{
    &graph.facts()[number.0 as usize]
}

impl SpecialMembers {
    /// What is kept of no facts.
    pub fn new(alloc: Global) -> SpecialMembers
        ensures { Notes result [] }
    {
        SpecialMembers {
            scopes: Vec::new(alloc),
            specials: Vec::new(alloc),
            parts: Rows::new(alloc),
        }
    }

    // The class of which a declaration says something.
    fn said_class(&self, types: &TypeTable, fact: &Fact) -> Option<ClassId>
        ensures { result ≡ said_class_of self.now.scopes.items (fact_at types.now fact.now) }
    {
        concerned(&self.scopes, types, fact)
    }

    // Notes what a declaration says of a class.
    fn note_of(&mut self, types: &TypeTable, class: ClassId, fact: &Fact) -> Result<(), OutOfMemory>
        requires { IsEntityBelow (length types.now) fact.now.what }
        ensures scopes { self.new.scopes.items ≡ self.old.scopes.items }
        ensures ok { OnOk result (IsSaid (Some class) (fact_at types.now fact.now) self.old self.new) }
        ensures err { OnErr result (AreSameKept self.old self.new) }
    {
        make_place(&mut self.specials, class)?;
        push_part(&mut self.parts, class, part_in(types, &fact.what))?;
        let special = with_fact(types, class, fact, special_in(&self.specials, class));
        put(&mut self.specials, class, special);
        Ok(())
    }

    // Notes what a declaration says of a class, where it says something of one.
    fn note_said(
        &mut self,
        types: &TypeTable,
        class: Option<ClassId>,
        fact: &Fact,
    ) -> Result<(), OutOfMemory>
        requires { IsEntityBelow (length types.now) fact.now.what }
        ensures scopes { self.new.scopes.items ≡ self.old.scopes.items }
        ensures ok { OnOk result (IsSaid class (fact_at types.now fact.now) self.old self.new) }
        ensures err { OnErr result (AreSameKept self.old self.new) }
    {
        match class {
            None => Ok(()),
            Some(class) => self.note_of(types, class, fact),
        }
    }

    // Notes one fact.
    #[tactic(auto, using(crate::proofs::Noting::nothing_said))]
    fn note_fact(&mut self, types: &TypeTable, fact: &Fact) -> Result<(), OutOfMemory>
        requires { IsEntityBelow (length types.now) fact.now.what }
        ensures ok { OnOk result (IsNoted (fact_at types.now fact.now) self.old self.new) }
        ensures err { OnErr result (AreSameKept self.old self.new) }
    {
        match &fact.what {
            Entity::Scope { kind, .. } => {
                self.scopes.push(*kind)?;
                Ok(())
            }
            _ => {
                let class = self.said_class(types, fact);
                self.note_said(types, class, fact)
            }
        }
    }

    /// Notes the last fact of a graph. An `Err` changes nothing.
    pub fn note(
        &mut self,
        graph: &Graph,
        types: &TypeTable,
        number: FactId,
    ) -> Result<(), OutOfMemory>
        requires last { number.0 + 1 ≡ length graph.now.facts }
        requires fitted { Fitted graph.now types.now }
        requires noted { Notes self.old (take number.0 (graph_at types.now graph.now).facts) }
        ensures ok { OnOk result (Notes self.new (graph_at types.now graph.now).facts) }
        ensures err { OnErr result (Notes self.new (take number.0 (graph_at types.now graph.now).facts)) }
    {
        graph.in_range();
        let fact = fact_of(graph, number);
        self.note_fact(types, fact)
    }
}

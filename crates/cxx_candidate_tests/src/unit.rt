//! A graph that grows fact by fact, with the table of its types.

ghost use Rattle.std.specs.Prelude.{ℕ, ◌<◌, ◌≤◌, ◌+◌};

use crate::asking::listed;
use crate::fits::{are_typed, enumeration_count, is_below, is_class, is_in_range, is_part};
use crate::graphs::{add, add_template, opens, reserve, unit_scope};
use crate::parts::{Part, made};
use crate::stopped::Stopped;
use cxx_graph::Graph;
use cxx_hash::Key;
use cxx_model::{ClassId, EnumId, Fact, OperandList, ScopeId, TypeId};
use cxx_types::TypeTable;
use std::alloc::Global;
use std::marker::Model;

/// A graph with its types.
#[derive(Drop)]
pub(crate) struct Unit {
    graph: Graph,
    types: TypeTable,
    // There are at least so many scopes.
    scopes: u32,
    // There are at least so many types.
    known: u64,
}

impl Model for Unit {
    ghost use Rattle.std.specs.Prelude.{ℕ};
    ghost use Rattle.cxx_candidate_tests.specs.Units.{IsUnit};

    ghost Value = { ℕ };

    ghost view = { λ unit. unit.known };

    ghost invariant = { λ unit. IsUnit unit.graph unit.types unit.scopes unit.known };
}

// How many types there are at least, once a type has a number.
fn raised(known: u64, number: TypeId) -> u64
    ensures { (count : ℕ) → known ≤ count → number.0 < count → result ≤ count }
{
    if number.0 >= known && number.0 < u64::MAX {
        number.0 + 1
    } else {
        known
    }
}

fn sum(count: u32, more: u32) -> u32
    ensures { result ≤ count + more }
{
    if more <= u32::MAX - count {
        count + more
    } else {
        count
    }
}

// A count as a number.
fn number_of(count: usize) -> u32 {
    match u32::try_from(count) {
        Ok(number) => number,
        Err(_) => u32::MAX,
    }
}

impl Unit {
    /// The scope of a unit alone (3.3.5).
    pub(crate) fn start(alloc: Global) -> Result<Unit, Stopped> {
        let mut graph = Graph::new(alloc, Key::of(&[]));
        graph.add(unit_scope())?;
        Ok(Unit {
            graph,
            types: TypeTable::new(alloc, Key::of(&[])),
            scopes: 1,
            known: 0,
        })
    }

    /// The scope that was begun last.
    pub(crate) fn last_scope(&self) -> ScopeId {
        ScopeId(self.scopes.saturating_sub(1))
    }

    /// The class that was begun last.
    pub(crate) fn last_class(&self) -> ClassId {
        ClassId(self.graph.class_count().saturating_sub(1))
    }

    /// The number of the next enumeration.
    pub(crate) fn next_enumeration(&self) -> EnumId {
        EnumId(number_of(enumeration_count(&self.graph)))
    }

    /// The type with an outermost part.
    pub(crate) fn typed(&mut self, part: Part) -> Result<TypeId, Stopped> {
        if !is_part(&self.graph, &self.types, self.known, part) {
            return Err(Stopped::IllRow);
        }
        let number = made(&self.graph, &mut self.types, part)?;
        self.known = raised(self.known, number);
        Ok(number)
    }

    /// One more fact, where it may stand in the unit.
    pub(crate) fn put(&mut self, fact: Fact) -> Result<(), Stopped> {
        if fact.scope.0 >= self.scopes
            || !is_in_range(&self.graph, &fact)
            || !is_below(&self.types, self.known, &fact)
        {
            return Err(Stopped::IllRow);
        }
        let more = opens(&fact);
        add(&mut self.graph, &self.types, fact)?;
        self.scopes = sum(self.scopes, more);
        Ok(())
    }

    /// One more class.
    pub(crate) fn reserve(&mut self, alloc: Global) -> Result<ClassId, Stopped> {
        reserve(alloc, &mut self.graph, &self.types, None)
    }

    /// One more template, without parameters, which a class defines (14), and the class of a specialisation of it (14.7.1).
    pub(crate) fn specialise(&mut self, alloc: Global, class: ClassId) -> Result<(), Stopped> {
        if !is_class(&self.graph, class)
            || self.graph.patterns().len() >= self.graph.length() as usize
        {
            return Err(Stopped::IllRow);
        }
        let template = add_template(alloc, &mut self.graph, &self.types, class)?;
        reserve(alloc, &mut self.graph, &self.types, Some(template))?;
        Ok(())
    }

    /// The candidates for an operator and its operands, as a text.
    pub(crate) fn candidates(
        &mut self,
        alloc: Global,
        operator: u8,
        operands: &OperandList,
    ) -> Result<String, Stopped> {
        if !are_typed(&self.types, self.known, operands.as_slice()) {
            return Err(Stopped::IllRow);
        }
        listed(alloc, &self.graph, &mut self.types, operator, operands)
    }
}

//! Base classes (10).
ghost use Rattle.std.specs.Prelude.{◌≡◌, ◌<◌, ◌≤◌, ◌&&◌, ◌||◌, ◌++◌, [], ◌∷◌, length, nat_lt, ℕ, Bool, IfNone, IfOk, IfSome, OnOk};
ghost use Rattle.std.specs.List.{list_any};
ghost use Rattle.cxx_model.specs.Facts.Declarations.{facts_at, graph_at};
ghost use Rattle.cxx_meaning.specs.Conversions.Derived.{is_derived as is_derived_of, is_derived_before};
ghost use Rattle.cxx_standard.specs.Reached.{reaches, parent_at, parent_named, AreAllBelow, IsStep};
ghost use Rattle.cxx_standard.specs.Views.{Computes};

use cxx_graph::Graph;
use cxx_model::{ClassId, Entity, OutOfMemory};
use cxx_types::TypeTable;
use std::alloc::Global;
use std::collections::BTreeSet;

fn parent_in(what: &Entity) -> Option<ClassId>
    ensures { result ≡ parent_named what.now }
{
    match what {
        Entity::Ancestor { parent, .. } => Some(*parent),
        _ => None,
    }
}

// The class that a fact names as a base.
fn parent_of(graph: &Graph, number: u32) -> Option<ClassId>
    ensures { result ≡ parent_at graph.now.facts number }
{
    let fact = graph.facts().get(number as usize)?;
    parent_in(&fact.what)
}

// Notes a number, where it is before another.
fn note(waiting: &mut BTreeSet<u32>, number: u32, before: u32) -> Result<(), OutOfMemory>
    requires { AreAllBelow before waiting.old.keys }
    ensures below { AreAllBelow before waiting.new.keys }
    ensures noted { (good : ℕ → Bool) → OnOk result (list_any good waiting.new.keys ≡ (list_any good waiting.old.keys || (nat_lt number before && good number))) }
{
    if number < before {
        waiting.insert(number)?;
    }
    Ok(())
}

// Notes the facts before some number that name bases of a class.
#[tactic(auto, using(crate::proofs::Reaching::derived_any, crate::proofs::Reaching::noted_more))]
fn note_bases(
    graph: &Graph,
    types: &TypeTable,
    waiting: &mut BTreeSet<u32>,
    class: ClassId,
    base: ClassId,
    before: u32,
) -> Result<(), OutOfMemory>
    requires within { before ≤ length graph.now.facts }
    requires below { AreAllBelow before waiting.old.keys }
    ensures below { AreAllBelow before waiting.new.keys }
    ensures noted { OnOk result (list_any (reaches (facts_at types.now graph.now.facts) base.0) waiting.new.keys ≡ (list_any (reaches (facts_at types.now graph.now.facts) base.0) waiting.old.keys || is_derived_before (facts_at types.now graph.now.facts) before class.0 base.0)) }
{
    let _ = types;
    let _ = base;
    let numbers = graph.ancestors(class);
    for number in numbers {
        note(waiting, number.0, before)?;
    }
    Ok(())
}

// Takes the greatest number.
fn take_last(waiting: &mut BTreeSet<u32>) -> Option<u32>
    ensures none { IfNone result (waiting.old.keys ≡ []) }
    ensures last { IfSome result (λ number. waiting.old.keys ≡ waiting.new.keys ++ number ∷ []) }
    ensures below { IfSome result (λ number. AreAllBelow number waiting.new.keys) }
{
    waiting.pop_last()
}

// Whether a fact names the base. Else the facts of what it names are noted.
fn is_reached(
    graph: &Graph,
    types: &TypeTable,
    waiting: &mut BTreeSet<u32>,
    base: ClassId,
    number: u32,
) -> Result<bool, OutOfMemory>
    requires within { number ≤ length graph.now.facts }
    requires below { AreAllBelow number waiting.old.keys }
    ensures below { AreAllBelow number waiting.new.keys }
    ensures is { IfOk result (λ reached. IsStep (reaches (facts_at types.now graph.now.facts) base.0) waiting.old.keys waiting.new.keys number reached) }
{
    match parent_of(graph, number) {
        None => Ok(false),
        Some(parent) => {
            if parent.0 == base.0 {
                return Ok(true);
            }
            note_bases(graph, types, waiting, parent, base, number)?;
            Ok(false)
        }
    }
}

/// Whether a class is derived from another (10). Each base is looked at once.
#[tactic(auto, unfolding(cxx_meaning::specs::Conversions::Derived::is_derived), using(crate::proofs::Reaching::last_below, crate::proofs::Reaching::any_last))]
pub fn is_derived(
    alloc: Global,
    graph: &Graph,
    types: &TypeTable,
    class: ClassId,
    base: ClassId,
) -> Result<bool, OutOfMemory>
    requires class_known { class.0 < length graph.now.classes }
    requires base_known { base.0 < length graph.now.classes }
    ensures { Computes result (is_derived_of (graph_at types.now graph.now) class.0 base.0) }
{
    let mut waiting = BTreeSet::new(alloc);
    let mut bound = graph.length();
    note_bases(graph, types, &mut waiting, class, base, bound)?;
    while let Some(number) = take_last(&mut waiting) {
        if is_reached(graph, types, &mut waiting, base, number)? {
            return Ok(true);
        }
        bound = number;
    }
    Ok(false)
}

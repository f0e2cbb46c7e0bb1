//! The facts of the bases of a class, and of theirs (10).
ghost use Rattle.std.specs.Prelude.{◌≡◌, ◌<◌, ◌++◌, ◌+◌, [], ◌∷◌, true, false, length, ℕ, IfNone, IfOk, IfSome, OnOk};
ghost use Rattle.std.specs.BTreeSet.{contains};
ghost use Rattle.std.specs.Ordering.{nat_cmp};
ghost use Rattle.cxx_subobjects.specs.Reached.{AreAllBelow, AreNoted, IsFollowed, IsTrail, IsWalk, SeenAreNoted, has, noted};

use crate::direct::direct_base;
use cxx_graph::Graph;
use cxx_model::{ClassId, OutOfMemory};
use std::alloc::Global;
use std::collections::BTreeSet;

// A walk from a class to its bases, by the numbers of their facts, the greatest first. The bases of each class are noted
// once.
#[derive(Drop)]
struct Walk {
    waiting: BTreeSet<u32>,
    seen: BTreeSet<u32>,
    order: Vec<u32>,
}

// Notes a number, where it is before another.
fn note(waiting: &mut BTreeSet<u32>, number: u32, before: u32) -> Result<(), OutOfMemory>
    requires { AreAllBelow before waiting.old.keys }
    ensures below { AreAllBelow before waiting.new.keys }
    ensures kept { OnOk result ((j : ℕ) → has waiting.old.keys j ≡ true → has waiting.new.keys j ≡ true) }
    ensures noted { OnOk result (number < before → has waiting.new.keys number ≡ true) }
{
    if number < before {
        waiting.insert(number)?;
    }
    Ok(())
}

// Notes the facts before some number that name bases of a class.
fn note_bases(
    graph: &Graph,
    waiting: &mut BTreeSet<u32>,
    class: ClassId,
    before: u32,
) -> Result<(), OutOfMemory>
    requires { AreAllBelow before waiting.old.keys }
    ensures below { AreAllBelow before waiting.new.keys }
    ensures kept { OnOk result ((j : ℕ) → has waiting.old.keys j ≡ true → has waiting.new.keys j ≡ true) }
    ensures noted { OnOk result (AreNoted graph.now.facts (has waiting.new.keys) class.0 before) }
{
    let numbers = graph.ancestors(class);
    for number in numbers {
        note(waiting, number.0, before)?;
    }
    Ok(())
}

impl Walk {
    fn new(alloc: Global) -> Walk
        ensures waiting { result.waiting.keys ≡ [] }
        ensures seen { (class : ℕ) → contains nat_cmp result.seen class ≡ false }
        ensures order { result.order.items ≡ [] }
    {
        Walk {
            waiting: BTreeSet::new(alloc),
            seen: BTreeSet::new(alloc),
            order: Vec::new(alloc),
        }
    }

    // Notes the facts of the bases of a class that are before some number, if that was not done.
    fn visit(&mut self, graph: &Graph, class: ClassId, before: u32) -> Result<(), OutOfMemory>
        requires below { AreAllBelow before self.old.waiting.keys }
        requires seen { SeenAreNoted graph.now.facts (contains nat_cmp self.old.seen) self.old.order.items self.old.waiting.keys before }
        ensures below { AreAllBelow before self.new.waiting.keys }
        ensures order { self.new.order.items ≡ self.old.order.items }
        ensures kept { OnOk result ((j : ℕ) → has self.old.waiting.keys j ≡ true → has self.new.waiting.keys j ≡ true) }
        ensures noted { OnOk result (AreNoted graph.now.facts (noted self.new.order.items self.new.waiting.keys) class.0 before) }
        ensures seen { OnOk result (SeenAreNoted graph.now.facts (contains nat_cmp self.new.seen) self.new.order.items self.new.waiting.keys before) }
    {
        if self.seen.contains(&class.0) {
            return Ok(());
        }
        note_bases(graph, &mut self.waiting, class, before)?;
        self.seen.insert(class.0)?;
        Ok(())
    }

    // Takes the greatest number that waits.
    fn take_last(&mut self) -> Result<Option<u32>, OutOfMemory>
        ensures none { IfOk result (λ taken. IfNone taken (self.old.waiting.keys ≡ [])) }
        ensures order { IfOk result (λ taken. IfSome taken (λ number. self.new.order.items ≡ self.old.order.items ++ number ∷ [])) }
        ensures same { IfOk result (λ taken. IfNone taken (self.new.order.items ≡ self.old.order.items)) }
        ensures waiting { IfOk result (λ taken. IfSome taken (λ number. self.old.waiting.keys ≡ self.new.waiting.keys ++ number ∷ [])) }
        ensures below { IfOk result (λ taken. IfSome taken (λ number. AreAllBelow number self.new.waiting.keys)) }
        ensures seen { self.new.seen ≡ self.old.seen }
    {
        match self.waiting.pop_last() {
            None => Ok(None),
            Some(number) => {
                self.order.push(number)?;
                Ok(Some(number))
            }
        }
    }

    // Notes the facts of the bases of the base that a fact names.
    fn follow(&mut self, graph: &Graph, class: ClassId, number: u32) -> Result<(), OutOfMemory>
        requires { IsWalk graph.now.facts class.0 self.old.order.items self.old.waiting.keys (contains nat_cmp self.old.seen) number (number + 1) }
        ensures { OnOk result (IsWalk graph.now.facts class.0 self.new.order.items self.new.waiting.keys (contains nat_cmp self.new.seen) number number) }
    {
        let _ = class;
        match direct_base(graph, number) {
            None => Ok(()),
            Some(base) => self.visit(graph, base.parent, number),
        }
    }
}

/// The numbers of the facts of the bases of a class, of the bases of these, and so on, the greatest first.
pub(crate) fn reached(alloc: Global, graph: &Graph, class: ClassId) -> Result<Vec<u32>, OutOfMemory>
    ensures { IfOk result (λ order. IsTrail graph.now.facts class.0 order.items) }
{
    let mut walk = Walk::new(alloc);
    let mut bound = graph.length();
    walk.visit(graph, class, bound)?;
    while let Some(number) = walk.take_last()? {
        walk.follow(graph, class, number)?;
        bound = number;
    }
    Ok(walk.order)
}

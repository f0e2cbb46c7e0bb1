//! The facts of bases that matter for what a class has, each looked at once (10, 10.2).

ghost use Rattle.std.specs.Prelude.{◌≡◌, ◌<◌, ◌≤◌, ◌&&◌, ◌||◌, ◌++◌, [], ◌∷◌, length, nat_lt, true, ℕ, Bool, IfNone, IfOk, IfSome, OnOk};
ghost use Rattle.std.specs.List.{list_any, slice_get};
ghost use Rattle.cxx_meaning.specs.Lookups.Member.{declares_member};
ghost use Rattle.cxx_inherited.specs.Reached.{AreAllBelow, Covers, CoversSome, IsReached, holds, parent_in, passes_below};
ghost use Rattle.cxx_inherited.specs.Views.{IsSeeking, facts_of, graph_of, name_of, wanted_of};

use crate::seeking::Seeking;
use cxx_model::{ClassId, Entity, FactId};
use std::alloc::AllocError;
use std::collections::BTreeSet;

// Notes a number, where it is before another.
fn note(waiting: &mut BTreeSet<u32>, number: u32, before: u32) -> Result<(), AllocError>
    requires { AreAllBelow before waiting.old.keys }
    ensures below { AreAllBelow before waiting.new.keys }
    ensures noted { (good : ℕ → Bool) → OnOk result (list_any good waiting.new.keys ≡ (list_any good waiting.old.keys || (nat_lt number before && good number))) }
{
    if number < before {
        waiting.insert(number)?;
    }
    Ok(())
}

// Notes those of some facts that are before a number.
fn note_all(waiting: &mut BTreeSet<u32>, numbers: &[FactId], before: u32) -> Result<(), AllocError>
    requires { AreAllBelow before waiting.old.keys }
    ensures below { AreAllBelow before waiting.new.keys }
    ensures noted { (good : ℕ → Bool) → OnOk result (list_any good waiting.new.keys ≡ (list_any good waiting.old.keys || list_any (passes_below before good) numbers.now)) }
{
    for number in numbers {
        note(waiting, number.0, before)?;
    }
    Ok(())
}

// Takes the greatest number.
fn take_last(waiting: &mut BTreeSet<u32>) -> Option<u32>
    ensures none { IfNone result (waiting.old.keys ≡ []) }
    ensures last { IfSome result (λ number. waiting.old.keys ≡ waiting.new.keys ++ number ∷ []) }
    ensures below { IfSome result (λ number. AreAllBelow number waiting.new.keys) }
{
    waiting.pop_last()
}

impl Seeking<'_> {
    // The class that a fact names as a base.
    #[tactic(auto, using(cxx_members::proofs::Kept::fact_is))]
    fn parent_of(&self, number: u32) -> Option<ClassId>
        requires { IsSeeking self.now }
        ensures { result ≡ parent_in (slice_get (facts_of self.now) number) }
    {
        match self.fact(FactId(number)) {
            Some(fact) => match fact.what {
                Entity::Ancestor { parent, .. } => Some(parent),
                _ => None,
            },
            None => None,
        }
    }

    // Notes the facts of the bases of a class that are before a number, where the class does not declare the name.
    fn note_bases(
        &self,
        waiting: &mut BTreeSet<u32>,
        class: ClassId,
        before: u32,
    ) -> Result<(), AllocError>
        requires seeking { IsSeeking self.now }
        requires below { AreAllBelow before waiting.old.keys }
        ensures below { AreAllBelow before waiting.new.keys }
        ensures kept { (n : ℕ) → OnOk result (holds waiting.old.keys n ≡ true → holds waiting.new.keys n ≡ true) }
        ensures covers { OnOk result (Covers (declares_member (graph_of self.now) (wanted_of self.now) (name_of self.now)) (facts_of self.now) (holds waiting.new.keys) before class) }
    {
        if self.declares(class) {
            return Ok(());
        }
        note_all(waiting, self.looking.graph.ancestors(class), before)?;
        Ok(())
    }

    // Notes those of the base that a fact names.
    fn note_parent(&self, waiting: &mut BTreeSet<u32>, number: u32) -> Result<(), AllocError>
        requires seeking { IsSeeking self.now }
        requires below { AreAllBelow number waiting.old.keys }
        ensures below { AreAllBelow number waiting.new.keys }
        ensures kept { (n : ℕ) → OnOk result (holds waiting.old.keys n ≡ true → holds waiting.new.keys n ≡ true) }
        ensures covers { OnOk result (CoversSome (declares_member (graph_of self.now) (wanted_of self.now) (name_of self.now)) (facts_of self.now) (holds waiting.new.keys) number (parent_in (slice_get (facts_of self.now) number))) }
    {
        match self.parent_of(number) {
            Some(parent) => self.note_bases(waiting, parent, number),
            None => Ok(()),
        }
    }

    /// The facts that matter for a class, the last first.
    pub fn reached(&self, class: ClassId) -> Result<Vec<u32>, AllocError>
        requires { IsSeeking self.now }
        ensures { IfOk result (λ reached. IsReached (declares_member (graph_of self.now) (wanted_of self.now) (name_of self.now)) (facts_of self.now) (length self.now.looking.graph.now.facts) class reached.items) }
    {
        let mut waiting = BTreeSet::new(self.looking.alloc);
        let mut reached = Vec::new(self.looking.alloc);
        let mut bound = self.looking.graph.length();
        self.note_bases(&mut waiting, class, bound)?;
        while let Some(number) = take_last(&mut waiting) {
            reached.push(number)?;
            self.note_parent(&mut waiting, number)?;
            bound = number;
        }
        Ok(reached)
    }
}

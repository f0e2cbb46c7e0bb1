//! The best member of a contest: the one that beats every other, found by comparing a champion with each member in
//! turn, and then with those before it.
//!
//! Who beats whom need not be transitive, so there may be no best member, and the champion of the first pass may not
//! beat those that were compared before it.
#![tactic(auto)]

ghost use Rattle.std.specs.Prelude.{◌≡◌, ℕ, ◌+◌, ◌-◌, ◌*◌, ◌<◌, ◌≤◌, ◌==◌, ◌||◌, Bool, if◌then◌else◌, IfOk, OnErr};
ghost use Rattle.cxx_champion.specs.Contests.{IsAsymmetric, IsBest, IsLeastCounter, IsStanding, others_below, comparisons_to};
ghost use Rattle.cxx_champion.specs.Verdicts.{IsVerdict, comparisons};

use cxx_model::Steps;
use std::alloc::AllocError;
use std::sync::ledger::Ledger;

/// Members with the numbers 0 to `size` - 1, of which one may beat another.
pub trait Contest {
    /// How many members there are.
    ghost count: { Self → ℕ };

    /// Whether the first beats the second.
    ghost wins: { Self → ℕ → ℕ → Bool };

    /// That no memory is left to compare two members.
    ghost lacks_memory: { Self → ℕ → ℕ → Type 0 };

    /// What comparing two members asks of the contest.
    ghost is_ready: { Self → Type 0 } = { λ _. Unit {0} };

    fn size(&self) -> usize
        ensures { result ≡ count self.now };

    /// Whether the first member beats the second. It takes one step.
    fn beats<L: Ledger>(
        &self,
        first: usize,
        second: usize,
        steps: &mut Steps<L>,
    ) -> Result<bool, AllocError>
        requires first { first < count self.now }
        requires second { second < count self.now }
        requires ready { is_ready self.now }
        ensures answer { IfOk result (λ beaten. beaten ≡ wins self.now first second) }
        ensures memory { OnErr result (lacks_memory self.now first second) }
        ensures step { steps.new ≡ steps.old + 1 };

    /// Never do two members beat each other.
    ghost asymmetric: { (contest : Self) → IsAsymmetric (wins contest) (count contest) };
}

/// The outcome of a contest.
#[derive(Clone, Copy, PartialEq, Eq)]
pub enum Verdict {
    /// The member that beats every other.
    Best(usize),
    /// No member beats every other: of the champion, `counter` is the least that it does not beat.
    NoBest { champion: usize, counter: usize },
    /// There are no members.
    Empty,
}

/// Whether the first member beats the second, or is the second.
fn beats_or_is<C: Contest, L: Ledger>(
    contest: &C,
    first: usize,
    second: usize,
    steps: &mut Steps<L>,
) -> Result<bool, AllocError>
    requires first { first < C.count contest.now }
    requires second { second < C.count contest.now }
    requires ready { C.is_ready contest.now }
    ensures answer { IfOk result (λ beaten. beaten ≡ (second == first || C.wins contest.now first second)) }
    ensures memory { OnErr result ((i : ℕ) × (j : ℕ) × C.lacks_memory contest.now i j) }
    ensures cost { steps.new ≡ steps.old + (if second == first then 0 else 1) }
{
    if second == first {
        return Ok(true);
    }
    contest.beats(first, second, steps)
}

/// The least member below a bound that is other than this one and that it does not beat.
#[tactic(auto, using(crate::proofs::Counting::others_more, crate::proofs::Counting::others_within))]
fn counter_below<C: Contest, L: Ledger>(
    contest: &C,
    member: usize,
    bound: usize,
    steps: &mut Steps<L>,
) -> Result<Option<usize>, AllocError>
    requires member { member < C.count contest.now }
    requires bound { bound ≤ C.count contest.now }
    requires ready { C.is_ready contest.now }
    ensures answer { IfOk result (λ counter. IsLeastCounter (C.wins contest.now) bound member counter) }
    ensures memory { OnErr result ((i : ℕ) × (j : ℕ) × C.lacks_memory contest.now i j) }
    ensures cost { IfOk result (λ counter. steps.new ≡ steps.old + comparisons_to bound member counter) }
    ensures most { steps.new ≤ steps.old + others_below member bound }
{
    for other in 0..bound {
        if !beats_or_is(contest, member, other, steps)? {
            return Ok(Some(other));
        }
    }
    Ok(None)
}

/// The first member where it beats the second, and else the second.
fn stronger<C: Contest, L: Ledger>(
    contest: &C,
    champion: usize,
    challenger: usize,
    steps: &mut Steps<L>,
) -> Result<usize, AllocError>
    requires first { champion < C.count contest.now }
    requires second { challenger < C.count contest.now }
    requires ready { C.is_ready contest.now }
    ensures answer { IfOk result (λ stands. stands ≡ (if C.wins contest.now champion challenger then champion else challenger)) }
    ensures memory { OnErr result ((i : ℕ) × (j : ℕ) × C.lacks_memory contest.now i j) }
    ensures cost { steps.new ≡ steps.old + 1 }
{
    if contest.beats(champion, challenger, steps)? {
        return Ok(champion);
    }
    Ok(challenger)
}

/// The champion of all members compared in turn. It beats those behind it, and no other is the best.
#[tactic(auto, using(crate::proofs::Champions::standing_first, crate::proofs::Champions::standing_more))]
fn standing<C: Contest, L: Ledger>(contest: &C, steps: &mut Steps<L>) -> Result<usize, AllocError>
    requires some { 0 < C.count contest.now }
    requires ready { C.is_ready contest.now }
    ensures answer { IfOk result (IsStanding (C.wins contest.now) (C.count contest.now) (C.count contest.now)) }
    ensures memory { OnErr result ((i : ℕ) × (j : ℕ) × C.lacks_memory contest.now i j) }
    ensures cost { IfOk result (λ _. steps.new + 1 ≡ steps.old + C.count contest.now) }
    ensures most { steps.new + 1 ≤ steps.old + C.count contest.now }
{
    let mut champion = 0;
    for challenger in 1..contest.size() {
        champion = stronger(contest, champion, challenger, steps)?;
    }
    Ok(champion)
}

/// The least member other than this one that it does not beat, after at most `size` - 1 comparisons.
pub fn counter_of<C: Contest, L: Ledger>(
    contest: &C,
    member: usize,
    steps: &mut Steps<L>,
) -> Result<Option<usize>, AllocError>
    requires member { member < C.count contest.now }
    requires ready { C.is_ready contest.now }
    ensures least { IfOk result (λ counter. IsLeastCounter (C.wins contest.now) (C.count contest.now) member counter) }
    // Memory is lacking only where it is for a comparison.
    ensures memory { OnErr result ((i : ℕ) × (j : ℕ) × C.lacks_memory contest.now i j) }
    // Nothing but a comparison takes a step.
    ensures cost { IfOk result (λ counter. steps.new ≡ steps.old + comparisons_to (C.count contest.now) member counter) }
    ensures most { steps.new ≤ steps.old + (C.count contest.now - 1) }
{
    counter_below(contest, member, contest.size(), steps)
}

/// The member that beats every other, or that there is none, after at most 2(`size` - 1) comparisons.
#[tactic(auto, using(crate::proofs::Champions::best_where_unbeaten, crate::proofs::Champions::none_where_beaten, crate::proofs::Champions::best_answered))]
pub fn best_of<C: Contest, L: Ledger>(
    contest: &C,
    steps: &mut Steps<L>,
) -> Result<Verdict, AllocError>
    requires { C.is_ready contest.now }
    ensures verdict { IfOk result (IsVerdict (C.wins contest.now) (C.count contest.now)) }
    ensures best { IfOk result (λ verdict. (member : ℕ) → IsBest (C.wins contest.now) (C.count contest.now) member → verdict ≡ Verdict.Best member) }
    ensures empty { C.count contest.now ≡ 0 → result ≡ Ok Verdict.Empty }
    // Memory is lacking only where it is for a comparison.
    ensures memory { OnErr result ((i : ℕ) × (j : ℕ) × C.lacks_memory contest.now i j) }
    // Nothing but a comparison takes a step.
    ensures cost { IfOk result (λ verdict. steps.new ≡ steps.old + comparisons (C.count contest.now) verdict) }
    ensures most { steps.new ≤ steps.old + 2 * (C.count contest.now - 1) }
{
    let size = contest.size();
    if size == 0 {
        return Ok(Verdict::Empty);
    }
    let champion = standing(contest, steps)?;
    match counter_below(contest, champion, champion, steps)? {
        None => Ok(Verdict::Best(champion)),
        Some(counter) => Ok(Verdict::NoBest { champion, counter }),
    }
}

//! The best of the viable functions (13.3.3), and what shows that none is.

ghost use Rattle.std.specs.Prelude.{◌≡◌, ◌+◌, ◌-◌, ◌*◌, ◌<◌, ◌≤◌, length, map, option_map, Some, None, IfOk, IfSome};
ghost use Rattle.std.specs.List.{All, slice_get};
ghost use Rattle.cxx_model.specs.Facts.Declarations.{graph_at};
ghost use Rattle.cxx_model.specs.Facts.Fitted.{Fitted};
ghost use Rattle.cxx_overload.specs.Choices.{beats as beats_of, choice as choice_of, choice_by, chosen as chosen_of, position_of, ties as ties_of};
ghost use Rattle.cxx_overload.specs.Viability.{viable as viable_of};
ghost use Rattle.cxx_standard.specs.Views.{Computes};
ghost use Rattle.cxx_overload.specs.Gathering.{AreNumbered};
ghost use Rattle.cxx_overload.specs.Contests.{choice_at, contender_at, contenders_at, line_of, member_at, member_of, most_comparisons, tie_at, wins_at, IsChoiceBelow, IsContenderBelow, IsReady};
ghost use Rattle.cxx_overload.specs.Views.{passed, ratings_at, AreOperandsBelow, AreRatingsBelow, IsObject};

use crate::contender::{Contender, contenders, push_some, refusals, shown};
use crate::object::Object;
use crate::order::{Row, is_better_function, is_better_of_object};
use crate::rating::Ratings;
use cxx_champion::{Contest, Verdict, best_of, counter_of};
use cxx_graph::Graph;
use cxx_model::{Evidence, EvidenceList, Operand, Order, OutOfMemory, Steps};
use cxx_types::TypeTable;
use std::alloc::{AllocError, Global};
use std::sync::ledger::Ledger;

/// The answer to a question about functions.
#[derive(Drop)]
pub enum Choice<'r, 't> {
    /// The viable candidate that is better than every other.
    Chosen(Contender<'r, 't>),
    /// The reason of each candidate.
    NoneViable(EvidenceList),
    /// For each viable candidate the first other one that it does not beat.
    Ambiguous(EvidenceList),
}

/// The viable functions of a call, of which the better one beats the other.
#[derive(Clone, Copy)]
struct Viable<'v, 'r, 't> {
    alloc: Global,
    graph: &'v Graph,
    types: &'v TypeTable,
    object: Option<Object>,
    operands: &'v [Operand],
    members: &'v [Contender<'r, 't>],
}

#[tactic(auto, unfolding(cxx_model::specs::Choice::Better::is_better))]
fn beats(
    alloc: Global,
    graph: &Graph,
    types: &TypeTable,
    object: Option<Object>,
    operands: &[Operand],
    one: &Contender,
    two: &Contender,
) -> Result<bool, OutOfMemory>
    requires object { IfSome object (IsObject types.now) }
    requires operands { AreOperandsBelow (length types.now) operands.now }
    requires one_below { IsContenderBelow (length types.now) one.now }
    requires two_below { IsContenderBelow (length types.now) two.now }
    requires fitted { Fitted graph.now types.now }
    ensures { Computes result (beats_of (graph_at types.now graph.now) (contender_at types.now object operands.now one.now) (contender_at types.now object operands.now two.now)) }
{
    let one = Row {
        cv: one.candidate.cv,
        parameters: one.candidate.parameters,
        conversions: one.conversions,
    };
    let two = Row {
        cv: two.candidate.cv,
        parameters: two.candidate.parameters,
        conversions: two.conversions,
    };
    match object {
        None => is_better_function(alloc, graph, types, Order::Same, operands, one, two),
        Some(object) => is_better_of_object(alloc, graph, types, object, operands, one, two),
    }
}

impl<'v, 'r, 't> Viable<'v, 'r, 't> {
    fn is_better(&self, first: usize, second: usize) -> Result<bool, OutOfMemory>
        requires { IsReady self.now.graph.now self.now.types.now self.now.object self.now.operands.now self.now.members.now }
        ensures { Computes result (wins_at (beats_of (graph_at self.now.types.now self.now.graph.now)) (contenders_at self.now.types.now self.now.object self.now.operands.now self.now.members.now) first second) }
    {
        let Some(one) = self.members.get(first) else {
            return Ok(false);
        };
        let Some(two) = self.members.get(second) else {
            return Ok(false);
        };
        beats(
            self.alloc,
            self.graph,
            self.types,
            self.object,
            self.operands,
            one,
            two,
        )
    }
}

impl<'v, 'r, 't> Contest for Viable<'v, 'r, 't> {
    ghost use Rattle.std.specs.Prelude.{length};
    ghost use Rattle.cxx_model.specs.Facts.Declarations.{graph_at};
    ghost use Rattle.cxx_overload.specs.Choices.{beats};
    ghost use Rattle.cxx_overload.specs.Contests.{contenders_at, wins_at, IsReady};
    ghost use Rattle.cxx_overload.specs.Asymmetry.{wins_asymmetric};

    ghost count = { λ contest. length (contenders_at contest.types.now contest.object contest.operands.now contest.members.now) };

    ghost wins = { λ contest. wins_at (beats (graph_at contest.types.now contest.graph.now)) (contenders_at contest.types.now contest.object contest.operands.now contest.members.now) };

    ghost lacks_memory = { λ _ _ _. Unit {0} };

    ghost is_ready = { λ contest. IsReady contest.graph.now contest.types.now contest.object contest.operands.now contest.members.now };

    fn size(&self) -> usize {
        self.members.len()
    }

    fn beats<L: Ledger>(
        &self,
        first: usize,
        second: usize,
        steps: &mut Steps<L>,
    ) -> Result<bool, AllocError> {
        steps.tick();
        match self.is_better(first, second) {
            Ok(better) => Ok(better),
            Err(OutOfMemory) => Err(AllocError),
        }
    }

    ghost asymmetric = { λ contest. wins_asymmetric (graph_at contest.types.now contest.graph.now) (contenders_at contest.types.now contest.object contest.operands.now contest.members.now) (length (contenders_at contest.types.now contest.object contest.operands.now contest.members.now)) };
}

/// The contender that a verdict calls the best.
fn member<'r, 't>(
    types: &TypeTable,
    object: Option<Object>,
    operands: &[Operand],
    viable: &[Contender<'r, 't>],
    verdict: Verdict,
) -> Option<Contender<'r, 't>>
    ensures is { option_map (contender_at types.now object operands.now) result ≡ member_of (contenders_at types.now object operands.now viable.now) verdict }
    ensures below { All (IsContenderBelow (length types.now)) viable.now → IfSome result (IsContenderBelow (length types.now)) }
{
    let _ = types;
    let _ = object;
    let _ = operands;
    match verdict {
        Verdict::Best(member) => viable.get(member).copied(),
        Verdict::NoBest { .. } => None,
        Verdict::Empty => None,
    }
}

/// The contender that is better than every other. Each comparison of two takes a step.
#[tactic(auto, using(crate::proofs::Contests::chosen_by_verdict))]
pub fn chosen<'r, 't, L: Ledger>(
    alloc: Global,
    graph: &Graph,
    types: &TypeTable,
    object: Option<Object>,
    operands: &[Operand],
    viable: &[Contender<'r, 't>],
    steps: &mut Steps<L>,
) -> Result<Option<Contender<'r, 't>>, AllocError>
    requires numbered { AreNumbered position_of 1 (contenders_at types.now object operands.now viable.now) }
    requires ready { IsReady graph.now types.now object operands.now viable.now }
    ensures best { IfOk result (λ found. option_map (contender_at types.now object operands.now) found ≡ chosen_of (graph_at types.now graph.now) (contenders_at types.now object operands.now viable.now)) }
    ensures below { IfOk result (λ found. IfSome found (IsContenderBelow (length types.now))) }
    ensures most { steps.new ≤ steps.old + 2 * (length viable.now - 1) }
{
    let contest = Viable {
        alloc,
        graph,
        types,
        object,
        operands,
        members: viable,
    };
    let verdict = best_of(&contest, steps)?;
    Ok(member(types, object, operands, viable, verdict))
}

/// The line that shows that a contender is not the best.
fn line<'r, 't>(
    types: &TypeTable,
    object: Option<Object>,
    operands: &[Operand],
    viable: &[Contender<'r, 't>],
    one: &Contender<'r, 't>,
    rival: Option<usize>,
) -> Option<Evidence>
    ensures { result ≡ line_of (contender_at types.now object operands.now one.now) (member_at (contenders_at types.now object operands.now viable.now) rival) }
{
    let _ = object;
    let _ = operands;
    let two = viable.get(rival?)?;
    Some(Evidence::DoesNotBeat(shown(types, &one.candidate), shown(types, &two.candidate)))
}

fn tie<'r, 't, L: Ledger>(
    alloc: Global,
    graph: &Graph,
    types: &TypeTable,
    object: Option<Object>,
    operands: &[Operand],
    viable: &[Contender<'r, 't>],
    place: usize,
    steps: &mut Steps<L>,
) -> Result<Option<Evidence>, AllocError>
    requires place { place < length viable.now }
    requires numbered { AreNumbered position_of 1 (contenders_at types.now object operands.now viable.now) }
    requires ready { IsReady graph.now types.now object operands.now viable.now }
    ensures is { IfOk result (λ found. found ≡ tie_at (graph_at types.now graph.now) (contenders_at types.now object operands.now viable.now) (slice_get (contenders_at types.now object operands.now viable.now) place)) }
    ensures most { steps.new ≤ steps.old + (length viable.now - 1) }
{
    let contest = Viable {
        alloc,
        graph,
        types,
        object,
        operands,
        members: viable,
    };
    let rival = counter_of(&contest, place, steps)?;
    Ok(line(types, object, operands, viable, &viable[place], rival))
}

/// For each contender the first other one that it does not beat.
#[tactic(auto, unfolding(crate::specs::Choices::ties))]
pub fn ties<'r, 't, L: Ledger>(
    alloc: Global,
    graph: &Graph,
    types: &TypeTable,
    object: Option<Object>,
    operands: &[Operand],
    viable: &[Contender<'r, 't>],
    steps: &mut Steps<L>,
) -> Result<EvidenceList, AllocError>
    requires numbered { AreNumbered position_of 1 (contenders_at types.now object operands.now viable.now) }
    requires ready { IsReady graph.now types.now object operands.now viable.now }
    ensures is { IfOk result (λ evidence. evidence ≡ ties_of (graph_at types.now graph.now) (contenders_at types.now object operands.now viable.now)) }
    ensures most { steps.new ≤ steps.old + length viable.now * (length viable.now - 1) }
{
    let mut evidence = Vec::new(alloc);
    for place in 0..viable.len() {
        push_some(
            &mut evidence,
            tie(alloc, graph, types, object, operands, viable, place, steps)?,
        )?;
    }
    Ok(EvidenceList::from_vec(evidence))
}

/// What is answered where no viable candidate is better than every other.
fn without_best<'r, 't, L: Ledger>(
    alloc: Global,
    graph: &Graph,
    types: &TypeTable,
    object: Option<Object>,
    operands: &[Operand],
    ratings: &Ratings<'t>,
    viable: &[Contender<'r, 't>],
    steps: &mut Steps<L>,
) -> Result<Choice<'r, 't>, AllocError>
    requires numbered { AreNumbered position_of 1 (contenders_at types.now object operands.now viable.now) }
    requires ready { IsReady graph.now types.now object operands.now viable.now }
    ensures is { IfOk result (λ answer. choice_at types.now object operands.now answer ≡ choice_by (graph_at types.now graph.now) (ratings_at types.now object operands.now ratings.now) (contenders_at types.now object operands.now viable.now) None) }
    ensures below { IfOk result (IsChoiceBelow (length types.now)) }
    ensures most { IfOk result (λ answer. steps.new + 2 * (length viable.now - 1) ≤ steps.old + most_comparisons (length viable.now) answer) }
{
    match viable {
        [] => Ok(Choice::NoneViable(refusals(alloc, types, object, operands, ratings)?)),
        [_, ..] => Ok(Choice::Ambiguous(ties(
            alloc, graph, types, object, operands, viable, steps,
        )?)),
    }
}

/// The viable candidate that is better than every other, or what shows that none is (13.3.3). Each comparison of two
/// takes a step.
#[tactic(auto, using(crate::proofs::Contests::viable_numbered), unfolding(crate::specs::Choices::choice))]
pub fn choose<'r, 't, L: Ledger>(
    alloc: Global,
    graph: &Graph,
    types: &TypeTable,
    object: Option<Object>,
    operands: &[Operand],
    ratings: &'r Ratings<'t>,
    steps: &mut Steps<L>,
) -> Result<Choice<'r, 't>, AllocError>
    requires numbered { AreNumbered position_of 1 (ratings_at types.now object operands.now ratings.now) }
    requires below { AreRatingsBelow (length types.now) (length (passed object operands.now)) ratings.now }
    requires object { IfSome object (IsObject types.now) }
    requires operands { AreOperandsBelow (length types.now) operands.now }
    requires fitted { Fitted graph.now types.now }
    ensures is { IfOk result (λ answer. choice_at types.now object operands.now answer ≡ choice_of (graph_at types.now graph.now) (ratings_at types.now object operands.now ratings.now)) }
    ensures below { IfOk result (IsChoiceBelow (length types.now)) }
    ensures most { IfOk result (λ answer. steps.new ≤ steps.old + most_comparisons (length (viable_of (ratings_at types.now object operands.now ratings.now))) answer) }
{
    let viable = contenders(alloc, types, object, operands, ratings)?;
    match chosen(alloc, graph, types, object, operands, &viable, steps)? {
        Some(one) => Ok(Choice::Chosen(one)),
        None => without_best(
            alloc, graph, types, object, operands, ratings, &viable, steps,
        ),
    }
}

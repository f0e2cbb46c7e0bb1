//! The question of a call: which function it means, among the declarations of its name (13.3).

ghost use Rattle.std.specs.Prelude.{◌≡◌, ◌≤◌, ◌<◌, length, map, IfOk, IfSome};
ghost use Rattle.std.specs.List.{All};
ghost use Rattle.cxx_model.specs.declared.limits.TheConstants as limits;
ghost use Rattle.cxx_model.specs.Facts.Declarations.{graph_at};
ghost use Rattle.cxx_model.specs.Facts.Fitted.{Fitted};
ghost use Rattle.cxx_model.specs.Stops.{Faulty, Gives, not_built_at as not_built};
ghost use Rattle.cxx_overload.specs.Calls.{call_fault, decided, decided_among, decided_by};
ghost use Rattle.cxx_overload.specs.Choices.{choice as choice_of, position_of};
ghost use Rattle.cxx_overload.specs.Contests.{choice_at, IsChoiceBelow};
ghost use Rattle.cxx_overload.specs.Decisions.{decision_at, decision_of, IsDecisionBelow};
ghost use Rattle.cxx_overload.specs.Gathering.{AreNumbered, place_among};
ghost use Rattle.cxx_overload.specs.Views.{candidate_at, numbered_in, object_at, operands_at, passed, ratings_at, AreOperandsBelow, AreRatingsBelow, IsCandidateBelow, IsObject};

use crate::candidate::{Candidate, candidates};
use crate::champion::{Choice, choose};
use crate::object::Object;
use crate::rating::{Ratings, rate};
use cxx_graph::Graph;
use cxx_model::{
    EvidenceList, FactId, Fault, FaultText, Listed, Operand, Place, Steps, Stop, Wait,
};
use cxx_types::TypeTable;
use std::alloc::{AllocError, Global};
use std::marker::Brand;
use std::sync::ledger::{Blank, Ledger};

/// A call that means a function.
#[derive(Drop)]
pub struct Decision<'t> {
    pub meant: Candidate<'t>,
    pub ratings: Ratings<'t>,
}

fn fault(
    alloc: Global,
    place: Place,
    text: FaultText,
    evidence: EvidenceList,
) -> Result<Box<Fault>, AllocError>
    ensures { IfOk result (λ at. Faulty at.value ≡ call_fault place text evidence) }
{
    Ok(Box::new(
        alloc,
        Fault {
            place,
            text,
            evidence,
        },
    )?)
}

fn not_built_at(alloc: Global, place: Place) -> Result<Box<Fault>, AllocError>
    ensures { IfOk result (λ at. Faulty at.value ≡ not_built place) }
{
    fault(alloc, place, FaultText::NotBuilt, Listed::new(alloc))
}

/// The function that is meant, or the fault of the call.
fn meant<'r, 't>(
    alloc: Global,
    types: &TypeTable,
    place: Place,
    object: Option<Object>,
    operands: &[Operand],
    ratings: &Ratings<'t>,
    choice: Choice<'r, 't>,
) -> Result<Candidate<'t>, Stop>
    requires { IsChoiceBelow (length types.now) choice }
    ensures is { Gives (λ one. decision_of place (object_at types.now object) (operands_at types.now operands.now) (ratings_at types.now object operands.now ratings.now) (candidate_at types.now one)) result (decided_by place (object_at types.now object) (operands_at types.now operands.now) (ratings_at types.now object operands.now ratings.now) (choice_at types.now object operands.now choice.entry)) }
    ensures below { IfOk result (IsCandidateBelow (length types.now)) }
{
    let _ = types;
    let _ = object;
    let _ = operands;
    let _ = ratings;
    match choice {
        Choice::Chosen(one) => Ok(one.candidate),
        Choice::NoneViable(evidence) => Err(Stop::Fault(fault(
            alloc,
            place,
            FaultText::NoViableFunction,
            evidence,
        )?)),
        Choice::Ambiguous(evidence) => Err(Stop::Fault(fault(
            alloc,
            place,
            FaultText::AmbiguousCall,
            evidence,
        )?)),
    }
}

fn decide_rated<'t, L: Ledger>(
    alloc: Global,
    graph: &Graph,
    types: &'t TypeTable,
    place: Place,
    object: Option<Object>,
    operands: &[Operand],
    ratings: Ratings<'t>,
    steps: &mut Steps<L>,
) -> Result<Decision<'t>, Stop>
    requires object { IfSome object (IsObject types.now) }
    requires operands { AreOperandsBelow (length types.now) operands.now }
    requires numbered { AreNumbered position_of 1 (ratings_at types.now object operands.now ratings) }
    requires ratings { AreRatingsBelow (length types.now) (length (passed object operands.now)) ratings }
    requires fitted { Fitted graph.now types.now }
    ensures is { Gives (decision_at types.now place object operands.now) result (decided_by place (object_at types.now object) (operands_at types.now operands.now) (ratings_at types.now object operands.now ratings.entry) (choice_of (graph_at types.now graph.now) (ratings_at types.now object operands.now ratings.entry))) }
    ensures below { IfOk result (IsDecisionBelow (length types.now) (length (passed object operands.now))) }
{
    let choice = choose(alloc, graph, types, object, operands, &ratings, steps)?;
    let meant = meant(alloc, types, place, object, operands, &ratings, choice)?;
    Ok(Decision { meant, ratings })
}

// The candidates of a call are known.
fn decide_among<'t, L: Ledger>(
    alloc: Global,
    graph: &Graph,
    types: &'t TypeTable,
    place: Place,
    object: Option<Object>,
    operands: &[Operand],
    all: &[Candidate<'t>],
    steps: &mut Steps<L>,
) -> Result<Decision<'t>, Stop>
    requires few { length operands.now ≤ limits.MOST_ARGUMENTS }
    requires object { IfSome object (IsObject types.now) }
    requires operands { AreOperandsBelow (length types.now) operands.now }
    requires numbered { AreNumbered place_among 1 (map (candidate_at types.now) all.now) }
    requires candidates { All (IsCandidateBelow (length types.now)) all.now }
    requires fitted { Fitted graph.now types.now }
    ensures is { Gives (decision_at types.now place object operands.now) result (decided_among place (object_at types.now object) (operands_at types.now operands.now) (graph_at types.now graph.now) (map (candidate_at types.now) all.now)) }
    ensures below { IfOk result (IsDecisionBelow (length types.now) (length (passed object operands.now))) }
{
    match rate(alloc, graph, types, object, operands, all) {
        Ok(ratings) => decide_rated(alloc, graph, types, place, object, operands, ratings, steps),
        Err(Wait::Needs(_)) => Err(Stop::Fault(not_built_at(alloc, place)?)),
        Err(Wait::OutOfMemory) => Err(Stop::OutOfMemory),
    }
}

#[tactic(auto, unfolding(crate::specs::Calls::decided))]
fn decide_by<'t, L: Ledger>(
    alloc: Global,
    graph: &Graph,
    types: &'t TypeTable,
    place: Place,
    object: Option<Object>,
    operands: &[Operand],
    found: &[FactId],
    blank: Blank,
) -> Result<Decision<'t>, Stop>
    requires few { length operands.now ≤ limits.MOST_ARGUMENTS }
    requires object { IfSome object (IsObject types.now) }
    requires operands { AreOperandsBelow (length types.now) operands.now }
    requires fitted { Fitted graph.now types.now }
    requires name { blank.name ≡ L.name }
    requires parts { blank.parts ≡ L.parts }
    requires some { 0 < blank.parts }
    ensures is { Gives (decision_at types.now place object operands.now) result (decided place (object_at types.now object) (operands_at types.now operands.now) (graph_at types.now graph.now) (numbered_in (graph_at types.now graph.now) found.now)) }
    ensures below { IfOk result (IsDecisionBelow (length types.now) (length (passed object operands.now))) }
{
    let all = candidates(alloc, graph, types, found)?;
    let mut steps = Steps::<L>::new(blank);
    decide_among(
        alloc, graph, types, place, object, operands, &all, &mut steps,
    )
}

/// Which function a call at a place means, by its object, where it has one, its arguments and the declarations `found` of
/// its name.
pub fn decide<'t>(
    alloc: Global,
    graph: &Graph,
    types: &'t TypeTable,
    place: Place,
    object: Option<Object>,
    operands: &[Operand],
    found: &[FactId],
) -> Result<Decision<'t>, Stop>
    requires few { length operands.now ≤ limits.MOST_ARGUMENTS }
    requires object { IfSome object (IsObject types.now) }
    requires operands { AreOperandsBelow (length types.now) operands.now }
    requires fitted { Fitted graph.now types.now }
    ensures is { Gives (decision_at types.now place object operands.now) result (decided place (object_at types.now object) (operands_at types.now operands.now) (graph_at types.now graph.now) (numbered_in (graph_at types.now graph.now) found.now)) }
    ensures below { IfOk result (IsDecisionBelow (length types.now) (length (passed object operands.now))) }
{
    decide_by::<Brand>(
        alloc,
        graph,
        types,
        place,
        object,
        operands,
        found,
        Blank::new(1),
    )
}

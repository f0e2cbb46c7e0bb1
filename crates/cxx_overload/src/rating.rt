//! Which candidates are viable, and why the others are not (13.3.2).

ghost use Rattle.std.specs.Prelude.{◌≡◌, ◌≤◌, ◌<◌, ◌++◌, length, map, Some, IfOk, IfSome, OnOk};
ghost use Rattle.std.specs.List.{All, cons_option};
ghost use Rattle.cxx_model.specs.declared.limits.TheConstants as limits;
ghost use Rattle.cxx_model.specs.declared.overload.Outcome.TheVariants.{Viable};
ghost use Rattle.cxx_model.specs.Facts.Declarations.{graph_at};
ghost use Rattle.cxx_model.specs.Facts.Fitted.{Fitted};
ghost use Rattle.cxx_meaning.specs.Conversions.Asking.{Gives};
ghost use Rattle.cxx_overload.specs.Choices.{position_of};
ghost use Rattle.cxx_overload.specs.Gathering.{AreNumbered, place_among};
ghost use Rattle.cxx_overload.specs.Viability.{by_arguments, by_call, by_object, misfit as misfit_of, rated as rated_of, rated_one};
ghost use Rattle.cxx_standard.specs.Views.{operand_at};
ghost use Rattle.cxx_overload.specs.Objects.{is_nonstatic};
ghost use Rattle.cxx_overload.specs.Views.{candidate_at, first_at, object_at, operands_at, passed, rated_at, ratings_at, AreOperandsBelow, AreRatingsBelow, FitsObject, Grows, IsCandidateBelow, IsObject, IsRatedBelow};

use crate::candidate::Candidate;
use crate::contender::push_some;
use crate::conversion::{Conversion, conversions, first_missing};
use crate::object::{Object, is_nonstatic, parameter_of};
use cxx_graph::Graph;
use cxx_model::{Operand, Outcome, Reason, Wait};
use cxx_standard::steps_between;
use cxx_types::TypeTable;
use std::alloc::{AllocError, Global};

/// A candidate, and whether it is viable.
#[derive(Clone, Copy)]
pub struct Rated<'t> {
    pub candidate: Candidate<'t>,
    pub outcome: Outcome,
    /// Where its conversions begin, if it is viable.
    pub row: usize,
}

/// The candidates of a call.
#[derive(Drop)]
pub struct Ratings<'t> {
    pub all: Vec<Rated<'t>>,
    /// Those of each viable candidate in turn: one for the object, where the call has one, and one for each argument.
    pub conversions: Vec<Conversion>,
}

/// Why a candidate does not take so many arguments.
#[tactic(auto, using(crate::proofs::Converting::count_types))]
fn misfit(types: &TypeTable, arguments: usize, candidate: &Candidate) -> Option<Reason>
    ensures { result ≡ misfit_of arguments (candidate_at types.now candidate.now) }
{
    let _ = types;
    let least = candidate
        .parameters
        .len()
        .saturating_sub(candidate.defaults as usize);
    if arguments < least {
        return Some(Reason::TooFewArguments);
    }
    if !candidate.ellipsis && candidate.parameters.len() < arguments {
        return Some(Reason::TooManyArguments);
    }
    None
}

fn put_aside<'t>(candidate: &Candidate<'t>, reason: Reason) -> Rated<'t>
    ensures { result ≡ record { candidate = candidate.now; outcome = Outcome.NotViable reason; row = 0 } }
{
    Rated {
        candidate: *candidate,
        outcome: Outcome::NotViable(reason),
        row: 0,
    }
}

/// A viable candidate, whose conversions join those of the others: that of the object, where the call has one, and those
/// of the arguments.
#[tactic(auto, using(crate::proofs::InTurn::kept_behind))]
fn keep<'t>(
    conversions: &mut Vec<Conversion>,
    candidate: &Candidate<'t>,
    first: Option<Conversion>,
    found: &[Conversion],
) -> Result<Rated<'t>, AllocError>
    ensures is { IfOk result (λ one. one ≡ record { candidate = candidate.now; outcome = Viable; row = length conversions.old.items }) }
    ensures grows { OnOk result (conversions.new.items ≡ conversions.old.items ++ cons_option first found.now) }
{
    let row = conversions.len();
    push_some(conversions, first)?;
    conversions.extend_from_slice(found)?;
    Ok(Rated {
        candidate: *candidate,
        outcome: Outcome::Viable,
        row,
    })
}

/// A candidate that takes so many arguments, and takes the object by this conversion, where the call has one.
fn rate_converted<'t>(
    conversions_of_all: &mut Vec<Conversion>,
    alloc: Global,
    graph: &Graph,
    types: &TypeTable,
    object: Option<Object>,
    first: Option<Conversion>,
    operands: &[Operand],
    candidate: &Candidate<'t>,
) -> Result<Rated<'t>, Wait>
    requires few { length operands.now ≤ limits.MOST_ARGUMENTS }
    requires first { FitsObject object first }
    requires operands { AreOperandsBelow (length types.now) operands.now }
    requires candidate { IsCandidateBelow (length types.now) candidate.now }
    requires fitted { Fitted graph.now types.now }
    ensures is { Gives (rated_at types.now object operands.now conversions_of_all.new.items) result (by_arguments (graph_at types.now graph.now) (operands_at types.now operands.now) (candidate_at types.now candidate.now) (first_at types.now object candidate.now first)) }
    ensures grows { OnOk result (Grows conversions_of_all.old.items conversions_of_all.new.items) }
    ensures below { IfOk result (IsRatedBelow (length types.now) (length (passed object operands.now)) (length conversions_of_all.new.items)) }
{
    let found = conversions(
        alloc,
        graph,
        types,
        operands,
        candidate.parameters,
        candidate.ellipsis,
    )?;
    match first_missing(&found) {
        None => Ok(keep(conversions_of_all, candidate, first, &found)?),
        Some(argument) => Ok(put_aside(candidate, Reason::NoConversion(argument))),
    }
}

/// A candidate that takes so many arguments, in a call with an object.
fn rate_of_object<'t>(
    conversions_of_all: &mut Vec<Conversion>,
    alloc: Global,
    graph: &Graph,
    types: &TypeTable,
    object: Object,
    operands: &[Operand],
    candidate: &Candidate<'t>,
) -> Result<Rated<'t>, Wait>
    requires few { length operands.now ≤ limits.MOST_ARGUMENTS }
    requires object { IsObject types.now object }
    requires operands { AreOperandsBelow (length types.now) operands.now }
    requires candidate { IsCandidateBelow (length types.now) candidate.now }
    requires fitted { Fitted graph.now types.now }
    ensures is { Gives (rated_at types.now (Some object) operands.now conversions_of_all.new.items) result (by_object (graph_at types.now graph.now) (operand_at types.now object.operand) (operands_at types.now operands.now) (candidate_at types.now candidate.now) (is_nonstatic (candidate.now).member)) }
    ensures grows { OnOk result (Grows conversions_of_all.old.items conversions_of_all.new.items) }
    ensures below { IfOk result (IsRatedBelow (length types.now) (length (passed (Some object) operands.now)) (length conversions_of_all.new.items)) }
{
    if !is_nonstatic(candidate.member) {
        return rate_converted(
            conversions_of_all,
            alloc,
            graph,
            types,
            Some(object),
            Some(Conversion::Missing),
            operands,
            candidate,
        );
    }
    let parameter = parameter_of(types, object, candidate.cv);
    match steps_between(alloc, graph, types, object.operand, parameter)? {
        None => Ok(put_aside(candidate, Reason::ObjectNoConversion)),
        Some(steps) => rate_converted(
            conversions_of_all,
            alloc,
            graph,
            types,
            Some(object),
            Some(Conversion::Standard(steps)),
            operands,
            candidate,
        ),
    }
}

/// A candidate that takes so many arguments.
fn rate_fitting<'t>(
    conversions_of_all: &mut Vec<Conversion>,
    alloc: Global,
    graph: &Graph,
    types: &TypeTable,
    object: Option<Object>,
    operands: &[Operand],
    candidate: &Candidate<'t>,
) -> Result<Rated<'t>, Wait>
    requires few { length operands.now ≤ limits.MOST_ARGUMENTS }
    requires object { IfSome object (IsObject types.now) }
    requires operands { AreOperandsBelow (length types.now) operands.now }
    requires candidate { IsCandidateBelow (length types.now) candidate.now }
    requires fitted { Fitted graph.now types.now }
    ensures is { Gives (rated_at types.now object operands.now conversions_of_all.new.items) result (by_call (graph_at types.now graph.now) (object_at types.now object) (operands_at types.now operands.now) (candidate_at types.now candidate.now)) }
    ensures grows { OnOk result (Grows conversions_of_all.old.items conversions_of_all.new.items) }
    ensures below { IfOk result (IsRatedBelow (length types.now) (length (passed object operands.now)) (length conversions_of_all.new.items)) }
{
    match object {
        None => rate_converted(
            conversions_of_all,
            alloc,
            graph,
            types,
            None,
            None,
            operands,
            candidate,
        ),
        Some(object) => rate_of_object(
            conversions_of_all,
            alloc,
            graph,
            types,
            object,
            operands,
            candidate,
        ),
    }
}

/// One candidate: whether it is viable. Where it is, its conversions join those of the others.
#[tactic(auto, unfolding(crate::specs::Viability::rated_one))]
fn rate_one<'t>(
    conversions_of_all: &mut Vec<Conversion>,
    alloc: Global,
    graph: &Graph,
    types: &TypeTable,
    object: Option<Object>,
    operands: &[Operand],
    candidate: &Candidate<'t>,
) -> Result<Rated<'t>, Wait>
    requires few { length operands.now ≤ limits.MOST_ARGUMENTS }
    requires object { IfSome object (IsObject types.now) }
    requires operands { AreOperandsBelow (length types.now) operands.now }
    requires candidate { IsCandidateBelow (length types.now) candidate.now }
    requires fitted { Fitted graph.now types.now }
    ensures is { Gives (rated_at types.now object operands.now conversions_of_all.new.items) result (rated_one (graph_at types.now graph.now) (object_at types.now object) (operands_at types.now operands.now) (candidate_at types.now candidate.now)) }
    ensures grows { OnOk result (Grows conversions_of_all.old.items conversions_of_all.new.items) }
    ensures below { IfOk result (IsRatedBelow (length types.now) (length (passed object operands.now)) (length conversions_of_all.new.items)) }
{
    match misfit(types, operands.len(), candidate) {
        Some(reason) => Ok(put_aside(candidate, reason)),
        None => rate_fitting(
            conversions_of_all,
            alloc,
            graph,
            types,
            object,
            operands,
            candidate,
        ),
    }
}

/// Whether each candidate is viable, and how the object, where the call has one, and the arguments are converted to the
/// parameters of those that are.
pub fn rate<'t>(
    alloc: Global,
    graph: &Graph,
    types: &TypeTable,
    object: Option<Object>,
    operands: &[Operand],
    candidates: &[Candidate<'t>],
) -> Result<Ratings<'t>, Wait>
    requires few { length operands.now ≤ limits.MOST_ARGUMENTS }
    requires object { IfSome object (IsObject types.now) }
    requires operands { AreOperandsBelow (length types.now) operands.now }
    requires candidates { All (IsCandidateBelow (length types.now)) candidates.now }
    requires fitted { Fitted graph.now types.now }
    ensures is { Gives (ratings_at types.now object operands.now) result (rated_of (graph_at types.now graph.now) (object_at types.now object) (operands_at types.now operands.now) (map (candidate_at types.now) candidates.now)) }
    ensures below { IfOk result (AreRatingsBelow (length types.now) (length (passed object operands.now))) }
    ensures numbered { AreNumbered place_among 1 (map (candidate_at types.now) candidates.now) → IfOk result (λ found. AreNumbered position_of 1 (ratings_at types.now object operands.now found)) }
{
    let mut all = Vec::new(alloc);
    let mut conversions = Vec::new(alloc);
    for candidate in candidates {
        let one = rate_one(
            &mut conversions,
            alloc,
            graph,
            types,
            object,
            operands,
            candidate,
        )?;
        all.push(one)?;
    }
    Ok(Ratings { all, conversions })
}

//! The viable candidates, and what a report says of candidates (13.3.2).

ghost use Rattle.std.specs.Prelude.{◌≡◌, length, map, option_map, Some, None, if◌then◌else◌, IfOk, OnOk, IfSome};
ghost use Rattle.std.specs.List.{All};
ghost use Rattle.cxx_overload.specs.Choices.{refusal as refusal_of, refusals as refusals_of, shown as shown_of};
ghost use Rattle.cxx_overload.specs.Viability.{is_viable, viable as viable_of};
ghost use Rattle.cxx_overload.specs.Contests.{contender_at, contenders_at, IsContenderBelow};
ghost use Rattle.cxx_overload.specs.Views.{candidate_at, passed, rated_at, ratings_at, with_option, AreRatingsBelow, IsRatedBelow};

use crate::candidate::Candidate;
use crate::conversion::Conversion;
use crate::object::Object;
use crate::rating::{Rated, Ratings};
use cxx_model::{Evidence, EvidenceList, Operand, Outcome, Shown};
use cxx_types::TypeTable;
use std::alloc::{AllocError, Global};

/// A viable candidate, and how the object and the arguments are converted to its parameters.
#[derive(Clone, Copy)]
pub struct Contender<'r, 't> {
    pub candidate: Candidate<'t>,
    /// One for the object, where the call has one, one for each argument, and what stands behind them.
    pub conversions: &'r [Conversion],
}

/// Adds what is there, at the end.
pub(crate) fn push_some<T: Drop>(items: &mut Vec<T>, item: Option<T>) -> Result<(), AllocError>
    ensures { OnOk result (items.new.items ≡ with_option items.old.items item) }
{
    match item {
        None => Ok(()),
        Some(item) => Ok(items.push(item)?),
    }
}

fn contender_of<'r, 't>(
    types: &TypeTable,
    object: Option<Object>,
    operands: &[Operand],
    conversions: &'r [Conversion],
    one: &Rated<'t>,
) -> Option<Contender<'r, 't>>
    requires { IsRatedBelow (length types.now) (length (passed object operands.now)) (length conversions.now) one.now }
    ensures is { option_map (contender_at types.now object operands.now) result ≡ (if is_viable (rated_at types.now object operands.now conversions.now one.now).outcome then Some (rated_at types.now object operands.now conversions.now one.now) else None) }
    ensures below { IfSome result (IsContenderBelow (length types.now)) }
{
    let _ = types;
    let _ = object;
    let _ = operands;
    match one.outcome {
        Outcome::Viable => Some(Contender {
            candidate: one.candidate,
            conversions: &conversions[one.row..],
        }),
        Outcome::NotViable(_) => None,
    }
}

/// The viable candidates, in order.
pub fn contenders<'r, 't>(
    alloc: Global,
    types: &TypeTable,
    object: Option<Object>,
    operands: &[Operand],
    ratings: &'r Ratings<'t>,
) -> Result<Vec<Contender<'r, 't>>, AllocError>
    requires { AreRatingsBelow (length types.now) (length (passed object operands.now)) ratings.now }
    ensures viable { IfOk result (λ found. contenders_at types.now object operands.now found.items ≡ viable_of (ratings_at types.now object operands.now ratings.now)) }
    ensures below { IfOk result (λ found. All (IsContenderBelow (length types.now)) found.items) }
{
    let conversions = ratings.conversions.as_slice();
    let mut found = Vec::new(alloc);
    for one in &ratings.all {
        push_some(
            &mut found,
            contender_of(types, object, operands, conversions, one),
        )?;
    }
    Ok(found)
}

pub(crate) fn shown(types: &TypeTable, candidate: &Candidate) -> Shown
    ensures { result ≡ shown_of (candidate_at types.now candidate.now) }
{
    let _ = types;
    Shown::Declared(candidate.position, candidate.place)
}

fn refusal(
    types: &TypeTable,
    object: Option<Object>,
    operands: &[Operand],
    conversions: &[Conversion],
    one: &Rated,
) -> Option<Evidence>
    ensures { result ≡ refusal_of (rated_at types.now object operands.now conversions.now one.now) }
{
    let _ = object;
    let _ = operands;
    let _ = conversions;
    match one.outcome {
        Outcome::Viable => None,
        Outcome::NotViable(reason) => {
            Some(Evidence::Refused(shown(types, &one.candidate), reason))
        }
    }
}

/// Why each candidate that is not viable is not.
#[tactic(auto, unfolding(crate::specs::Choices::refusals))]
pub fn refusals(
    alloc: Global,
    types: &TypeTable,
    object: Option<Object>,
    operands: &[Operand],
    ratings: &Ratings,
) -> Result<EvidenceList, AllocError>
    ensures { IfOk result (λ evidence. evidence ≡ refusals_of (ratings_at types.now object operands.now ratings.now)) }
{
    let conversions = ratings.conversions.as_slice();
    let mut evidence = Vec::new(alloc);
    for one in &ratings.all {
        push_some(
            &mut evidence,
            refusal(types, object, operands, conversions, one),
        )?;
    }
    Ok(EvidenceList::from_vec(evidence))
}

//! What is kept of a call that was decided (13.3).

ghost use Rattle.std.specs.Prelude.{◌≡◌, ◌++◌, [], ◌∷◌, length, map, IfOk, IfSome};
ghost use Rattle.std.specs.List.{All};
ghost use Rattle.cxx_answers.specs.Ruled.{IsCallBelow};
ghost use Rattle.cxx_overload.specs.Calls.{number_of, outcome_of, row_of, standards};
ghost use Rattle.cxx_overload.specs.Contests.{contender_at, contenders_at, IsContenderBelow};
ghost use Rattle.cxx_overload.specs.Decisions.{decision_at, IsDecisionBelow};
ghost use Rattle.cxx_overload.specs.Views.{object_at, passed, rated_at, AreOperandsBelow, IsObject};
ghost use Rattle.cxx_tree.specs.Held.{call_at, numbers_at, row_at, rows_at, sequences_at, AreRowsBelow, AreSequencesBelow};

use cxx_model::{
    FactList, Listed, Operand, OperandList, Outcome, OutcomeList, Place, StandardSequence,
    TypeIdList,
};
use cxx_overload::{
    Contender, Conversion, Decision, Object, Rated, Ratings, contenders, parameters_met,
    standard_sequences,
};
use cxx_tree::{Contending, ContendingList, Decided};
use cxx_types::TypeTable;
use std::alloc::{AllocError, Global};

// The declarations of the candidates.
#[tactic(auto, using(crate::proofs::Records::numbers_step))]
fn numbers(
    alloc: Global,
    types: &TypeTable,
    object: Option<Object>,
    operands: &[Operand],
    conversions: &[Conversion],
    all: &[Rated],
) -> Result<FactList, AllocError>
    ensures { IfOk result (λ found. numbers_at found ≡ map number_of (map (rated_at types.now object operands.now conversions.now) all.now)) }
{
    let _ = types;
    let _ = object;
    let _ = operands;
    let _ = conversions;
    let mut found = Listed::new(alloc);
    for one in all {
        found.push(one.candidate.number)?;
    }
    Ok(found)
}

// Whether each candidate is viable.
fn outcomes(
    alloc: Global,
    types: &TypeTable,
    object: Option<Object>,
    operands: &[Operand],
    conversions: &[Conversion],
    all: &[Rated],
) -> Result<OutcomeList, AllocError>
    ensures { IfOk result (λ found. found ≡ map outcome_of (map (rated_at types.now object operands.now conversions.now) all.now)) }
{
    let _ = types;
    let _ = object;
    let _ = operands;
    let _ = conversions;
    let mut found: Listed<Outcome> = Listed::new(alloc);
    for one in all {
        found.push(one.outcome)?;
    }
    Ok(found)
}

// The standard sequences of a viable candidate.
#[tactic(auto, using(crate::proofs::Records::sequences_same, crate::proofs::Records::sequences_below))]
fn sequences(
    alloc: Global,
    types: &TypeTable,
    object: Option<Object>,
    operands: &[Operand],
    one: &Contender,
) -> Result<Listed<StandardSequence>, AllocError>
    requires object { IfSome object (IsObject types.now) }
    requires operands { AreOperandsBelow (length types.now) operands.now }
    requires contender { IsContenderBelow (length types.now) one.now }
    ensures is { IfOk result (λ found. sequences_at types.now found ≡ standards (contender_at types.now object operands.now one.now).sequences) }
    ensures below { IfOk result (AreSequencesBelow (length types.now)) }
{
    let found = standard_sequences(alloc, types, object, operands, one)?;
    Ok(Listed::from_vec(found))
}

// The row of a viable candidate (13.3.3). What the object meets comes before what the arguments meet.
#[tactic(auto, using(crate::proofs::Records::parameters_same))]
fn row(
    alloc: Global,
    types: &TypeTable,
    object: Option<Object>,
    operands: &[Operand],
    one: &Contender,
) -> Result<Contending, AllocError>
    requires object { IfSome object (IsObject types.now) }
    requires operands { AreOperandsBelow (length types.now) operands.now }
    requires contender { IsContenderBelow (length types.now) one.now }
    ensures is { IfOk result (λ row. row_at types.now row ≡ row_of (object_at types.now object) (contender_at types.now object operands.now one.now)) }
    ensures below { IfOk result (λ row. AreRowsBelow (length types.now) (row ∷ [])) }
{
    let parameters = parameters_met(alloc, types, object, &one.candidate)?;
    Ok(Contending {
        position: one.candidate.position,
        parameters: TypeIdList::from_vec(parameters),
        sequences: sequences(alloc, types, object, operands, one)?,
    })
}

#[tactic(auto, using(crate::proofs::Records::rows_step, crate::proofs::Records::rows_below_more))]
fn rows(
    alloc: Global,
    types: &TypeTable,
    object: Option<Object>,
    operands: &[Operand],
    viable: &[Contender],
) -> Result<ContendingList, AllocError>
    requires object { IfSome object (IsObject types.now) }
    requires operands { AreOperandsBelow (length types.now) operands.now }
    requires viable { All (IsContenderBelow (length types.now)) viable.now }
    ensures is { IfOk result (λ found. rows_at types.now found ≡ map (row_of (object_at types.now object)) (contenders_at types.now object operands.now viable.now)) }
    ensures below { IfOk result (AreRowsBelow (length types.now)) }
{
    let mut found = Listed::new(alloc);
    for one in viable {
        let row = row(alloc, types, object, operands, one)?;
        found.push(row)?;
    }
    Ok(found)
}

// The object of a call, where it has one, before the arguments.
fn with_object(
    alloc: Global,
    object: Option<Object>,
    operands: OperandList,
) -> Result<OperandList, AllocError>
    ensures { IfOk result (λ all. all ≡ passed object operands) }
{
    let Some(object) = object else {
        return Ok(operands);
    };
    let mut all = Vec::new(alloc);
    all.push(object.operand)?;
    all.extend_from_slice(operands.as_slice())?;
    Ok(OperandList::from_vec(all))
}

/// What is kept of a call, with its operands: the object, where it has one, and the arguments.
#[tactic(auto, using(crate::proofs::Records::operands_passed, crate::proofs::Records::passed_below))]
pub(crate) fn decided(
    alloc: Global,
    types: &TypeTable,
    place: Place,
    object: Option<Object>,
    operands: OperandList,
    decision: &Decision,
) -> Result<Decided, AllocError>
    requires object { IfSome object (IsObject types.now) }
    requires operands { AreOperandsBelow (length types.now) operands }
    requires decision { IsDecisionBelow (length types.now) (length (passed object operands)) decision.now }
    ensures is { IfOk result (λ call. call_at types.now call ≡ (decision_at types.now place object operands decision.now).call) }
    ensures below { IfOk result (IsCallBelow (length types.now)) }
    ensures place { IfOk result (λ call. call.place ≡ place) }
{
    let ratings = &decision.ratings;
    let conversions = ratings.conversions.as_slice();
    let all = ratings.all.as_slice();
    let arguments = operands.as_slice();
    let viable = contenders(alloc, types, object, arguments, ratings)?;
    let candidates = numbers(alloc, types, object, arguments, conversions, all)?;
    let outcomes = outcomes(alloc, types, object, arguments, conversions, all)?;
    let rows = rows(alloc, types, object, arguments, &viable)?;
    Ok(Decided {
        place,
        operands: with_object(alloc, object, operands)?,
        candidates,
        outcomes,
        rows,
        chosen: decision.meant.position,
    })
}

//! What is kept of a viable candidate of a call (13.3.3).

ghost use Rattle.std.specs.Prelude.{◌≡◌, ◌++◌, ◌<◌, length, map, option_map, Some, IfOk, IfSome, OnOk};
ghost use Rattle.std.specs.List.{All};
ghost use Rattle.cxx_model.specs.Types.Numbers.{type_at, AreTypesBelow};
ghost use Rattle.cxx_standard.specs.Views.{sequence_at as standard_sequence_at, IsSequenceBelow};
ghost use Rattle.cxx_overload.specs.Calls.{standards};
ghost use Rattle.cxx_overload.specs.Contests.{contender_at, IsContenderBelow};
ghost use Rattle.cxx_overload.specs.Kept.{standard_of};
ghost use Rattle.cxx_overload.specs.Objects.{implicit_parameter as implicit_parameter_of, parameters_met as parameters_met_by};
ghost use Rattle.cxx_overload.specs.Views.{candidate_at, listed_at, object_at, row_at, sequence_found, AreOperandsBelow, IsCandidateBelow, IsObject, IsSequenceFoundBelow};

use crate::candidate::Candidate;
use crate::contender::{Contender, push_some};
use crate::conversion::{Conversion, behind};
use crate::object::{Object, is_nonstatic, parameter_of};
use crate::order::{sequence, sequence_of_object};
use cxx_model::{Operand, Sequence, StandardSequence, TypeId};
use cxx_types::TypeTable;
use std::alloc::{AllocError, Global};

/// Adds a sequence, if it is a standard one.
fn push_standard(
    found: &mut Vec<StandardSequence>,
    types: &TypeTable,
    one: Sequence,
) -> Result<(), AllocError>
    requires { IsSequenceFoundBelow (length types.now) one }
    ensures is { OnOk result (map (standard_sequence_at types.now) found.new.items ≡ map (standard_sequence_at types.now) found.old.items ++ standard_of (sequence_found types.now one)) }
    ensures below { All (IsSequenceBelow (length types.now)) found.old.items → OnOk result (All (IsSequenceBelow (length types.now)) found.new.items) }
{
    let _ = types;
    match one {
        Sequence::Standard(one) => Ok(found.push(one)?),
        _ => Ok(()),
    }
}

/// Adds the standard sequences of some arguments. One that meets the ellipsis has none.
#[tactic(auto, using(crate::proofs::Keeping::standards_first, crate::proofs::Converting::types_behind))]
fn push_arguments(
    found: &mut Vec<StandardSequence>,
    types: &TypeTable,
    operands: &[Operand],
    parameters: &[TypeId],
    conversions: &[Conversion],
) -> Result<(), AllocError>
    requires operands { AreOperandsBelow (length types.now) operands.now }
    requires parameters { AreTypesBelow (length types.now) parameters.now }
    requires below { All (IsSequenceBelow (length types.now)) found.old.items }
    ensures is { OnOk result (map (standard_sequence_at types.now) found.new.items ≡ map (standard_sequence_at types.now) found.old.items ++ standards (row_at types.now operands.now parameters.now conversions.now)) }
    ensures below { OnOk result (All (IsSequenceBelow (length types.now)) found.new.items) }
{
    let mut left = operands;
    let (mut parameters, mut conversions) = (parameters, conversions);
    while let [operand, others @ ..] = left {
        let [conversion, other_conversions @ ..] = conversions else {
            return Ok(());
        };
        push_standard(
            found,
            types,
            sequence(types, *operand, *conversion, parameters),
        )?;
        left = others;
        (parameters, conversions) = (behind(parameters), other_conversions);
    }
    Ok(())
}

/// The same of the object and the arguments.
#[tactic(auto, using(crate::proofs::Keeping::standards_first, crate::proofs::Keeping::first_parameter))]
fn push_all(
    found: &mut Vec<StandardSequence>,
    types: &TypeTable,
    object: Object,
    operands: &[Operand],
    one: &Contender,
) -> Result<(), AllocError>
    requires object { IsObject types.now object }
    requires operands { AreOperandsBelow (length types.now) operands.now }
    requires contender { IsContenderBelow (length types.now) one.now }
    requires below { All (IsSequenceBelow (length types.now)) found.old.items }
    ensures is { OnOk result (map (standard_sequence_at types.now) found.new.items ≡ map (standard_sequence_at types.now) found.old.items ++ standards (contender_at types.now (Some object) operands.now one.now).sequences) }
    ensures below { OnOk result (All (IsSequenceBelow (length types.now)) found.new.items) }
{
    let [conversion, conversions @ ..] = one.conversions else {
        return Ok(());
    };
    let first = sequence_of_object(types, object, *conversion, one.candidate.cv);
    push_standard(found, types, first)?;
    push_arguments(
        found,
        types,
        operands,
        one.candidate.parameters,
        conversions,
    )
}

/// The standard sequences of the object, where the call has one, and of the arguments of a viable candidate. What meets
/// no parameter has none.
pub fn standard_sequences(
    alloc: Global,
    types: &TypeTable,
    object: Option<Object>,
    operands: &[Operand],
    one: &Contender,
) -> Result<Vec<StandardSequence>, AllocError>
    requires object { IfSome object (IsObject types.now) }
    requires operands { AreOperandsBelow (length types.now) operands.now }
    requires contender { IsContenderBelow (length types.now) one.now }
    ensures is { IfOk result (λ found. map (standard_sequence_at types.now) found.items ≡ standards (contender_at types.now object operands.now one.now).sequences) }
    ensures below { IfOk result (λ found. All (IsSequenceBelow (length types.now)) found.items) }
{
    let mut found = Vec::new(alloc);
    match object {
        None => push_arguments(
            &mut found,
            types,
            operands,
            one.candidate.parameters,
            one.conversions,
        )?,
        Some(object) => push_all(&mut found, types, object, operands, one)?,
    }
    Ok(found)
}

/// The implicit object parameter of a candidate, where the call has an object and it is a nonstatic member function.
fn implicit_parameter(
    types: &TypeTable,
    object: Option<Object>,
    candidate: &Candidate,
) -> Option<TypeId>
    requires { IfSome object (IsObject types.now) }
    ensures is { option_map (λ number. type_at types.now number.0) result ≡ implicit_parameter_of (object_at types.now object) (candidate_at types.now candidate.now) }
    ensures below { IfSome result (λ number. number.0 < length types.now) }
{
    let object = object?;
    if is_nonstatic(candidate.member) {
        return Some(parameter_of(types, object, candidate.cv));
    }
    None
}

/// What the object, where the call has one, and the arguments meet, as far as there are parameters.
#[tactic(auto, using(crate::proofs::Keeping::met_listed, crate::proofs::Keeping::met_below))]
pub fn parameters_met(
    alloc: Global,
    types: &TypeTable,
    object: Option<Object>,
    candidate: &Candidate,
) -> Result<Vec<TypeId>, AllocError>
    requires object { IfSome object (IsObject types.now) }
    requires candidate { IsCandidateBelow (length types.now) candidate.now }
    ensures is { IfOk result (λ found. listed_at types.now found.items ≡ parameters_met_by (object_at types.now object) (candidate_at types.now candidate.now)) }
    ensures below { IfOk result (λ found. AreTypesBelow (length types.now) found.items) }
{
    let mut found = Vec::new(alloc);
    push_some(&mut found, implicit_parameter(types, object, candidate))?;
    found.extend_from_slice(candidate.parameters)?;
    Ok(found)
}

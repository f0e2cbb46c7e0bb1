//! How arguments are converted to parameters (13.3.3.1).

ghost use Rattle.std.specs.Prelude.{◌≡◌, ◌≤◌, ◌<◌, length, IfOk};
ghost use Rattle.cxx_model.specs.declared.limits.TheConstants as limits;
ghost use Rattle.cxx_model.specs.Facts.Declarations.{graph_at};
ghost use Rattle.cxx_model.specs.Facts.Fitted.{Fitted};
ghost use Rattle.cxx_model.specs.Types.Numbers.{AreTypesBelow};
ghost use Rattle.cxx_meaning.specs.Conversions.Asking.{Gives};
ghost use Rattle.cxx_standard.specs.Views.{operand_at};
ghost use Rattle.cxx_overload.specs.Asking.{conversion_beyond, conversion_of, first_missing as first_missing_of, is_missing as is_missing_one};
ghost use Rattle.cxx_overload.specs.Sequences.{behind as behind_first, sequence_of, sequences_of};
ghost use Rattle.cxx_overload.specs.Views.{listed_at, operands_at, row_at, sequence_at, AreOperandsBelow};

use cxx_graph::Graph;
use cxx_meaning::SequenceSteps;
use cxx_model::{Operand, TypeId, Wait};
use cxx_standard::steps_between;
use cxx_types::TypeTable;
use std::alloc::Global;

/// How an argument is converted: what of its sequence neither the argument nor the parameter tells.
#[derive(Clone, Copy)]
pub enum Conversion {
    /// By a standard sequence with these steps.
    Standard(SequenceSteps),
    /// It meets the ellipsis.
    Ellipsis,
    /// There is no sequence.
    Missing,
}

// ---- one argument

fn conversion_by(steps: Option<SequenceSteps>) -> Conversion
    ensures { result ≡ conversion_of steps }
{
    match steps {
        None => Conversion::Missing,
        Some(steps) => Conversion::Standard(steps),
    }
}

/// Behind the last parameter.
fn beyond(ellipsis: bool) -> Conversion
    ensures { result ≡ conversion_beyond ellipsis }
{
    if ellipsis {
        Conversion::Ellipsis
    } else {
        Conversion::Missing
    }
}

/// How an argument is converted to a parameter.
fn conversion_to(
    alloc: Global,
    graph: &Graph,
    types: &TypeTable,
    operand: Operand,
    parameters: &[TypeId],
    ellipsis: bool,
) -> Result<Conversion, Wait>
    requires operand { operand.of.0 < length types.now }
    requires parameters { AreTypesBelow (length types.now) parameters.now }
    requires fitted { Fitted graph.now types.now }
    ensures { Gives (λ found. sequence_at types.now operand found parameters.now) result (sequence_of (graph_at types.now graph.now) (operand_at types.now operand) (listed_at types.now parameters.now) ellipsis) }
{
    match parameters {
        [] => Ok(beyond(ellipsis)),
        [parameter, ..] => Ok(conversion_by(steps_between(
            alloc, graph, types, operand, *parameter,
        )?)),
    }
}

pub(crate) fn behind(parameters: &[TypeId]) -> &[TypeId]
    ensures { result.now ≡ behind_first parameters.now }
{
    match parameters {
        [] => parameters,
        [_, others @ ..] => others,
    }
}

// ---- all arguments

/// How each argument is converted to its parameter.
#[tactic(auto, using(crate::proofs::Converting::types_behind))]
pub(crate) fn conversions(
    alloc: Global,
    graph: &Graph,
    types: &TypeTable,
    operands: &[Operand],
    parameters: &[TypeId],
    ellipsis: bool,
) -> Result<Vec<Conversion>, Wait>
    requires operands { AreOperandsBelow (length types.now) operands.now }
    requires parameters { AreTypesBelow (length types.now) parameters.now }
    requires fitted { Fitted graph.now types.now }
    ensures is { Gives (λ found. row_at types.now operands.now parameters.now found.items) result (sequences_of (graph_at types.now graph.now) (operands_at types.now operands.now) (listed_at types.now parameters.now) ellipsis) }
    ensures count { IfOk result (λ found. length found.items ≡ length operands.now) }
{
    let mut found = Vec::new(alloc);
    let mut left = parameters;
    for operand in operands {
        let one = conversion_to(alloc, graph, types, *operand, left, ellipsis)?;
        found.push(one)?;
        left = behind(left);
    }
    Ok(found)
}

fn is_missing(one: Conversion) -> bool
    ensures { result ≡ is_missing_one one }
{
    match one {
        Conversion::Standard(_) => false,
        Conversion::Ellipsis => false,
        Conversion::Missing => true,
    }
}

/// The first argument, from 1, that is not converted.
#[tactic(auto, using(crate::proofs::Converting::missing_here, crate::proofs::Converting::missing_later))]
pub(crate) fn first_missing(conversions: &[Conversion]) -> Option<u32>
    requires { length conversions.now ≤ limits.MOST_ARGUMENTS }
    ensures { result ≡ first_missing_of 1 conversions.now }
{
    for (i, one) in conversions.iter().enumerate() {
        if is_missing(*one) {
            return Some(i as u32 + 1);
        }
    }
    None
}

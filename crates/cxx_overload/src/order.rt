//! Which of two functions is better for the arguments (13.3.3).

ghost use Rattle.std.specs.Prelude.{◌≡◌, ◌<◌, [], ◌∷◌, length, Some};
ghost use Rattle.cxx_model.specs.Choice.Better.{compared, is_better_order, is_worse_order};
ghost use Rattle.cxx_model.specs.Facts.Declarations.{graph_at};
ghost use Rattle.cxx_model.specs.Facts.Fitted.{Fitted};
ghost use Rattle.cxx_model.specs.Types.Numbers.{AreTypesBelow};
ghost use Rattle.cxx_standard.specs.Views.{Computes};
ghost use Rattle.cxx_overload.specs.Sequences.{is_better_by, order_between as order_of_sequences};
ghost use Rattle.cxx_overload.specs.Views.{parameter_for, passed, row_at, sequence_at, sequence_found, standard_at, AreOperandsBelow, IsObject, IsSequenceFoundBelow};

use crate::conversion::{Conversion, behind};
use crate::object::{Object, parameter_of};
use cxx_graph::Graph;
use cxx_meaning::SequenceSteps;
use cxx_model::{Cv, Operand, Order, OutOfMemory, Sequence, StandardSequence, TypeId};
use cxx_standard::compare;
use cxx_types::TypeTable;
use std::alloc::Global;

// ---- sequences

fn standard(
    types: &TypeTable,
    operand: Operand,
    steps: SequenceSteps,
    parameters: &[TypeId],
) -> Sequence
    requires operand { operand.of.0 < length types.now }
    requires parameters { AreTypesBelow (length types.now) parameters.now }
    ensures is { sequence_found types.now result ≡ standard_at types.now operand steps parameters.now }
    ensures below { IsSequenceFoundBelow (length types.now) result }
{
    let _ = types;
    match parameters {
        [] => Sequence::Ellipsis,
        [parameter, ..] => Sequence::Standard(StandardSequence {
            from: operand,
            to: *parameter,
            first: steps.first,
            second: steps.second,
            third: steps.third,
            binding: steps.binding,
        }),
    }
}

/// How an argument is converted, with the parameters from its own on.
pub(crate) fn sequence(
    types: &TypeTable,
    operand: Operand,
    conversion: Conversion,
    parameters: &[TypeId],
) -> Sequence
    requires operand { operand.of.0 < length types.now }
    requires parameters { AreTypesBelow (length types.now) parameters.now }
    ensures is { sequence_found types.now result ≡ sequence_at types.now operand conversion parameters.now }
    ensures below { IsSequenceFoundBelow (length types.now) result }
{
    match conversion {
        Conversion::Standard(steps) => standard(types, operand, steps, parameters),
        Conversion::Ellipsis => Sequence::Ellipsis,
        Conversion::Missing => Sequence::NoSequence,
    }
}

/// How the object of a call is converted, for a function with some words behind its parameter list.
pub(crate) fn sequence_of_object(
    types: &TypeTable,
    object: Object,
    conversion: Conversion,
    cv: Cv,
) -> Sequence
    requires { IsObject types.now object }
    ensures is { sequence_found types.now result ≡ sequence_at types.now object.operand conversion (parameter_for object cv ∷ []) }
    ensures below { IsSequenceFoundBelow (length types.now) result }
{
    let parameters = [parameter_of(types, object, cv)];
    sequence(types, object.operand, conversion, &parameters)
}

/// How one sequence stands to another (13.3.3.2).
fn order_between(
    alloc: Global,
    graph: &Graph,
    types: &TypeTable,
    one: &Sequence,
    two: &Sequence,
) -> Result<Order, OutOfMemory>
    requires one_below { IsSequenceFoundBelow (length types.now) one.now }
    requires two_below { IsSequenceFoundBelow (length types.now) two.now }
    requires fitted { Fitted graph.now types.now }
    ensures { Computes result (order_of_sequences (graph_at types.now graph.now) (sequence_found types.now one.now) (sequence_found types.now two.now)) }
{
    match (one, two) {
        (Sequence::Standard(one), Sequence::Standard(two)) => {
            compare(alloc, graph, types, one, two)
        }
        (Sequence::Standard(_), Sequence::Ellipsis) => Ok(Order::Better),
        (Sequence::Ellipsis, Sequence::Standard(_)) => Ok(Order::Worse),
        _ => Ok(Order::Same),
    }
}

// ---- functions

/// How the operands of a call are converted to the parameters of a function with some words behind its parameter list.
#[derive(Clone, Copy)]
pub(crate) struct Row<'r> {
    pub cv: Cv,
    pub parameters: &'r [TypeId],
    pub conversions: &'r [Conversion],
}

/// How the sequence of an argument to the parameter of one function stands to that of another.
fn order_of_argument(
    alloc: Global,
    graph: &Graph,
    types: &TypeTable,
    operand: Operand,
    one: Conversion,
    ones: &[TypeId],
    two: Conversion,
    twos: &[TypeId],
) -> Result<Order, OutOfMemory>
    requires operand { operand.of.0 < length types.now }
    requires ones { AreTypesBelow (length types.now) ones.now }
    requires twos { AreTypesBelow (length types.now) twos.now }
    requires fitted { Fitted graph.now types.now }
    ensures { Computes result (order_of_sequences (graph_at types.now graph.now) (sequence_at types.now operand one ones.now) (sequence_at types.now operand two twos.now)) }
{
    let one = sequence(types, operand, one, ones);
    let two = sequence(types, operand, two, twos);
    order_between(alloc, graph, types, &one, &two)
}

fn is_worse(order: Order) -> bool
    ensures { result ≡ is_worse_order order }
{
    match order {
        Order::Better => false,
        Order::Worse => true,
        Order::Same => false,
    }
}

fn is_better(order: Order) -> bool
    ensures { result ≡ is_better_order order }
{
    match order {
        Order::Better => true,
        Order::Worse => false,
        Order::Same => false,
    }
}

/// Whether the first function is better than the second: no operand has a worse sequence, and some operand has a better
/// one. It is known how those of what stands before the arguments compare.
#[tactic(auto, using(crate::proofs::Loops::verdict_more, crate::proofs::Loops::verdict_worse, crate::proofs::Converting::types_behind))]
pub(crate) fn is_better_function(
    alloc: Global,
    graph: &Graph,
    types: &TypeTable,
    before: Order,
    operands: &[Operand],
    one: Row,
    two: Row,
) -> Result<bool, OutOfMemory>
    requires operands { AreOperandsBelow (length types.now) operands.now }
    requires ones { AreTypesBelow (length types.now) (one.parameters).now }
    requires twos { AreTypesBelow (length types.now) (two.parameters).now }
    requires fitted { Fitted graph.now types.now }
    ensures { Computes result (is_better_by (before ∷ compared (order_of_sequences (graph_at types.now graph.now)) (row_at types.now operands.now (one.entry).parameters.now (one.entry).conversions.now) (row_at types.now operands.now (two.entry).parameters.now (two.entry).conversions.now))) }
{
    if is_worse(before) {
        return Ok(false);
    }
    let mut has_better = is_better(before);
    let mut left = operands;
    let (mut ones, mut by_ones) = (one.parameters, one.conversions);
    let (mut twos, mut by_twos) = (two.parameters, two.conversions);
    while let [operand, others @ ..] = left {
        let [by_one, other_ones @ ..] = by_ones else {
            return Ok(has_better);
        };
        let [by_two, other_twos @ ..] = by_twos else {
            return Ok(has_better);
        };
        let order = order_of_argument(alloc, graph, types, *operand, *by_one, ones, *by_two, twos)?;
        if is_worse(order) {
            return Ok(false);
        }
        has_better = has_better || is_better(order);
        left = others;
        (ones, by_ones) = (behind(ones), other_ones);
        (twos, by_twos) = (behind(twos), other_twos);
    }
    Ok(has_better)
}

/// The same in a call with an object.
pub(crate) fn is_better_of_object(
    alloc: Global,
    graph: &Graph,
    types: &TypeTable,
    object: Object,
    operands: &[Operand],
    one: Row,
    two: Row,
) -> Result<bool, OutOfMemory>
    requires object { IsObject types.now object }
    requires operands { AreOperandsBelow (length types.now) operands.now }
    requires ones { AreTypesBelow (length types.now) (one.parameters).now }
    requires twos { AreTypesBelow (length types.now) (two.parameters).now }
    requires fitted { Fitted graph.now types.now }
    ensures { Computes result (is_better_by (compared (order_of_sequences (graph_at types.now graph.now)) (row_at types.now (passed (Some object) operands.now) (parameter_for object (one.entry).cv ∷ (one.entry).parameters.now) (one.entry).conversions.now) (row_at types.now (passed (Some object) operands.now) (parameter_for object (two.entry).cv ∷ (two.entry).parameters.now) (two.entry).conversions.now))) }
{
    let [by_one, ones @ ..] = one.conversions else {
        return Ok(false);
    };
    let [by_two, twos @ ..] = two.conversions else {
        return Ok(false);
    };
    let first = sequence_of_object(types, object, *by_one, one.cv);
    let second = sequence_of_object(types, object, *by_two, two.cv);
    let before = order_between(alloc, graph, types, &first, &second)?;
    let one = Row {
        conversions: ones,
        ..one
    };
    let two = Row {
        conversions: twos,
        ..two
    };
    is_better_function(alloc, graph, types, before, operands, one, two)
}

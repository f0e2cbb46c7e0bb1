ghost use Rattle.std.specs.Prelude.{◌≡◌, ◌<◌, length, IfOk, IfSome};
ghost use Rattle.cxx_model.specs.Facts.Declarations.{graph_at};
ghost use Rattle.cxx_model.specs.Facts.Fitted.{Fitted};
ghost use Rattle.cxx_model.specs.Types.Numbers.{type_at};
ghost use Rattle.cxx_meaning.specs.Conversions.Asking.{Gives};
ghost use Rattle.cxx_meaning.specs.Conversions.Standard as standard;
ghost use Rattle.cxx_standard.specs.Views.{found_at, operand_at};

use crate::reference::steps_of_reference;
use crate::values::steps_of_value;
use cxx_graph::Graph;
use cxx_meaning::SequenceSteps;
use cxx_model::{Operand, StandardSequence, TypeId, TypeNode, Wait};
use cxx_types::TypeTable;
use std::alloc::Global;

/// The steps of the standard conversion sequence from an expression to a type, where there is one.
#[tactic(auto, unfolding(cxx_meaning::specs::Conversions::Standard::steps_between))]
pub fn steps_between(
    alloc: Global,
    graph: &Graph,
    types: &TypeTable,
    from: Operand,
    to: TypeId,
) -> Result<Option<SequenceSteps>, Wait>
    requires from_known { from.of.0 < length types.now }
    requires to_known { to.0 < length types.now }
    requires fitted { Fitted graph.now types.now }
    ensures { Gives (λ x. x) result (standard.steps_between (graph_at types.now graph.now) (operand_at types.now from) (type_at types.now to.0)) }
{
    match types.node(to) {
        TypeNode::Reference(of) => steps_of_reference(alloc, graph, types, from, *of),
        _ => steps_of_value(alloc, graph, types, from, to),
    }
}

fn sequence_by(from: Operand, to: TypeId, steps: SequenceSteps) -> StandardSequence
    ensures { result ≡ record { from = from; to = to; first = steps.first; second = steps.second; third = steps.third; binding = steps.binding } }
{
    StandardSequence {
        from,
        to,
        first: steps.first,
        second: steps.second,
        third: steps.third,
        binding: steps.binding,
    }
}

/// The standard conversion sequence from an expression to a type, where there is one (13.3.3.1.1). Its two types have
/// the numbers that were given.
#[tactic(auto, unfolding(cxx_meaning::specs::Conversions::Standard::standard_sequence))]
pub fn standard_sequence(
    alloc: Global,
    graph: &Graph,
    types: &TypeTable,
    from: Operand,
    to: TypeId,
) -> Result<Option<StandardSequence>, Wait>
    requires from_known { from.of.0 < length types.now }
    requires to_known { to.0 < length types.now }
    requires fitted { Fitted graph.now types.now }
    ensures is { Gives (found_at types.now) result (standard.standard_sequence (graph_at types.now graph.now) (operand_at types.now from) (type_at types.now to.0)) }
    ensures from { IfOk result (λ found. IfSome found (λ sequence. sequence.from ≡ from)) }
    ensures to { IfOk result (λ found. IfSome found (λ sequence. sequence.to ≡ to)) }
{
    match steps_between(alloc, graph, types, from, to)? {
        Some(steps) => Ok(Some(sequence_by(from, to, steps))),
        None => Ok(None),
    }
}

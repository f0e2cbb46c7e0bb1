//! What an operator does, by its number.
ghost use Rattle.std.specs.Prelude.{◌≡◌, ◌<◌, length};
ghost use Rattle.cxx_model.specs.Facts.Declarations.{graph_at};
ghost use Rattle.cxx_model.specs.Facts.Fitted.{Fitted};
ghost use Rattle.cxx_meaning.specs.Conversions.Asking.{Gives};
ghost use Rattle.cxx_meaning.specs.Conversions.BuiltIn as definition;
ghost use Rattle.cxx_builtin.specs.Plans.{plans_at, IsAnswerBelow, AreOperandsBelow, operands_at};
ghost use Rattle.cxx_standard.specs.Views.{operand_at};

use crate::binary::binary_by;
use crate::compound::compound;
use crate::plan::Plan;
use crate::unary::{after, unary_result};
use cxx_graph::Graph;
use cxx_meaning::BinaryFamily;
use cxx_model::{Operand, Wait, punct};
use cxx_types::TypeTable;
use std::alloc::Global;

fn is_comparison(operator: u8) -> bool
    ensures { result ≡ definition.is_comparison operator }
{
    operator == punct::LESS
        || (operator == punct::GREATER
            || (operator == punct::LESS_OR_EQUAL
                || (operator == punct::GREATER_OR_EQUAL
                    || (operator == punct::EQUAL_TO || operator == punct::NOT_EQUAL_TO))))
}

fn comparison_family(operator: u8) -> Option<BinaryFamily>
    ensures { result ≡ definition.comparison_family operator }
{
    if is_comparison(operator) {
        Some(BinaryFamily::Compare)
    } else if operator == punct::LOGICAL_AND || operator == punct::LOGICAL_OR {
        Some(BinaryFamily::Logic)
    } else if operator == punct::EQUALS {
        Some(BinaryFamily::Assign)
    } else if operator == punct::COMMA {
        Some(BinaryFamily::Comma)
    } else if operator == punct::LEFT_BRACKET {
        Some(BinaryFamily::Subscript)
    } else {
        None
    }
}

fn is_bits(operator: u8) -> bool
    ensures { result ≡ definition.is_bits operator }
{
    operator == punct::PERCENT
        || (operator == punct::AMPERSAND || (operator == punct::CARET || operator == punct::BAR))
}

fn binary_family(operator: u8) -> Option<BinaryFamily>
    ensures { result ≡ definition.binary_family operator }
{
    if operator == punct::STAR || operator == punct::SLASH {
        Some(BinaryFamily::Multiply)
    } else if operator == punct::PLUS {
        Some(BinaryFamily::Add)
    } else if operator == punct::MINUS {
        Some(BinaryFamily::Subtract)
    } else if is_bits(operator) {
        Some(BinaryFamily::Bits)
    } else if operator == punct::SHIFT_LEFT || operator == punct::SHIFT_RIGHT {
        Some(BinaryFamily::Shift)
    } else {
        comparison_family(operator)
    }
}

fn is_bits_assignment(operator: u8) -> bool
    ensures { result ≡ definition.is_bits_assignment operator }
{
    operator == punct::PERCENT_EQUALS
        || (operator == punct::AMPERSAND_EQUALS
            || (operator == punct::CARET_EQUALS || operator == punct::BAR_EQUALS))
}

fn compound_family(operator: u8) -> Option<BinaryFamily>
    ensures { result ≡ definition.compound_family operator }
{
    if operator == punct::STAR_EQUALS || operator == punct::SLASH_EQUALS {
        Some(BinaryFamily::Multiply)
    } else if operator == punct::PLUS_EQUALS {
        Some(BinaryFamily::Add)
    } else if operator == punct::MINUS_EQUALS {
        Some(BinaryFamily::Subtract)
    } else if is_bits_assignment(operator) {
        Some(BinaryFamily::Bits)
    } else if operator == punct::SHIFT_LEFT_EQUALS || operator == punct::SHIFT_RIGHT_EQUALS {
        Some(BinaryFamily::Shift)
    } else {
        None
    }
}

#[tactic(auto, unfolding(cxx_meaning::specs::Conversions::BuiltIn::family_result, cxx_meaning::specs::Conversions::BuiltIn::compound_result))]
fn family_result(
    alloc: Global,
    graph: &Graph,
    types: &TypeTable,
    operator: u8,
    one: Operand,
    two: Operand,
) -> Result<Option<Plan>, Wait>
    requires one_known { one.of.0 < length types.now }
    requires two_known { two.of.0 < length types.now }
    requires fitted { Fitted graph.now types.now }
    ensures is { Gives (plans_at types.now) result (definition.family_result (graph_at types.now graph.now) operator (definition.binary_family operator) (operand_at types.now one) (operand_at types.now two)) }
    ensures below { IsAnswerBelow (length types.now) result }
{
    match binary_family(operator) {
        Some(family) => binary_by(alloc, graph, types, family, one, two),
        None => match compound_family(operator) {
            Some(family) => compound(alloc, graph, types, family, one, two),
            None => Ok(None),
        },
    }
}

#[tactic(auto, unfolding(cxx_meaning::specs::Conversions::BuiltIn::binary_result))]
fn binary_result(
    alloc: Global,
    graph: &Graph,
    types: &TypeTable,
    operator: u8,
    one: Operand,
    two: Operand,
) -> Result<Option<Plan>, Wait>
    requires one_known { one.of.0 < length types.now }
    requires two_known { two.of.0 < length types.now }
    requires fitted { Fitted graph.now types.now }
    ensures is { Gives (plans_at types.now) result (definition.binary_result (graph_at types.now graph.now) operator (operand_at types.now one) (operand_at types.now two)) }
    ensures below { IsAnswerBelow (length types.now) result }
{
    if operator == punct::INCREMENT {
        after(graph, types, false, one)
    } else if operator == punct::DECREMENT {
        after(graph, types, true, one)
    } else {
        family_result(alloc, graph, types, operator, one, two)
    }
}

/// What an operator does with one or two operands, by types that are there.
#[tactic(auto, unfolding(cxx_meaning::specs::Conversions::BuiltIn::built_in_result))]
pub(crate) fn planned(
    alloc: Global,
    graph: &Graph,
    types: &TypeTable,
    operator: u8,
    operands: &[Operand],
) -> Result<Option<Plan>, Wait>
    requires known { AreOperandsBelow (length types.now) operands.now }
    requires fitted { Fitted graph.now types.now }
    ensures is { Gives (plans_at types.now) result (definition.built_in_result (graph_at types.now graph.now) operator (operands_at types.now operands.now)) }
    ensures below { IsAnswerBelow (length types.now) result }
{
    match operands {
        [one] => unary_result(graph, types, operator, *one),
        [one, two] => binary_result(alloc, graph, types, operator, *one, *two),
        _ => Ok(None),
    }
}

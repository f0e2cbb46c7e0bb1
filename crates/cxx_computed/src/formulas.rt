//! The values of formulas.
ghost use Rattle.std.specs.Prelude.{◌≡◌, ◌<◌, length, None, Some};
ghost use Rattle.cxx_model.specs.Facts.Declarations.{graph_at};
ghost use Rattle.cxx_model.specs.Facts.Fitted.{Fitted};
ghost use Rattle.cxx_model.specs.Types.Numbers.{formula_at, type_at, IsFormulaBelow};
ghost use Rattle.cxx_meaning.specs.Conversions.Sizes as sizes;
ghost use Rattle.cxx_computed.specs.Computes.{constants_at, number_of, AreConstantsInRange, Computes};
ghost use Rattle.cxx_computed.specs.Formulas as definition;
ghost use Rattle.cxx_sizes.specs.Noted.{Notes};

use crate::constants::{
    Constant, as_constant, cast_constant, of_base, three_constants, two_constants, unary_constant,
    unary_operator,
};
use cxx_graph::Graph;
use cxx_model::{Base, ClassId, Formula, TypeId};
use cxx_sizes::{Layouts, SizeFault};
use cxx_standard::kind_of;
use cxx_types::TypeTable;

/// Why a constant expression has no value.
#[derive(Clone, Copy)]
pub enum ComputeStop {
    /// A parameter or a member of what depends on parameters stands in it, a size is none, an operator divides by zero or
    /// gives what its type has not, or clause 5 gives an operator no meaning.
    NoValue,
    /// The class must be complete first (14.7.1).
    Needs(ClassId),
}

// A size as a constant (5.3.3).
fn size_constant(
    layouts: &Layouts,
    graph: &Graph,
    types: &TypeTable,
    of: TypeId,
) -> Option<Constant>
    requires known { of.0 < length types.now }
    requires fitted { Fitted graph.now types.now }
    requires noted { Notes layouts.now (graph_at types.now graph.now).facts }
    ensures is { constants_at types.now result ≡ definition.size_constant (sizes.size_of (graph_at types.now graph.now) (type_at types.now of.0)) }
    ensures range { AreConstantsInRange graph.now types.now result }
{
    match layouts.size_of(graph, types, of) {
        Ok(size) => Some(of_base(types, Base::UnsignedLong, Ok(size as i128))),
        Err(SizeFault::NoSize) => None,
        Err(SizeFault::TooLarge) => None,
        Err(SizeFault::Needs(_)) => None,
    }
}

// A formula as a constant expression.
#[tactic(auto, unfolding(crate::specs::Formulas::constant_of))]
fn constant_of(
    layouts: &Layouts,
    graph: &Graph,
    types: &TypeTable,
    formula: &Formula,
) -> Option<Constant>
    requires known { IsFormulaBelow (length types.now) formula.now }
    requires fitted { Fitted graph.now types.now }
    requires noted { Notes layouts.now (graph_at types.now graph.now).facts }
    ensures is { constants_at types.now result ≡ definition.constant_of (graph_at types.now graph.now) (formula_at types.now formula.now) }
    ensures range { AreConstantsInRange graph.now types.now result }
{
    match formula {
        Formula::Value(value, of) => as_constant(
            graph,
            types,
            kind_of(graph, types, *of),
            Ok(*value),
        ),
        Formula::Parameter(_, _) => None,
        Formula::Member(_, _) => None,
        Formula::SizeOf(of) => size_constant(layouts, graph, types, *of),
        Formula::Cast(of, operand) => {
            let part = constant_of(layouts, graph, types, operand);
            cast_constant(graph, types, kind_of(graph, types, *of), part)
        }
        Formula::Unary(number, operand) => {
            let part = constant_of(layouts, graph, types, operand);
            unary_constant(graph, types, unary_operator(*number), part)
        }
        Formula::Binary(number, left, right) => {
            let left = constant_of(layouts, graph, types, left);
            let right = constant_of(layouts, graph, types, right);
            two_constants(graph, types, *number, left, right)
        }
        Formula::Conditional(test, left, right) => {
            let test = constant_of(layouts, graph, types, test);
            let left = constant_of(layouts, graph, types, left);
            let right = constant_of(layouts, graph, types, right);
            three_constants(graph, types, test, left, right)
        }
    }
}

fn needed_by_size(
    layouts: &Layouts,
    graph: &Graph,
    types: &TypeTable,
    of: TypeId,
) -> Option<ClassId>
    requires known { of.0 < length types.now }
    requires fitted { Fitted graph.now types.now }
    requires noted { Notes layouts.now (graph_at types.now graph.now).facts }
    ensures { number_of result ≡ definition.needed_by (sizes.size_of (graph_at types.now graph.now) (type_at types.now of.0)) }
{
    match layouts.size_of(graph, types, of) {
        Ok(_) => None,
        Err(SizeFault::NoSize) => None,
        Err(SizeFault::TooLarge) => None,
        Err(SizeFault::Needs(class)) => Some(class),
    }
}

fn lesser(one: ClassId, other: ClassId) -> ClassId
    ensures { number_of (Some result) ≡ definition.least (Some one.0) (Some other.0) }
{
    if other.0 < one.0 { other } else { one }
}

fn least(one: Option<ClassId>, other: Option<ClassId>) -> Option<ClassId>
    ensures { number_of result ≡ definition.least (number_of one) (number_of other) }
{
    match one {
        None => other,
        Some(one) => match other {
            None => Some(one),
            Some(other) => Some(lesser(one, other)),
        },
    }
}

// The least of the classes that must be complete first (14.7.1).
#[tactic(auto, unfolding(crate::specs::Formulas::needed))]
fn needed(layouts: &Layouts, graph: &Graph, types: &TypeTable, formula: &Formula) -> Option<ClassId>
    requires known { IsFormulaBelow (length types.now) formula.now }
    requires fitted { Fitted graph.now types.now }
    requires noted { Notes layouts.now (graph_at types.now graph.now).facts }
    ensures { number_of result ≡ definition.needed (graph_at types.now graph.now) (formula_at types.now formula.now) }
{
    match formula {
        Formula::Value(_, _) => None,
        Formula::Parameter(_, _) => None,
        Formula::Member(_, _) => None,
        Formula::SizeOf(of) => needed_by_size(layouts, graph, types, *of),
        Formula::Cast(_, operand) => needed(layouts, graph, types, operand),
        Formula::Unary(_, operand) => needed(layouts, graph, types, operand),
        Formula::Binary(_, left, right) => {
            let left = needed(layouts, graph, types, left);
            least(left, needed(layouts, graph, types, right))
        }
        Formula::Conditional(test, left, right) => {
            let test = needed(layouts, graph, types, test);
            let left = needed(layouts, graph, types, left);
            let right = needed(layouts, graph, types, right);
            least(test, least(left, right))
        }
    }
}

fn value_in(types: &TypeTable, part: Option<Constant>) -> Option<i128>
    ensures { result ≡ definition.value_in_constant (constants_at types.now part) }
{
    let _ = types;
    match part {
        None => None,
        Some(part) => match part.value {
            Ok(value) => Some(value),
            Err(_) => None,
        },
    }
}

/// The value of a constant expression, where it has one (5.19). The facts of the graph were noted.
#[tactic(auto, unfolding(crate::specs::Formulas::computed))]
pub fn computed(
    layouts: &Layouts,
    graph: &Graph,
    types: &TypeTable,
    formula: &Formula,
) -> Result<i128, ComputeStop>
    requires known { IsFormulaBelow (length types.now) formula.now }
    requires fitted { Fitted graph.now types.now }
    requires noted { Notes layouts.now (graph_at types.now graph.now).facts }
    ensures { Computes result (definition.computed (graph_at types.now graph.now) (formula_at types.now formula.now)) }
{
    match needed(layouts, graph, types, formula) {
        Some(class) => Err(ComputeStop::Needs(class)),
        None => match value_in(types, constant_of(layouts, graph, types, formula)) {
            Some(value) => Ok(value),
            None => Err(ComputeStop::NoValue),
        },
    }
}

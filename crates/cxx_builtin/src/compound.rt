//! Compound assignments (5.17).
ghost use Rattle.std.specs.Prelude.{◌≡◌, ◌<◌, length, None, Some, true};
ghost use Rattle.cxx_model.specs.Facts.Declarations.{graph_at};
ghost use Rattle.cxx_model.specs.Facts.Fitted.{Fitted};
ghost use Rattle.cxx_model.specs.Types.Numbers.{type_at};
ghost use Rattle.cxx_meaning.specs.Conversions.Asking.{Gives};
ghost use Rattle.cxx_meaning.specs.Conversions.BuiltIn as definition;
ghost use Rattle.cxx_builtin.specs.Plans.{plans_at, sketch_at, ArePlansBelow, IsAnswerBelow, IsPlanBelow, IsSketchBelow};
ghost use Rattle.cxx_standard.specs.Views.{operand_at, kind_at, IsKindBelow};

use crate::arithmetic::{integral_promoted, number_of};
use crate::binary::{beside_integer, binary_by};
use crate::operand::{is_modifiable, operand_kind};
use crate::plan::{Plan, Sketch, object_of_two};
use cxx_graph::Graph;
use cxx_meaning::BinaryFamily;
use cxx_model::{Base, Operand, TypeId, Wait};
use cxx_standard::{TypeKind, is_pointing, kind_of, same_base};
use cxx_types::TypeTable;
use std::alloc::Global;

fn promoted_operand(types: &TypeTable, of: TypeId, number: Option<Base>) -> Sketch
    requires { of.0 < length types.now }
    ensures is { sketch_at types.now result ≡ definition.promoted_operand (type_at types.now of.0) number }
    ensures below { IsSketchBelow (length types.now) result }
{
    let _ = types;
    match number {
        None => Sketch::Value(of),
        Some(number) => Sketch::Plain(integral_promoted(number)),
    }
}

fn compound_plan(graph: &Graph, types: &TypeTable, one: Operand, two: Operand) -> Plan
    requires one_known { one.of.0 < length types.now }
    requires two_known { two.of.0 < length types.now }
    requires fitted { Fitted graph.now types.now }
    ensures is { plans_at types.now (Some result) ≡ definition.compound_whole (graph_at types.now graph.now) (operand_at types.now one) (operand_at types.now two) }
    ensures below { IsPlanBelow (length types.now) result }
{
    let number = number_of(graph, types, operand_kind(graph, types, two));
    let right = promoted_operand(types, two.of, number);
    object_of_two(Sketch::Known(one.of), right, Sketch::Known(one.of))
}

fn compounded(
    graph: &Graph,
    types: &TypeTable,
    one: Operand,
    two: Operand,
    to: Base,
    meaning: Option<Plan>,
) -> Option<Plan>
    requires one_known { one.of.0 < length types.now }
    requires two_known { two.of.0 < length types.now }
    requires fitted { Fitted graph.now types.now }
    ensures is { plans_at types.now result ≡ definition.compounded (graph_at types.now graph.now) (operand_at types.now one) (operand_at types.now two) to (plans_at types.now meaning) }
    ensures below { ArePlansBelow (length types.now) result }
{
    match meaning {
        None => None,
        Some(_) => {
            if is_pointing(operand_kind(graph, types, two)) && !same_base(to, Base::Bool) {
                None
            } else {
                Some(compound_plan(graph, types, one, two))
            }
        }
    }
}

fn is_additive(family: BinaryFamily) -> bool
    ensures { result ≡ definition.is_additive family }
{
    match family {
        BinaryFamily::Add | BinaryFamily::Subtract => true,
        _ => false,
    }
}

fn moved_plan(one: Operand, two: Operand) -> Plan
    ensures { result ≡ record { first = Sketch.Known one.of; second = Some (Sketch.Value two.of); result = Sketch.Known one.of; lvalue = true } }
{
    object_of_two(
        Sketch::Known(one.of),
        Sketch::Value(two.of),
        Sketch::Known(one.of),
    )
}

#[tactic(auto, unfolding(cxx_meaning::specs::Conversions::BuiltIn::compound_on))]
fn compound_on(
    alloc: Global,
    graph: &Graph,
    types: &TypeTable,
    family: BinaryFamily,
    one: Operand,
    two: Operand,
    kind: TypeKind,
) -> Result<Option<Plan>, Wait>
    requires one_known { one.of.0 < length types.now }
    requires two_known { two.of.0 < length types.now }
    requires kind_below { IsKindBelow (length types.now) kind }
    requires fitted { Fitted graph.now types.now }
    ensures is { Gives (plans_at types.now) result (definition.compound_on (graph_at types.now graph.now) family (operand_at types.now one) (operand_at types.now two) (kind_at types.now kind)) }
    ensures below { IsAnswerBelow (length types.now) result }
{
    match kind {
        TypeKind::Arithmetic(to) => {
            let meaning = binary_by(alloc, graph, types, family, one, two)?;
            Ok(compounded(graph, types, one, two, to, meaning))
        }
        TypeKind::Pointer(to) => {
            if is_additive(family) {
                let right = operand_kind(graph, types, two);
                beside_integer(graph, types, to, right, moved_plan(one, two))
            } else {
                Ok(None)
            }
        }
        _ => Ok(None),
    }
}

/// What the assignment of an operator of a family does.
#[tactic(auto, unfolding(cxx_meaning::specs::Conversions::BuiltIn::compound))]
pub(crate) fn compound(
    alloc: Global,
    graph: &Graph,
    types: &TypeTable,
    family: BinaryFamily,
    one: Operand,
    two: Operand,
) -> Result<Option<Plan>, Wait>
    requires one_known { one.of.0 < length types.now }
    requires two_known { two.of.0 < length types.now }
    requires fitted { Fitted graph.now types.now }
    ensures is { Gives (plans_at types.now) result (definition.compound (graph_at types.now graph.now) family (operand_at types.now one) (operand_at types.now two)) }
    ensures below { IsAnswerBelow (length types.now) result }
{
    if is_modifiable(types, one) {
        let kind = kind_of(graph, types, one.of);
        compound_on(alloc, graph, types, family, one, two, kind)
    } else {
        Ok(None)
    }
}

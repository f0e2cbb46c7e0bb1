//! Operators with two operands (5.2.1, 5.6 to 5.18).
ghost use Rattle.std.specs.Prelude.{◌≡◌, ◌<◌, [], length, Some, true, false};
ghost use Rattle.cxx_model.specs.Facts.Declarations.{graph_at};
ghost use Rattle.cxx_model.specs.Facts.Fitted.{Fitted};
ghost use Rattle.cxx_model.specs.Types.Numbers.{type_at};
ghost use Rattle.cxx_meaning.specs.Conversions.Asking.{Gives};
ghost use Rattle.cxx_meaning.specs.Conversions.BuiltIn as definition;
ghost use Rattle.cxx_builtin.specs.Plans.{plan_at, plans_at, sketches_at, ArePlansBelow, IsAnswerBelow, IsPlanBelow, IsSecondBelow};
ghost use Rattle.cxx_standard.specs.Views.{kind_at, operand_at, IsKindBelow, IsKindInRange};

use crate::arithmetic::{integer_of, integral_promoted, number_of, usual};
use crate::operand::{is_condition, is_modifiable, operand_kind};
use crate::plan::{Plan, Sketch, if_fits, object_of_two, value_of_two};
use crate::pointers::{common_pointer, is_complete_object};
use cxx_graph::Graph;
use cxx_meaning::{BinaryFamily, SequenceSteps};
use cxx_model::{Base, ConstantKind, Operand, TypeId, Wait};
use cxx_standard::{TypeKind, is_null, kind_of, steps_between};
use cxx_types::TypeTable;
use std::alloc::Global;

// ---- arithmetic values

pub(crate) fn by_usual(types: &TypeTable, one: Option<Base>, two: Option<Base>) -> Option<Plan>
    ensures is { plans_at types.now result ≡ definition.by_usual one two }
    ensures below { ArePlansBelow (length types.now) result }
{
    let _ = types;
    let one = one?;
    let two = two?;
    let both = Sketch::Plain(usual(one, two));
    Some(value_of_two(both, both, both))
}

fn compared(types: &TypeTable, one: Option<Base>, two: Option<Base>) -> Option<Plan>
    ensures is { plans_at types.now result ≡ definition.compared one two }
    ensures below { ArePlansBelow (length types.now) result }
{
    let _ = types;
    let one = one?;
    let two = two?;
    let both = Sketch::Plain(usual(one, two));
    Some(value_of_two(both, both, Sketch::Plain(Base::Bool)))
}

fn shifted(types: &TypeTable, one: Option<Base>, two: Option<Base>) -> Option<Plan>
    ensures is { plans_at types.now result ≡ definition.shifted one two }
    ensures below { ArePlansBelow (length types.now) result }
{
    let _ = types;
    let one = one?;
    let two = two?;
    let left = Sketch::Plain(integral_promoted(one));
    Some(value_of_two(left, Sketch::Plain(integral_promoted(two)), left))
}

fn conditions(types: &TypeTable, one: TypeKind, two: TypeKind) -> Option<Plan>
    ensures is { plans_at types.now result ≡ definition.conditions (kind_at types.now one) (kind_at types.now two) }
    ensures below { ArePlansBelow (length types.now) result }
{
    let _ = types;
    if is_condition(one) && is_condition(two) {
        let both = Sketch::Plain(Base::Bool);
        Some(value_of_two(both, both, both))
    } else {
        None
    }
}

// ---- pointers

fn is_integer(graph: &Graph, types: &TypeTable, kind: TypeKind) -> bool
    requires { IsKindInRange graph.now (kind_at types.now kind) }
    ensures { result ≡ definition.is_integer (graph_at types.now graph.now) (kind_at types.now kind) }
{
    integer_of(graph, types, kind).is_some()
}

/// A pointer to a complete object beside an integer, and what they give together.
#[tactic(auto, unfolding(cxx_meaning::specs::Conversions::BuiltIn::beside_integer))]
pub(crate) fn beside_integer(
    graph: &Graph,
    types: &TypeTable,
    to: TypeId,
    kind: TypeKind,
    whole: Plan,
) -> Result<Option<Plan>, Wait>
    requires known { to.0 < length types.now }
    requires range { IsKindInRange graph.now (kind_at types.now kind) }
    requires whole_below { IsPlanBelow (length types.now) whole }
    requires fitted { Fitted graph.now types.now }
    ensures is { Gives (plans_at types.now) result (definition.beside_integer (graph_at types.now graph.now) (type_at types.now to.0) (kind_at types.now kind) (Some (plan_at types.now whole))) }
    ensures below { IsAnswerBelow (length types.now) result }
{
    if is_integer(graph, types, kind) {
        let complete = is_complete_object(graph, types, to)?;
        Ok(if_fits(types, complete, whole))
    } else {
        Ok(None)
    }
}

fn subscript_plan(one: Operand, two: Operand, to: TypeId) -> Plan
    ensures { result ≡ record { first = Sketch.Value one.of; second = Some (Sketch.Value two.of); result = Sketch.Known to; lvalue = true } }
{
    object_of_two(
        Sketch::Value(one.of),
        Sketch::Value(two.of),
        Sketch::Known(to),
    )
}

fn pointer_plan(one: Operand, two: Operand, of: TypeId) -> Plan
    ensures { result ≡ record { first = Sketch.Value one.of; second = Some (Sketch.Value two.of); result = Sketch.Value of; lvalue = false } }
{
    value_of_two(
        Sketch::Value(one.of),
        Sketch::Value(two.of),
        Sketch::Value(of),
    )
}

#[tactic(auto, unfolding(cxx_meaning::specs::Conversions::BuiltIn::subscripted))]
fn subscripted(
    graph: &Graph,
    types: &TypeTable,
    one: Operand,
    two: Operand,
    left: TypeKind,
    right: TypeKind,
) -> Result<Option<Plan>, Wait>
    requires one_known { one.of.0 < length types.now }
    requires two_known { two.of.0 < length types.now }
    requires left_below { IsKindBelow (length types.now) left }
    requires right_below { IsKindBelow (length types.now) right }
    requires left_range { IsKindInRange graph.now (kind_at types.now left) }
    requires right_range { IsKindInRange graph.now (kind_at types.now right) }
    requires fitted { Fitted graph.now types.now }
    ensures is { Gives (plans_at types.now) result (definition.subscripted (graph_at types.now graph.now) (operand_at types.now one) (operand_at types.now two) (kind_at types.now left) (kind_at types.now right)) }
    ensures below { IsAnswerBelow (length types.now) result }
{
    match left {
        TypeKind::Pointer(to) => {
            beside_integer(graph, types, to, right, subscript_plan(one, two, to))
        }
        _ => match right {
            TypeKind::Pointer(to) => {
                beside_integer(graph, types, to, left, subscript_plan(one, two, to))
            }
            _ => Ok(None),
        },
    }
}

#[tactic(auto, unfolding(cxx_meaning::specs::Conversions::BuiltIn::added_to))]
fn added_to(
    graph: &Graph,
    types: &TypeTable,
    one: Operand,
    two: Operand,
    left: TypeKind,
    right: TypeKind,
) -> Result<Option<Plan>, Wait>
    requires one_known { one.of.0 < length types.now }
    requires two_known { two.of.0 < length types.now }
    requires right_below { IsKindBelow (length types.now) right }
    requires left_range { IsKindInRange graph.now (kind_at types.now left) }
    requires right_range { IsKindInRange graph.now (kind_at types.now right) }
    requires fitted { Fitted graph.now types.now }
    ensures is { Gives (plans_at types.now) result (definition.added_to (graph_at types.now graph.now) (operand_at types.now one) (operand_at types.now two) (kind_at types.now left) (kind_at types.now right)) }
    ensures below { IsAnswerBelow (length types.now) result }
{
    match right {
        TypeKind::Pointer(to) => {
            beside_integer(graph, types, to, left, pointer_plan(one, two, two.of))
        }
        _ => {
            let number = number_of(graph, types, left);
            Ok(by_usual(types, number, number_of(graph, types, right)))
        }
    }
}

#[tactic(auto, unfolding(cxx_meaning::specs::Conversions::BuiltIn::added))]
fn added(
    graph: &Graph,
    types: &TypeTable,
    one: Operand,
    two: Operand,
    left: TypeKind,
    right: TypeKind,
) -> Result<Option<Plan>, Wait>
    requires one_known { one.of.0 < length types.now }
    requires two_known { two.of.0 < length types.now }
    requires left_below { IsKindBelow (length types.now) left }
    requires right_below { IsKindBelow (length types.now) right }
    requires left_range { IsKindInRange graph.now (kind_at types.now left) }
    requires right_range { IsKindInRange graph.now (kind_at types.now right) }
    requires fitted { Fitted graph.now types.now }
    ensures is { Gives (plans_at types.now) result (definition.added (graph_at types.now graph.now) (operand_at types.now one) (operand_at types.now two) (kind_at types.now left) (kind_at types.now right)) }
    ensures below { IsAnswerBelow (length types.now) result }
{
    match left {
        TypeKind::Pointer(to) => {
            beside_integer(graph, types, to, right, pointer_plan(one, two, one.of))
        }
        _ => added_to(graph, types, one, two, left, right),
    }
}

#[tactic(auto, unfolding(cxx_meaning::specs::Conversions::BuiltIn::distance))]
fn distance(
    graph: &Graph,
    types: &TypeTable,
    one: Operand,
    two: Operand,
    left: TypeId,
    right: TypeId,
) -> Result<Option<Plan>, Wait>
    requires one_known { one.of.0 < length types.now }
    requires two_known { two.of.0 < length types.now }
    requires left_known { left.0 < length types.now }
    requires right_known { right.0 < length types.now }
    requires fitted { Fitted graph.now types.now }
    ensures is { Gives (plans_at types.now) result (definition.distance (graph_at types.now graph.now) (operand_at types.now one) (operand_at types.now two) (type_at types.now left.0) (type_at types.now right.0)) }
    ensures below { IsAnswerBelow (length types.now) result }
{
    if types.same_unqualified(left, right) {
        let complete = is_complete_object(graph, types, left)?;
        let first = Sketch::Value(one.of);
        let plan = value_of_two(first, Sketch::Value(two.of), Sketch::Plain(Base::Long));
        Ok(if_fits(types, complete, plan))
    } else {
        Ok(None)
    }
}

#[tactic(auto, unfolding(cxx_meaning::specs::Conversions::BuiltIn::subtracted))]
fn subtracted(
    graph: &Graph,
    types: &TypeTable,
    one: Operand,
    two: Operand,
    left: TypeKind,
    right: TypeKind,
) -> Result<Option<Plan>, Wait>
    requires one_known { one.of.0 < length types.now }
    requires two_known { two.of.0 < length types.now }
    requires left_below { IsKindBelow (length types.now) left }
    requires right_below { IsKindBelow (length types.now) right }
    requires left_range { IsKindInRange graph.now (kind_at types.now left) }
    requires right_range { IsKindInRange graph.now (kind_at types.now right) }
    requires fitted { Fitted graph.now types.now }
    ensures is { Gives (plans_at types.now) result (definition.subtracted (graph_at types.now graph.now) (operand_at types.now one) (operand_at types.now two) (kind_at types.now left) (kind_at types.now right)) }
    ensures below { IsAnswerBelow (length types.now) result }
{
    match left {
        TypeKind::Pointer(to) => match right {
            TypeKind::Pointer(other) => distance(graph, types, one, two, to, other),
            _ => beside_integer(graph, types, to, right, pointer_plan(one, two, one.of)),
        },
        _ => {
            let number = number_of(graph, types, left);
            Ok(by_usual(types, number, number_of(graph, types, right)))
        }
    }
}

// ---- comparisons

fn compared_as(types: &TypeTable, common: Option<Sketch>) -> Option<Plan>
    requires { IsSecondBelow (length types.now) common }
    ensures is { plans_at types.now result ≡ definition.compared_as (sketches_at types.now common) }
    ensures below { ArePlansBelow (length types.now) result }
{
    let _ = types;
    match common {
        None => None,
        Some(common) => Some(value_of_two(common, common, Sketch::Plain(Base::Bool))),
    }
}

fn compared_to_null(
    types: &TypeTable,
    pointer: TypeId,
    known: ConstantKind,
    of: Base,
) -> Option<Plan>
    requires { pointer.0 < length types.now }
    ensures is { plans_at types.now result ≡ definition.compared_to_null (type_at types.now pointer.0) known of }
    ensures below { ArePlansBelow (length types.now) result }
{
    if is_null(known, of) {
        compared_as(types, Some(Sketch::Value(pointer)))
    } else {
        None
    }
}

fn compared_numbers(
    graph: &Graph,
    types: &TypeTable,
    left: TypeKind,
    right: TypeKind,
) -> Option<Plan>
    requires left_range { IsKindInRange graph.now (kind_at types.now left) }
    requires right_range { IsKindInRange graph.now (kind_at types.now right) }
    ensures is { plans_at types.now result ≡ definition.compared_numbers (graph_at types.now graph.now) (kind_at types.now left) (kind_at types.now right) }
    ensures below { ArePlansBelow (length types.now) result }
{
    let number = number_of(graph, types, left);
    compared(types, number, number_of(graph, types, right))
}

#[tactic(auto, unfolding(cxx_meaning::specs::Conversions::BuiltIn::compared_pointers))]
fn compared_pointers(
    alloc: Global,
    graph: &Graph,
    types: &TypeTable,
    left: TypeId,
    right: TypeId,
) -> Result<Option<Plan>, Wait>
    requires left_known { left.0 < length types.now }
    requires right_known { right.0 < length types.now }
    requires fitted { Fitted graph.now types.now }
    ensures is { Gives (plans_at types.now) result (definition.compared_pointers (graph_at types.now graph.now) (type_at types.now left.0) (type_at types.now right.0)) }
    ensures below { IsAnswerBelow (length types.now) result }
{
    let common = common_pointer(alloc, graph, types, left, right)?;
    Ok(compared_as(types, common))
}

#[tactic(auto, unfolding(cxx_meaning::specs::Conversions::BuiltIn::compared_by))]
fn compared_by(
    alloc: Global,
    graph: &Graph,
    types: &TypeTable,
    one: Operand,
    two: Operand,
    left: TypeKind,
    right: TypeKind,
) -> Result<Option<Plan>, Wait>
    requires one_known { one.of.0 < length types.now }
    requires two_known { two.of.0 < length types.now }
    requires left_below { IsKindBelow (length types.now) left }
    requires right_below { IsKindBelow (length types.now) right }
    requires left_range { IsKindInRange graph.now (kind_at types.now left) }
    requires right_range { IsKindInRange graph.now (kind_at types.now right) }
    requires fitted { Fitted graph.now types.now }
    ensures is { Gives (plans_at types.now) result (definition.compared_by (graph_at types.now graph.now) (operand_at types.now one) (operand_at types.now two) (kind_at types.now left) (kind_at types.now right)) }
    ensures below { IsAnswerBelow (length types.now) result }
{
    match left {
        TypeKind::Pointer(to) => match right {
            TypeKind::Pointer(other) => compared_pointers(alloc, graph, types, to, other),
            TypeKind::Arithmetic(of) => Ok(compared_to_null(types, one.of, two.constant, of)),
            _ => Ok(None),
        },
        TypeKind::Arithmetic(of) => match right {
            TypeKind::Pointer(_) => Ok(compared_to_null(types, two.of, one.constant, of)),
            _ => Ok(compared_numbers(graph, types, left, right)),
        },
        _ => Ok(compared_numbers(graph, types, left, right)),
    }
}

// ---- assignment and comma

fn stored(types: &TypeTable, of: TypeId, steps: Option<SequenceSteps>) -> Option<Plan>
    requires { of.0 < length types.now }
    ensures is { plans_at types.now result ≡ definition.stored (type_at types.now of.0) steps }
    ensures below { ArePlansBelow (length types.now) result }
{
    let _ = types;
    match steps {
        None => None,
        Some(_) => Some(object_of_two(Sketch::Known(of), Sketch::Bare(of), Sketch::Known(of))),
    }
}

#[tactic(auto, unfolding(cxx_meaning::specs::Conversions::BuiltIn::assigned))]
fn assigned(
    alloc: Global,
    graph: &Graph,
    types: &TypeTable,
    one: Operand,
    two: Operand,
) -> Result<Option<Plan>, Wait>
    requires one_known { one.of.0 < length types.now }
    requires two_known { two.of.0 < length types.now }
    requires fitted { Fitted graph.now types.now }
    ensures is { Gives (plans_at types.now) result (definition.assigned (graph_at types.now graph.now) (operand_at types.now one) (operand_at types.now two)) }
    ensures below { IsAnswerBelow (length types.now) result }
{
    if is_modifiable(types, one) && is_condition(kind_of(graph, types, one.of)) {
        let steps = steps_between(alloc, graph, types, two, one.of)?;
        Ok(stored(types, one.of, steps))
    } else {
        Ok(None)
    }
}

fn second_of(types: &TypeTable, one: Operand, two: Operand) -> Option<Plan>
    requires one_known { one.of.0 < length types.now }
    requires two_known { two.of.0 < length types.now }
    ensures is { plans_at types.now result ≡ definition.second_of (operand_at types.now one) (operand_at types.now two) }
    ensures below { ArePlansBelow (length types.now) result }
{
    let _ = types;
    Some(Plan {
        first: Sketch::Known(one.of),
        second: Some(Sketch::Known(two.of)),
        result: Sketch::Known(two.of),
        lvalue: two.lvalue,
    })
}

// ---- families

/// What an operator of a family does with two operands.
#[tactic(auto, unfolding(cxx_meaning::specs::Conversions::BuiltIn::binary_by))]
pub(crate) fn binary_by(
    alloc: Global,
    graph: &Graph,
    types: &TypeTable,
    family: BinaryFamily,
    one: Operand,
    two: Operand,
) -> Result<Option<Plan>, Wait>
    requires one_known { one.of.0 < length types.now }
    requires two_known { two.of.0 < length types.now }
    requires fitted { Fitted graph.now types.now }
    ensures is { Gives (plans_at types.now) result (definition.binary_by (graph_at types.now graph.now) family (operand_at types.now one) (operand_at types.now two)) }
    ensures below { IsAnswerBelow (length types.now) result }
{
    let left = operand_kind(graph, types, one);
    let right = operand_kind(graph, types, two);
    match family {
        BinaryFamily::Subscript => subscripted(graph, types, one, two, left, right),
        BinaryFamily::Multiply => {
            let number = number_of(graph, types, left);
            Ok(by_usual(types, number, number_of(graph, types, right)))
        }
        BinaryFamily::Bits => {
            let number = integer_of(graph, types, left);
            Ok(by_usual(types, number, integer_of(graph, types, right)))
        }
        BinaryFamily::Add => added(graph, types, one, two, left, right),
        BinaryFamily::Subtract => subtracted(graph, types, one, two, left, right),
        BinaryFamily::Shift => {
            let number = integer_of(graph, types, left);
            Ok(shifted(types, number, integer_of(graph, types, right)))
        }
        BinaryFamily::Compare => compared_by(alloc, graph, types, one, two, left, right),
        BinaryFamily::Logic => Ok(conditions(types, left, right)),
        BinaryFamily::Assign => assigned(alloc, graph, types, one, two),
        BinaryFamily::Comma => Ok(second_of(types, one, two)),
    }
}

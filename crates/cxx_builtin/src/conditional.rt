//! The conditional operator, where no arm has to be converted to a class (5.16).
ghost use Rattle.std.specs.Prelude.{◌≡◌, ◌<◌, length};
ghost use Rattle.cxx_model.specs.Facts.Declarations.{graph_at};
ghost use Rattle.cxx_model.specs.Facts.Fitted.{Fitted};
ghost use Rattle.cxx_model.specs.Types.Numbers.{type_at};
ghost use Rattle.cxx_meaning.specs.Conversions.Asking.{Gives};
ghost use Rattle.cxx_meaning.specs.Conversions.Conditional as definition;
ghost use Rattle.cxx_meaning.specs.Conversions.Kinds.{enumerated};
ghost use Rattle.cxx_builtin.specs.Plans.{plans_at, sketch_at, sketches_at, ArePlansBelow, IsAnswerBelow, IsSecondBelow, IsSketchBelow};
ghost use Rattle.cxx_standard.specs.Views.{kind_at, operand_at, IsKindBelow, IsKindInRange};

use crate::arithmetic::number_of;
use crate::binary::by_usual;
use crate::operand::operand_kind;
use crate::plan::{Plan, Sketch, object_of_two, value_of_two};
use crate::pointers::common_pointer;
use cxx_graph::Graph;
use cxx_model::{Base, ConstantKind, EnumId, Operand, TypeId, Wait};
use cxx_standard::{TypeKind, is_null, same_base};
use cxx_types::TypeTable;
use std::alloc::Global;

fn shared(types: &TypeTable, of: Sketch) -> Option<Plan>
    requires { IsSketchBelow (length types.now) of }
    ensures is { plans_at types.now result ≡ definition.shared (sketch_at types.now of) }
    ensures below { ArePlansBelow (length types.now) result }
{
    let _ = types;
    Some(value_of_two(of, of, of))
}

fn shared_common(types: &TypeTable, common: Option<Sketch>) -> Option<Plan>
    requires { IsSecondBelow (length types.now) common }
    ensures is { plans_at types.now result ≡ definition.shared_common (sketches_at types.now common) }
    ensures below { ArePlansBelow (length types.now) result }
{
    match common {
        None => None,
        Some(common) => shared(types, common),
    }
}

fn shared_null(types: &TypeTable, pointer: TypeId, known: ConstantKind, of: Base) -> Option<Plan>
    requires { pointer.0 < length types.now }
    ensures is { plans_at types.now result ≡ definition.shared_null (type_at types.now pointer.0) known of }
    ensures below { ArePlansBelow (length types.now) result }
{
    if is_null(known, of) {
        shared(types, Sketch::Value(pointer))
    } else {
        None
    }
}

#[tactic(auto, unfolding(cxx_meaning::specs::Conversions::Conditional::shared_pointers))]
fn shared_pointers(
    alloc: Global,
    graph: &Graph,
    types: &TypeTable,
    left: TypeId,
    right: TypeId,
) -> Result<Option<Plan>, Wait>
    requires left_known { left.0 < length types.now }
    requires right_known { right.0 < length types.now }
    requires fitted { Fitted graph.now types.now }
    ensures is { Gives (plans_at types.now) result (definition.shared_pointers (graph_at types.now graph.now) (type_at types.now left.0) (type_at types.now right.0)) }
    ensures below { IsAnswerBelow (length types.now) result }
{
    let common = common_pointer(alloc, graph, types, left, right)?;
    Ok(shared_common(types, common))
}

fn shared_numbers(graph: &Graph, types: &TypeTable, left: TypeKind, right: TypeKind) -> Option<Plan>
    requires left_range { IsKindInRange graph.now (kind_at types.now left) }
    requires right_range { IsKindInRange graph.now (kind_at types.now right) }
    ensures is { plans_at types.now result ≡ definition.shared_numbers (graph_at types.now graph.now) (kind_at types.now left) (kind_at types.now right) }
    ensures below { ArePlansBelow (length types.now) result }
{
    let number = number_of(graph, types, left);
    by_usual(types, number, number_of(graph, types, right))
}

#[tactic(auto, unfolding(cxx_meaning::specs::Conversions::Conditional::arms_of_arithmetic))]
fn arms_of_arithmetic(
    graph: &Graph,
    types: &TypeTable,
    one: Operand,
    two: Operand,
    of: Base,
    kind: TypeKind,
) -> Option<Plan>
    requires one_known { one.of.0 < length types.now }
    requires two_known { two.of.0 < length types.now }
    requires range { IsKindInRange graph.now (kind_at types.now kind) }
    ensures is { plans_at types.now result ≡ definition.arms_of_arithmetic (graph_at types.now graph.now) (operand_at types.now one) (operand_at types.now two) of (kind_at types.now kind) }
    ensures below { ArePlansBelow (length types.now) result }
{
    match kind {
        TypeKind::Arithmetic(other) => {
            if same_base(of, other) {
                shared(types, Sketch::Plain(of))
            } else {
                shared_numbers(graph, types, TypeKind::Arithmetic(of), kind)
            }
        }
        TypeKind::Pointer(_) => shared_null(types, two.of, one.constant, of),
        _ => shared_numbers(graph, types, TypeKind::Arithmetic(of), kind),
    }
}

#[tactic(auto, unfolding(cxx_meaning::specs::Conversions::Conditional::arms_of_enumeration))]
fn arms_of_enumeration(
    graph: &Graph,
    types: &TypeTable,
    one: Operand,
    number: EnumId,
    kind: TypeKind,
) -> Option<Plan>
    requires one_known { one.of.0 < length types.now }
    requires number_range { IsKindInRange graph.now (enumerated number.0) }
    requires range { IsKindInRange graph.now (kind_at types.now kind) }
    ensures is { plans_at types.now result ≡ definition.arms_of_enumeration (graph_at types.now graph.now) (operand_at types.now one) number.0 (kind_at types.now kind) }
    ensures below { ArePlansBelow (length types.now) result }
{
    match kind {
        TypeKind::Enumeration(other) => {
            if number.0 == other.0 {
                shared(types, Sketch::Value(one.of))
            } else {
                shared_numbers(graph, types, TypeKind::Enumeration(number), kind)
            }
        }
        _ => shared_numbers(graph, types, TypeKind::Enumeration(number), kind),
    }
}

#[tactic(auto, unfolding(cxx_meaning::specs::Conversions::Conditional::arms_of_pointer))]
fn arms_of_pointer(
    alloc: Global,
    graph: &Graph,
    types: &TypeTable,
    one: Operand,
    two: Operand,
    to: TypeId,
    kind: TypeKind,
) -> Result<Option<Plan>, Wait>
    requires one_known { one.of.0 < length types.now }
    requires two_known { two.of.0 < length types.now }
    requires to_known { to.0 < length types.now }
    requires kind_below { IsKindBelow (length types.now) kind }
    requires fitted { Fitted graph.now types.now }
    ensures is { Gives (plans_at types.now) result (definition.arms_of_pointer (graph_at types.now graph.now) (operand_at types.now one) (operand_at types.now two) (type_at types.now to.0) (kind_at types.now kind)) }
    ensures below { IsAnswerBelow (length types.now) result }
{
    match kind {
        TypeKind::Pointer(other) => shared_pointers(alloc, graph, types, to, other),
        TypeKind::Arithmetic(of) => Ok(shared_null(types, one.of, two.constant, of)),
        _ => Ok(None),
    }
}

fn arms_of_class(types: &TypeTable, one: Operand, two: Operand) -> Option<Plan>
    requires one_known { one.of.0 < length types.now }
    requires two_known { two.of.0 < length types.now }
    ensures is { plans_at types.now result ≡ definition.arms_of_class (operand_at types.now one) (operand_at types.now two) }
    ensures below { ArePlansBelow (length types.now) result }
{
    if types.same(one.of, two.of) {
        shared(types, Sketch::Known(one.of))
    } else {
        None
    }
}

#[tactic(auto, unfolding(cxx_meaning::specs::Conversions::Conditional::arms_of_void))]
fn arms_of_void(types: &TypeTable, kind: TypeKind) -> Option<Plan>
    ensures is { plans_at types.now result ≡ definition.arms_of_void (kind_at types.now kind) }
    ensures below { ArePlansBelow (length types.now) result }
{
    match kind {
        TypeKind::Void => shared(types, Sketch::Plain(Base::Void)),
        _ => None,
    }
}

#[tactic(auto, unfolding(cxx_meaning::specs::Conversions::Conditional::arms_of))]
fn arms_of(
    alloc: Global,
    graph: &Graph,
    types: &TypeTable,
    one: Operand,
    two: Operand,
    left: TypeKind,
    right: TypeKind,
) -> Result<Option<Plan>, Wait>
    requires one_known { one.of.0 < length types.now }
    requires two_known { two.of.0 < length types.now }
    requires left_below { IsKindBelow (length types.now) left }
    requires right_below { IsKindBelow (length types.now) right }
    requires left_range { IsKindInRange graph.now (kind_at types.now left) }
    requires right_range { IsKindInRange graph.now (kind_at types.now right) }
    requires fitted { Fitted graph.now types.now }
    ensures is { Gives (plans_at types.now) result (definition.arms_of (graph_at types.now graph.now) (operand_at types.now one) (operand_at types.now two) (kind_at types.now left) (kind_at types.now right)) }
    ensures below { IsAnswerBelow (length types.now) result }
{
    match left {
        TypeKind::Arithmetic(of) => Ok(arms_of_arithmetic(graph, types, one, two, of, right)),
        TypeKind::Enumeration(number) => Ok(arms_of_enumeration(graph, types, one, number, right)),
        TypeKind::Pointer(to) => arms_of_pointer(alloc, graph, types, one, two, to, right),
        TypeKind::Class(_) => Ok(arms_of_class(types, one, two)),
        TypeKind::Void => Ok(arms_of_void(types, right)),
        TypeKind::Other => Ok(None),
    }
}

/// What the second and the third operand of the conditional operator become, by types that are there.
#[tactic(auto, unfolding(cxx_meaning::specs::Conversions::Conditional::conditional))]
pub(crate) fn conditional(
    alloc: Global,
    graph: &Graph,
    types: &TypeTable,
    one: Operand,
    two: Operand,
) -> Result<Option<Plan>, Wait>
    requires one_known { one.of.0 < length types.now }
    requires two_known { two.of.0 < length types.now }
    requires fitted { Fitted graph.now types.now }
    ensures is { Gives (plans_at types.now) result (definition.conditional (graph_at types.now graph.now) (operand_at types.now one) (operand_at types.now two)) }
    ensures below { IsAnswerBelow (length types.now) result }
{
    if one.lvalue && two.lvalue && types.same(one.of, two.of) {
        let first = Sketch::Known(one.of);
        return Ok(Some(object_of_two(first, Sketch::Known(two.of), first)));
    }
    let left = operand_kind(graph, types, one);
    let right = operand_kind(graph, types, two);
    arms_of(alloc, graph, types, one, two, left, right)
}

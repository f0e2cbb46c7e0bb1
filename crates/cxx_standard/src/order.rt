//! The order of two standard conversion sequences (13.3.3.2).
ghost use Rattle.std.specs.Prelude.{◌≡◌, ◌<◌, [], length};
ghost use Rattle.cxx_model.specs.Choice.StandardOrder.{number_of_rank, same_step as same_step_of};
ghost use Rattle.cxx_model.specs.Facts.Declarations.{graph_at};
ghost use Rattle.cxx_model.specs.Facts.Fitted.{Fitted};
ghost use Rattle.cxx_model.specs.Types.Numbers.{type_at};
ghost use Rattle.cxx_meaning.specs.Conversions.Order as order;
ghost use Rattle.cxx_meaning.specs.Conversions.Standard.{rank_of};
ghost use Rattle.cxx_standard.specs.Views.{kind_at, sequence_at, way_at, Computes, IsKindBelow, IsKindInRange, IsSequenceBelow, IsWayInRange};

use crate::classes::is_derived;
use crate::kinds::{TypeKind, kind_of, value_kind};
use crate::levels::{are_within, cv_of, is_cv_within};
use cxx_graph::Graph;
use cxx_model::{ClassId, First, Order, OutOfMemory, Second, StandardSequence, TypeId, TypeNode};
use cxx_types::TypeTable;
use std::alloc::Global;

/// What a reference refers to, and else the type itself (8.3.2).
fn target(types: &TypeTable, to: TypeId) -> TypeId
    requires { to.0 < length types.now }
    ensures is { type_at types.now result.0 ≡ order.target (type_at types.now to.0) }
    ensures known { result.0 < length types.now }
{
    match types.node(to) {
        TypeNode::Reference(of) => *of,
        _ => to,
    }
}

// ---- a proper subsequence

fn same_step(one: Second, two: Second) -> bool
    ensures { result ≡ same_step_of one two }
{
    one == two
}

fn is_step_within(one: Option<Second>, two: Option<Second>) -> bool
    ensures { result ≡ order.is_step_within one two }
{
    match one {
        None => true,
        Some(one) => match two {
            None => false,
            Some(two) => same_step(one, two),
        },
    }
}

fn is_part(one: &StandardSequence, two: &StandardSequence) -> bool
    ensures { result ≡ order.is_part (sequence_at [] one.now) (sequence_at [] two.now) }
{
    is_step_within(one.second, two.second) && (!one.third || two.third)
}

fn is_identity(one: &StandardSequence) -> bool
    ensures { result ≡ order.is_identity (sequence_at [] one.now) }
{
    is_step_within(one.second, None) && !one.third
}

#[tactic(auto, unfolding(cxx_meaning::specs::Conversions::Order::is_proper_part))]
fn is_proper_part(types: &TypeTable, one: &StandardSequence, two: &StandardSequence) -> bool
    requires one_below { IsSequenceBelow (length types.now) one.now }
    requires two_below { IsSequenceBelow (length types.now) two.now }
    ensures { result ≡ order.is_proper_part (sequence_at types.now one.now) (sequence_at types.now two.now) }
{
    (is_part(one, two) && !is_part(two, one))
        && (is_identity(one) || types.similar(target(types, one.to), target(types, two.to)))
}

// ---- ranks

fn rank_number(step: Option<Second>) -> u8
    ensures { result ≡ number_of_rank (rank_of step) }
{
    match step {
        None => 0,
        Some(Second::IntegralPromotion) | Some(Second::FloatingPromotion) => 1,
        Some(_) => 2,
    }
}

fn has_better_rank(one: &StandardSequence, two: &StandardSequence) -> bool
    ensures { result ≡ order.has_better_rank (sequence_at [] one.now) (sequence_at [] two.now) }
{
    rank_number(one.second) < rank_number(two.second)
}

// ---- pointers to `bool`

fn is_boolean(step: Option<Second>) -> bool
    ensures { result ≡ order.is_boolean step }
{
    match step {
        Some(Second::Boolean) => true,
        _ => false,
    }
}

/// Whether it is the kind of a pointer.
pub fn is_pointing(kind: TypeKind) -> bool
    ensures { result ≡ order.is_pointing (kind_at [] kind) }
{
    match kind {
        TypeKind::Pointer(_) => true,
        _ => false,
    }
}

fn is_pointer_to_bool(graph: &Graph, types: &TypeTable, one: &StandardSequence) -> bool
    requires one_below { IsSequenceBelow (length types.now) one.now }
    requires fitted { Fitted graph.now types.now }
    ensures { result ≡ order.is_pointer_to_bool (sequence_at types.now one.now) }
{
    is_boolean(one.second) && is_pointing(value_kind(graph, types, one.from.of))
}

#[tactic(auto, unfolding(cxx_meaning::specs::Conversions::Order::is_no_pointer_to_bool))]
fn is_no_pointer_to_bool(
    graph: &Graph,
    types: &TypeTable,
    one: &StandardSequence,
    two: &StandardSequence,
) -> bool
    requires one_below { IsSequenceBelow (length types.now) one.now }
    requires two_below { IsSequenceBelow (length types.now) two.now }
    requires fitted { Fitted graph.now types.now }
    ensures { result ≡ order.is_no_pointer_to_bool (sequence_at types.now one.now) (sequence_at types.now two.now) }
{
    !is_pointer_to_bool(graph, types, one) && is_pointer_to_bool(graph, types, two)
}

// ---- classes

/// Which classes a conversion of a pointer, or of an object, leads between.
#[derive(Clone, Copy)]
pub(crate) enum Way {
    Pointers(ClassId, ClassId),
    ToVoid(ClassId),
    Classes(ClassId, ClassId),
    Neither,
}

fn way_of_pointees(graph: &Graph, types: &TypeTable, one: TypeKind, two: TypeKind) -> Way
    requires one_range { IsKindInRange graph.now (kind_at types.now one) }
    requires two_range { IsKindInRange graph.now (kind_at types.now two) }
    ensures is { way_at result ≡ order.way_of_pointees (kind_at types.now one) (kind_at types.now two) }
    ensures range { IsWayInRange graph.now (way_at result) }
{
    let _ = graph;
    let _ = types;
    match one {
        TypeKind::Class(one) => match two {
            TypeKind::Class(two) => Way::Pointers(one, two),
            TypeKind::Void => Way::ToVoid(one),
            _ => Way::Neither,
        },
        _ => Way::Neither,
    }
}

#[tactic(auto, unfolding(cxx_meaning::specs::Conversions::Order::way_of_pointers))]
fn way_of_pointers(graph: &Graph, types: &TypeTable, one: TypeKind, two: TypeKind) -> Way
    requires one_below { IsKindBelow (length types.now) one }
    requires two_below { IsKindBelow (length types.now) two }
    requires fitted { Fitted graph.now types.now }
    ensures is { way_at result ≡ order.way_of_pointers (kind_at types.now one) (kind_at types.now two) }
    ensures range { IsWayInRange graph.now (way_at result) }
{
    match one {
        TypeKind::Pointer(one) => match two {
            TypeKind::Pointer(two) => {
                let from = kind_of(graph, types, one);
                way_of_pointees(graph, types, from, kind_of(graph, types, two))
            }
            _ => Way::Neither,
        },
        _ => Way::Neither,
    }
}

#[tactic(auto, unfolding(cxx_meaning::specs::Conversions::Order::way_of_classes))]
fn way_of_classes(graph: &Graph, types: &TypeTable, one: TypeKind, two: TypeKind) -> Way
    requires one_range { IsKindInRange graph.now (kind_at types.now one) }
    requires two_range { IsKindInRange graph.now (kind_at types.now two) }
    ensures is { way_at result ≡ order.way_of_classes (kind_at types.now one) (kind_at types.now two) }
    ensures range { IsWayInRange graph.now (way_at result) }
{
    let _ = graph;
    let _ = types;
    match one {
        TypeKind::Class(one) => match two {
            TypeKind::Class(two) => Way::Classes(one, two),
            _ => Way::Neither,
        },
        _ => Way::Neither,
    }
}

#[tactic(auto, unfolding(cxx_meaning::specs::Conversions::Order::way_of))]
fn way_of(graph: &Graph, types: &TypeTable, one: &StandardSequence) -> Way
    requires one_below { IsSequenceBelow (length types.now) one.now }
    requires fitted { Fitted graph.now types.now }
    ensures is { way_at result ≡ order.way_of (sequence_at types.now one.now) }
    ensures range { IsWayInRange graph.now (way_at result) }
{
    match one.second {
        Some(Second::Pointer) => {
            let from = value_kind(graph, types, one.from.of);
            way_of_pointers(
                graph,
                types,
                from,
                kind_of(graph, types, target(types, one.to)),
            )
        }
        Some(Second::DerivedToBase) => {
            let from = kind_of(graph, types, one.from.of);
            way_of_classes(
                graph,
                types,
                from,
                kind_of(graph, types, target(types, one.to)),
            )
        }
        _ => Way::Neither,
    }
}

#[tactic(auto, unfolding(cxx_meaning::specs::Conversions::Order::is_shorter))]
fn is_shorter(
    alloc: Global,
    graph: &Graph,
    types: &TypeTable,
    a: ClassId,
    b: ClassId,
    c: ClassId,
    d: ClassId,
) -> Result<bool, OutOfMemory>
    requires a_known { a.0 < length graph.now.classes }
    requires b_known { b.0 < length graph.now.classes }
    requires c_known { c.0 < length graph.now.classes }
    requires d_known { d.0 < length graph.now.classes }
    ensures { Computes result (order.is_shorter (graph_at types.now graph.now) a.0 b.0 c.0 d.0) }
{
    let from_one = a.0 == c.0 && is_derived(alloc, graph, types, b, d)?;
    let to_one = b.0 == d.0 && is_derived(alloc, graph, types, c, a)?;
    Ok(from_one || to_one)
}

#[tactic(auto, unfolding(cxx_meaning::specs::Conversions::Order::is_nearer))]
fn is_nearer(
    alloc: Global,
    graph: &Graph,
    types: &TypeTable,
    one: Way,
    two: Way,
) -> Result<bool, OutOfMemory>
    requires one_range { IsWayInRange graph.now (way_at one) }
    requires two_range { IsWayInRange graph.now (way_at two) }
    ensures { Computes result (order.is_nearer (graph_at types.now graph.now) (way_at one) (way_at two)) }
{
    match one {
        Way::Pointers(a, b) => match two {
            Way::ToVoid(c) => Ok(a.0 == c.0),
            Way::Pointers(c, d) => is_shorter(alloc, graph, types, a, b, c, d),
            _ => Ok(false),
        },
        Way::ToVoid(a) => match two {
            Way::ToVoid(c) => is_derived(alloc, graph, types, c, a),
            _ => Ok(false),
        },
        Way::Classes(a, b) => match two {
            Way::Classes(c, d) => is_shorter(alloc, graph, types, a, b, c, d),
            _ => Ok(false),
        },
        Way::Neither => Ok(false),
    }
}

#[tactic(auto, unfolding(cxx_meaning::specs::Conversions::Order::has_nearer_class))]
fn has_nearer_class(
    alloc: Global,
    graph: &Graph,
    types: &TypeTable,
    one: &StandardSequence,
    two: &StandardSequence,
) -> Result<bool, OutOfMemory>
    requires one_below { IsSequenceBelow (length types.now) one.now }
    requires two_below { IsSequenceBelow (length types.now) two.now }
    requires fitted { Fitted graph.now types.now }
    ensures { Computes result (order.has_nearer_class (graph_at types.now graph.now) (sequence_at types.now one.now) (sequence_at types.now two.now)) }
{
    let way = way_of(graph, types, one);
    let other = way_of(graph, types, two);
    is_nearer(alloc, graph, types, way, other)
}

// ---- qualifications

fn same_first(one: Option<First>, two: Option<First>) -> bool
    ensures { result ≡ order.same_first one two }
{
    match one {
        None => match two {
            None => true,
            _ => false,
        },
        Some(First::LvalueToRvalue) => match two {
            Some(First::LvalueToRvalue) => true,
            _ => false,
        },
        Some(First::ArrayToPointer) => match two {
            Some(First::ArrayToPointer) => true,
            _ => false,
        },
        Some(First::FunctionToPointer) => match two {
            Some(First::FunctionToPointer) => true,
            _ => false,
        },
    }
}

fn differ_at_end(one: &StandardSequence, two: &StandardSequence) -> bool
    ensures { result ≡ order.differ_at_end (sequence_at [] one.now) (sequence_at [] two.now) }
{
    (one.third && two.third)
        && (same_first(one.first, two.first)
            && (is_step_within(one.second, two.second) && is_step_within(two.second, one.second)))
}

fn has_fewer_words(types: &TypeTable, one: TypeId, two: TypeId) -> bool
    requires one_known { one.0 < length types.now }
    requires two_known { two.0 < length types.now }
    ensures { result ≡ order.has_fewer_words (type_at types.now one.0) (type_at types.now two.0) }
{
    types.similar(one, two) && (are_within(types, one, two) && !are_within(types, two, one))
}

#[tactic(auto, unfolding(cxx_meaning::specs::Conversions::Order::is_less_qualified))]
fn is_less_qualified(types: &TypeTable, one: &StandardSequence, two: &StandardSequence) -> bool
    requires one_below { IsSequenceBelow (length types.now) one.now }
    requires two_below { IsSequenceBelow (length types.now) two.now }
    ensures { result ≡ order.is_less_qualified (sequence_at types.now one.now) (sequence_at types.now two.now) }
{
    differ_at_end(one, two) && has_fewer_words(types, target(types, one.to), target(types, two.to))
}

// ---- references

fn refers_to_fewer(types: &TypeTable, one: TypeId, two: TypeId) -> bool
    requires one_known { one.0 < length types.now }
    requires two_known { two.0 < length types.now }
    ensures { result ≡ order.refers_to_fewer (type_at types.now one.0) (type_at types.now two.0) }
{
    types.same_unqualified(one, two)
        && (is_cv_within(cv_of(types, one), cv_of(types, two))
            && !is_cv_within(cv_of(types, two), cv_of(types, one)))
}

#[tactic(auto, unfolding(cxx_meaning::specs::Conversions::Order::refers_to_less))]
fn refers_to_less(types: &TypeTable, one: TypeId, two: TypeId) -> bool
    requires one_known { one.0 < length types.now }
    requires two_known { two.0 < length types.now }
    ensures { result ≡ order.refers_to_less (type_at types.now one.0) (type_at types.now two.0) }
{
    match types.node(one) {
        TypeNode::Reference(one) => match types.node(two) {
            TypeNode::Reference(two) => refers_to_fewer(types, *one, *two),
            _ => false,
        },
        _ => false,
    }
}

// ---- the order

fn told(one: bool, two: bool) -> Order
    ensures { result ≡ order.told one two }
{
    if one && !two {
        Order::Better
    } else if two && !one {
        Order::Worse
    } else {
        Order::Same
    }
}

fn told_by_part(types: &TypeTable, one: &StandardSequence, two: &StandardSequence) -> Order
    requires one_below { IsSequenceBelow (length types.now) one.now }
    requires two_below { IsSequenceBelow (length types.now) two.now }
    ensures { result ≡ order.told_by order.is_proper_part (sequence_at types.now one.now) (sequence_at types.now two.now) }
{
    told(
        is_proper_part(types, one, two),
        is_proper_part(types, two, one),
    )
}

fn told_by_rank(one: &StandardSequence, two: &StandardSequence) -> Order
    ensures { result ≡ order.told_by order.has_better_rank (sequence_at [] one.now) (sequence_at [] two.now) }
{
    told(has_better_rank(one, two), has_better_rank(two, one))
}

fn told_by_bool(
    graph: &Graph,
    types: &TypeTable,
    one: &StandardSequence,
    two: &StandardSequence,
) -> Order
    requires one_below { IsSequenceBelow (length types.now) one.now }
    requires two_below { IsSequenceBelow (length types.now) two.now }
    requires fitted { Fitted graph.now types.now }
    ensures { result ≡ order.told_by order.is_no_pointer_to_bool (sequence_at types.now one.now) (sequence_at types.now two.now) }
{
    told(
        is_no_pointer_to_bool(graph, types, one, two),
        is_no_pointer_to_bool(graph, types, two, one),
    )
}

fn told_by_class(
    alloc: Global,
    graph: &Graph,
    types: &TypeTable,
    one: &StandardSequence,
    two: &StandardSequence,
) -> Result<Order, OutOfMemory>
    requires one_below { IsSequenceBelow (length types.now) one.now }
    requires two_below { IsSequenceBelow (length types.now) two.now }
    requires fitted { Fitted graph.now types.now }
    ensures { Computes result (order.told_by (order.has_nearer_class (graph_at types.now graph.now)) (sequence_at types.now one.now) (sequence_at types.now two.now)) }
{
    let nearer = has_nearer_class(alloc, graph, types, one, two)?;
    let farther = has_nearer_class(alloc, graph, types, two, one)?;
    Ok(told(nearer, farther))
}

fn told_by_words(types: &TypeTable, one: &StandardSequence, two: &StandardSequence) -> Order
    requires one_below { IsSequenceBelow (length types.now) one.now }
    requires two_below { IsSequenceBelow (length types.now) two.now }
    ensures { result ≡ order.told_by order.is_less_qualified (sequence_at types.now one.now) (sequence_at types.now two.now) }
{
    told(
        is_less_qualified(types, one, two),
        is_less_qualified(types, two, one),
    )
}

#[tactic(auto, unfolding(cxx_meaning::specs::Conversions::Order::is_bound_to_less))]
fn told_by_reference(types: &TypeTable, one: &StandardSequence, two: &StandardSequence) -> Order
    requires one_below { IsSequenceBelow (length types.now) one.now }
    requires two_below { IsSequenceBelow (length types.now) two.now }
    ensures { result ≡ order.told_by order.is_bound_to_less (sequence_at types.now one.now) (sequence_at types.now two.now) }
{
    told(
        refers_to_less(types, one.to, two.to),
        refers_to_less(types, two.to, one.to),
    )
}

fn else_by(one: Order, two: Order) -> Order
    ensures { result ≡ order.else_by one two }
{
    match one {
        Order::Same => two,
        _ => one,
    }
}

/// How one standard conversion sequence stands to another: the first criterion that tells the two apart decides.
#[tactic(auto, unfolding(cxx_meaning::specs::Conversions::Order::order_of))]
pub fn compare(
    alloc: Global,
    graph: &Graph,
    types: &TypeTable,
    one: &StandardSequence,
    two: &StandardSequence,
) -> Result<Order, OutOfMemory>
    requires one_below { IsSequenceBelow (length types.now) one.now }
    requires two_below { IsSequenceBelow (length types.now) two.now }
    requires fitted { Fitted graph.now types.now }
    ensures { Computes result (order.order_of (graph_at types.now graph.now) (sequence_at types.now one.now) (sequence_at types.now two.now)) }
{
    let by_part = told_by_part(types, one, two);
    let by_rank = told_by_rank(one, two);
    let by_bool = told_by_bool(graph, types, one, two);
    let by_class = told_by_class(alloc, graph, types, one, two)?;
    let by_words = told_by_words(types, one, two);
    let by_reference = told_by_reference(types, one, two);
    let by_end = else_by(by_words, else_by(by_reference, Order::Same));
    Ok(else_by(
        by_part,
        else_by(by_rank, else_by(by_bool, else_by(by_class, by_end))),
    ))
}

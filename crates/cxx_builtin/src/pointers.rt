//! Pointers to complete objects (5.7), and the common type of two pointers (5.9).
ghost use Rattle.std.specs.Prelude.{◌≡◌, ◌<◌, length};
ghost use Rattle.cxx_model.specs.Facts.Declarations.{graph_at};
ghost use Rattle.cxx_model.specs.Facts.Fitted.{Fitted};
ghost use Rattle.cxx_model.specs.Types.Numbers.{type_at, bound_at};
ghost use Rattle.cxx_meaning.specs.Conversions.Asking.{Gives};
ghost use Rattle.cxx_meaning.specs.Conversions.Kinds.{kind_of as kind_of_type};
ghost use Rattle.cxx_meaning.specs.Conversions.Pointers as definition;
ghost use Rattle.cxx_builtin.specs.Plans.{sketches_at, AreSketchesBelow, IsSecondBelow};
ghost use Rattle.cxx_standard.specs.Views.{kind_at, IsKindInRange};

use crate::operand::is_void;
use crate::plan::Sketch;
use cxx_graph::Graph;
use cxx_model::{Bound, ClassId, TypeId, TypeNode, Wait};
use cxx_standard::{TypeKind, cv_of, is_complete, is_derived, is_function, is_pending, kind_of};
use cxx_types::TypeTable;
use std::alloc::Global;

// ---- complete objects

#[tactic(auto, unfolding(cxx_meaning::specs::Conversions::Pointers::is_complete_class))]
fn is_complete_class(graph: &Graph, types: &TypeTable, class: ClassId) -> Result<bool, Wait>
    requires { class.0 < length graph.now.classes }
    ensures { Gives (λ x. x) result (definition.is_complete_class (graph_at types.now graph.now) class.0) }
{
    if is_pending(graph, types, class) {
        Err(Wait::Needs(class))
    } else {
        Ok(is_complete(graph, types, class))
    }
}

fn is_complete_kind(graph: &Graph, types: &TypeTable, kind: TypeKind) -> Result<bool, Wait>
    requires { IsKindInRange graph.now (kind_at types.now kind) }
    ensures { Gives (λ x. x) result (definition.is_complete_kind (graph_at types.now graph.now) (kind_at types.now kind)) }
{
    match kind {
        TypeKind::Arithmetic(_) | TypeKind::Enumeration(_) | TypeKind::Pointer(_) => Ok(true),
        TypeKind::Class(class) => is_complete_class(graph, types, class),
        _ => Ok(false),
    }
}

fn is_known(types: &TypeTable, bound: &Bound) -> bool
    ensures { result ≡ definition.is_known (bound_at types.now bound.now) }
{
    let _ = types;
    match bound {
        Bound::Number(_) => true,
        _ => false,
    }
}

/// Whether a type is that of objects whose size is known (3.9).
#[tactic(auto, unfolding(cxx_meaning::specs::Conversions::Pointers::is_complete_object))]
pub(crate) fn is_complete_object(
    graph: &Graph,
    types: &TypeTable,
    number: TypeId,
) -> Result<bool, Wait>
    requires known { number.0 < length types.now }
    requires fitted { Fitted graph.now types.now }
    ensures { Gives (λ x. x) result (definition.is_complete_object (graph_at types.now graph.now) (type_at types.now number.0)) }
{
    match types.node(number) {
        TypeNode::Array(element, bound) => {
            if is_known(types, bound) {
                is_complete_object(graph, types, *element)
            } else {
                Ok(false)
            }
        }
        _ => is_complete_kind(graph, types, kind_of(graph, types, number)),
    }
}

// ---- common pointer types

fn common_void(graph: &Graph, types: &TypeTable, one: TypeId, two: TypeId) -> Option<Sketch>
    requires one_known { one.0 < length types.now }
    requires two_known { two.0 < length types.now }
    requires fitted { Fitted graph.now types.now }
    ensures is { sketches_at types.now result ≡ definition.common_void (type_at types.now one.0) (type_at types.now two.0) }
    ensures below { IsSecondBelow (length types.now) result }
{
    if is_function(types, one) || is_function(types, two) {
        None
    } else if is_void(kind_of(graph, types, one)) {
        Some(Sketch::Added(one, cv_of(types, two)))
    } else {
        Some(Sketch::Added(two, cv_of(types, one)))
    }
}

#[tactic(auto, unfolding(cxx_meaning::specs::Conversions::Pointers::both_ready))]
fn both_ready(graph: &Graph, types: &TypeTable, one: ClassId, two: ClassId) -> Result<(), Wait>
    requires one_known { one.0 < length graph.now.classes }
    requires two_known { two.0 < length graph.now.classes }
    ensures { Gives (λ x. x) result (definition.both_ready (graph_at types.now graph.now) one.0 two.0) }
{
    if is_pending(graph, types, one) && (!is_pending(graph, types, two) || one.0 < two.0) {
        return Err(Wait::Needs(one));
    }
    if is_pending(graph, types, two) {
        return Err(Wait::Needs(two));
    }
    Ok(())
}

#[tactic(auto, unfolding(cxx_meaning::specs::Conversions::Pointers::common_class))]
fn common_class(
    alloc: Global,
    graph: &Graph,
    types: &TypeTable,
    one: TypeId,
    two: TypeId,
    class: ClassId,
    other: ClassId,
) -> Result<Option<Sketch>, Wait>
    requires one_known { one.0 < length types.now }
    requires two_known { two.0 < length types.now }
    requires class_known { class.0 < length graph.now.classes }
    requires other_known { other.0 < length graph.now.classes }
    ensures is { Gives (sketches_at types.now) result (definition.common_class (graph_at types.now graph.now) (type_at types.now one.0) (type_at types.now two.0) class.0 other.0) }
    ensures below { AreSketchesBelow (length types.now) result }
{
    both_ready(graph, types, class, other)?;
    match is_derived(alloc, graph, types, class, other) {
        Err(_) => return Err(Wait::OutOfMemory),
        Ok(true) => return Ok(Some(Sketch::Added(two, cv_of(types, one)))),
        Ok(false) => {}
    }
    match is_derived(alloc, graph, types, other, class) {
        Err(_) => Err(Wait::OutOfMemory),
        Ok(true) => Ok(Some(Sketch::Added(one, cv_of(types, two)))),
        Ok(false) => Ok(None),
    }
}

#[tactic(auto, unfolding(cxx_meaning::specs::Conversions::Pointers::common_other))]
fn common_other(
    alloc: Global,
    graph: &Graph,
    types: &TypeTable,
    one: TypeId,
    two: TypeId,
) -> Result<Option<Sketch>, Wait>
    requires one_known { one.0 < length types.now }
    requires two_known { two.0 < length types.now }
    requires fitted { Fitted graph.now types.now }
    ensures is { Gives (sketches_at types.now) result (definition.common_other (graph_at types.now graph.now) (type_at types.now one.0) (type_at types.now two.0) (kind_of_type (type_at types.now one.0)) (kind_of_type (type_at types.now two.0))) }
    ensures below { AreSketchesBelow (length types.now) result }
{
    match kind_of(graph, types, one) {
        TypeKind::Class(class) => match kind_of(graph, types, two) {
            TypeKind::Class(other) => common_class(alloc, graph, types, one, two, class, other),
            TypeKind::Void => Ok(common_void(graph, types, one, two)),
            _ => Ok(None),
        },
        TypeKind::Void => Ok(common_void(graph, types, one, two)),
        _ => match kind_of(graph, types, two) {
            TypeKind::Void => Ok(common_void(graph, types, one, two)),
            _ => Ok(None),
        },
    }
}

/// The common type of pointers to two types, where there is one (5.9).
#[tactic(auto, unfolding(cxx_meaning::specs::Conversions::Pointers::common_pointer))]
pub(crate) fn common_pointer(
    alloc: Global,
    graph: &Graph,
    types: &TypeTable,
    one: TypeId,
    two: TypeId,
) -> Result<Option<Sketch>, Wait>
    requires one_known { one.0 < length types.now }
    requires two_known { two.0 < length types.now }
    requires fitted { Fitted graph.now types.now }
    ensures is { Gives (sketches_at types.now) result (definition.common_pointer (graph_at types.now graph.now) (type_at types.now one.0) (type_at types.now two.0)) }
    ensures below { AreSketchesBelow (length types.now) result }
{
    if types.similar(one, two) {
        Ok(Some(Sketch::Similar(one, two)))
    } else {
        common_other(alloc, graph, types, one, two)
    }
}

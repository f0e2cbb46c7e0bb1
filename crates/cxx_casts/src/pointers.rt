//! Casts between pointers, and between objects.
ghost use Rattle.std.specs.Prelude.{◌≡◌, ◌<◌, [], length};
ghost use Rattle.cxx_model.specs.Facts.Declarations.{graph_at};
ghost use Rattle.cxx_model.specs.Facts.Fitted.{Fitted};
ghost use Rattle.cxx_model.specs.Types.Numbers.{type_at};
ghost use Rattle.cxx_meaning.specs.Conversions.Asking.{Gives};
ghost use Rattle.cxx_meaning.specs.Conversions.Casts as casts;
ghost use Rattle.cxx_meaning.specs.Conversions.Kinds.{kind_of as kind_of_type};
ghost use Rattle.cxx_meaning.specs.Conversions.Pointers.{is_void as is_void_of};
ghost use Rattle.cxx_standard.specs.Views.{kind_at};

use crate::words::keeps_cv;
use cxx_graph::Graph;
use cxx_model::{ClassId, TypeId, Wait};
use cxx_standard::{TypeKind, is_derived, is_function, is_pending, kind_of};
use cxx_types::TypeTable;
use std::alloc::Global;

pub(crate) fn is_void(kind: TypeKind) -> bool
    ensures { result ≡ is_void_of (kind_at [] kind) }
{
    match kind {
        TypeKind::Void => true,
        _ => false,
    }
}

// From a pointer to `void` to a pointer to an object.
fn leaves_void(graph: &Graph, types: &TypeTable, one: TypeId, two: TypeId) -> bool
    requires one_known { one.0 < length types.now }
    requires two_known { two.0 < length types.now }
    requires fitted { Fitted graph.now types.now }
    ensures { result ≡ casts.leaves_void (type_at types.now one.0) (type_at types.now two.0) }
{
    !is_function(types, two) && (!is_void(kind_of(graph, types, two)) && keeps_cv(types, one, two))
}

// From a base to a class that is derived from it.
#[tactic(auto, unfolding(cxx_meaning::specs::Conversions::Casts::goes_down))]
fn goes_down(
    alloc: Global,
    graph: &Graph,
    types: &TypeTable,
    is_single: bool,
    one: TypeId,
    two: TypeId,
    base: ClassId,
    derived: ClassId,
) -> Result<bool, Wait>
    requires one_known { one.0 < length types.now }
    requires two_known { two.0 < length types.now }
    requires base_known { base.0 < length graph.now.classes }
    requires derived_known { derived.0 < length graph.now.classes }
    ensures { Gives (λ x. x) result (casts.goes_down (graph_at types.now graph.now) is_single (type_at types.now one.0) (type_at types.now two.0) base.0 derived.0) }
{
    if base.0 == derived.0 || !keeps_cv(types, one, two) {
        return Ok(false);
    }
    if is_pending(graph, types, derived) {
        return Err(Wait::Needs(derived));
    }
    match is_derived(alloc, graph, types, derived, base) {
        Ok(is) => Ok(is && is_single),
        Err(_) => Err(Wait::OutOfMemory),
    }
}

/// From a pointer to one type to a pointer to the other, by a `static_cast` that is no conversion.
#[tactic(auto, unfolding(cxx_meaning::specs::Conversions::Casts::static_pointers))]
pub(crate) fn static_pointers(
    alloc: Global,
    graph: &Graph,
    types: &TypeTable,
    is_single: bool,
    one: TypeId,
    two: TypeId,
) -> Result<bool, Wait>
    requires one_known { one.0 < length types.now }
    requires two_known { two.0 < length types.now }
    requires fitted { Fitted graph.now types.now }
    ensures { Gives (λ x. x) result (casts.static_pointers (graph_at types.now graph.now) is_single (type_at types.now one.0) (type_at types.now two.0) (kind_of_type (type_at types.now one.0)) (kind_of_type (type_at types.now two.0))) }
{
    match kind_of(graph, types, one) {
        TypeKind::Void => Ok(leaves_void(graph, types, one, two)),
        TypeKind::Class(base) => match kind_of(graph, types, two) {
            TypeKind::Class(derived) => {
                goes_down(alloc, graph, types, is_single, one, two, base, derived)
            }
            _ => Ok(false),
        },
        _ => Ok(false),
    }
}

/// From an object of one type to a reference to the other, by a `static_cast` that is no binding.
#[tactic(auto, unfolding(cxx_meaning::specs::Conversions::Casts::static_objects))]
pub(crate) fn static_objects(
    alloc: Global,
    graph: &Graph,
    types: &TypeTable,
    is_single: bool,
    one: TypeId,
    two: TypeId,
) -> Result<bool, Wait>
    requires one_known { one.0 < length types.now }
    requires two_known { two.0 < length types.now }
    requires fitted { Fitted graph.now types.now }
    ensures { Gives (λ x. x) result (casts.static_objects (graph_at types.now graph.now) is_single (type_at types.now one.0) (type_at types.now two.0) (kind_of_type (type_at types.now one.0)) (kind_of_type (type_at types.now two.0))) }
{
    match kind_of(graph, types, one) {
        TypeKind::Class(base) => match kind_of(graph, types, two) {
            TypeKind::Class(derived) => {
                goes_down(alloc, graph, types, is_single, one, two, base, derived)
            }
            _ => Ok(false),
        },
        _ => Ok(false),
    }
}

/// Between pointers to functions, or to objects or `void`.
pub(crate) fn retypes(types: &TypeTable, one: TypeId, two: TypeId) -> bool
    requires one_known { one.0 < length types.now }
    requires two_known { two.0 < length types.now }
    ensures { result ≡ casts.retypes (type_at types.now one.0) (type_at types.now two.0) }
{
    if is_function(types, one) {
        is_function(types, two)
    } else {
        !is_function(types, two) && keeps_cv(types, one, two)
    }
}

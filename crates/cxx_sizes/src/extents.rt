//! Extents of types, and what a declaration adds to a layout.
ghost use Rattle.std.specs.Prelude.{◌≡◌, ◌<◌, length, [], Some, IfSome};
ghost use Rattle.std.specs.List.{slice_get};
ghost use Rattle.cxx_meaning.specs.Conversions.Sizes as sizes;
ghost use Rattle.cxx_model.specs.Facts.Declarations.{declares_at, fact_at, graph_at};
ghost use Rattle.cxx_model.specs.Facts.Graph.{enumerations};
ghost use Rattle.cxx_model.specs.Facts.Fitted.{Fitted, IsEntityBelow};
ghost use Rattle.cxx_model.specs.Types.Numbers.{bound_at, type_at};
ghost use Rattle.cxx_sizes.specs.Noted.{layout_in as layout_at, extents_in, number_of};
ghost use Rattle.cxx_standard.specs.declared.kinds.TypeKind.TheVariants as type_kind;
ghost use Rattle.cxx_standard.specs.Views.{kind_at, IsKindInRange};

use crate::arithmetic::{
    class_extent, multiplied, plain_extent, size_of_base, with_base, with_part,
};
use crate::classes::layout_in;
use cxx_graph::Graph;
use cxx_meaning::{Extent, Layout, SizeReason};
use cxx_model::{
    Base, Bound, ClassId, Entity, EnumId, Fact, MemberKind, ScopeKind, TypeId, TypeNode,
};
use cxx_standard::{TypeKind, is_pending, kind_of, promoted};
use cxx_types::TypeTable;

fn times(
    types: &TypeTable,
    bound: &Bound,
    element: Result<Extent, SizeReason>,
) -> Result<Extent, SizeReason>
    ensures { result ≡ sizes.times (bound_at types.now bound.now) element }
{
    let _ = types;
    match bound {
        Bound::Number(count) => match element {
            Ok(of) => multiplied(*count, of),
            Err(fault) => Err(fault),
        },
        _ => Err(SizeReason::NoSize),
    }
}

fn enumeration_extent(of: Option<Base>) -> Result<Extent, SizeReason>
    ensures { result ≡ sizes.enumeration_extent of }
{
    match of {
        None => Err(SizeReason::NoSize),
        Some(of) => Ok(plain_extent(size_of_base(of))),
    }
}

#[tactic(auto, unfolding(cxx_meaning::specs::Conversions::Sizes::enumerations_in, cxx_meaning::specs::Conversions::Enumerations::promoted))]
fn extent_of_enumeration(
    graph: &Graph,
    types: &TypeTable,
    number: EnumId,
) -> Result<Extent, SizeReason>
    requires { number.0 < enumerations graph.now.facts }
    ensures { result ≡ sizes.enumerations_in (graph_at types.now graph.now).facts number.0 }
{
    enumeration_extent(promoted(graph, types, number))
}

fn extent_of_kind(
    layouts: &Vec<Layout>,
    graph: &Graph,
    types: &TypeTable,
    kind: TypeKind,
) -> Result<Extent, SizeReason>
    requires { IsKindInRange graph.now (kind_at types.now kind) }
    ensures { result ≡ sizes.extent_of_kind (extents_in layouts.now.items) (sizes.enumerations_in (graph_at types.now graph.now).facts) (kind_at types.now kind) }
{
    match kind {
        TypeKind::Arithmetic(of) => Ok(plain_extent(size_of_base(of))),
        TypeKind::Enumeration(number) => extent_of_enumeration(graph, types, number),
        TypeKind::Pointer(_) => Ok(plain_extent(8)),
        TypeKind::Class(class) => class_extent(layout_in(layouts, class)),
        _ => Err(SizeReason::NoSize),
    }
}

/// The extent of a type, given the layouts of classes.
#[tactic(auto, unfolding(cxx_meaning::specs::Conversions::Sizes::extent_of))]
pub(crate) fn extent_of(
    layouts: &Vec<Layout>,
    graph: &Graph,
    types: &TypeTable,
    of: TypeId,
) -> Result<Extent, SizeReason>
    requires known { of.0 < length types.now }
    requires fitted { Fitted graph.now types.now }
    ensures { result ≡ sizes.extent_of (extents_in layouts.now.items) (sizes.enumerations_in (graph_at types.now graph.now).facts) (type_at types.now of.0) }
{
    match types.node(of) {
        TypeNode::Array(element, bound) => times(
            types,
            bound,
            extent_of(layouts, graph, types, *element),
        ),
        _ => extent_of_kind(layouts, graph, types, kind_of(graph, types, of)),
    }
}

#[tactic(auto, unfolding(cxx_meaning::specs::Conversions::Sizes::member_extent))]
fn member_extent(
    layouts: &Vec<Layout>,
    graph: &Graph,
    types: &TypeTable,
    of: TypeId,
) -> Result<Extent, SizeReason>
    requires known { of.0 < length types.now }
    requires fitted { Fitted graph.now types.now }
    ensures { result ≡ sizes.member_extent (extents_in layouts.now.items) (sizes.enumerations_in (graph_at types.now graph.now).facts) (type_at types.now of.0) }
{
    match types.node(of) {
        TypeNode::Reference(_) => Ok(plain_extent(8)),
        _ => extent_of(layouts, graph, types, of),
    }
}

fn is_nonstatic(member: MemberKind) -> bool
    ensures { result ≡ sizes.is_nonstatic member }
{
    match member {
        MemberKind::Nonstatic => true,
        _ => false,
    }
}

fn class_of_kind(kind: ScopeKind) -> Option<ClassId>
    ensures { number_of result ≡ sizes.class_of_scope (Some kind) }
{
    match kind {
        ScopeKind::Class(class) => Some(class),
        _ => None,
    }
}

fn class_of_member(scopes: &Vec<ScopeKind>, fact: &Fact) -> Option<ClassId>
    ensures { number_of result ≡ sizes.class_of_scope (slice_get scopes.now.items fact.now.scope.0) }
{
    match scopes.get(fact.scope.0 as usize) {
        Some(kind) => class_of_kind(*kind),
        None => None,
    }
}

/// The class of which a fact says something.
pub(crate) fn concerned(scopes: &Vec<ScopeKind>, types: &TypeTable, fact: &Fact) -> Option<ClassId>
    ensures { number_of result ≡ sizes.concerned scopes.now.items (fact_at types.now fact.now) }
{
    let _ = types;
    match &fact.what {
        Entity::Class { class, .. } => Some(*class),
        Entity::Ancestor { class, .. } => Some(*class),
        Entity::Object { .. } => class_of_member(scopes, fact),
        Entity::Function { .. } => class_of_member(scopes, fact),
        Entity::Complete { class } => Some(*class),
        _ => None,
    }
}

fn with_member(
    layouts: &Vec<Layout>,
    graph: &Graph,
    types: &TypeTable,
    of: TypeId,
    member: MemberKind,
    layout: Layout,
) -> Layout
    requires known { of.0 < length types.now }
    requires fitted { Fitted graph.now types.now }
    ensures { result ≡ sizes.with_member (sizes.enumerations_in (graph_at types.now graph.now).facts) (layout_at layouts.now.items) (type_at types.now of.0) member layout }
{
    if is_nonstatic(member) {
        with_part(member_extent(layouts, graph, types, of), layout)
    } else {
        layout
    }
}

/// What a declaration adds to the layout of its class.
#[tactic(auto, unfolding(cxx_meaning::specs::Conversions::Sizes::added))]
pub(crate) fn added(
    layouts: &Vec<Layout>,
    graph: &Graph,
    types: &TypeTable,
    what: &Entity,
    layout: Layout,
) -> Layout
    requires known { IsEntityBelow (length types.now) what.now }
    requires fitted { Fitted graph.now types.now }
    ensures { result ≡ sizes.added (sizes.enumerations_in (graph_at types.now graph.now).facts) (layout_at layouts.now.items) (declares_at types.now what.now) layout }
{
    match what {
        Entity::Class { is_union, .. } => Layout {
            is_union: *is_union,
            ..layout
        },
        Entity::Ancestor { parent, .. } => with_base(layout_in(layouts, *parent), layout),
        Entity::Object { of, member, .. } => with_member(
            layouts, graph, types, *of, *member, layout,
        ),
        Entity::Function { flags, .. } => Layout {
            is_virtual: layout.is_virtual || flags.is_virtual,
            ..layout
        },
        Entity::Complete { .. } => Layout {
            is_complete: true,
            ..layout
        },
        _ => layout,
    }
}

/// The class whose objects a type is made of.
#[tactic(auto, unfolding(cxx_meaning::specs::Conversions::Sizes::class_in))]
pub(crate) fn class_in(graph: &Graph, types: &TypeTable, of: TypeId) -> Option<ClassId>
    requires known { of.0 < length types.now }
    requires fitted { Fitted graph.now types.now }
    ensures is { number_of result ≡ sizes.class_in (type_at types.now of.0) }
    ensures range { IfSome result (λ class. class.0 < length graph.now.classes) }
{
    match types.node(of) {
        TypeNode::Array(element, _) => class_in(graph, types, *element),
        _ => class_of_object(kind_of(graph, types, of)),
    }
}

fn class_of_object(kind: TypeKind) -> Option<ClassId>
    ensures is { number_of result ≡ sizes.class_of_kind (kind_at [] kind) }
    ensures class { IfSome result (λ class. kind ≡ type_kind.Class class) }
{
    match kind {
        TypeKind::Class(class) => Some(class),
        _ => None,
    }
}

/// The class must be complete first where it is pending (14.7.1).
pub(crate) fn ready(graph: &Graph, types: &TypeTable, class: Option<ClassId>) -> Result<(), ClassId>
    requires { IfSome class (λ class. class.0 < length graph.now.classes) }
    ensures { result ≡ sizes.ready (graph_at types.now graph.now) (number_of class) }
{
    match class {
        None => Ok(()),
        Some(class) => {
            if is_pending(graph, types, class) {
                Err(class)
            } else {
                Ok(())
            }
        }
    }
}

/// The type to which a reference refers (8.3.2), and each other type itself.
pub(crate) fn referred(types: &TypeTable, of: TypeId) -> TypeId
    requires { of.0 < length types.now }
    ensures is { type_at types.now result.0 ≡ sizes.referred (type_at types.now of.0) }
    ensures known { result.0 < length types.now }
{
    match types.node(of) {
        TypeNode::Reference(to) => *to,
        _ => of,
    }
}

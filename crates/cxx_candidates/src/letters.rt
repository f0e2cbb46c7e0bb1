//! What the operands of an operator may become (13.6 p1).
ghost use Rattle.std.specs.Prelude.{◌≡◌, ◌<◌, ◌++◌, ◌∷◌, [], length, map, nat_eq, OnOk};
ghost use Rattle.std.specs.List.{list_any};
ghost use Rattle.cxx_model.specs.Facts.Declarations.{graph_at};
ghost use Rattle.cxx_model.specs.Facts.Fitted.{Fitted};
ghost use Rattle.cxx_model.specs.Facts.Graph.{enumerations};
ghost use Rattle.cxx_model.specs.Types.Numbers.{type_at};
ghost use Rattle.cxx_model.specs.Types.Same.{same_type};
ghost use Rattle.cxx_meaning.specs.Conversions.Kinds.{value_kind as value_kind_of};
ghost use Rattle.cxx_meaning.specs.Conversions.Sizes.{referred as referred_of};
ghost use Rattle.cxx_builtin.specs.Built.{list_at};
ghost use Rattle.cxx_candidates.specs.Shapes.{conversions_at, numbers_at, AreAdded, AreConversionsKnown, AreFoundKnown, AreNumbersKnown, ArePointeesKnown};
ghost use Rattle.cxx_candidates.specs.Sources as definition;
ghost use Rattle.cxx_standard.specs.Views.{kind_at, IsKindBelow, IsKindInRange};

use crate::conversions::{Conversion, conversions_of};
use crate::shapes::Slot;
use cxx_graph::Graph;
use cxx_model::{ClassId, EnumId, OutOfMemory, TypeId, TypeNode};
use cxx_standard::{TypeKind, value_kind};
use cxx_types::TypeTable;
use std::alloc::Global;

/// Pointers, those among them to objects and those to functions, and enumerations.
#[derive(Clone, Copy)]
pub(crate) struct Letters<'s> {
    pub pointers: &'s [Slot],
    pub objects: &'s [Slot],
    pub functions: &'s [Slot],
    pub enumerations: &'s [Slot],
}

/// What pointers point to, and enumerations, each once.
#[derive(Drop)]
pub(crate) struct Found {
    pub pointees: Vec<TypeId>,
    pub enumerations: Vec<EnumId>,
}

fn is_there(types: &TypeTable, list: &[TypeId], of: TypeId) -> bool
    requires of_known { of.0 < length types.now }
    requires known { ArePointeesKnown (length types.now) list.now }
    ensures { result ≡ list_any (same_type (type_at types.now of.0)) (list_at types.now list.now) }
{
    for other in list {
        if types.same(of, *other) {
            return true;
        }
    }
    false
}

// One more type, where it is not there.
fn add_type(types: &TypeTable, list: &mut Vec<TypeId>, of: TypeId) -> Result<(), OutOfMemory>
    requires of_known { of.0 < length types.now }
    requires known { ArePointeesKnown (length types.now) list.old.items }
    ensures is { OnOk result (list_at types.now list.new.items ≡ definition.with_type (list_at types.now list.old.items) (type_at types.now of.0)) }
    ensures known { OnOk result (ArePointeesKnown (length types.now) list.new.items) }
{
    if is_there(types, list.as_slice(), of) {
        return Ok(());
    }
    list.push(of)?;
    Ok(())
}

fn is_number_there(list: &[EnumId], number: EnumId) -> bool
    ensures { result ≡ list_any (nat_eq number.0) (numbers_at list.now) }
{
    for other in list {
        if number.0 == other.0 {
            return true;
        }
    }
    false
}

fn add_number(graph: &Graph, list: &mut Vec<EnumId>, number: EnumId) -> Result<(), OutOfMemory>
    requires number_known { number.0 < enumerations graph.now.facts }
    requires known { AreNumbersKnown graph.now list.old.items }
    ensures is { OnOk result (numbers_at list.new.items ≡ definition.with_number (numbers_at list.old.items) number.0) }
    ensures known { OnOk result (AreNumbersKnown graph.now list.new.items) }
{
    let _ = graph;
    if is_number_there(list.as_slice(), number) {
        return Ok(());
    }
    list.push(number)?;
    Ok(())
}

fn add_pointee(
    graph: &Graph,
    types: &TypeTable,
    list: &mut Vec<TypeId>,
    kind: TypeKind,
) -> Result<(), OutOfMemory>
    requires kind_known { IsKindBelow (length types.now) kind }
    requires known { ArePointeesKnown (length types.now) list.old.items }
    ensures is { OnOk result (list_at types.now list.new.items ≡ definition.with_pointee (list_at types.now list.old.items) (kind_at types.now kind)) }
    ensures known { OnOk result (ArePointeesKnown (length types.now) list.new.items) }
{
    let _ = graph;
    match kind {
        TypeKind::Pointer(to) => add_type(types, list, to),
        _ => Ok(()),
    }
}

fn add_enumeration(
    graph: &Graph,
    types: &TypeTable,
    list: &mut Vec<EnumId>,
    kind: TypeKind,
) -> Result<(), OutOfMemory>
    requires kind_range { IsKindInRange graph.now (kind_at types.now kind) }
    requires known { AreNumbersKnown graph.now list.old.items }
    ensures is { OnOk result (numbers_at list.new.items ≡ definition.with_enumeration (numbers_at list.old.items) (kind_at types.now kind)) }
    ensures known { OnOk result (AreNumbersKnown graph.now list.new.items) }
{
    let _ = types;
    match kind {
        TypeKind::Enumeration(number) => add_number(graph, list, number),
        _ => Ok(()),
    }
}

// One more kind.
fn add_kind(
    graph: &Graph,
    types: &TypeTable,
    found: &mut Found,
    kind: TypeKind,
) -> Result<(), OutOfMemory>
    requires kind_known { IsKindBelow (length types.now) kind }
    requires kind_range { IsKindInRange graph.now (kind_at types.now kind) }
    requires known { AreFoundKnown graph.now (length types.now) found.old }
    ensures is { OnOk result (AreAdded types.now found.old found.new (kind_at types.now kind ∷ [])) }
    ensures known { OnOk result (AreFoundKnown graph.now (length types.now) found.new) }
{
    add_pointee(graph, types, &mut found.pointees, kind)?;
    add_enumeration(graph, types, &mut found.enumerations, kind)?;
    Ok(())
}

// The type to which a reference refers (8.3.2), and each other type itself.
fn referred(types: &TypeTable, of: TypeId) -> TypeId
    requires { of.0 < length types.now }
    ensures is { type_at types.now result.0 ≡ referred_of (type_at types.now of.0) }
    ensures known { result.0 < length types.now }
{
    match types.node(of) {
        TypeNode::Reference(to) => *to,
        _ => of,
    }
}

fn add_conversion(
    graph: &Graph,
    types: &TypeTable,
    found: &mut Found,
    one: Conversion,
) -> Result<(), OutOfMemory>
    requires one_known { one.of.0 < length types.now }
    requires fitted { Fitted graph.now types.now }
    requires known { AreFoundKnown graph.now (length types.now) found.old }
    ensures is { OnOk result (AreAdded types.now found.old found.new (value_kind_of (referred_of (type_at types.now one.of.0)) ∷ [])) }
    ensures known { OnOk result (AreFoundKnown graph.now (length types.now) found.new) }
{
    let of = referred(types, one.of);
    add_kind(graph, types, found, value_kind(graph, types, of))
}

fn add_conversions(
    graph: &Graph,
    types: &TypeTable,
    found: &mut Found,
    all: &[Conversion],
) -> Result<(), OutOfMemory>
    requires all_known { AreConversionsKnown graph.now (length types.now) all.now }
    requires fitted { Fitted graph.now types.now }
    requires known { AreFoundKnown graph.now (length types.now) found.old }
    ensures is { OnOk result (AreAdded types.now found.old found.new (map (λ one. value_kind_of (referred_of one.of)) (conversions_at types.now all.now))) }
    ensures known { OnOk result (AreFoundKnown graph.now (length types.now) found.new) }
{
    for one in all {
        add_conversion(graph, types, found, *one)?;
    }
    Ok(())
}

// The kinds of a class to which its conversion functions lead.
#[tactic(auto, unfolding(crate::specs::Sources::kinds_of_class))]
fn add_class(
    alloc: Global,
    graph: &Graph,
    types: &TypeTable,
    found: &mut Found,
    class: ClassId,
) -> Result<(), OutOfMemory>
    requires class_known { class.0 < length graph.now.classes }
    requires fitted { Fitted graph.now types.now }
    requires known { AreFoundKnown graph.now (length types.now) found.old }
    ensures is { OnOk result (AreAdded types.now found.old found.new (definition.kinds_of_class (graph_at types.now graph.now) class.0)) }
    ensures known { OnOk result (AreFoundKnown graph.now (length types.now) found.new) }
{
    let all = conversions_of(alloc, graph, types, class)?;
    add_conversions(graph, types, found, all.as_slice())
}

/// The kinds to which an operand of a kind may be converted.
pub(crate) fn add_kinds_from(
    alloc: Global,
    graph: &Graph,
    types: &TypeTable,
    found: &mut Found,
    kind: TypeKind,
) -> Result<(), OutOfMemory>
    requires kind_known { IsKindBelow (length types.now) kind }
    requires kind_range { IsKindInRange graph.now (kind_at types.now kind) }
    requires fitted { Fitted graph.now types.now }
    requires known { AreFoundKnown graph.now (length types.now) found.old }
    ensures is { OnOk result (AreAdded types.now found.old found.new (definition.kinds_from (graph_at types.now graph.now) (kind_at types.now kind))) }
    ensures known { OnOk result (AreFoundKnown graph.now (length types.now) found.new) }
{
    match kind {
        TypeKind::Class(class) => add_class(alloc, graph, types, found, class),
        _ => add_kind(graph, types, found, kind),
    }
}

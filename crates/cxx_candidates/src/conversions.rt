//! Conversion functions (12.3.2).
ghost use Rattle.std.specs.Prelude.{◌≡◌, ◌<◌, ◌++◌, ◌∷◌, [], length, filter, option_map, option_to_list, if◌then◌else◌, IfOk, IfSome, OnOk};
ghost use Rattle.std.specs.List.{filter_map, slice_get};
ghost use Rattle.cxx_model.specs.Facts.Declarations.{declares_at, fact_at, graph_at, name_at, type_of_option};
ghost use Rattle.cxx_model.specs.Facts.Entities.{scope_kinds};
ghost use Rattle.cxx_model.specs.Facts.Fitted.{Fitted, IsFactBelow, IsNameBelow};
ghost use Rattle.cxx_candidates.specs.Shapes.{conversion_at, conversions_at, kinds_in, number_of, AreConversionsKnown, IsConversionKnown};
ghost use Rattle.cxx_candidates.specs.Sources as definition;
ghost use Rattle.cxx_standard.specs.Views.{Computes};

use cxx_graph::Graph;
use cxx_model::{ClassId, Entity, Fact, Name, OutOfMemory, ScopeId, ScopeKind, TypeId};
use cxx_standard::is_derived;
use cxx_types::TypeTable;
use std::alloc::Global;

/// A conversion function: the type to which it converts, and the class of which it is a member.
#[derive(Clone, Copy)]
pub(crate) struct Conversion {
    pub of: TypeId,
    pub holder: ClassId,
}

// ---- the conversion functions of a unit

fn push_kind(
    types: &TypeTable,
    kinds: &mut Vec<ScopeKind>,
    what: &Entity,
) -> Result<(), OutOfMemory>
    ensures { OnOk result (kinds.new.items ≡ kinds.old.items ++ kinds_in (declares_at types.now what.now)) }
{
    let _ = types;
    match what {
        Entity::Scope { kind, .. } => {
            kinds.push(*kind)?;
            Ok(())
        }
        _ => Ok(()),
    }
}

// The kinds of the scopes, by number.
fn scopes_of(alloc: Global, graph: &Graph, types: &TypeTable) -> Result<Vec<ScopeKind>, OutOfMemory>
    ensures { IfOk result (λ kinds. kinds.items ≡ scope_kinds (graph_at types.now graph.now).facts) }
{
    let mut kinds = Vec::new(alloc);
    for fact in graph.facts() {
        push_kind(types, &mut kinds, &fact.what)?;
    }
    Ok(kinds)
}

fn reserved(graph: &Graph, class: ClassId) -> Option<ClassId>
    ensures is { number_of result ≡ definition.reserved_class (length graph.now.classes) class }
    ensures known { IfSome result (λ class. class.0 < length graph.now.classes) }
{
    if class.0 < graph.class_count() {
        Some(class)
    } else {
        None
    }
}

fn class_in(graph: &Graph, scopes: &[ScopeKind], scope: ScopeId) -> Option<ClassId>
    ensures is { number_of result ≡ definition.class_in (length graph.now.classes) (slice_get scopes.now scope.0) }
    ensures known { IfSome result (λ class. class.0 < length graph.now.classes) }
{
    match scopes.get(scope.0 as usize) {
        Some(ScopeKind::Class(class)) => reserved(graph, *class),
        _ => None,
    }
}

fn is_first_function(types: &TypeTable, what: &Entity) -> bool
    ensures { result ≡ definition.is_first_function (declares_at types.now what.now) }
{
    let _ = types;
    match what {
        Entity::Function { first: None, .. } => true,
        _ => false,
    }
}

fn converts_to(types: &TypeTable, name: &Name) -> Option<TypeId>
    requires { IsNameBelow (length types.now) name.now }
    ensures is { type_of_option types.now result ≡ definition.converts_to (name_at types.now name.now) }
    ensures below { IfSome result (λ of. of.0 < length types.now) }
{
    let _ = types;
    match name {
        Name::Conversion(of) => Some(*of),
        _ => None,
    }
}

fn conversion_of(
    graph: &Graph,
    types: &TypeTable,
    of: Option<TypeId>,
    class: Option<ClassId>,
) -> Option<Conversion>
    requires below { IfSome of (λ of. of.0 < length types.now) }
    requires known { IfSome class (λ class. class.0 < length graph.now.classes) }
    ensures is { option_map (conversion_at types.now) result ≡ definition.conversion_of (type_of_option types.now of) (number_of class) }
    ensures known { IfSome result (IsConversionKnown graph.now (length types.now)) }
{
    let _ = graph;
    let _ = types;
    match of {
        None => None,
        Some(of) => match class {
            None => None,
            Some(holder) => Some(Conversion { of, holder }),
        },
    }
}

fn conversion_in(
    graph: &Graph,
    types: &TypeTable,
    scopes: &[ScopeKind],
    fact: &Fact,
) -> Option<Conversion>
    requires { IsFactBelow (length types.now) fact.now }
    ensures is { option_map (conversion_at types.now) result ≡ definition.conversion_in (length graph.now.classes) scopes.now (fact_at types.now fact.now) }
    ensures known { IfSome result (IsConversionKnown graph.now (length types.now)) }
{
    if is_first_function(types, &fact.what) {
        let of = converts_to(types, &fact.name);
        let class = class_in(graph, scopes, fact.scope);
        conversion_of(graph, types, of, class)
    } else {
        None
    }
}

fn push_some(list: &mut Vec<Conversion>, found: Option<Conversion>) -> Result<(), OutOfMemory>
    ensures { OnOk result (list.new.items ≡ list.old.items ++ option_to_list found) }
{
    match found {
        None => Ok(()),
        Some(one) => {
            list.push(one)?;
            Ok(())
        }
    }
}

fn conversions_among(
    alloc: Global,
    graph: &Graph,
    types: &TypeTable,
    scopes: &[ScopeKind],
) -> Result<Vec<Conversion>, OutOfMemory>
    requires { Fitted graph.now types.now }
    ensures is { IfOk result (λ all. conversions_at types.now all.items ≡ filter_map (definition.conversion_in (length graph.now.classes) scopes.now) (graph_at types.now graph.now).facts) }
    ensures known { IfOk result (λ all. AreConversionsKnown graph.now (length types.now) all.items) }
{
    let mut list = Vec::new(alloc);
    for fact in graph.facts() {
        let found = conversion_in(graph, types, scopes, fact);
        push_some(&mut list, found)?;
    }
    Ok(list)
}

/// All conversion functions, in the order of their declarations.
#[tactic(auto, using(crate::proofs::Gathered::conversions_are))]
pub(crate) fn conversions(
    alloc: Global,
    graph: &Graph,
    types: &TypeTable,
) -> Result<Vec<Conversion>, OutOfMemory>
    requires { Fitted graph.now types.now }
    ensures is { IfOk result (λ all. conversions_at types.now all.items ≡ definition.conversions (graph_at types.now graph.now)) }
    ensures known { IfOk result (λ all. AreConversionsKnown graph.now (length types.now) all.items) }
{
    let scopes = scopes_of(alloc, graph, types)?;
    let found = conversions_among(alloc, graph, types, scopes.as_slice())?;
    Ok(found)
}

// ---- those of a class

fn is_member(
    alloc: Global,
    graph: &Graph,
    types: &TypeTable,
    class: ClassId,
    one: Conversion,
) -> Result<bool, OutOfMemory>
    requires class_known { class.0 < length graph.now.classes }
    requires known { IsConversionKnown graph.now (length types.now) one }
    ensures { Computes result (definition.is_member (graph_at types.now graph.now) class.0 (conversion_at types.now one)) }
{
    if class.0 == one.holder.0 {
        Ok(true)
    } else {
        is_derived(alloc, graph, types, class, one.holder)
    }
}

fn keep_if(list: &mut Vec<Conversion>, keeps: bool, one: Conversion) -> Result<(), OutOfMemory>
    ensures { OnOk result (list.new.items ≡ list.old.items ++ (if keeps then one ∷ [] else [])) }
{
    if keeps {
        list.push(one)?;
    }
    Ok(())
}

fn members_of(
    alloc: Global,
    graph: &Graph,
    types: &TypeTable,
    all: &[Conversion],
    class: ClassId,
) -> Result<Vec<Conversion>, OutOfMemory>
    requires class_known { class.0 < length graph.now.classes }
    requires known { AreConversionsKnown graph.now (length types.now) all.now }
    ensures is { IfOk result (λ found. conversions_at types.now found.items ≡ filter (definition.is_member (graph_at types.now graph.now) class.0) (conversions_at types.now all.now)) }
    ensures known { IfOk result (λ found. AreConversionsKnown graph.now (length types.now) found.items) }
{
    let mut list = Vec::new(alloc);
    for one in all {
        let keeps = is_member(alloc, graph, types, class, *one)?;
        keep_if(&mut list, keeps, *one)?;
    }
    Ok(list)
}

fn is_hidden_by(
    alloc: Global,
    graph: &Graph,
    types: &TypeTable,
    one: Conversion,
    other: Conversion,
) -> Result<bool, OutOfMemory>
    requires known { IsConversionKnown graph.now (length types.now) one }
    requires other_known { IsConversionKnown graph.now (length types.now) other }
    ensures { Computes result (definition.is_hidden_by (graph_at types.now graph.now) (conversion_at types.now one) (conversion_at types.now other)) }
{
    if types.same(other.of, one.of) {
        is_derived(alloc, graph, types, other.holder, one.holder)
    } else {
        Ok(false)
    }
}

fn is_hidden(
    alloc: Global,
    graph: &Graph,
    types: &TypeTable,
    all: &[Conversion],
    one: Conversion,
) -> Result<bool, OutOfMemory>
    requires known { IsConversionKnown graph.now (length types.now) one }
    requires all_known { AreConversionsKnown graph.now (length types.now) all.now }
    ensures { Computes result (definition.is_hidden (graph_at types.now graph.now) (conversions_at types.now all.now) (conversion_at types.now one)) }
{
    for other in all {
        if is_hidden_by(alloc, graph, types, one, *other)? {
            return Ok(true);
        }
    }
    Ok(false)
}

fn unhidden(
    alloc: Global,
    graph: &Graph,
    types: &TypeTable,
    all: &[Conversion],
) -> Result<Vec<Conversion>, OutOfMemory>
    requires { AreConversionsKnown graph.now (length types.now) all.now }
    ensures is { IfOk result (λ found. conversions_at types.now found.items ≡ definition.unhidden (graph_at types.now graph.now) (conversions_at types.now all.now)) }
    ensures known { IfOk result (λ found. AreConversionsKnown graph.now (length types.now) found.items) }
{
    let mut list = Vec::new(alloc);
    for one in all {
        let hidden = is_hidden(alloc, graph, types, all, *one)?;
        keep_if(&mut list, !hidden, *one)?;
    }
    Ok(list)
}

/// The conversion functions of a class and of its bases that are not hidden, given those of the unit.
#[tactic(auto, unfolding(crate::specs::Sources::conversions_of))]
pub(crate) fn conversions_of(
    alloc: Global,
    graph: &Graph,
    types: &TypeTable,
    class: ClassId,
) -> Result<Vec<Conversion>, OutOfMemory>
    requires class_known { class.0 < length graph.now.classes }
    requires fitted { Fitted graph.now types.now }
    ensures is { IfOk result (λ found. conversions_at types.now found.items ≡ definition.conversions_of (graph_at types.now graph.now) class.0) }
    ensures known { IfOk result (λ found. AreConversionsKnown graph.now (length types.now) found.items) }
{
    let all = conversions(alloc, graph, types)?;
    let members = members_of(alloc, graph, types, all.as_slice(), class)?;
    unhidden(alloc, graph, types, members.as_slice())
}

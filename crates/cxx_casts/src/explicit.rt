//! `(T)e` (5.4).
ghost use Rattle.std.specs.Prelude.{◌≡◌, ◌<◌, length, Some, None, IfSome, if◌then◌else◌};
ghost use Rattle.cxx_model.specs.Facts.Declarations.{graph_at};
ghost use Rattle.cxx_model.specs.Facts.Fitted.{Fitted};
ghost use Rattle.cxx_model.specs.Types.Numbers.{type_at};
ghost use Rattle.cxx_meaning.specs.Conversions.Casts as casts;
ghost use Rattle.cxx_meaning.specs.Conversions.Casts.{by_reinterpret};
ghost use Rattle.cxx_casts.specs.Made.{bare_operand as bare_operand_of, AreCastsBelow, Casts, IsBareBelow, IsCast, casts_at, middle_at};
ghost use Rattle.cxx_standard.specs.Views.{operand_at};

use crate::middle::{aim, made, more};
use crate::named::{const_cast, reinterpret_cast, static_cast};
use cxx_graph::Graph;
use cxx_model::{ConstantKind, Operand, TypeId, TypeNode, Wait};
use cxx_types::TypeTable;
use std::alloc::Global;

/// The named casts for which `(T)e` stands. Of two the first is to the type that is given.
#[derive(Clone, Copy)]
pub enum CastSteps {
    Const,
    Static,
    StaticThenConst(TypeId),
    Reinterpret,
    ReinterpretThenConst(TypeId),
}

// What the first of two casts gives.
fn bare_operand(types: &TypeTable, to: TypeId) -> Operand
    requires { to.0 < length types.now }
    ensures is { operand_at types.now result ≡ bare_operand_of (type_at types.now to.0) }
    ensures below { result.of.0 < length types.now }
{
    match types.node(to) {
        TypeNode::Reference(of) => Operand {
            of: *of,
            lvalue: true,
            constant: ConstantKind::No,
        },
        _ => Operand {
            of: to,
            lvalue: false,
            constant: ConstantKind::No,
        },
    }
}

// Whether `const_cast` leads from the type between to the whole.
fn leads_back(graph: &Graph, types: &TypeTable, middle: TypeId, to: TypeId) -> bool
    requires to_known { to.0 < length types.now }
    requires middle_known { IsBareBelow types.now middle }
    requires fitted { Fitted graph.now types.now }
    ensures { result ≡ casts.const_cast (casts.cast_operand (type_at types.now middle.0)) (type_at types.now to.0) }
{
    const_cast(graph, types, bare_operand(types, middle), to)
}

fn by_other(
    graph: &Graph,
    types: &TypeTable,
    from: Operand,
    to: TypeId,
    middle: TypeId,
) -> Option<CastSteps>
    requires from_known { from.of.0 < length types.now }
    requires to_known { to.0 < length types.now }
    requires middle_known { IsBareBelow types.now middle }
    requires fitted { Fitted graph.now types.now }
    ensures is { casts_at types.now result ≡ casts.by_other (operand_at types.now from) (type_at types.now to.0) (type_at types.now middle.0) }
    ensures below { AreCastsBelow (length types.now) result }
{
    if reinterpret_cast(graph, types, from, to) {
        Some(CastSteps::Reinterpret)
    } else if reinterpret_cast(graph, types, from, middle) && leads_back(graph, types, middle, to) {
        Some(CastSteps::ReinterpretThenConst(middle))
    } else {
        None
    }
}

fn by_two(
    graph: &Graph,
    types: &TypeTable,
    from: Operand,
    to: TypeId,
    middle: TypeId,
    is_static: bool,
) -> Option<CastSteps>
    requires from_known { from.of.0 < length types.now }
    requires to_known { to.0 < length types.now }
    requires middle_known { IsBareBelow types.now middle }
    requires fitted { Fitted graph.now types.now }
    ensures is { casts_at types.now result ≡ casts.by_two (operand_at types.now from) (type_at types.now to.0) (type_at types.now middle.0) is_static }
    ensures below { AreCastsBelow (length types.now) result }
{
    if is_static && leads_back(graph, types, middle, to) {
        Some(CastSteps::StaticThenConst(middle))
    } else {
        by_other(graph, types, from, to, middle)
    }
}

#[tactic(auto, unfolding(cxx_meaning::specs::Conversions::Casts::cast_between))]
fn by_middle(
    alloc: Global,
    graph: &Graph,
    types: &TypeTable,
    is_single: bool,
    from: Operand,
    to: TypeId,
    middle: TypeId,
) -> Result<Option<CastSteps>, Wait>
    requires from_known { from.of.0 < length types.now }
    requires to_known { to.0 < length types.now }
    requires middle_known { IsBareBelow types.now middle }
    requires fitted { Fitted graph.now types.now }
    ensures { IsCast types.now result (casts.cast_between (graph_at types.now graph.now) is_single (operand_at types.now from) (type_at types.now to.0) (Some (type_at types.now middle.0))) }
{
    let is_static = static_cast(alloc, graph, types, is_single, from, middle)?;
    Ok(by_two(graph, types, from, to, middle, is_static))
}

fn by_none(graph: &Graph, types: &TypeTable, from: Operand, to: TypeId) -> Option<CastSteps>
    requires from_known { from.of.0 < length types.now }
    requires to_known { to.0 < length types.now }
    requires fitted { Fitted graph.now types.now }
    ensures is { casts_at types.now result ≡ (if casts.reinterpret_cast (operand_at types.now from) (type_at types.now to.0) then Some by_reinterpret else None) }
    ensures below { AreCastsBelow (length types.now) result }
{
    if reinterpret_cast(graph, types, from, to) {
        Some(CastSteps::Reinterpret)
    } else {
        None
    }
}

// What is asked once it is known whether there is a type between.
#[tactic(auto, unfolding(cxx_meaning::specs::Conversions::Casts::cast_between))]
fn by_made(
    alloc: Global,
    graph: &Graph,
    types: &TypeTable,
    is_single: bool,
    from: Operand,
    to: TypeId,
    middle: Option<TypeId>,
) -> Result<Option<CastSteps>, Wait>
    requires from_known { from.of.0 < length types.now }
    requires to_known { to.0 < length types.now }
    requires middle_known { IfSome middle (λ number. IsBareBelow types.now number) }
    requires fitted { Fitted graph.now types.now }
    ensures { IsCast types.now result (casts.cast_between (graph_at types.now graph.now) is_single (operand_at types.now from) (type_at types.now to.0) (middle_at types.now middle)) }
{
    match middle {
        None => Ok(by_none(graph, types, from, to)),
        Some(middle) => by_middle(alloc, graph, types, is_single, from, to, middle),
    }
}

// By two casts of which the first is to the type with the words of the expression alone, or by `reinterpret_cast` alone.
fn cast_between(
    alloc: Global,
    graph: &Graph,
    types: &mut TypeTable,
    is_single: bool,
    from: Operand,
    to: TypeId,
) -> Result<Option<CastSteps>, Wait>
    requires from_known { from.of.0 < length types.old }
    requires to_known { to.0 < length types.old }
    requires fitted { Fitted graph.now types.old }
    ensures { Casts graph.now types.old types.new result (casts.cast_between (graph_at types.old graph.now) is_single (operand_at types.old from) (type_at types.old to.0) (casts.between (operand_at types.old from) (type_at types.old to.0))) }
{
    let aims = aim(graph, types, from, to);
    match made(alloc, graph, types, aims) {
        Err(_) => Err(Wait::OutOfMemory),
        Ok(middle) => by_made(alloc, graph, types, is_single, from, to, middle),
    }
}

// By two casts of which the first is to the type with the words of the expression besides its own, or by `reinterpret_cast`
// alone.
fn cast_added(
    alloc: Global,
    graph: &Graph,
    types: &mut TypeTable,
    is_single: bool,
    from: Operand,
    to: TypeId,
) -> Result<Option<CastSteps>, Wait>
    requires from_known { from.of.0 < length types.old }
    requires to_known { to.0 < length types.old }
    requires fitted { Fitted graph.now types.old }
    ensures { Casts graph.now types.old types.new result (casts.cast_between (graph_at types.old graph.now) is_single (operand_at types.old from) (type_at types.old to.0) (casts.added (operand_at types.old from) (type_at types.old to.0))) }
{
    let aims = more(graph, types, from, to);
    match made(alloc, graph, types, aims) {
        Err(_) => Err(Wait::OutOfMemory),
        Ok(middle) => by_made(alloc, graph, types, is_single, from, to, middle),
    }
}

// By two casts, with either type between, or by `reinterpret_cast` alone.
fn cast_by_two(
    alloc: Global,
    graph: &Graph,
    types: &mut TypeTable,
    is_single: bool,
    from: Operand,
    to: TypeId,
) -> Result<Option<CastSteps>, Wait>
    requires from_known { from.of.0 < length types.old }
    requires to_known { to.0 < length types.old }
    requires fitted { Fitted graph.now types.old }
    ensures { Casts graph.now types.old types.new result (casts.cast_by_two (graph_at types.old graph.now) is_single (operand_at types.old from) (type_at types.old to.0)) }
{
    match cast_added(alloc, graph, types, is_single, from, to) {
        Err(wait) => Err(wait),
        Ok(Some(found)) => Ok(Some(found)),
        Ok(None) => cast_between(alloc, graph, types, is_single, from, to),
    }
}

/// For which named casts `(T)e` stands: the first that is allowed of `const_cast`, `static_cast`, `static_cast` and then
/// `const_cast`, `reinterpret_cast`, and `reinterpret_cast` and then `const_cast`. Types are only added to the table.
pub fn cast(
    alloc: Global,
    graph: &Graph,
    types: &mut TypeTable,
    is_single: bool,
    from: Operand,
    to: TypeId,
) -> Result<Option<CastSteps>, Wait>
    requires from_known { from.of.0 < length types.old }
    requires to_known { to.0 < length types.old }
    requires fitted { Fitted graph.now types.old }
    ensures { Casts graph.now types.old types.new result (casts.cast (graph_at types.old graph.now) is_single (operand_at types.old from) (type_at types.old to.0)) }
{
    if const_cast(graph, types, from, to) {
        return Ok(Some(CastSteps::Const));
    }
    match static_cast(alloc, graph, types, is_single, from, to) {
        Err(wait) => Err(wait),
        Ok(true) => Ok(Some(CastSteps::Static)),
        Ok(false) => cast_by_two(alloc, graph, types, is_single, from, to),
    }
}

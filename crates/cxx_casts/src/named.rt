//! The named casts.
ghost use Rattle.std.specs.Prelude.{◌≡◌, ◌<◌, length};
ghost use Rattle.cxx_model.specs.Facts.Declarations.{graph_at};
ghost use Rattle.cxx_model.specs.Facts.Fitted.{Fitted};
ghost use Rattle.cxx_model.specs.Types.Numbers.{type_at};
ghost use Rattle.cxx_meaning.specs.Conversions.Asking.{Gives};
ghost use Rattle.cxx_meaning.specs.Conversions.Casts as casts;
ghost use Rattle.cxx_standard.specs.Views.{kind_at, operand_at, IsKindBelow};

use crate::pointers::{is_void, retypes, static_objects, static_pointers};
use cxx_builtin::operand_kind;
use cxx_graph::Graph;
use cxx_meaning::SequenceSteps;
use cxx_model::{Base, Operand, TypeId, TypeNode, Wait};
use cxx_standard::{TypeKind, is_floating, is_function, kind_of, same_base, steps_between};
use cxx_types::TypeTable;
use std::alloc::Global;

fn recasts_pointer(types: &TypeTable, from: TypeKind, to: TypeKind) -> bool
    requires from_below { IsKindBelow (length types.now) from }
    requires to_below { IsKindBelow (length types.now) to }
    ensures { result ≡ casts.recasts_pointer (kind_at types.now from) (kind_at types.now to) }
{
    match from {
        TypeKind::Pointer(one) => match to {
            TypeKind::Pointer(two) => !is_function(types, one) && types.similar(one, two),
            _ => false,
        },
        _ => false,
    }
}

/// Whether `const_cast` from an expression to a type is allowed (5.2.11).
#[tactic(auto, unfolding(cxx_meaning::specs::Conversions::Casts::const_cast))]
pub fn const_cast(graph: &Graph, types: &TypeTable, from: Operand, to: TypeId) -> bool
    requires from_known { from.of.0 < length types.now }
    requires to_known { to.0 < length types.now }
    requires fitted { Fitted graph.now types.now }
    ensures { result ≡ casts.const_cast (operand_at types.now from) (type_at types.now to.0) }
{
    match types.node(to) {
        TypeNode::Reference(of) => {
            from.lvalue && (!is_function(types, from.of) && types.similar(from.of, *of))
        }
        _ => {
            recasts_pointer(
                types,
                operand_kind(graph, types, from),
                kind_of(graph, types, to),
            )
        }
    }
}

#[tactic(auto, unfolding(cxx_meaning::specs::Conversions::Casts::static_kinds))]
fn static_kinds(
    alloc: Global,
    graph: &Graph,
    types: &TypeTable,
    is_single: bool,
    from: TypeKind,
    to: TypeKind,
) -> Result<bool, Wait>
    requires from_below { IsKindBelow (length types.now) from }
    requires to_below { IsKindBelow (length types.now) to }
    requires fitted { Fitted graph.now types.now }
    ensures { Gives (λ x. x) result (casts.static_kinds (graph_at types.now graph.now) is_single (kind_at types.now from) (kind_at types.now to)) }
{
    match from {
        TypeKind::Arithmetic(of) => match to {
            TypeKind::Enumeration(_) => Ok(!is_floating(of)),
            _ => Ok(false),
        },
        TypeKind::Enumeration(_) => match to {
            TypeKind::Enumeration(_) => Ok(true),
            _ => Ok(false),
        },
        TypeKind::Pointer(one) => match to {
            TypeKind::Pointer(two) => static_pointers(alloc, graph, types, is_single, one, two),
            _ => Ok(false),
        },
        _ => Ok(false),
    }
}

#[tactic(auto, unfolding(cxx_meaning::specs::Conversions::Casts::static_only))]
fn static_only(
    alloc: Global,
    graph: &Graph,
    types: &TypeTable,
    is_single: bool,
    from: Operand,
    to: TypeId,
) -> Result<bool, Wait>
    requires from_known { from.of.0 < length types.now }
    requires to_known { to.0 < length types.now }
    requires fitted { Fitted graph.now types.now }
    ensures { Gives (λ x. x) result (casts.static_only (graph_at types.now graph.now) is_single (operand_at types.now from) (type_at types.now to.0)) }
{
    match types.node(to) {
        TypeNode::Reference(of) => {
            if from.lvalue {
                static_objects(alloc, graph, types, is_single, from.of, *of)
            } else {
                Ok(false)
            }
        }
        _ => {
            let one = operand_kind(graph, types, from);
            let two = kind_of(graph, types, to);
            static_kinds(alloc, graph, types, is_single, one, two)
        }
    }
}

#[tactic(auto, unfolding(cxx_meaning::specs::Conversions::Casts::static_unless))]
fn static_unless(
    alloc: Global,
    graph: &Graph,
    types: &TypeTable,
    is_single: bool,
    from: Operand,
    to: TypeId,
    steps: Option<SequenceSteps>,
) -> Result<bool, Wait>
    requires from_known { from.of.0 < length types.now }
    requires to_known { to.0 < length types.now }
    requires fitted { Fitted graph.now types.now }
    ensures { Gives (λ x. x) result (casts.static_unless (graph_at types.now graph.now) is_single (operand_at types.now from) (type_at types.now to.0) steps) }
{
    match steps {
        Some(_) => Ok(true),
        None => static_only(alloc, graph, types, is_single, from, to),
    }
}

/// Whether `static_cast` from an expression to a type is allowed, where no constructor and no conversion function is
/// called (5.2.9). Whether a class to which one goes down has one base alone of the class from where, the caller says.
#[tactic(auto, unfolding(cxx_meaning::specs::Conversions::Casts::static_cast))]
pub fn static_cast(
    alloc: Global,
    graph: &Graph,
    types: &TypeTable,
    is_single: bool,
    from: Operand,
    to: TypeId,
) -> Result<bool, Wait>
    requires from_known { from.of.0 < length types.now }
    requires to_known { to.0 < length types.now }
    requires fitted { Fitted graph.now types.now }
    ensures { Gives (λ x. x) result (casts.static_cast (graph_at types.now graph.now) is_single (operand_at types.now from) (type_at types.now to.0)) }
{
    if is_void(kind_of(graph, types, to)) {
        return Ok(true);
    }
    let steps = steps_between(alloc, graph, types, from, to)?;
    static_unless(alloc, graph, types, is_single, from, to, steps)
}

fn retypes_kind(types: &TypeTable, from: TypeKind, to: TypeKind) -> bool
    requires from_below { IsKindBelow (length types.now) from }
    requires to_below { IsKindBelow (length types.now) to }
    ensures { result ≡ casts.retypes_kind (kind_at types.now from) (kind_at types.now to) }
{
    match from {
        TypeKind::Pointer(one) => match to {
            TypeKind::Pointer(two) => retypes(types, one, two),
            TypeKind::Arithmetic(of) => {
                same_base(of, Base::Long) || same_base(of, Base::UnsignedLong)
            }
            _ => false,
        },
        TypeKind::Arithmetic(of) => match to {
            TypeKind::Pointer(_) => !is_floating(of),
            _ => false,
        },
        TypeKind::Enumeration(_) => match to {
            TypeKind::Pointer(_) => true,
            _ => false,
        },
        _ => false,
    }
}

/// Whether `reinterpret_cast` from an expression to a type is allowed (5.2.10).
#[tactic(auto, unfolding(cxx_meaning::specs::Conversions::Casts::reinterpret_cast))]
pub fn reinterpret_cast(graph: &Graph, types: &TypeTable, from: Operand, to: TypeId) -> bool
    requires from_known { from.of.0 < length types.now }
    requires to_known { to.0 < length types.now }
    requires fitted { Fitted graph.now types.now }
    ensures { result ≡ casts.reinterpret_cast (operand_at types.now from) (type_at types.now to.0) }
{
    match types.node(to) {
        TypeNode::Reference(of) => from.lvalue && retypes(types, from.of, *of),
        _ => retypes_kind(
            types,
            operand_kind(graph, types, from),
            kind_of(graph, types, to),
        ),
    }
}

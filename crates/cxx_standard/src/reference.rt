//! Steps by which a reference is bound (8.5.3).
ghost use Rattle.std.specs.Prelude.{◌≡◌, ◌<◌, [], length};
ghost use Rattle.cxx_model.specs.Facts.Declarations.{graph_at};
ghost use Rattle.cxx_model.specs.Facts.Fitted.{Fitted};
ghost use Rattle.cxx_model.specs.Types.Numbers.{type_at};
ghost use Rattle.cxx_meaning.specs.Conversions.Asking.{Gives};
ghost use Rattle.cxx_meaning.specs.Conversions.Kinds.{kind_of as kind_of_type};
ghost use Rattle.cxx_meaning.specs.Conversions.Standard as standard;
ghost use Rattle.cxx_standard.specs.Views.{kind_at, operand_at};

use crate::kinds::{TypeKind, kind_of};
use crate::levels::{cv_of, is_cv_within, only_const, same_cv};
use crate::values::{class_step, steps_of_value};
use cxx_graph::Graph;
use cxx_meaning::SequenceSteps;
use cxx_model::{Operand, Second, TypeId, Wait};
use cxx_types::TypeTable;
use std::alloc::Global;

fn bound_by(second: Option<Second>) -> SequenceSteps
    ensures { result ≡ standard.bound_by second }
{
    SequenceSteps {
        first: None,
        second,
        third: false,
        binding: true,
    }
}

#[tactic(auto, unfolding(cxx_meaning::specs::Conversions::Standard::related_kinds))]
fn related_kinds(
    alloc: Global,
    graph: &Graph,
    types: &TypeTable,
    from: TypeId,
    to: TypeId,
) -> Result<Option<Option<Second>>, Wait>
    requires from_known { from.0 < length types.now }
    requires to_known { to.0 < length types.now }
    requires fitted { Fitted graph.now types.now }
    ensures { Gives (λ x. x) result (standard.related_kinds (graph_at types.now graph.now) (kind_of_type (type_at types.now from.0)) (kind_of_type (type_at types.now to.0))) }
{
    match kind_of(graph, types, from) {
        TypeKind::Class(class) => match kind_of(graph, types, to) {
            TypeKind::Class(base) => class_step(alloc, graph, types, class, base),
            _ => Ok(None),
        },
        _ => Ok(None),
    }
}

#[tactic(auto, unfolding(cxx_meaning::specs::Conversions::Standard::related))]
fn related(
    alloc: Global,
    graph: &Graph,
    types: &TypeTable,
    from: TypeId,
    to: TypeId,
) -> Result<Option<Option<Second>>, Wait>
    requires from_known { from.0 < length types.now }
    requires to_known { to.0 < length types.now }
    requires fitted { Fitted graph.now types.now }
    ensures { Gives (λ x. x) result (standard.related (graph_at types.now graph.now) (type_at types.now from.0) (type_at types.now to.0)) }
{
    if types.same_unqualified(from, to) {
        Ok(Some(None))
    } else {
        related_kinds(alloc, graph, types, from, to)
    }
}

fn is_class(kind: TypeKind) -> bool
    ensures { result ≡ standard.is_class (kind_at [] kind) }
{
    match kind {
        TypeKind::Class(_) => true,
        _ => false,
    }
}

#[tactic(auto, unfolding(cxx_meaning::specs::Conversions::Standard::steps_of_related))]
fn steps_of_related(
    alloc: Global,
    graph: &Graph,
    types: &TypeTable,
    from: Operand,
    to: TypeId,
    step: Option<Second>,
) -> Result<Option<SequenceSteps>, Wait>
    requires from_known { from.of.0 < length types.now }
    requires to_known { to.0 < length types.now }
    requires fitted { Fitted graph.now types.now }
    ensures { Gives (λ x. x) result (standard.steps_of_related (graph_at types.now graph.now) (operand_at types.now from) (type_at types.now to.0) step) }
{
    if !is_cv_within(cv_of(types, from.of), cv_of(types, to)) {
        return Ok(None);
    }
    if from.lvalue {
        return Ok(Some(bound_by(step)));
    }
    if !same_cv(cv_of(types, to), only_const()) {
        return Ok(None);
    }
    if is_class(kind_of(graph, types, from.of)) {
        return Ok(Some(bound_by(step)));
    }
    steps_of_value(alloc, graph, types, from, to)
}

#[tactic(auto, unfolding(cxx_meaning::specs::Conversions::Standard::steps_of_unrelated))]
fn steps_of_unrelated(
    alloc: Global,
    graph: &Graph,
    types: &TypeTable,
    from: Operand,
    to: TypeId,
) -> Result<Option<SequenceSteps>, Wait>
    requires from_known { from.of.0 < length types.now }
    requires to_known { to.0 < length types.now }
    requires fitted { Fitted graph.now types.now }
    ensures { Gives (λ x. x) result (standard.steps_of_unrelated (graph_at types.now graph.now) (operand_at types.now from) (type_at types.now to.0)) }
{
    if same_cv(cv_of(types, to), only_const()) {
        steps_of_value(alloc, graph, types, from, to)
    } else {
        Ok(None)
    }
}

/// From an expression to a reference to a type.
#[tactic(auto, unfolding(cxx_meaning::specs::Conversions::Standard::steps_of_reference, cxx_meaning::specs::Conversions::Standard::steps_by_relation))]
pub(crate) fn steps_of_reference(
    alloc: Global,
    graph: &Graph,
    types: &TypeTable,
    from: Operand,
    to: TypeId,
) -> Result<Option<SequenceSteps>, Wait>
    requires from_known { from.of.0 < length types.now }
    requires to_known { to.0 < length types.now }
    requires fitted { Fitted graph.now types.now }
    ensures { Gives (λ x. x) result (standard.steps_of_reference (graph_at types.now graph.now) (operand_at types.now from) (type_at types.now to.0)) }
{
    match related(alloc, graph, types, from.of, to)? {
        Some(step) => steps_of_related(alloc, graph, types, from, to, step),
        None => steps_of_unrelated(alloc, graph, types, from, to),
    }
}

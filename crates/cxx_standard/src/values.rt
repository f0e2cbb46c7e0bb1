//! Steps from a value to a type that is no reference (clause 4).
ghost use Rattle.std.specs.Prelude.{◌≡◌, ◌<◌, [], length, List};
ghost use Rattle.std.specs.Option.{option_map};
ghost use Rattle.cxx_model.specs.Facts.Declarations.{graph_at};
ghost use Rattle.cxx_model.specs.Facts.Fitted.{Fitted};
ghost use Rattle.cxx_model.specs.Choice.Standard as arithmetic;
ghost use Rattle.cxx_model.specs.Facts.Graph.{enumerations};
ghost use Rattle.cxx_model.specs.Types.Trees.{CxxType};
ghost use Rattle.cxx_model.specs.Types.Numbers.{type_at};
ghost use Rattle.cxx_meaning.specs.Conversions.Asking.{Gives};
ghost use Rattle.cxx_meaning.specs.Conversions.Kinds.{kind_of as kind_of_type};
ghost use Rattle.cxx_meaning.specs.Conversions.Standard as standard;
ghost use Rattle.cxx_standard.specs.Views.{kind_at, operand_at, IsKindBelow, IsKindInRange};

use crate::classes::is_derived;
use crate::kinds::{TypeKind, is_function, kind_of, value_kind};
use crate::levels::{cv_of, is_cv_within, is_widened, no_cv, only_const, same_cv, widens};
use crate::table::{is_pending, promoted};
use cxx_graph::Graph;
use cxx_meaning::SequenceSteps;
use cxx_model::{
    Base, ClassId, ConstantKind, EnumId, First, Operand, Second, TypeId, TypeNode, Wait,
};
use cxx_types::TypeTable;
use std::alloc::Global;

pub(crate) fn steps_by(second: Option<Second>, third: bool) -> SequenceSteps
    ensures { result ≡ standard.steps_by second third }
{
    SequenceSteps {
        first: None,
        second,
        third,
        binding: false,
    }
}

// ---- pointers (4.4, 4.10)

#[tactic(auto, unfolding(cxx_meaning::specs::Conversions::Standard::pointer_to_other))]
fn pointer_to_other(
    alloc: Global,
    graph: &Graph,
    types: &TypeTable,
    one: TypeId,
    two: TypeId,
) -> Result<Option<SequenceSteps>, Wait>
    requires one_known { one.0 < length types.now }
    requires two_known { two.0 < length types.now }
    requires fitted { Fitted graph.now types.now }
    ensures { Gives (λ x. x) result (standard.pointer_to_other (graph_at types.now graph.now) (type_at types.now one.0) (type_at types.now two.0) (kind_of_type (type_at types.now one.0)) (kind_of_type (type_at types.now two.0))) }
{
    match kind_of(graph, types, two) {
        TypeKind::Class(base) => match kind_of(graph, types, one) {
            TypeKind::Class(derived) => {
                pointer_to_class(alloc, graph, types, one, two, derived, base)
            }
            _ => Ok(None),
        },
        TypeKind::Void => Ok(pointer_to_void(types, one, two)),
        _ => Ok(None),
    }
}

#[tactic(auto, unfolding(cxx_meaning::specs::Conversions::Standard::pointer_to_class))]
fn pointer_to_class(
    alloc: Global,
    graph: &Graph,
    types: &TypeTable,
    one: TypeId,
    two: TypeId,
    derived: ClassId,
    base: ClassId,
) -> Result<Option<SequenceSteps>, Wait>
    requires one_known { one.0 < length types.now }
    requires two_known { two.0 < length types.now }
    requires derived_known { derived.0 < length graph.now.classes }
    requires base_known { base.0 < length graph.now.classes }
    ensures { Gives (λ x. x) result (standard.pointer_to_class (graph_at types.now graph.now) (type_at types.now one.0) (type_at types.now two.0) derived.0 base.0) }
{
    if derived.0 == base.0 || !is_cv_within(cv_of(types, one), cv_of(types, two)) {
        return Ok(None);
    }
    if is_pending(graph, types, derived) {
        return Err(Wait::Needs(derived));
    }
    match is_derived(alloc, graph, types, derived, base) {
        Ok(true) => Ok(Some(steps_by(Some(Second::Pointer), widens(types, one, two)))),
        Ok(false) => Ok(None),
        Err(_) => Err(Wait::OutOfMemory),
    }
}

fn pointer_to_void(types: &TypeTable, one: TypeId, two: TypeId) -> Option<SequenceSteps>
    requires one_known { one.0 < length types.now }
    requires two_known { two.0 < length types.now }
    ensures { result ≡ standard.pointer_to_void (type_at types.now one.0) (type_at types.now two.0) }
{
    if !is_function(types, one) && is_cv_within(cv_of(types, one), cv_of(types, two)) {
        Some(steps_by(Some(Second::Pointer), widens(types, one, two)))
    } else {
        None
    }
}

#[tactic(auto, unfolding(cxx_meaning::specs::Conversions::Standard::steps_of_pointers))]
fn steps_of_pointers(
    alloc: Global,
    graph: &Graph,
    types: &TypeTable,
    one: TypeId,
    two: TypeId,
) -> Result<Option<SequenceSteps>, Wait>
    requires one_known { one.0 < length types.now }
    requires two_known { two.0 < length types.now }
    requires fitted { Fitted graph.now types.now }
    ensures { Gives (λ x. x) result (standard.steps_of_pointers (graph_at types.now graph.now) (type_at types.now one.0) (type_at types.now two.0)) }
{
    if is_widened(types, one, two) {
        Ok(Some(steps_by(None, !types.same(one, two))))
    } else {
        pointer_to_other(alloc, graph, types, one, two)
    }
}

// ---- arithmetic types and enumerations (4.5 to 4.9, 4.12)

/// Whether two fundamental types are the same.
pub fn same_base(one: Base, two: Base) -> bool
    ensures { result ≡ arithmetic.same_base one two }
{
    one == two
}

/// 3.9.1
pub fn is_floating(of: Base) -> bool
    ensures { result ≡ standard.is_floating of }
{
    match of {
        Base::Float | Base::Double | Base::LongDouble => true,
        _ => false,
    }
}

/// The type to which an arithmetic type is promoted (4.5, 4.6).
pub fn promoted_base(of: Base) -> Base
    ensures { result ≡ standard.promoted_base of }
{
    match of {
        Base::Unsigned | Base::Long | Base::UnsignedLong | Base::LongDouble | Base::Void => of,
        Base::Float | Base::Double => Base::Double,
        _ => Base::Int,
    }
}

fn conversion(from: Base, to: Base) -> Second
    ensures { result ≡ arithmetic.conversion from to }
{
    if same_base(to, Base::Bool) {
        Second::Boolean
    } else if is_floating(from) && is_floating(to) {
        Second::Floating
    } else if is_floating(from) || is_floating(to) {
        Second::FloatingIntegral
    } else {
        Second::Integral
    }
}

fn second_step(from: Base, to: Base) -> Option<Second>
    ensures { result ≡ arithmetic.second_step from to }
{
    if same_base(from, to) {
        None
    } else if same_base(promoted_base(from), to) {
        Some(if is_floating(from) {
            Second::FloatingPromotion
        } else {
            Second::IntegralPromotion
        })
    } else {
        Some(conversion(from, to))
    }
}

fn step_of_unpromoted(to: Base) -> Second
    ensures { result ≡ standard.step_of_unpromoted to }
{
    if same_base(to, Base::Bool) {
        Second::Boolean
    } else if is_floating(to) {
        Second::FloatingIntegral
    } else {
        Second::Integral
    }
}

#[tactic(auto, unfolding(cxx_meaning::specs::Conversions::Standard::step_of_enumeration))]
fn step_of_enumeration(promoted: Option<Base>, to: Base) -> Second
    ensures { result ≡ standard.step_of_enumeration promoted to }
{
    match promoted {
        None => step_of_unpromoted(to),
        Some(of) => {
            if same_base(of, to) {
                Second::IntegralPromotion
            } else {
                step_of_unpromoted(to)
            }
        }
    }
}

// ---- kinds

/// Whether an expression of an arithmetic type is a null pointer constant (4.10).
pub fn is_null(known: ConstantKind, of: Base) -> bool
    ensures { result ≡ standard.is_null known of }
{
    match known {
        ConstantKind::Zero => !is_floating(of),
        _ => false,
    }
}

fn is_letter(known: ConstantKind, kind: TypeKind) -> bool
    ensures { result ≡ standard.is_letter known (kind_at [] kind) }
{
    match known {
        ConstantKind::NarrowText => matches!(kind, TypeKind::Arithmetic(Base::Char)),
        ConstantKind::WideText => matches!(kind, TypeKind::Arithmetic(Base::WideChar)),
        _ => false,
    }
}

#[tactic(auto, unfolding(cxx_meaning::specs::Conversions::Standard::is_text))]
fn is_text(graph: &Graph, types: &TypeTable, known: ConstantKind, one: TypeId, two: TypeId) -> bool
    requires one_known { one.0 < length types.now }
    requires two_known { two.0 < length types.now }
    requires fitted { Fitted graph.now types.now }
    ensures { result ≡ standard.is_text known (type_at types.now one.0) (type_at types.now two.0) }
{
    is_letter(known, kind_of(graph, types, one))
        && (is_letter(known, kind_of(graph, types, two))
            && (same_cv(cv_of(types, one), only_const()) && same_cv(cv_of(types, two), no_cv())))
}

#[tactic(auto, unfolding(cxx_meaning::specs::Conversions::Standard::steps_of_arithmetic))]
fn steps_of_arithmetic(known: ConstantKind, from: Base, to: TypeKind) -> Option<SequenceSteps>
    ensures { (types : List CxxType) → result ≡ standard.steps_of_arithmetic known from (kind_at types to) }
{
    match to {
        TypeKind::Arithmetic(to) => Some(steps_by(second_step(from, to), false)),
        TypeKind::Pointer(_) => {
            if is_null(known, from) {
                Some(steps_by(Some(Second::Pointer), false))
            } else {
                None
            }
        }
        _ => None,
    }
}

#[tactic(auto, unfolding(cxx_meaning::specs::Conversions::Standard::steps_of_enumeration))]
fn steps_of_enumeration(
    graph: &Graph,
    types: &TypeTable,
    from: EnumId,
    to: TypeKind,
) -> Option<SequenceSteps>
    requires { from.0 < enumerations graph.now.facts }
    ensures { result ≡ standard.steps_of_enumeration (graph_at types.now graph.now) from.0 (kind_at types.now to) }
{
    match to {
        TypeKind::Arithmetic(to) => {
            let promoted = promoted(graph, types, from);
            Some(steps_by(Some(step_of_enumeration(promoted, to)), false))
        }
        TypeKind::Enumeration(to) => {
            if from.0 == to.0 {
                Some(steps_by(None, false))
            } else {
                None
            }
        }
        _ => None,
    }
}

#[tactic(auto, unfolding(cxx_meaning::specs::Conversions::Standard::steps_of_pointer))]
fn steps_of_pointer(
    alloc: Global,
    graph: &Graph,
    types: &TypeTable,
    known: ConstantKind,
    from: TypeId,
    to: TypeKind,
) -> Result<Option<SequenceSteps>, Wait>
    requires from_known { from.0 < length types.now }
    requires to_below { IsKindBelow (length types.now) to }
    requires fitted { Fitted graph.now types.now }
    ensures { Gives (λ x. x) result (standard.steps_of_pointer (graph_at types.now graph.now) known (type_at types.now from.0) (kind_at types.now to)) }
{
    match to {
        TypeKind::Arithmetic(to) => {
            if same_base(to, Base::Bool) {
                Ok(Some(steps_by(Some(Second::Boolean), false)))
            } else {
                Ok(None)
            }
        }
        TypeKind::Pointer(to) => {
            if is_text(graph, types, known, from, to) {
                Ok(Some(steps_by(None, true)))
            } else {
                steps_of_pointers(alloc, graph, types, from, to)
            }
        }
        _ => Ok(None),
    }
}

#[tactic(auto, unfolding(cxx_meaning::specs::Conversions::Standard::steps_of_kinds))]
fn steps_of_kinds(
    alloc: Global,
    graph: &Graph,
    types: &TypeTable,
    known: ConstantKind,
    from: TypeKind,
    to: TypeKind,
) -> Result<Option<SequenceSteps>, Wait>
    requires from_below { IsKindBelow (length types.now) from }
    requires to_below { IsKindBelow (length types.now) to }
    requires from_range { IsKindInRange graph.now (kind_at types.now from) }
    requires fitted { Fitted graph.now types.now }
    ensures { Gives (λ x. x) result (standard.steps_of_kinds (graph_at types.now graph.now) known (kind_at types.now from) (kind_at types.now to)) }
{
    match from {
        TypeKind::Arithmetic(from) => Ok(steps_of_arithmetic(known, from, to)),
        TypeKind::Enumeration(from) => Ok(steps_of_enumeration(graph, types, from, to)),
        TypeKind::Pointer(from) => steps_of_pointer(alloc, graph, types, known, from, to),
        _ => Ok(None),
    }
}

// ---- expressions

#[tactic(auto, unfolding(cxx_meaning::specs::Conversions::Standard::value_step))]
fn value_step(types: &TypeTable, of: TypeId, lvalue: bool) -> Option<First>
    requires { of.0 < length types.now }
    ensures { result ≡ standard.value_step (type_at types.now of.0) lvalue }
{
    match types.node(of) {
        TypeNode::Array(_, _) => Some(First::ArrayToPointer),
        TypeNode::Function { .. } => Some(First::FunctionToPointer),
        _ => {
            if lvalue {
                Some(First::LvalueToRvalue)
            } else {
                None
            }
        }
    }
}

fn with_first(first: Option<First>, steps: Option<SequenceSteps>) -> Option<SequenceSteps>
    ensures { result ≡ option_map (standard.with_first first) steps }
{
    match steps {
        None => None,
        Some(steps) => Some(SequenceSteps { first, ..steps }),
    }
}

#[tactic(auto, unfolding(cxx_meaning::specs::Conversions::Standard::class_step))]
pub(crate) fn class_step(
    alloc: Global,
    graph: &Graph,
    types: &TypeTable,
    from: ClassId,
    to: ClassId,
) -> Result<Option<Option<Second>>, Wait>
    requires from_known { from.0 < length graph.now.classes }
    requires to_known { to.0 < length graph.now.classes }
    ensures { Gives (λ x. x) result (standard.class_step (graph_at types.now graph.now) from.0 to.0) }
{
    if from.0 == to.0 {
        return Ok(Some(None));
    }
    if is_pending(graph, types, from) {
        return Err(Wait::Needs(from));
    }
    match is_derived(alloc, graph, types, from, to) {
        Ok(true) => Ok(Some(Some(Second::DerivedToBase))),
        Ok(false) => Ok(None),
        Err(_) => Err(Wait::OutOfMemory),
    }
}

fn steps_of_class(step: Option<Option<Second>>) -> Option<SequenceSteps>
    ensures { result ≡ standard.steps_of_class step }
{
    match step {
        None => None,
        Some(step) => Some(steps_by(step, false)),
    }
}

#[tactic(auto, unfolding(cxx_meaning::specs::Conversions::Standard::steps_to_class))]
fn steps_to_class(
    alloc: Global,
    graph: &Graph,
    types: &TypeTable,
    from: ClassId,
    to: ClassId,
) -> Result<Option<SequenceSteps>, Wait>
    requires from_known { from.0 < length graph.now.classes }
    requires to_known { to.0 < length graph.now.classes }
    ensures { Gives (λ x. x) result (standard.steps_to_class (graph_at types.now graph.now) from.0 to.0) }
{
    let step = class_step(alloc, graph, types, from, to)?;
    Ok(steps_of_class(step))
}

#[tactic(auto, unfolding(cxx_meaning::specs::Conversions::Standard::steps_to_scalar))]
fn steps_to_scalar(
    alloc: Global,
    graph: &Graph,
    types: &TypeTable,
    from: Operand,
    to: TypeId,
) -> Result<Option<SequenceSteps>, Wait>
    requires from_known { from.of.0 < length types.now }
    requires to_known { to.0 < length types.now }
    requires fitted { Fitted graph.now types.now }
    ensures { Gives (λ x. x) result (standard.steps_to_scalar (graph_at types.now graph.now) (operand_at types.now from) (type_at types.now to.0)) }
{
    if is_function(types, from.of) && !from.lvalue {
        return Ok(None);
    }
    let value = value_kind(graph, types, from.of);
    let kind = kind_of(graph, types, to);
    let steps = steps_of_kinds(alloc, graph, types, from.constant, value, kind)?;
    Ok(with_first(value_step(types, from.of, from.lvalue), steps))
}

/// From an expression to a type that is no reference (8.5).
#[tactic(auto, unfolding(cxx_meaning::specs::Conversions::Standard::steps_of_value, cxx_meaning::specs::Conversions::Standard::steps_by_kinds))]
pub(crate) fn steps_of_value(
    alloc: Global,
    graph: &Graph,
    types: &TypeTable,
    from: Operand,
    to: TypeId,
) -> Result<Option<SequenceSteps>, Wait>
    requires from_known { from.of.0 < length types.now }
    requires to_known { to.0 < length types.now }
    requires fitted { Fitted graph.now types.now }
    ensures { Gives (λ x. x) result (standard.steps_of_value (graph_at types.now graph.now) (operand_at types.now from) (type_at types.now to.0)) }
{
    match kind_of(graph, types, from.of) {
        TypeKind::Class(class) => match kind_of(graph, types, to) {
            TypeKind::Class(base) => steps_to_class(alloc, graph, types, class, base),
            _ => steps_to_scalar(alloc, graph, types, from, to),
        },
        _ => steps_to_scalar(alloc, graph, types, from, to),
    }
}

//! Conversions from a class to a base of it, and casts back (4.10, 5.2.9, 8.5.3, 10.2).

ghost use Rattle.std.specs.Prelude.{◌≡◌, ◌<◌, ◌∷◌, [], length, Some, None, IfOk, IfSome};
ghost use Rattle.cxx_meaning.specs.Conversions.Kinds.{kind_of as kind_of_type};
ghost use Rattle.cxx_model.specs.Facts.Fitted.{Fitted};
ghost use Rattle.cxx_model.specs.Stops.{Faulty, Gives};
ghost use Rattle.cxx_model.specs.Types.Numbers.{type_at};
ghost use Rattle.cxx_model.specs.declared.evidence.Evidence.TheVariants as evidence_of;
ghost use Rattle.cxx_standard.specs.Views.{IsKindBelow, IsKindInRange, kind_at, operand_at};
ghost use Rattle.cxx_subobjects.specs.Paths as paths;
ghost use Rattle.cxx_tree.specs.Held.{meaning, type_of};
ghost use Rattle.cxx_expr.specs.Bases as definition;

use crate::operands::referred;
use cxx_builtin::operand_kind;
use cxx_graph::Graph;
use cxx_model::{
    ClassId, Evidence, EvidenceList, Fault, FaultText, Listed, NumberList, Operand, OutOfMemory,
    Place, Stop, TypeId,
};
use cxx_standard::{TypeKind, kind_of};
use cxx_subobjects::{Subobjects, base_subobjects};
use cxx_tree::State;
use cxx_types::TypeTable;
use std::alloc::{AllocError, Global};

// ---- which classes

fn classes_of(
    graph: &Graph,
    types: &TypeTable,
    one: TypeKind,
    two: TypeKind,
) -> Option<(ClassId, ClassId)>
    requires one { IsKindInRange graph.now (kind_at types.now one) }
    requires two { IsKindInRange graph.now (kind_at types.now two) }
    ensures is { definition.classes_at result ≡ definition.classes_of (kind_at types.now one) (kind_at types.now two) }
    ensures first { IfSome result (λ classes. classes.0.0 < length graph.now.classes) }
    ensures second { IfSome result (λ classes. classes.1.0 < length graph.now.classes) }
{
    let _ = graph;
    let _ = types;
    match one {
        TypeKind::Class(one) => match two {
            TypeKind::Class(two) => Some((one, two)),
            _ => None,
        },
        _ => None,
    }
}

// The classes that two types are.
fn classes_in(
    graph: &Graph,
    types: &TypeTable,
    one: TypeId,
    two: TypeId,
) -> Option<(ClassId, ClassId)>
    requires one { one.0 < length types.now }
    requires two { two.0 < length types.now }
    requires fitted { Fitted graph.now types.now }
    ensures is { definition.classes_at result ≡ definition.classes_of (kind_of_type (type_at types.now one.0)) (kind_of_type (type_at types.now two.0)) }
    ensures first { IfSome result (λ classes. classes.0.0 < length graph.now.classes) }
    ensures second { IfSome result (λ classes. classes.1.0 < length graph.now.classes) }
{
    let from = kind_of(graph, types, one);
    classes_of(graph, types, from, kind_of(graph, types, two))
}

// Two classes, or those that two pointers point to.
fn classes_by(
    graph: &Graph,
    types: &TypeTable,
    one: TypeKind,
    two: TypeKind,
) -> Option<(ClassId, ClassId)>
    requires one { IsKindInRange graph.now (kind_at types.now one) }
    requires two { IsKindInRange graph.now (kind_at types.now two) }
    requires one_below { IsKindBelow (length types.now) one }
    requires two_below { IsKindBelow (length types.now) two }
    requires fitted { Fitted graph.now types.now }
    ensures is { definition.classes_at result ≡ definition.classes_by (kind_at types.now one) (kind_at types.now two) }
    ensures first { IfSome result (λ classes. classes.0.0 < length graph.now.classes) }
    ensures second { IfSome result (λ classes. classes.1.0 < length graph.now.classes) }
{
    match one {
        TypeKind::Pointer(from) => match two {
            TypeKind::Pointer(to) => classes_in(graph, types, from, to),
            _ => None,
        },
        _ => classes_of(graph, types, one, two),
    }
}

// The class of an expression, or what it points to, and that of the type to which it is converted (4.10, 8.5.3).
fn classes_between(state: &State, from: Operand, of: TypeId) -> Option<(ClassId, ClassId)>
    requires from { from.of.0 < length (state.now).types }
    requires of { of.0 < length (state.now).types }
    ensures is { definition.classes_at result ≡ definition.classes_between (operand_at (state.now).types from) (type_of state.now of) }
    ensures first { IfSome result (λ classes. classes.0.0 < length (state.now).graph.classes) }
    ensures second { IfSome result (λ classes. classes.1.0 < length (state.now).graph.classes) }
{
    let one = operand_kind(state.graph(), state.types(), from);
    let to = referred(state.types(), of);
    let two = kind_of(state.graph(), state.types(), to);
    classes_by(state.graph(), state.types(), one, two)
}

#[tactic(auto, unfolding(cxx_tree::specs::Held::meaning))]
fn subobjects(
    alloc: Global,
    state: &State,
    class: ClassId,
    base: ClassId,
) -> Result<Subobjects, OutOfMemory>
    requires class { class.0 < length (state.now).graph.classes }
    requires base { base.0 < length (state.now).graph.classes }
    ensures { IfOk result (λ found. found ≡ paths.subobjects (meaning state.now).graph class.0 base.0) }
{
    base_subobjects(alloc, state.graph(), state.types(), class, base)
}

// ---- to a base

fn both_by_bases(
    alloc: Global,
    one: NumberList,
    two: NumberList,
) -> Result<EvidenceList, AllocError>
    ensures { IfOk result (λ all. all ≡ evidence_of.ByBases None one ∷ evidence_of.ByBases None two ∷ []) }
{
    let mut all = Listed::new(alloc);
    all.push(Evidence::ByBases(None, one))?;
    all.push(Evidence::ByBases(None, two))?;
    Ok(all)
}

fn ambiguous_base(
    alloc: Global,
    place: Place,
    one: NumberList,
    two: NumberList,
) -> Result<Box<Fault>, AllocError>
    ensures { IfOk result (λ at. Faulty at.value ≡ definition.ambiguous_base_at place one two) }
{
    let evidence = both_by_bases(alloc, one, two)?;
    Ok(Box::new(
        alloc,
        Fault {
            place,
            text: FaultText::AmbiguousBase,
            evidence,
        },
    )?)
}

fn unless_several(alloc: Global, place: Place, found: Subobjects) -> Result<(), Stop>
    ensures { Gives (λ done. done) result (definition.unless_several place found) }
{
    match found {
        Subobjects::Several(one, two) => {
            Err(Stop::Fault(ambiguous_base(alloc, place, one, two)?))
        }
        _ => Ok(()),
    }
}

fn base_among(
    alloc: Global,
    state: &State,
    place: Place,
    class: ClassId,
    base: ClassId,
) -> Result<(), Stop>
    requires class { class.0 < length (state.now).graph.classes }
    requires base { base.0 < length (state.now).graph.classes }
    ensures { Gives (λ done. done) result (definition.base_among (meaning state.now).graph place (Some (class.0, base.0))) }
{
    if class.0 == base.0 {
        return Ok(());
    }
    match subobjects(alloc, state, class, base) {
        Ok(found) => unless_several(alloc, place, found),
        Err(_) => Err(Stop::OutOfMemory),
    }
}

/// Stops where a class, or a pointer to one, is converted to a base of which an object of it has several (4.10, 8.5.3, 10.2).
#[tactic(auto, unfolding(crate::specs::Bases::one_base))]
pub fn one_base(
    alloc: Global,
    state: &State,
    place: Place,
    from: Operand,
    of: TypeId,
) -> Result<(), Stop>
    requires from { from.of.0 < length (state.now).types }
    requires of { of.0 < length (state.now).types }
    ensures { Gives (λ done. done) result (definition.one_base (meaning state.now).graph place (operand_at (state.now).types from) (type_of state.now of)) }
{
    match classes_between(state, from, of) {
        None => Ok(()),
        Some((class, base)) => base_among(alloc, state, place, class, base),
    }
}

// ---- from a base

fn is_one(found: &Subobjects) -> bool
    ensures { result ≡ definition.is_one found.now }
{
    match found {
        Subobjects::One(_) => true,
        _ => false,
    }
}

fn is_only(alloc: Global, state: &State, class: ClassId, base: ClassId) -> Result<bool, OutOfMemory>
    requires class { class.0 < length (state.now).graph.classes }
    requires base { base.0 < length (state.now).graph.classes }
    ensures { IfOk result (λ only. only ≡ definition.is_one (paths.subobjects (meaning state.now).graph class.0 base.0)) }
{
    let found = subobjects(alloc, state, class, base)?;
    Ok(is_one(&found))
}

/// Whether an object of the class to which a cast leads has one subobject alone of the class from which it leads (5.2.9).
#[tactic(auto, unfolding(crate::specs::Bases::is_only_base))]
pub fn is_only_base(
    alloc: Global,
    state: &State,
    from: Operand,
    of: TypeId,
) -> Result<bool, OutOfMemory>
    requires from { from.of.0 < length (state.now).types }
    requires of { of.0 < length (state.now).types }
    ensures { IfOk result (λ only. only ≡ definition.is_only_base (meaning state.now).graph (operand_at (state.now).types from) (type_of state.now of)) }
{
    match classes_between(state, from, of) {
        None => Ok(false),
        Some((base, class)) => is_only(alloc, state, class, base),
    }
}

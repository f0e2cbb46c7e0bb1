//! The type between two casts (5.4).
ghost use Rattle.std.specs.Prelude.{◌≡◌, ◌<◌, length, IfOk};
ghost use Rattle.cxx_model.specs.Facts.Fitted.{Fitted};
ghost use Rattle.cxx_model.specs.Types.Numbers.{type_at};
ghost use Rattle.cxx_model.specs.Types.Trees.{merged as merged_of, pointer_to, reference_to};
ghost use Rattle.cxx_meaning.specs.Conversions.Casts as casts;
ghost use Rattle.cxx_types.specs.Makes.{Makes};
ghost use Rattle.cxx_builtin.specs.Plans.{IsNumberBelow};
ghost use Rattle.cxx_casts.specs.Made.{MayMake, IsAimBelow, aim_at, some_of, with_words};
ghost use Rattle.cxx_standard.specs.Views.{kind_at, operand_at, signature_at, IsKindBelow};

use cxx_builtin::{leveled, operand_kind};
use cxx_graph::Graph;
use cxx_model::{Cv, Listed, Operand, OutOfMemory, TypeId, TypeNode};
use cxx_standard::{TypeKind, cv_of, kind_of, pointee};
use cxx_types::TypeTable;
use std::alloc::Global;

/// The type between, by two types: the second has the cv words of the first, in the place of its own or besides them.
#[derive(Clone, Copy)]
pub(crate) enum Aims {
    Nowhere,
    Pointers(TypeId, TypeId),
    Objects(TypeId, TypeId),
    MorePointers(TypeId, TypeId),
    MoreObjects(TypeId, TypeId),
}

fn more_of_kinds(types: &TypeTable, from: TypeKind, to: TypeKind) -> Aims
    requires from_below { IsKindBelow (length types.now) from }
    requires to_below { IsKindBelow (length types.now) to }
    ensures is { aim_at types.now result ≡ casts.added_kinds (kind_at types.now from) (kind_at types.now to) }
    ensures below { IsAimBelow (length types.now) result }
{
    let _ = types;
    match from {
        TypeKind::Pointer(one) => match to {
            TypeKind::Pointer(two) => Aims::MorePointers(one, two),
            _ => Aims::Nowhere,
        },
        _ => Aims::Nowhere,
    }
}

/// The type with the cv words of an expression besides its own, as far as both go.
#[tactic(auto, unfolding(cxx_meaning::specs::Conversions::Casts::added))]
pub(crate) fn more(graph: &Graph, types: &TypeTable, from: Operand, to: TypeId) -> Aims
    requires from_known { from.of.0 < length types.now }
    requires to_known { to.0 < length types.now }
    requires fitted { Fitted graph.now types.now }
    ensures is { aim_at types.now result ≡ casts.added (operand_at types.now from) (type_at types.now to.0) }
    ensures below { IsAimBelow (length types.now) result }
{
    match types.node(to) {
        TypeNode::Reference(of) => Aims::MoreObjects(from.of, *of),
        _ => more_of_kinds(
            types,
            operand_kind(graph, types, from),
            kind_of(graph, types, to),
        ),
    }
}

fn aims_of_kinds(types: &TypeTable, from: TypeKind, to: TypeKind) -> Aims
    requires from_below { IsKindBelow (length types.now) from }
    requires to_below { IsKindBelow (length types.now) to }
    ensures is { aim_at types.now result ≡ casts.between_kinds (kind_at types.now from) (kind_at types.now to) }
    ensures below { IsAimBelow (length types.now) result }
{
    let _ = types;
    match from {
        TypeKind::Pointer(one) => match to {
            TypeKind::Pointer(two) => Aims::Pointers(one, two),
            _ => Aims::Nowhere,
        },
        _ => Aims::Nowhere,
    }
}

/// The type with the cv words of an expression in the place of its own, as far as both go.
#[tactic(auto, unfolding(cxx_meaning::specs::Conversions::Casts::between))]
pub(crate) fn aim(graph: &Graph, types: &TypeTable, from: Operand, to: TypeId) -> Aims
    requires from_known { from.of.0 < length types.now }
    requires to_known { to.0 < length types.now }
    requires fitted { Fitted graph.now types.now }
    ensures is { aim_at types.now result ≡ casts.between (operand_at types.now from) (type_at types.now to.0) }
    ensures below { IsAimBelow (length types.now) result }
{
    match types.node(to) {
        TypeNode::Reference(of) => {
            if from.lvalue {
                Aims::Objects(from.of, *of)
            } else {
                Aims::Nowhere
            }
        }
        _ => aims_of_kinds(
            types,
            operand_kind(graph, types, from),
            kind_of(graph, types, to),
        ),
    }
}

// The cv words of a type, and those behind each `*` in it.
fn words_of(alloc: Global, types: &TypeTable, of: Option<TypeId>) -> Result<Listed<Cv>, OutOfMemory>
    requires { IsNumberBelow (length types.now) of }
    ensures { IfOk result (λ words. words ≡ signature_at types.now of) }
{
    match of {
        None => Ok(Listed::new(alloc)),
        Some(of) => {
            let mut words = words_of(alloc, types, pointee(types, of))?;
            words.push_front(cv_of(types, of))?;
            Ok(words)
        }
    }
}

fn merged(one: Cv, two: Cv) -> Cv
    ensures { result ≡ merged_of one two }
{
    Cv {
        is_const: one.is_const || two.is_const,
        is_volatile: one.is_volatile || two.is_volatile,
    }
}

// The words of both types, and those behind each `*` in them, as far as both go.
fn merged_words(
    alloc: Global,
    types: &TypeTable,
    one: Option<TypeId>,
    two: Option<TypeId>,
) -> Result<Listed<Cv>, OutOfMemory>
    requires one_below { IsNumberBelow (length types.now) one }
    requires two_below { IsNumberBelow (length types.now) two }
    ensures { IfOk result (λ words. words ≡ casts.merged_words (signature_at types.now one) (signature_at types.now two)) }
{
    match one {
        None => Ok(Listed::new(alloc)),
        Some(one) => match two {
            None => Ok(Listed::new(alloc)),
            Some(two) => {
                let mut words = merged_words(
                    alloc,
                    types,
                    pointee(types, one),
                    pointee(types, two),
                )?;
                words.push_front(merged(cv_of(types, one), cv_of(types, two)))?;
                Ok(words)
            }
        },
    }
}

fn pointer_with_added(
    alloc: Global,
    types: &mut TypeTable,
    one: TypeId,
    two: TypeId,
) -> Result<TypeId, OutOfMemory>
    requires one_known { one.0 < length types.old }
    requires two_known { two.0 < length types.old }
    ensures { Makes types.old types.new result (pointer_to (casts.with_added (type_at types.old one.0) (type_at types.old two.0))) }
{
    let words = merged_words(alloc, types, Some(one), Some(two))?;
    let of = leveled(types, two, words.as_slice())?;
    types.pointer_to(of)
}

fn reference_with_added(
    alloc: Global,
    types: &mut TypeTable,
    one: TypeId,
    two: TypeId,
) -> Result<TypeId, OutOfMemory>
    requires one_known { one.0 < length types.old }
    requires two_known { two.0 < length types.old }
    ensures { Makes types.old types.new result (reference_to (casts.with_added (type_at types.old one.0) (type_at types.old two.0))) }
{
    let words = merged_words(alloc, types, Some(one), Some(two))?;
    let of = leveled(types, two, words.as_slice())?;
    types.reference_to(of)
}

fn pointer_with_words(
    alloc: Global,
    types: &mut TypeTable,
    one: TypeId,
    two: TypeId,
) -> Result<TypeId, OutOfMemory>
    requires one_known { one.0 < length types.old }
    requires two_known { two.0 < length types.old }
    ensures { Makes types.old types.new result (pointer_to (with_words (type_at types.old one.0) (type_at types.old two.0))) }
{
    let words = words_of(alloc, types, Some(one))?;
    let of = leveled(types, two, words.as_slice())?;
    types.pointer_to(of)
}

fn reference_with_words(
    alloc: Global,
    types: &mut TypeTable,
    one: TypeId,
    two: TypeId,
) -> Result<TypeId, OutOfMemory>
    requires one_known { one.0 < length types.old }
    requires two_known { two.0 < length types.old }
    ensures { Makes types.old types.new result (reference_to (with_words (type_at types.old one.0) (type_at types.old two.0))) }
{
    let words = words_of(alloc, types, Some(one))?;
    let of = leveled(types, two, words.as_slice())?;
    types.reference_to(of)
}

fn some_made(made: Result<TypeId, OutOfMemory>) -> Result<Option<TypeId>, OutOfMemory>
    ensures { result ≡ some_of made }
{
    match made {
        Ok(number) => Ok(Some(number)),
        Err(fault) => Err(fault),
    }
}

/// The type between, made.
pub(crate) fn made(
    alloc: Global,
    graph: &Graph,
    types: &mut TypeTable,
    aims: Aims,
) -> Result<Option<TypeId>, OutOfMemory>
    requires below { IsAimBelow (length types.old) aims }
    requires fitted { Fitted graph.now types.old }
    ensures { MayMake graph.now types.old types.new result (aim_at types.old aims) }
{
    let _ = graph;
    match aims {
        Aims::Nowhere => Ok(None),
        Aims::Pointers(one, two) => some_made(pointer_with_words(alloc, types, one, two)),
        Aims::Objects(one, two) => some_made(reference_with_words(alloc, types, one, two)),
        Aims::MorePointers(one, two) => some_made(pointer_with_added(alloc, types, one, two)),
        Aims::MoreObjects(one, two) => some_made(reference_with_added(alloc, types, one, two)),
    }
}

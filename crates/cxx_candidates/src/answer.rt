//! The candidates for an operator and its operands (13.6).
ghost use Rattle.std.specs.Prelude.{◌≡◌, ◌<◌, ◌++◌, ◌∷◌, [], length, map, filter, if◌then◌else◌, IfOk, OnOk, Some};
ghost use Rattle.cxx_model.specs.Facts.Declarations.{graph_at};
ghost use Rattle.cxx_model.specs.Facts.Fitted.{Fitted};
ghost use Rattle.cxx_model.specs.Types.Numbers.{type_at};
ghost use Rattle.cxx_model.specs.Types.Trees.{enumeration, pointer_to};
ghost use Rattle.cxx_builtin.specs.Built.{list_at};
ghost use Rattle.cxx_builtin.specs.Plans.{operands_at, AreOperandsBelow};
ghost use Rattle.cxx_candidates.specs.Shapes.{number_of, numbers_at, AreAdded, AreFoundKnown, AreNumbersKnown, ArePointeesKnown, letters_at, Adds, AreLettersKnown, AreShaped, AreSlots, GivesCandidates, MakesLists};
ghost use Rattle.cxx_meaning.specs.Conversions.Kinds.{is_function as is_function_type};
ghost use Rattle.cxx_meaning.specs.Conversions.Pointers.{is_void as is_void_kind};
ghost use Rattle.cxx_candidates.specs.Sources as definition;
ghost use Rattle.cxx_standard.specs.Views.{kind_at};

use crate::letters::{Found, Letters, add_kinds_from};
use crate::making::make_all;
use crate::operators::{add_binary, add_none, add_unary};
use crate::shapes::{Shape, Slot};
use cxx_builtin::operand_kind;
use cxx_graph::Graph;
use cxx_model::{ClassId, EnumId, Operand, OperandList, OutOfMemory, TypeId, TypeIdLists, Wait};
use cxx_standard::{TypeKind, is_function, is_pending, kind_of};
use cxx_types::TypeTable;
use std::alloc::Global;

// ---- classes that must be complete first (14.7.1)

fn lesser(one: ClassId, other: ClassId) -> ClassId
    ensures { number_of (Some result) ≡ definition.least (Some one.0) (Some other.0) }
{
    if other.0 < one.0 { other } else { one }
}

fn least(one: Option<ClassId>, other: Option<ClassId>) -> Option<ClassId>
    ensures { number_of result ≡ definition.least (number_of one) (number_of other) }
{
    match one {
        None => other,
        Some(one) => match other {
            None => Some(one),
            Some(other) => Some(lesser(one, other)),
        },
    }
}

fn if_pending(graph: &Graph, types: &TypeTable, class: ClassId) -> Option<ClassId>
    ensures { number_of result ≡ definition.if_pending (graph_at types.now graph.now) class.0 }
{
    if is_pending(graph, types, class) {
        Some(class)
    } else {
        None
    }
}

fn pending_class(graph: &Graph, types: &TypeTable, kind: TypeKind) -> Option<ClassId>
    ensures { number_of result ≡ definition.pending_class (graph_at types.now graph.now) (kind_at types.now kind) }
{
    match kind {
        TypeKind::Class(class) => if_pending(graph, types, class),
        _ => None,
    }
}

#[tactic(auto, unfolding(crate::specs::Sources::needed))]
fn needed(graph: &Graph, types: &TypeTable, operands: &[Operand]) -> Option<ClassId>
    requires below { AreOperandsBelow (length types.now) operands.now }
    requires fitted { Fitted graph.now types.now }
    ensures { number_of result ≡ definition.needed (graph_at types.now graph.now) (operands_at types.now operands.now) }
{
    match operands {
        [] => None,
        [one, others @ ..] => {
            let own = pending_class(graph, types, operand_kind(graph, types, *one));
            least(own, needed(graph, types, others))
        }
    }
}

// ---- what the operands may become

#[tactic(auto, using(crate::proofs::InTurn::then_added))]
fn add_operands(
    alloc: Global,
    graph: &Graph,
    types: &TypeTable,
    found: &mut Found,
    operands: &[Operand],
) -> Result<(), OutOfMemory>
    requires below { AreOperandsBelow (length types.now) operands.now }
    requires fitted { Fitted graph.now types.now }
    requires known { AreFoundKnown graph.now (length types.now) found.old }
    ensures is { OnOk result (AreAdded types.now found.old found.new (definition.kinds_of (graph_at types.now graph.now) (operands_at types.now operands.now))) }
    ensures known { OnOk result (AreFoundKnown graph.now (length types.now) found.new) }
{
    match operands {
        [] => Ok(()),
        [one, others @ ..] => {
            let kind = operand_kind(graph, types, *one);
            add_kinds_from(alloc, graph, types, found, kind)?;
            add_operands(alloc, graph, types, found, others)?;
            Ok(())
        }
    }
}

fn pointer_slots(
    alloc: Global,
    graph: &Graph,
    types: &TypeTable,
    pointees: &[TypeId],
) -> Result<Vec<Slot>, OutOfMemory>
    requires { ArePointeesKnown (length types.now) pointees.now }
    ensures { IfOk result (λ slots. AreSlots graph.now types.now slots.items (map pointer_to (list_at types.now pointees.now))) }
{
    let _ = graph;
    let _ = types;
    let mut slots = Vec::new(alloc);
    for to in pointees {
        slots.push(Slot::PointerTo(*to))?;
    }
    Ok(slots)
}

fn enumeration_slots(
    alloc: Global,
    graph: &Graph,
    types: &TypeTable,
    numbers: &[EnumId],
) -> Result<Vec<Slot>, OutOfMemory>
    requires { AreNumbersKnown graph.now numbers.now }
    ensures { IfOk result (λ slots. AreSlots graph.now types.now slots.items (map enumeration (numbers_at numbers.now))) }
{
    let _ = graph;
    let _ = types;
    let mut slots = Vec::new(alloc);
    for number in numbers {
        slots.push(Slot::Enumeration(*number))?;
    }
    Ok(slots)
}

fn is_void(kind: TypeKind) -> bool
    ensures { result ≡ is_void_kind (kind_at [] kind) }
{
    match kind {
        TypeKind::Void => true,
        _ => false,
    }
}

fn is_object(graph: &Graph, types: &TypeTable, of: TypeId) -> bool
    requires known { of.0 < length types.now }
    requires fitted { Fitted graph.now types.now }
    ensures { result ≡ definition.is_object (type_at types.now of.0) }
{
    !is_void(kind_of(graph, types, of)) && !is_function(types, of)
}

fn keep_type(list: &mut Vec<TypeId>, keeps: bool, of: TypeId) -> Result<(), OutOfMemory>
    ensures { OnOk result (list.new.items ≡ list.old.items ++ (if keeps then of ∷ [] else [])) }
{
    if keeps {
        list.push(of)?;
    }
    Ok(())
}

// Those of some types that are of objects.
fn objects_among(
    alloc: Global,
    graph: &Graph,
    types: &TypeTable,
    pointees: &[TypeId],
) -> Result<Vec<TypeId>, OutOfMemory>
    requires known { ArePointeesKnown (length types.now) pointees.now }
    requires fitted { Fitted graph.now types.now }
    ensures is { IfOk result (λ objects. list_at types.now objects.items ≡ filter definition.is_object (list_at types.now pointees.now)) }
    ensures known { IfOk result (λ objects. ArePointeesKnown (length types.now) objects.items) }
{
    let mut list = Vec::new(alloc);
    for of in pointees {
        let keeps = is_object(graph, types, *of);
        keep_type(&mut list, keeps, *of)?;
    }
    Ok(list)
}

// Those of some types that are of functions.
fn functions_among(
    alloc: Global,
    types: &TypeTable,
    pointees: &[TypeId],
) -> Result<Vec<TypeId>, OutOfMemory>
    requires known { ArePointeesKnown (length types.now) pointees.now }
    ensures is { IfOk result (λ functions. list_at types.now functions.items ≡ filter is_function_type (list_at types.now pointees.now)) }
    ensures known { IfOk result (λ functions. ArePointeesKnown (length types.now) functions.items) }
{
    let mut list = Vec::new(alloc);
    for of in pointees {
        let keeps = is_function(types, *of);
        keep_type(&mut list, keeps, *of)?;
    }
    Ok(list)
}

// ---- candidates

fn add_for_two(
    graph: &Graph,
    types: &TypeTable,
    list: &mut Vec<Shape>,
    letters: Letters<'_>,
    operator: u8,
    operands: &[Operand],
) -> Result<(), OutOfMemory>
    requires { AreLettersKnown graph.now (length types.now) letters }
    ensures { OnOk result (Adds graph.now types.now list.old.items list.new.items (definition.candidates_of_two (letters_at types.now letters.entry) operator (operands_at types.now operands.now))) }
{
    match operands {
        [] => add_binary(graph, types, list, letters, operator),
        [_, others @ ..] => {
            let _ = others;
            add_none(graph, types, list)
        },
    }
}

fn add_beside(
    graph: &Graph,
    types: &TypeTable,
    list: &mut Vec<Shape>,
    letters: Letters<'_>,
    operator: u8,
    operands: &[Operand],
) -> Result<(), OutOfMemory>
    requires { AreLettersKnown graph.now (length types.now) letters }
    ensures { OnOk result (Adds graph.now types.now list.old.items list.new.items (definition.candidates_beside (letters_at types.now letters.entry) operator (operands_at types.now operands.now))) }
{
    match operands {
        [] => add_unary(graph, types, list, letters, operator),
        [_, others @ ..] => add_for_two(graph, types, list, letters, operator, others),
    }
}

fn add_candidates(
    graph: &Graph,
    types: &TypeTable,
    list: &mut Vec<Shape>,
    letters: Letters<'_>,
    operator: u8,
    operands: &[Operand],
) -> Result<(), OutOfMemory>
    requires { AreLettersKnown graph.now (length types.now) letters }
    ensures { OnOk result (Adds graph.now types.now list.old.items list.new.items (definition.candidates_by (letters_at types.now letters.entry) operator (operands_at types.now operands.now))) }
{
    match operands {
        [] => add_none(graph, types, list),
        [_, others @ ..] => add_beside(graph, types, list, letters, operator, others),
    }
}

#[tactic(auto, using(crate::proofs::Shaped::begun))]
fn shapes_from(
    alloc: Global,
    graph: &Graph,
    types: &TypeTable,
    letters: Letters<'_>,
    operator: u8,
    operands: &[Operand],
) -> Result<Vec<Shape>, OutOfMemory>
    requires { AreLettersKnown graph.now (length types.now) letters }
    ensures { IfOk result (λ list. AreShaped graph.now types.now list.items (definition.candidates_by (letters_at types.now letters.entry) operator (operands_at types.now operands.now))) }
{
    let mut list = Vec::new(alloc);
    add_candidates(graph, types, &mut list, letters, operator, operands)?;
    Ok(list)
}

#[tactic(auto, using(crate::proofs::Shaped::letters_are))]
// The shapes of the candidates, given what the operands may become.
fn shapes_by(
    alloc: Global,
    graph: &Graph,
    types: &TypeTable,
    found: &Found,
    operator: u8,
    operands: &[Operand],
) -> Result<Vec<Shape>, OutOfMemory>
    requires known { AreFoundKnown graph.now (length types.now) found.now }
    requires fitted { Fitted graph.now types.now }
    ensures { IfOk result (λ list. AreShaped graph.now types.now list.items (definition.candidates_by (definition.letters_of (list_at types.now found.now.pointees.items) (numbers_at found.now.enumerations.items)) operator (operands_at types.now operands.now))) }
{
    let objects = objects_among(alloc, graph, types, found.pointees.as_slice())?;
    let functions = functions_among(alloc, types, found.pointees.as_slice())?;
    let pointers = pointer_slots(alloc, graph, types, found.pointees.as_slice())?;
    let objects = pointer_slots(alloc, graph, types, objects.as_slice())?;
    let functions = pointer_slots(alloc, graph, types, functions.as_slice())?;
    let enumerations = enumeration_slots(alloc, graph, types, found.enumerations.as_slice())?;
    let letters = Letters {
        pointers: pointers.as_slice(),
        objects: objects.as_slice(),
        functions: functions.as_slice(),
        enumerations: enumerations.as_slice(),
    };
    let list = shapes_from(alloc, graph, types, letters, operator, operands)?;
    Ok(list)
}

#[tactic(auto, unfolding(crate::specs::Sources::letters))]
fn shapes(
    alloc: Global,
    graph: &Graph,
    types: &TypeTable,
    operator: u8,
    operands: &[Operand],
) -> Result<Vec<Shape>, OutOfMemory>
    requires below { AreOperandsBelow (length types.now) operands.now }
    requires fitted { Fitted graph.now types.now }
    ensures { IfOk result (λ list. AreShaped graph.now types.now list.items (definition.candidates_by (definition.letters (definition.kinds_of (graph_at types.now graph.now) (operands_at types.now operands.now))) operator (operands_at types.now operands.now))) }
{
    let mut found = Found {
        pointees: Vec::new(alloc),
        enumerations: Vec::new(alloc),
    };
    add_operands(alloc, graph, types, &mut found, operands)?;
    let list = shapes_by(alloc, graph, types, &found, operator, operands)?;
    Ok(list)
}

fn made(
    alloc: Global,
    graph: &Graph,
    types: &mut TypeTable,
    operator: u8,
    operands: &[Operand],
) -> Result<TypeIdLists, OutOfMemory>
    requires below { AreOperandsBelow (length types.old) operands.now }
    requires fitted { Fitted graph.now types.old }
    ensures { MakesLists graph.now types.old types.new result (definition.candidates_by (definition.letters (definition.kinds_of (graph_at types.old graph.now) (operands_at types.old operands.now))) operator (operands_at types.old operands.now)) }
{
    let list = shapes(alloc, graph, types, operator, operands)?;
    make_all(alloc, graph, types, list.as_slice())
}

/// The types of the parameters of each candidate for a built-in operator (13.6): those of `int` and the other arithmetic
/// types first, then those of pointers and of enumerations. `++` and `--` behind their operand have an `int` as the second.
/// Types are only added to the table.
#[tactic(auto, unfolding(crate::specs::Sources::built_in_candidates))]
pub fn built_in_candidates(
    alloc: Global,
    graph: &Graph,
    types: &mut TypeTable,
    operator: u8,
    operands: &OperandList,
) -> Result<TypeIdLists, Wait>
    requires below { AreOperandsBelow (length types.old) operands.now }
    requires fitted { Fitted graph.now types.old }
    ensures { GivesCandidates graph.now types.old types.new result (definition.built_in_candidates (graph_at types.old graph.now) operator (operands_at types.old operands.now)) }
{
    match needed(graph, types, operands.as_slice()) {
        Some(class) => Err(Wait::Needs(class)),
        None => match made(alloc, graph, types, operator, operands.as_slice()) {
            Ok(lists) => Ok(lists),
            Err(_) => Err(Wait::OutOfMemory),
        },
    }
}

//! Parameters of candidates, made.
ghost use Rattle.std.specs.Prelude.{◌≡◌, [], ◌∷◌, length};
ghost use Rattle.cxx_model.specs.Facts.Fitted.{Fitted};
ghost use Rattle.cxx_model.specs.Types.Trees.{reference_to, with_cv};
ghost use Rattle.cxx_builtin.specs.Built.{MakesList};
ghost use Rattle.cxx_candidates.specs.Candidates.{volatile};
ghost use Rattle.cxx_candidates.specs.Shapes.{formed, shape_at, shapes_at, slot_at, AreShapesKnown, IsShapeKnown, IsSlotKnown, MakesLists};
ghost use Rattle.cxx_types.specs.Makes.{Makes};

use crate::shapes::{Form, Shape, Slot};
use cxx_graph::Graph;
use cxx_model::{Cv, Listed, OutOfMemory, TypeId, TypeIdList, TypeIdLists};
use cxx_types::TypeTable;
use std::alloc::Global;

fn make_slot(graph: &Graph, types: &mut TypeTable, slot: Slot) -> Result<TypeId, OutOfMemory>
    requires { IsSlotKnown graph.now (length types.old) slot }
    ensures { Makes types.old types.new result (slot_at types.old slot) }
{
    let _ = graph;
    match slot {
        Slot::Plain(of) => types.plain(of),
        Slot::PointerTo(to) => types.pointer_to(to),
        Slot::Enumeration(number) => types.enumeration(number),
    }
}

#[tactic(auto, using(crate::proofs::Made::reference_made, crate::proofs::Made::reference_stopped))]
fn make_reference(graph: &Graph, types: &mut TypeTable, slot: Slot) -> Result<TypeId, OutOfMemory>
    requires { IsSlotKnown graph.now (length types.old) slot }
    ensures { Makes types.old types.new result (reference_to (slot_at types.old slot)) }
{
    let of = make_slot(graph, types, slot)?;
    types.reference_to(of)
}

fn volatile_words() -> Cv
    ensures { result ≡ volatile }
{
    Cv {
        is_const: false,
        is_volatile: true,
    }
}

#[tactic(auto, using(cxx_builtin::proofs::Drawing::words_made, cxx_builtin::proofs::Drawing::words_stopped))]
fn make_volatile(graph: &Graph, types: &mut TypeTable, slot: Slot) -> Result<TypeId, OutOfMemory>
    requires { IsSlotKnown graph.now (length types.old) slot }
    ensures { Makes types.old types.new result (with_cv volatile (slot_at types.old slot)) }
{
    let of = make_slot(graph, types, slot)?;
    types.with_cv(of, volatile_words())
}

#[tactic(auto, using(crate::proofs::Made::reference_made, crate::proofs::Made::reference_stopped))]
fn make_volatile_reference(
    graph: &Graph,
    types: &mut TypeTable,
    slot: Slot,
) -> Result<TypeId, OutOfMemory>
    requires { IsSlotKnown graph.now (length types.old) slot }
    ensures { Makes types.old types.new result (reference_to (with_cv volatile (slot_at types.old slot))) }
{
    let of = make_volatile(graph, types, slot)?;
    types.reference_to(of)
}

fn make_first(
    graph: &Graph,
    types: &mut TypeTable,
    form: Form,
    slot: Slot,
) -> Result<TypeId, OutOfMemory>
    requires { IsSlotKnown graph.now (length types.old) slot }
    ensures { Makes types.old types.new result (formed form (slot_at types.old slot)) }
{
    match form {
        Form::Value => make_slot(graph, types, slot),
        Form::Reference => make_reference(graph, types, slot),
        Form::VolatileReference => make_volatile_reference(graph, types, slot),
    }
}

// One type, made and listed.
fn listed_one(
    alloc: Global,
    graph: &Graph,
    types: &mut TypeTable,
    form: Form,
    slot: Slot,
) -> Result<TypeIdList, OutOfMemory>
    requires known { IsSlotKnown graph.now (length types.old) slot }
    requires fitted { Fitted graph.now types.old }
    ensures { MakesList graph.now types.old types.new result (formed form (slot_at types.old slot) ∷ []) }
{
    let mut numbers = Listed::new(alloc);
    let number = make_first(graph, types, form, slot)?;
    numbers.push(number)?;
    Ok(numbers)
}

// Two types, made and listed.
fn listed_two(
    alloc: Global,
    graph: &Graph,
    types: &mut TypeTable,
    form: Form,
    slot: Slot,
    other: Slot,
) -> Result<TypeIdList, OutOfMemory>
    requires known { IsSlotKnown graph.now (length types.old) slot }
    requires other_known { IsSlotKnown graph.now (length types.old) other }
    requires fitted { Fitted graph.now types.old }
    ensures { MakesList graph.now types.old types.new result (formed form (slot_at types.old slot) ∷ slot_at types.old other ∷ []) }
{
    let mut numbers = listed_one(alloc, graph, types, form, slot)?;
    let number = make_slot(graph, types, other)?;
    numbers.push(number)?;
    Ok(numbers)
}

fn make_shape(
    alloc: Global,
    graph: &Graph,
    types: &mut TypeTable,
    shape: Shape,
) -> Result<TypeIdList, OutOfMemory>
    requires known { IsShapeKnown graph.now (length types.old) shape }
    requires fitted { Fitted graph.now types.old }
    ensures { MakesList graph.now types.old types.new result (shape_at types.old shape) }
{
    match shape.second {
        None => listed_one(alloc, graph, types, shape.form, shape.first),
        Some(other) => listed_two(alloc, graph, types, shape.form, shape.first, other),
    }
}

/// The types of the parameters of candidates.
pub(crate) fn make_all(
    alloc: Global,
    graph: &Graph,
    types: &mut TypeTable,
    shapes: &[Shape],
) -> Result<TypeIdLists, OutOfMemory>
    requires known { AreShapesKnown graph.now (length types.old) shapes.now }
    requires fitted { Fitted graph.now types.old }
    ensures { MakesLists graph.now types.old types.new result (shapes_at types.old shapes.now) }
{
    let mut lists = Listed::new(alloc);
    for shape in shapes {
        let list = make_shape(alloc, graph, types, *shape)?;
        lists.push(list)?;
    }
    Ok(lists)
}

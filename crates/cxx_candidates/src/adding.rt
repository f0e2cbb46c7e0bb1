//! Lists of parameters of candidates.
ghost use Rattle.std.specs.Prelude.{length, OnOk};
ghost use Rattle.cxx_candidates.specs.Candidates as definition;
ghost use Rattle.cxx_candidates.specs.Shapes.{slots_at, second_at, Adds, AreSlotsKnown, IsSecondKnown};

use crate::shapes::{
    Shape, Slot, push_alone, push_both, push_changing_alone, push_changing_both,
    push_changing_same, push_twice,
};
use cxx_graph::Graph;
use cxx_model::OutOfMemory;
use cxx_types::TypeTable;

/// Candidates of one parameter, of each of some types.
pub(crate) fn add_alone(
    graph: &Graph,
    types: &TypeTable,
    list: &mut Vec<Shape>,
    slots: &[Slot],
) -> Result<(), OutOfMemory>
    requires { AreSlotsKnown graph.now (length types.now) slots.now }
    ensures { OnOk result (Adds graph.now types.now list.old.items list.new.items (definition.alone (slots_at types.now slots.now))) }
{
    let _ = graph;
    let _ = types;
    push_alone(list, slots)?;
    Ok(())
}

/// Candidates of two parameters, the first of each of some types, and for each of them the second of each of others.
pub(crate) fn add_both(
    graph: &Graph,
    types: &TypeTable,
    list: &mut Vec<Shape>,
    firsts: &[Slot],
    others: &[Slot],
) -> Result<(), OutOfMemory>
    requires firsts { AreSlotsKnown graph.now (length types.now) firsts.now }
    requires others { AreSlotsKnown graph.now (length types.now) others.now }
    ensures { OnOk result (Adds graph.now types.now list.old.items list.new.items (definition.both (slots_at types.now firsts.now) (slots_at types.now others.now))) }
{
    let _ = graph;
    let _ = types;
    push_both(list, firsts, others)?;
    Ok(())
}

/// Candidates of two parameters of one type, of each of some types.
pub(crate) fn add_twice(
    graph: &Graph,
    types: &TypeTable,
    list: &mut Vec<Shape>,
    slots: &[Slot],
) -> Result<(), OutOfMemory>
    requires { AreSlotsKnown graph.now (length types.now) slots.now }
    ensures { OnOk result (Adds graph.now types.now list.old.items list.new.items (definition.twice (slots_at types.now slots.now))) }
{
    let _ = graph;
    let _ = types;
    push_twice(list, slots)?;
    Ok(())
}

/// Candidates that change an object of each of some types.
pub(crate) fn add_changing_alone(
    graph: &Graph,
    types: &TypeTable,
    list: &mut Vec<Shape>,
    second: Option<Slot>,
    firsts: &[Slot],
) -> Result<(), OutOfMemory>
    requires second { IsSecondKnown graph.now (length types.now) second }
    requires firsts { AreSlotsKnown graph.now (length types.now) firsts.now }
    ensures { OnOk result (Adds graph.now types.now list.old.items list.new.items (definition.changing_alone (second_at types.now second) (slots_at types.now firsts.now))) }
{
    let _ = graph;
    let _ = types;
    push_changing_alone(list, second, firsts)?;
    Ok(())
}

/// Candidates that change an object of each of some types, and for each of them have a second parameter of each of others.
pub(crate) fn add_changing_both(
    graph: &Graph,
    types: &TypeTable,
    list: &mut Vec<Shape>,
    firsts: &[Slot],
    others: &[Slot],
) -> Result<(), OutOfMemory>
    requires firsts { AreSlotsKnown graph.now (length types.now) firsts.now }
    requires others { AreSlotsKnown graph.now (length types.now) others.now }
    ensures { OnOk result (Adds graph.now types.now list.old.items list.new.items (definition.changing_both (slots_at types.now firsts.now) (slots_at types.now others.now))) }
{
    let _ = graph;
    let _ = types;
    push_changing_both(list, firsts, others)?;
    Ok(())
}

/// Candidates that change an object of each of some types and take a value of it.
pub(crate) fn add_changing_same(
    graph: &Graph,
    types: &TypeTable,
    list: &mut Vec<Shape>,
    slots: &[Slot],
) -> Result<(), OutOfMemory>
    requires { AreSlotsKnown graph.now (length types.now) slots.now }
    ensures { OnOk result (Adds graph.now types.now list.old.items list.new.items (definition.changing_same (slots_at types.now slots.now))) }
{
    let _ = graph;
    let _ = types;
    push_changing_same(list, slots)?;
    Ok(())
}

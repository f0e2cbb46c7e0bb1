//! Enumerations and classes by their numbers: where each is declared, and the enumerators of an enumeration (7.2, 9.1).
ghost use Rattle.std.specs.Prelude.{◌≡◌, ◌<◌, ◌+◌, List, length, IfOk, OnOk};
ghost use Rattle.std.specs.List.{slice_get};
ghost use Rattle.cxx_model.specs.Facts.Declarations.{declares_at};
ghost use Rattle.cxx_model.specs.Types.Trees.{CxxType};
ghost use Rattle.cxx_form.specs.Giving.{declared_or, enumeration_of_fact, holder_by, named_by, AreDeclared, AreEnumerators, AreFirst, HasDeclared, HasFirst, HasGiven, HasNamed};
ghost use Rattle.cxx_form.specs.Order.{class_in};
ghost use Rattle.cxx_form.specs.Slots.{slot_at};
ghost use Rattle.cxx_form.specs.Views.{facts_from, facts_in};

use crate::facts::fact;
use crate::held::hold;
use crate::rows::Rows;
use crate::slots::Slots;
use cxx_model::{Entity, FactId};
use cxx_tree::State;
use std::alloc::{AllocError, Global};

// The enumeration that is declared.
fn named(what: Entity) -> Option<u32>
    ensures { (types : List CxxType) → result ≡ named_by (declares_at types what) }
{
    match what {
        Entity::Enumeration { number } => Some(number.0),
        _ => None,
    }
}

// The enumeration of which an enumerator is declared.
fn holder(what: Entity) -> Option<u32>
    ensures { (types : List CxxType) → result ≡ holder_by (declares_at types what) }
{
    match what {
        Entity::Enumerator { number, .. } => Some(number.0),
        _ => None,
    }
}

// Notes where an enumeration or a class is declared, unless that was noted before.
fn note(slots: &mut Slots, number: u32, named: Option<u32>) -> Result<(), AllocError>
    requires { number < 4294967295 }
    ensures { OnOk result (HasNamed slots.old slots.new number named) }
{
    let Some(named) = named else {
        return Ok(());
    };
    if slots.at(named) != 0 {
        return Ok(());
    }
    slots.set(named, number + 1)?;
    Ok(())
}

fn note_at(state: &State, slots: &mut Slots, number: u32) -> Result<(), AllocError>
    requires there { number < length (state.now).graph.facts }
    requires bounded { number < 4294967295 }
    ensures { OnOk result (HasDeclared slots.old slots.new number (facts_from state.now number) (facts_from state.now (number + 1))) }
{
    let fact = fact(state, FactId(number));
    note(slots, number, named(fact.what))?;
    Ok(())
}

fn hold_at(state: &State, rows: &mut Rows, number: u32) -> Result<(), AllocError>
    requires { number < length (state.now).graph.facts }
    ensures { OnOk result (HasGiven enumeration_of_fact rows.old rows.new number (slice_get (facts_in state.now) number)) }
{
    let fact = fact(state, FactId(number));
    hold(rows, number, holder(fact.what))?;
    Ok(())
}

/// The class that is declared.
pub(crate) fn class_of(what: Entity) -> Option<u32>
    ensures { (types : List CxxType) → result ≡ class_in (declares_at types what) }
{
    match what {
        Entity::Class { class, .. } => Some(class.0),
        _ => None,
    }
}

fn note_class_at(state: &State, slots: &mut Slots, number: u32) -> Result<(), AllocError>
    requires there { number < length (state.now).graph.facts }
    requires bounded { number < 4294967295 }
    ensures { OnOk result (HasFirst slots.old slots.new number (facts_from state.now number) (facts_from state.now (number + 1))) }
{
    let fact = fact(state, FactId(number));
    note(slots, number, class_of(fact.what))?;
    Ok(())
}

/// Where each class is declared first: one more than the number of that declaration.
pub(crate) fn classes(state: &State, alloc: Global) -> Result<Slots, AllocError>
    ensures { IfOk result (λ slots. AreFirst (facts_in state.now) slots) }
{
    let mut slots = Slots::new(alloc);
    for number in 0..state.graph().length() {
        note_class_at(state, &mut slots, number)?;
    }
    Ok(slots)
}

/// Where each enumeration is declared: one more than the number of its declaration.
pub(crate) fn declared(state: &State, alloc: Global) -> Result<Slots, AllocError>
    ensures { IfOk result (λ slots. AreDeclared (facts_in state.now) slots) }
{
    let mut slots = Slots::new(alloc);
    for number in 0..state.graph().length() {
        note_at(state, &mut slots, number)?;
    }
    Ok(slots)
}

/// The enumerators of each enumeration, in order.
pub(crate) fn enumerators(state: &State, alloc: Global) -> Result<Rows, AllocError>
    ensures { IfOk result (λ rows. AreEnumerators (facts_in state.now) rows) }
{
    let mut rows = Rows::new(alloc);
    for number in 0..state.graph().length() {
        hold_at(state, &mut rows, number)?;
    }
    Ok(rows)
}

/// The number of the first declaration of an enumeration or a class, and how many declarations there are where it has none.
pub(crate) fn declaration(slots: &Slots, named: u32, count: u32) -> FactId
    ensures { result.0 ≡ declared_or (slot_at slots.now named) count }
{
    let slot = slots.at(named);
    if slot == 0 {
        FactId(count)
    } else {
        FactId(slot - 1)
    }
}

//! Which declarations have one number (9.3, 13.1).
ghost use Rattle.std.specs.Prelude.{◌≡◌, ◌<◌, ◌+◌, length, List, IfOk};
ghost use Rattle.std.specs.List.{slice_get};
ghost use Rattle.cxx_model.specs.Facts.Declarations.{name_at, CxxFact};
ghost use Rattle.cxx_model.specs.Facts.Fitted.{IsNameBelow};
ghost use Rattle.cxx_model.specs.Types.Numbers.{type_at};
ghost use Rattle.cxx_form.specs.Shared.{representative as representative_of, signature_of, signature_with};
ghost use Rattle.cxx_form.specs.Sharing.{AreMarked, AreShared};
ghost use Rattle.cxx_form.specs.Views.{facts_in};

use crate::facts::fact;
use crate::mark::{Mark, mark_of};
use crate::marked::Marked;
use crate::names::stem_at;
use crate::signatures::{find_signed, signed_type};
use cxx_hash::Key;
use cxx_model::{FactId, Name, TypeId};
use cxx_tree::State;
use std::alloc::{AllocError, Global};

// A key of all words that are declared.
fn key_of(state: &State, alloc: Global) -> Result<Key, AllocError> {
    let mut words = Vec::new(alloc);
    for number in 0..state.graph().length() {
        words.extend_from_slice(stem_at(state, FactId(number)))?;
    }
    Ok(Key::of(words.as_slice()))
}

// The declaration whose number a function with a name and a type has, where the declarations before it are marked.
fn first_signed(
    state: &State,
    rows: &mut Marked<Mark>,
    name: &Name,
    of: TypeId,
    number: FactId,
    alloc: Global,
) -> Result<FactId, AllocError>
    requires name { IsNameBelow (length (state.now).types) name.now }
    requires of { of.0 < length (state.now).types }
    requires is { signature_of (slice_get (facts_in state.now) number.0) ≡ signature_with (name_at (state.now).types name.now) (type_at (state.now).types of.0) }
    requires marked { AreMarked (facts_in state.now) number.0 rows.old.rows.entries }
    ensures first { IfOk result (λ first. first.0 ≡ representative_of (facts_in state.now) number.0) }
    ensures marked { IfOk result (λ first. AreMarked (facts_in state.now) (number.0 + 1) rows.new.rows.entries) }
{
    let mark = mark_of(state.types(), name, of, alloc)?;
    if let Some(first) = find_signed(state, name, of, rows.row(&mark)) {
        return Ok(first);
    }
    rows.push(mark, number)?;
    Ok(number)
}

// The declaration whose number a declaration has.
fn first_of(
    state: &State,
    rows: &mut Marked<Mark>,
    number: FactId,
    alloc: Global,
) -> Result<FactId, AllocError>
    requires there { number.0 < length (state.now).graph.facts }
    requires marked { AreMarked (facts_in state.now) number.0 rows.old.rows.entries }
    ensures first { IfOk result (λ first. first.0 ≡ representative_of (facts_in state.now) number.0) }
    ensures marked { IfOk result (λ first. AreMarked (facts_in state.now) (number.0 + 1) rows.new.rows.entries) }
{
    let fact = fact(state, number);
    let Some(of) = signed_type(fact.what) else {
        return Ok(number);
    };
    first_signed(state, rows, &fact.name, of, number, alloc)
}

/// The declaration whose number each declaration has, in order.
pub(crate) fn shared(state: &State, alloc: Global) -> Result<Vec<FactId>, AllocError>
    ensures { IfOk result (λ firsts. AreShared (facts_in state.now) firsts.items) }
{
    let mut firsts = Vec::new(alloc);
    let mut rows = Marked::new(alloc, key_of(state, alloc)?);
    for number in 0..state.graph().length() {
        firsts.push(first_of(state, &mut rows, FactId(number), alloc)?)?;
    }
    Ok(firsts)
}

/// The declaration whose number a declaration has.
pub(crate) fn representative(firsts: &[FactId], number: FactId) -> FactId
    ensures { (all : List CxxFact) → AreShared all firsts.now → result.0 ≡ representative_of all number.0 }
{
    match firsts.get(number.0 as usize) {
        Some(first) => *first,
        None => number,
    }
}

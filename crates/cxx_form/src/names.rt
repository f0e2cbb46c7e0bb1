//! Printed names.
ghost use Rattle.std.specs.Prelude.{◌≡◌, List, ℕ, length, IfOk};
ghost use Rattle.std.specs.List.{slice_get};
ghost use Rattle.cxx_model.specs.Facts.Conflicts.{has_name as has_name_of};
ghost use Rattle.cxx_model.specs.Facts.Declarations.{name_at};
ghost use Rattle.cxx_model.specs.Facts.Graph.{enumerations, is_enumeration as is_enumeration_of};
ghost use Rattle.cxx_model.specs.Printing.Names.{printed_name};
ghost use Rattle.cxx_model.specs.Types.Trees.{CxxType};
ghost use Rattle.cxx_reading.specs.TextOrder.{name_stem as name_stem_of, stem_of_fact};
ghost use Rattle.cxx_form.specs.Order.{is_named as is_named_of, text_order};
ghost use Rattle.cxx_tree.specs.Held.{meaning};
ghost use Rattle.cxx_form.specs.Giving.{AreDeclared, AreFirst};
ghost use Rattle.cxx_form.specs.Names.{names_in, AreClassTags, AreTags};
ghost use Rattle.cxx_form.specs.Numbered.{IsNumbering};
ghost use Rattle.cxx_form.specs.Views.{facts_in};

use crate::enumerations::declaration;
use crate::facts::{fact, find};
use crate::numbering::Numbering;
use crate::slots::Slots;
use cxx_model::{Entity, EnumId, FactId, Listed, Name, Text};
use cxx_stems::stem;
use cxx_tree::State;
use itoa::Buffer;
use std::alloc::{AllocError, Global};

/// What a declared name is made of.
pub(crate) fn name_stem(name: &Name) -> &[u8]
    ensures { (types : List CxxType) → result.now ≡ name_stem_of (name_at types name.now) }
{
    match name {
        Name::Unnamed => b"unnamed",
        Name::Spelled(word) => word.as_slice(),
        Name::Operator(_) => b"op",
        Name::Conversion(_) => b"conv",
        Name::Destructor => b"",
    }
}

/// What the name of a declaration is made of; of none, nothing.
pub(crate) fn stem_at(state: &State, number: FactId) -> &[u8]
    ensures { result.now ≡ stem_of_fact (slice_get (facts_in state.now) number.0) }
{
    match find(state, number) {
        Some(fact) => name_stem(&fact.name),
        None => b"",
    }
}

fn has_name(name: &Name) -> bool
    ensures { (types : List CxxType) → result ≡ has_name_of (name_at types name.now) }
{
    match name {
        Name::Unnamed => false,
        _ => true,
    }
}

/// Whether a declaration has a name.
pub(crate) fn is_named(state: &State, number: FactId) -> bool
    ensures { result ≡ is_named_of (slice_get (facts_in state.now) number.0) }
{
    match find(state, number) {
        Some(fact) => has_name(&fact.name),
        None => false,
    }
}

// The printed name of what has a name and a number.
#[tactic(auto, unfolding(cxx_model::specs::Printing::Names::printed_name))]
fn print(word: &[u8], number: u32, alloc: Global) -> Result<Text, AllocError>
    ensures { IfOk result (λ text. text ≡ printed_name number word.now) }
{
    let mut buffer = Buffer::new();
    let mut text = Vec::new(alloc);
    text.extend_from_slice(stem(word))?;
    text.extend_from_slice(b"__")?;
    text.extend_from_slice(buffer.format(number).as_bytes())?;
    Ok(Listed::from_vec(text))
}

// The printed name of an enumeration.
fn tag(
    state: &State,
    declared: &Slots,
    numbering: &Numbering,
    named: EnumId,
    alloc: Global,
) -> Result<Text, AllocError>
    requires declared { AreDeclared (facts_in state.now) declared.now }
    requires numbered { IsNumbering (text_order (meaning state.now)) numbering.now.count numbering.now.slots }
    ensures { IfOk result (λ text. text ≡ (names_in state.now).tags.enumeration_name named.0) }
{
    let number = declaration(declared, named.0, state.graph().length());
    let text = print(stem_at(state, number), numbering.number(number.0), alloc)?;
    Ok(text)
}

fn is_enumeration(what: Entity) -> bool
    ensures { result ≡ is_enumeration_of what }
{
    match what {
        Entity::Enumeration { .. } => true,
        _ => false,
    }
}

// How many enumerations there are.
fn count(state: &State) -> u32
    ensures { result ≡ enumerations (state.now).graph.facts }
{
    let mut total = 0;
    for number in 0..state.graph().length() {
        let fact = fact(state, FactId(number));
        if !is_enumeration(fact.what) {
            continue;
        }
        total += 1;
    }
    total
}

// The printed name of a class.
fn class_tag(
    state: &State,
    places: &Slots,
    numbering: &Numbering,
    class: u32,
    alloc: Global,
) -> Result<Text, AllocError>
    requires places { AreFirst (facts_in state.now) places.now }
    requires numbered { IsNumbering (text_order (meaning state.now)) numbering.now.count numbering.now.slots }
    ensures { IfOk result (λ text. text ≡ (names_in state.now).tags.class_name class) }
{
    let number = declaration(places, class, state.graph().length());
    let text = print(stem_at(state, number), numbering.number(number.0), alloc)?;
    Ok(text)
}

/// The printed names of classes, by their numbers.
pub(crate) fn class_tags(
    state: &State,
    places: &Slots,
    numbering: &Numbering,
    alloc: Global,
) -> Result<Listed<Text>, AllocError>
    requires places { AreFirst (facts_in state.now) places.now }
    requires numbered { IsNumbering (text_order (meaning state.now)) numbering.now.count numbering.now.slots }
    ensures { IfOk result (λ texts. AreClassTags state.now texts) }
{
    let mut texts = Vec::new(alloc);
    for class in 0..state.graph().class_count() {
        let text = class_tag(state, places, numbering, class, alloc)?;
        texts.push(text)?;
    }
    Ok(Listed::from_vec(texts))
}

/// The printed names of enumerations, by their numbers.
pub(crate) fn tags(
    state: &State,
    declared: &Slots,
    numbering: &Numbering,
    alloc: Global,
) -> Result<Listed<Text>, AllocError>
    requires declared { AreDeclared (facts_in state.now) declared.now }
    requires numbered { IsNumbering (text_order (meaning state.now)) numbering.now.count numbering.now.slots }
    ensures { IfOk result (λ texts. AreTags state.now texts) }
{
    let mut texts = Vec::new(alloc);
    for number in 0..count(state) {
        let text = tag(state, declared, numbering, EnumId(number), alloc)?;
        texts.push(text)?;
    }
    Ok(Listed::from_vec(texts))
}

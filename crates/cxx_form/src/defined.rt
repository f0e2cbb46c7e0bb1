//! What a definition of a function declares: its parameters, and the objects of its blocks.
ghost use Rattle.std.specs.Prelude.{◌≡◌, ◌<◌, ◌++◌, List, flat_map, length, option_map, IfSome, OnOk};
ghost use Rattle.std.specs.List.{slice_get};
ghost use Rattle.cxx_model.specs.Facts.Declarations.{declares_at};
ghost use Rattle.cxx_model.specs.Types.Trees.{CxxType};
ghost use Rattle.cxx_form.specs.Giving.{AreParts};
ghost use Rattle.cxx_form.specs.Lines.{number_in, numbers_in};
ghost use Rattle.cxx_form.specs.Order as text;
ghost use Rattle.cxx_form.specs.Order.{declared_by, declared_on, definition_lines, if_named, locals_in, named_among, parts_in};
ghost use Rattle.cxx_form.specs.Views.{facts_in};
ghost use Rattle.cxx_reading.specs.Plain.{is_empty};
ghost use Rattle.cxx_statement_text.specs.Objects as objects;
ghost use Rattle.cxx_tree.specs.Arena.{trees_in, AreTreesBelow};
ghost use Rattle.cxx_tree.specs.Held.{tree, trees};

use crate::facts::find;
use crate::found::declarators_within;
use crate::names::is_named;
use crate::parts::body_of;
use crate::rows::Rows;
use cxx_model::{Entity, FactId, TreeId};
use cxx_tree::State;
use std::alloc::{AllocError, Global};

// ---- parameters

// The scope of the list of parameters, which holds that of the body.
fn list_of_body(state: &State, body: Option<TreeId>) -> u32
    requires { IfSome body (λ number. number.0 < length (trees state.now)) }
    ensures { result ≡ text.list_of_body (facts_in state.now) (option_map (tree state.now) body) }
{
    let Some(body) = body else {
        return 0;
    };
    let Some(number) = state.node(body).target else {
        return 0;
    };
    let Some(fact) = find(state, number) else {
        return 0;
    };
    fact.scope.0
}

/// The parameters of a definition with a body, by their declarations.
pub(crate) fn parameters<'a>(state: &State, parts: &'a Rows, body: Option<TreeId>) -> &'a [FactId]
    requires parts { AreParts (facts_in state.now) parts.now }
    requires below { IfSome body (λ number. number.0 < length (trees state.now)) }
    ensures { numbers_in result.now ≡ parts_in (text.list_of_body (facts_in state.now) (option_map (tree state.now) body)) 0 (facts_in state.now) }
{
    parts.row(list_of_body(state, body))
}

// Adds a declaration that has a name.
fn add_if_named(state: &State, number: FactId, found: &mut Vec<FactId>) -> Result<(), AllocError>
    ensures { OnOk result (numbers_in found.new.items ≡ numbers_in found.old.items ++ if_named (facts_in state.now) number.0) }
{
    if !is_named(state, number) {
        return Ok(());
    }
    found.push(number)?;
    Ok(())
}

// Adds those that have names.
fn add_named(state: &State, numbers: &[FactId], found: &mut Vec<FactId>) -> Result<(), AllocError>
    ensures { OnOk result (numbers_in found.new.items ≡ numbers_in found.old.items ++ named_among (facts_in state.now) (numbers_in numbers.now)) }
{
    for number in numbers {
        add_if_named(state, *number, found)?;
    }
    Ok(())
}

// ---- objects of blocks

// The first declaration of the object that is declared.
fn first_by(number: FactId, what: Entity) -> Option<FactId>
    ensures { (types : List CxxType) → option_map number_in result ≡ objects.first_by number.0 (declares_at types what) }
{
    match what {
        Entity::Object {
            first: Some(first),
            ..
        } => Some(first),
        Entity::Object { first: None, .. } => Some(number),
        _ => None,
    }
}

fn first_found(state: &State, number: FactId) -> Option<FactId>
    ensures { option_map number_in result ≡ objects.first_of_fact number.0 (slice_get (facts_in state.now) number.0) }
{
    let Some(fact) = find(state, number) else {
        return None;
    };
    first_by(number, fact.what)
}

/// The first declaration of the object that a declarator declares, where it declares one.
pub(crate) fn first_in(state: &State, number: TreeId) -> Option<FactId>
    requires { number.0 < length (trees state.now) }
    ensures { option_map number_in result ≡ objects.first_in (facts_in state.now) (tree state.now number) }
{
    let Some(target) = state.node(number).target else {
        return None;
    };
    first_found(state, target)
}

fn is_nothing(spelling: &[u8]) -> bool
    ensures { result ≡ is_empty spelling.now }
{
    spelling.is_empty()
}

fn add_first(first: Option<FactId>, found: &mut Vec<FactId>) -> Result<(), AllocError>
    ensures { OnOk result (numbers_in found.new.items ≡ numbers_in found.old.items ++ text.first_number (option_map number_in first)) }
{
    let Some(first) = first else {
        return Ok(());
    };
    found.push(first)?;
    Ok(())
}

// Adds the object of a declarator that is written.
fn add_printed(state: &State, number: TreeId, found: &mut Vec<FactId>) -> Result<(), AllocError>
    requires { number.0 < length (trees state.now) }
    ensures { OnOk result (numbers_in found.new.items ≡ numbers_in found.old.items ++ flat_map (declared_by (facts_in state.now)) (objects.if_printed (facts_in state.now) (tree state.now number))) }
{
    if !is_nothing(state.node(number).spelling.as_slice()) {
        return Ok(());
    }
    add_first(first_in(state, number), found)?;
    Ok(())
}

// Adds the objects of those that are written.
fn add_each_printed(
    state: &State,
    declarators: &[TreeId],
    found: &mut Vec<FactId>,
) -> Result<(), AllocError>
    requires { AreTreesBelow (length (trees state.now)) declarators.now }
    ensures { OnOk result (numbers_in found.new.items ≡ numbers_in found.old.items ++ flat_map (declared_by (facts_in state.now)) (flat_map (objects.if_printed (facts_in state.now)) (trees_in (trees state.now) declarators.now))) }
{
    for tree in declarators {
        add_printed(state, *tree, found)?;
    }
    Ok(())
}

// Adds the objects of the blocks of a body that are written.
fn add_locals(
    state: &State,
    alloc: Global,
    body: Option<TreeId>,
    found: &mut Vec<FactId>,
) -> Result<(), AllocError>
    requires { IfSome body (λ number. number.0 < length (trees state.now)) }
    ensures { OnOk result (numbers_in found.new.items ≡ numbers_in found.old.items ++ locals_in (facts_in state.now) (option_map (tree state.now) body)) }
{
    let Some(body) = body else {
        return Ok(());
    };
    let declarators = declarators_within(state, body, alloc)?;
    add_each_printed(state, declarators.as_slice(), found)?;
    Ok(())
}

/// Adds what a definition of a function declares, by first declarations.
pub(crate) fn add_defined(
    state: &State,
    alloc: Global,
    parts: &Rows,
    number: TreeId,
    found: &mut Vec<FactId>,
) -> Result<(), AllocError>
    requires parts { AreParts (facts_in state.now) parts.now }
    requires known { number.0 < length (trees state.now) }
    ensures { OnOk result (numbers_in found.new.items ≡ numbers_in found.old.items ++ declared_on (facts_in state.now) (definition_lines (tree state.now number))) }
{
    let body = body_of(state, number);
    add_named(state, parameters(state, parts, body), found)?;
    add_locals(state, alloc, body, found)?;
    Ok(())
}

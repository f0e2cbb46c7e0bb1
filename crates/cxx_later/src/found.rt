//! The default arguments that were passed over in a class (8.3.6), found in the trees of its members.

ghost use Rattle.std.specs.Prelude.{◌≡◌, ◌<◌, ◌∷◌, [], length, List, IfOk, IfSome, OnOk, option_map, option_to_list};
ghost use Rattle.cxx_cursor.specs.Views.{AreTreesHeld, trees_held};
ghost use Rattle.cxx_later.specs.Defaults as definition;
ghost use Rattle.cxx_later.specs.FoundDefaults.{AddsDefaults, AreDefaultsHeld, IsDefaultKnown, default_of, defaults_held, defaults_of_tree, each_default};
ghost use Rattle.cxx_reading.specs.Trees.{in_turn};
ghost use Rattle.cxx_tree.specs.Arena.{AreTreesBelow, number_of_option};
ghost use Rattle.cxx_tree.specs.Held.{tree, trees};

use crate::defaults::LATER_DEFAULT;
use cxx_model::{FactId, Place, ScopeId, TreeId, TypeId};
use cxx_tree::State;
use std::alloc::{AllocError, Global};

/// The number of the production (clause 8).
const DECLARATOR: u8 = 20;

/// A default argument that was passed over (8.3.6).
#[derive(Clone, Copy)]
pub struct LaterDefault {
    /// The place of its `=`.
    pub equals: Place,
    /// The type of its parameter.
    pub of: TypeId,
    /// The declaration of its function, where that tells it.
    pub number: Option<FactId>,
    /// The scope of the list of parameters.
    pub list: ScopeId,
    /// The index of its parameter.
    pub index: u32,
    /// How many tokens are left before it.
    pub first: u32,
    /// How many tokens are left behind it.
    pub last: u32,
    /// For how many more brackets there is room in it.
    pub room: u32,
}

// ---- one default argument

// The number that a tree keeps.
fn target_of(state: &State, number: TreeId) -> Option<FactId>
    requires { number.0 < length (trees state.now) }
    ensures { number_of_option result ≡ (tree state.now number).label.target }
{
    state.node(number).target
}

// That of a tree, by the numbers that its parts keep.
fn default_with(
    state: &State,
    number: TreeId,
    room: Option<FactId>,
    list: Option<FactId>,
    index: Option<FactId>,
) -> Option<LaterDefault>
    requires { number.0 < length (trees state.now) }
    ensures is { option_to_list (option_map (default_of state.now) result) ≡ definition.default_with (tree state.now number).label (tree state.now number).label.of (number_of_option room) (number_of_option list) (number_of_option index) }
    ensures known { IfSome result (IsDefaultKnown state.now) }
{
    let node = state.node(number);
    let Some(of) = node.of else {
        return None;
    };
    let Some(room) = room else {
        return None;
    };
    let Some(list) = list else {
        return None;
    };
    let Some(index) = index else {
        return None;
    };
    Some(LaterDefault {
        equals: node.place,
        of,
        number: node.target,
        list: ScopeId(list.0),
        index: index.0,
        first: node.first,
        last: node.last,
        room: room.0,
    })
}

// The same, by the last of its parts.
fn default_last(
    state: &State,
    number: TreeId,
    room: Option<FactId>,
    list: Option<FactId>,
    parts: &[TreeId],
) -> Option<LaterDefault>
    requires known { number.0 < length (trees state.now) }
    requires parts { AreTreesHeld state.now parts.now }
    ensures is { option_to_list (option_map (default_of state.now) result) ≡ definition.default_last (tree state.now number).label (number_of_option room) (number_of_option list) (in_turn (trees_held state.now parts.now)) }
    ensures known { IfSome result (IsDefaultKnown state.now) }
{
    match parts {
        [] => None,
        [index, ..] => default_with(state, number, room, list, target_of(state, *index)),
    }
}

// The same, by those behind the first one.
fn default_behind(
    state: &State,
    number: TreeId,
    room: Option<FactId>,
    parts: &[TreeId],
) -> Option<LaterDefault>
    requires known { number.0 < length (trees state.now) }
    requires parts { AreTreesHeld state.now parts.now }
    ensures is { option_to_list (option_map (default_of state.now) result) ≡ definition.default_behind (tree state.now number).label (number_of_option room) (in_turn (trees_held state.now parts.now)) }
    ensures known { IfSome result (IsDefaultKnown state.now) }
{
    match parts {
        [] => None,
        [list, others @ ..] => {
            default_last(state, number, room, target_of(state, *list), others)
        }
    }
}

// The same, by all of them.
fn default_over(state: &State, number: TreeId, parts: &[TreeId]) -> Option<LaterDefault>
    requires known { number.0 < length (trees state.now) }
    requires parts { AreTreesHeld state.now parts.now }
    ensures is { option_to_list (option_map (default_of state.now) result) ≡ definition.default_by (tree state.now number).label (in_turn (trees_held state.now parts.now)) }
    ensures known { IfSome result (IsDefaultKnown state.now) }
{
    match parts {
        [] => None,
        [passed, others @ ..] => {
            default_behind(state, number, target_of(state, *passed), others)
        }
    }
}

// The default argument that a tree stands for.
#[tactic(auto, using(crate::proofs::KeptDefaults::parts_held))]
fn default_by(state: &State, number: TreeId) -> Option<LaterDefault>
    requires { number.0 < length (trees state.now) }
    ensures is { option_to_list (option_map (default_of state.now) result) ≡ definition.default_by (tree state.now number).label (tree state.now number).children }
    ensures known { IfSome result (IsDefaultKnown state.now) }
{
    default_over(state, number, state.node(number).children.as_slice())
}

// ---- all of them

// Adds the default argument that a tree stands for.
fn add(state: &State, number: TreeId, found: &mut Vec<LaterDefault>) -> Result<(), AllocError>
    requires { number.0 < length (trees state.now) }
    ensures { OnOk result (AddsDefaults state.now found.old.items found.new.items (definition.default_by (tree state.now number).label (tree state.now number).children)) }
{
    if let Some(one) = default_by(state, number) {
        found.push(one)?;
    }
    Ok(())
}

// Adds those in a tree, in order: the one that it stands for, or those in its parts. In a declarator there are none.
#[cycle(found_defaults)]
fn add_in(state: &State, number: TreeId, found: &mut Vec<LaterDefault>) -> Result<(), AllocError>
    requires { number.0 < length (trees state.now) }
    ensures { OnOk result (AddsDefaults state.now found.old.items found.new.items (defaults_of_tree (tree state.now number))) }
{
    let node = state.node(number);
    if node.production == LATER_DEFAULT {
        return add(state, number, found);
    }
    if node.production == DECLARATOR {
        return Ok(());
    }
    add_each(state, node.children.as_slice(), number, found)
}

// Adds those in each of some trees.
#[cycle(found_defaults)]
fn add_each(
    state: &State,
    parts: &[TreeId],
    end: TreeId,
    found: &mut Vec<LaterDefault>,
) -> Result<(), AllocError>
    requires known { end.0 < length (trees state.now) }
    requires earlier { AreTreesBelow end.0 parts.now }
    ensures { OnOk result (AddsDefaults state.now found.old.items found.new.items (each_default (trees_held state.now parts.now))) }
{
    for part in parts {
        add_in(state, *part, found)?;
    }
    Ok(())
}

/// The default arguments that were passed over in the trees of the members of a class, in order (8.3.6).
pub fn all_defaults(
    state: &State,
    trees: &[TreeId],
    alloc: Global,
) -> Result<Vec<LaterDefault>, AllocError>
    requires { AreTreesHeld state.now trees.now }
    ensures held { IfOk result (λ all. AreDefaultsHeld state.now all.items) }
    ensures is { IfOk result (λ all. defaults_held state.now all.items ≡ definition.defaults_in (in_turn (trees_held state.now trees.now))) }
{
    let mut found = Vec::new(alloc);
    for number in trees {
        add_in(state, *number, &mut found)?;
    }
    Ok(found)
}

//! The bodies that were passed over in a class (9.3), found in the trees of its members.

ghost use Rattle.std.specs.Prelude.{◌≡◌, ◌<◌, ◌∷◌, [], length, List, IfOk, IfSome, OnOk, option_map, option_to_list};
ghost use Rattle.std.specs.Option.{option_copied};
ghost use Rattle.cxx_cursor.specs.Views.{AreTreesHeld, name_at, trees_held};
ghost use Rattle.cxx_later.specs.Found.{AddsWaiting, each_waiting, waiting_of_tree};
ghost use Rattle.cxx_later.specs.Views.{AreWaitingHeld, IsWaitingKnown, waiting_held, waiting_of};
ghost use Rattle.cxx_later.specs.Waiting as definition;
ghost use Rattle.cxx_model.specs.Types.Trees.{CxxType};
ghost use Rattle.cxx_reading.specs.Trees.{in_turn};
ghost use Rattle.cxx_tree.specs.Arena as arena;
ghost use Rattle.cxx_tree.specs.Arena.{AreTreesBelow, IsNodeBelow, label_at};
ghost use Rattle.cxx_tree.specs.Held.{tree, trees};

use crate::passing::PASSED_BODY;
use cxx_cursor::{NameToken, last_part};
use cxx_model::{FactId, Node, Path, ScopeId, TokenKind, TreeId, TypeId, Word};
use cxx_tree::State;
use std::alloc::{AllocError, Global};

/// The number of the production (clause 9).
const CLASS_DEFINITION: u8 = 10;

/// The number of the production (clause 8).
const DECLARATOR: u8 = 20;

/// A body that was passed over (9.3).
#[derive(Clone, Copy)]
pub struct Waiting {
    /// The declarator of its function.
    pub declarator: TreeId,
    /// The type of its function.
    pub of: TypeId,
    /// The declaration of its function.
    pub number: FactId,
    /// The scope of the list of parameters.
    pub list: ScopeId,
    /// How many tokens are left before it.
    pub first: u32,
    /// How many tokens are left behind it.
    pub last: u32,
    /// For how many more brackets there is room in it.
    pub room: u32,
}

// ---- one body

// The body of a node, by the declarator of its function.
fn waiting_with(state: &State, node: &Node, declarator: TreeId, room: u32) -> Option<Waiting>
    requires { declarator.0 < length (trees state.now) }
    ensures is { option_to_list (option_map (waiting_of state.now) result) ≡ definition.waiting_with room (label_at (state.now).types node.now) (tree state.now declarator) (tree state.now declarator).label.of (tree state.now declarator).label.target (label_at (state.now).types node.now).target }
    ensures known { IfSome result (IsWaitingKnown state.now) }
{
    let head = state.node(declarator);
    let Some(of) = head.of else {
        return None;
    };
    let Some(number) = head.target else {
        return None;
    };
    let Some(list) = node.target else {
        return None;
    };
    Some(Waiting {
        declarator,
        of,
        number,
        list: ScopeId(list.0),
        first: node.first,
        last: node.last,
        room,
    })
}

// The body that a tree stands for.
fn waiting_by(state: &State, number: TreeId, room: u32) -> Option<Waiting>
    requires { number.0 < length (trees state.now) }
    ensures is { option_to_list (option_map (waiting_of state.now) result) ≡ definition.waiting_by room (tree state.now number).label (tree state.now number).children }
    ensures known { IfSome result (IsWaitingKnown state.now) }
{
    let node = state.node(number);
    match node.children.as_slice() {
        [] => None,
        [declarator, ..] => waiting_with(state, node, *declarator, room),
    }
}

// ---- all of them

// Adds the body that a tree stands for.
fn add(state: &State, number: TreeId, room: u32, found: &mut Vec<Waiting>) -> Result<(), AllocError>
    requires { number.0 < length (trees state.now) }
    ensures { OnOk result (AddsWaiting state.now found.old.items found.new.items (definition.waiting_by room (tree state.now number).label (tree state.now number).children)) }
{
    if let Some(one) = waiting_by(state, number, room) {
        found.push(one)?;
    }
    Ok(())
}

// In the list of a class there is less room.
fn room_in(node: &Node, room: u32) -> u32
    ensures { (types : List CxxType) → result ≡ definition.room_in (label_at types node.now) room }
{
    if node.production == CLASS_DEFINITION {
        return room.saturating_sub(1);
    }
    room
}

// Adds those in a tree, in order: the body that it stands for, or those in its parts. In a declarator there are none.
#[cycle(found)]
fn add_in(
    state: &State,
    number: TreeId,
    room: u32,
    found: &mut Vec<Waiting>,
) -> Result<(), AllocError>
    requires { number.0 < length (trees state.now) }
    ensures { OnOk result (AddsWaiting state.now found.old.items found.new.items (waiting_of_tree room (tree state.now number))) }
{
    let node = state.node(number);
    if node.production == PASSED_BODY {
        return add(state, number, room, found);
    }
    if node.production == DECLARATOR {
        return Ok(());
    }
    let inside = room_in(node, room);
    add_each(state, node.children.as_slice(), number, inside, found)
}

// Adds those in each of some trees.
#[cycle(found)]
fn add_each(
    state: &State,
    parts: &[TreeId],
    end: TreeId,
    room: u32,
    found: &mut Vec<Waiting>,
) -> Result<(), AllocError>
    requires known { end.0 < length (trees state.now) }
    requires earlier { AreTreesBelow end.0 parts.now }
    ensures { OnOk result (AddsWaiting state.now found.old.items found.new.items (each_waiting room (trees_held state.now parts.now))) }
{
    for part in parts {
        add_in(state, *part, room, found)?;
    }
    Ok(())
}

/// The bodies that were passed over in the trees of the members of a class, in order (9.3), with room for so many more
/// brackets where the list of those members stands.
pub fn all_waiting(
    state: &State,
    trees: &[TreeId],
    room: u32,
    alloc: Global,
) -> Result<Vec<Waiting>, AllocError>
    requires { AreTreesHeld state.now trees.now }
    ensures held { IfOk result (λ all. AreWaitingHeld state.now all.items) }
    ensures is { IfOk result (λ all. waiting_held state.now all.items ≡ definition.waiting_in room (in_turn (trees_held state.now trees.now))) }
{
    let mut found = Vec::new(alloc);
    for number in trees {
        add_in(state, *number, room, &mut found)?;
    }
    Ok(found)
}

// ---- the name of its function

// The last word of a path; none where there is no path.
fn word_declared(alloc: Global, path: &Option<Path>) -> Result<Word, AllocError>
    ensures { IfOk result (λ word. word ≡ (definition.last_of_path (arena.path_of_option path.now)).word) }
{
    let Some(path) = path else {
        return Ok(Word::new(alloc));
    };
    match last_part(path.parts.as_slice()) {
        Some(part) => Word::from_slice(alloc, part.word.as_slice()),
        None => Ok(Word::new(alloc)),
    }
}

/// The name that a declarator declares (8.3).
pub fn name_declared(
    state: &State,
    alloc: Global,
    declarator: TreeId,
) -> Result<NameToken, AllocError>
    requires { declarator.0 < length (trees state.now) }
    ensures { IfOk result (λ name. name_at name ≡ definition.name_declared (tree state.now declarator)) }
{
    let node = state.node(declarator);
    Ok(NameToken {
        kind: TokenKind::Name,
        place: node.place,
        spelling: word_declared(alloc, &node.path)?,
    })
}

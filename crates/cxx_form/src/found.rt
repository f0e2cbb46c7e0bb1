//! The trees of a production that are found in others: declarators (clause 8), and definitions of functions (8.4).
ghost use Rattle.std.specs.Prelude.{◌≡◌, ◌<◌, [], ◌∷◌, length, map, IfOk, OnOk};
ghost use Rattle.cxx_reading.specs.TextOrder.{part_tree};
ghost use Rattle.cxx_form.specs.Found.{each_found, found_inside, if_wanted, AddsTrees, AreTrees};
ghost use Rattle.cxx_form.specs.Order.{declarators_of, definitions_of, found_in, found_of};
ghost use Rattle.cxx_tree.specs.Arena.{trees_in, AreTreesBelow};
ghost use Rattle.cxx_tree.specs.Held.{pieces_at, tree, trees};
ghost use Rattle.std.specs.Prelude.{flat_map};

use crate::production::{DECLARATOR, FUNCTION_DEFINITION};
use cxx_model::TreeId;
use cxx_tree::State;
use std::alloc::{AllocError, Global};

// Adds a tree.
fn add(state: &State, number: TreeId, found: &mut Vec<TreeId>) -> Result<(), AllocError>
    requires { number.0 < length (trees state.now) }
    ensures { OnOk result (AddsTrees (trees state.now) found.old.items found.new.items (tree state.now number ∷ [])) }
{
    let _ = state;
    found.push(number)?;
    Ok(())
}

// Adds a tree where it is of a production.
fn add_if(
    state: &State,
    number: TreeId,
    wanted: u8,
    found: &mut Vec<TreeId>,
) -> Result<(), AllocError>
    requires { number.0 < length (trees state.now) }
    ensures { OnOk result (AddsTrees (trees state.now) found.old.items found.new.items (if_wanted wanted (tree state.now number))) }
{
    if state.node(number).production == wanted {
        return add(state, number, found);
    }
    Ok(())
}

// Adds those of a production in the parts of a tree, in order, or none where it is passed.
#[cycle(found)]
fn add_inside(
    state: &State,
    number: TreeId,
    wanted: u8,
    passed: u8,
    found: &mut Vec<TreeId>,
) -> Result<(), AllocError>
    requires { number.0 < length (trees state.now) }
    ensures { OnOk result (AddsTrees (trees state.now) found.old.items found.new.items (found_inside wanted passed (tree state.now number))) }
{
    let node = state.node(number);
    if node.production == passed {
        return Ok(());
    }
    add_each(
        state,
        node.children.as_slice(),
        number,
        wanted,
        passed,
        found,
    )
}

// Adds those of a production in a tree, in order: those in its parts, and then itself.
#[cycle(found)]
fn add_in(
    state: &State,
    number: TreeId,
    wanted: u8,
    passed: u8,
    found: &mut Vec<TreeId>,
) -> Result<(), AllocError>
    requires { number.0 < length (trees state.now) }
    ensures { OnOk result (AddsTrees (trees state.now) found.old.items found.new.items (found_of wanted passed (tree state.now number))) }
{
    add_inside(state, number, wanted, passed, found)?;
    add_if(state, number, wanted, found)?;
    Ok(())
}

// Adds those in each of some trees.
#[cycle(found)]
fn add_each(
    state: &State,
    parts: &[TreeId],
    end: TreeId,
    wanted: u8,
    passed: u8,
    found: &mut Vec<TreeId>,
) -> Result<(), AllocError>
    requires known { end.0 < length (trees state.now) }
    requires earlier { AreTreesBelow end.0 parts.now }
    ensures { OnOk result (AddsTrees (trees state.now) found.old.items found.new.items (each_found wanted passed (trees_in (trees state.now) parts.now))) }
{
    for part in parts {
        add_in(state, *part, wanted, passed, found)?;
    }
    Ok(())
}

/// The declarators in the parts of a tree, in order.
pub(crate) fn declarators_within(
    state: &State,
    number: TreeId,
    alloc: Global,
) -> Result<Vec<TreeId>, AllocError>
    requires { number.0 < length (trees state.now) }
    ensures { IfOk result (λ found. AreTrees (trees state.now) found.items (found_in 20 20 (tree state.now number).children)) }
{
    let mut found = Vec::new(alloc);
    let node = state.node(number);
    add_each(
        state,
        node.children.as_slice(),
        number,
        DECLARATOR,
        DECLARATOR,
        &mut found,
    )?;
    Ok(found)
}

// Those of a production in the pieces of a unit, in order.
fn in_pieces(
    state: &State,
    wanted: u8,
    passed: u8,
    alloc: Global,
) -> Result<Vec<TreeId>, AllocError>
    ensures { IfOk result (λ found. AreTrees (trees state.now) found.items (each_found wanted passed (map part_tree (pieces_at (trees state.now) (state.now).pieces)))) }
{
    let mut found = Vec::new(alloc);
    let pieces = state.pieces();
    for piece in pieces {
        add_in(state, piece.tree, wanted, passed, &mut found)?;
    }
    Ok(found)
}

/// The declarators of the declarations of a unit, in order.
pub(crate) fn declarators(state: &State, alloc: Global) -> Result<Vec<TreeId>, AllocError>
    ensures { IfOk result (λ found. AreTrees (trees state.now) found.items (flat_map declarators_of (map part_tree (pieces_at (trees state.now) (state.now).pieces)))) }
{
    in_pieces(state, DECLARATOR, DECLARATOR, alloc)
}

/// The definitions of functions of a unit, in order.
pub(crate) fn definitions(state: &State, alloc: Global) -> Result<Vec<TreeId>, AllocError>
    ensures { IfOk result (λ found. AreTrees (trees state.now) found.items (flat_map definitions_of (map part_tree (pieces_at (trees state.now) (state.now).pieces)))) }
{
    in_pieces(state, FUNCTION_DEFINITION, DECLARATOR, alloc)
}

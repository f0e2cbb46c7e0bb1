//! The calls of expressions that are listed, in the order of the text.
ghost use Rattle.std.specs.Prelude.{◌≡◌, ◌<◌, ◌++◌, length, map, IfSome, OnOk};
ghost use Rattle.cxx_tree.specs.Arena.{label_at, AreTreesBelow};
ghost use Rattle.cxx_tree.specs.Held.{trees};
ghost use Rattle.cxx_phrase_text.specs.Calls as calls;
ghost use Rattle.cxx_phrase_text.specs.Listing.{call_of, calls_at, calls_found, calls_in_node, calls_of_parts};

use crate::form::{Form, form_of};
use crate::standing::{last_child, target_or};
use cxx_model::{FactId, Node, TreeId};
use cxx_tree::State;
use std::alloc::AllocError;

/// A call by the number of its record, and the declaration of the function that it names.
#[derive(Clone, Copy)]
pub struct ListedCall {
    pub number: u32,
    pub target: FactId,
}

// Adds the call that a node is.
fn add_own(state: &State, node: &Node, found: &mut Vec<ListedCall>) -> Result<(), AllocError>
    ensures { OnOk result (map call_of found.new.items ≡ map call_of found.old.items ++ calls.own_calls (label_at (state.now).types node.now)) }
{
    let _ = state;
    let Some(number) = node.call else {
        return Ok(());
    };
    let target = target_or(node.target);
    found.push(ListedCall { number, target })?;
    Ok(())
}

// Adds the calls of a part, where there is one.
#[cycle(calls)]
fn add_found(
    state: &State,
    number: Option<TreeId>,
    end: TreeId,
    found: &mut Vec<ListedCall>,
) -> Result<(), AllocError>
    requires known { end.0 < length (trees state.now) }
    requires within { IfSome number (λ part. part.0 < end.0) }
    ensures { OnOk result (map call_of found.new.items ≡ map call_of found.old.items ++ calls_found state.now number) }
{
    let Some(number) = number else {
        return Ok(());
    };
    add_calls(state, number, found)
}

// Adds the calls of the last part.
#[cycle(calls)]
fn add_last(
    state: &State,
    parts: &[TreeId],
    end: TreeId,
    found: &mut Vec<ListedCall>,
) -> Result<(), AllocError>
    requires known { end.0 < length (trees state.now) }
    requires earlier { AreTreesBelow end.0 parts.now }
    ensures { OnOk result (map call_of found.new.items ≡ map call_of found.old.items ++ calls.last_calls (calls_of_parts state.now parts.now)) }
{
    add_found(state, last_child(parts), end, found)
}

// Adds the calls of each part.
#[cycle(calls)]
fn add_each(
    state: &State,
    parts: &[TreeId],
    end: TreeId,
    found: &mut Vec<ListedCall>,
) -> Result<(), AllocError>
    requires known { end.0 < length (trees state.now) }
    requires earlier { AreTreesBelow end.0 parts.now }
    ensures { OnOk result (map call_of found.new.items ≡ map call_of found.old.items ++ calls.all_of (calls_of_parts state.now parts.now)) }
{
    for part in parts {
        add_calls(state, *part, found)?;
    }
    Ok(())
}

// Adds the calls of each part of a node, and then its own.
#[cycle(calls)]
fn add_all(
    state: &State,
    node: &Node,
    number: TreeId,
    found: &mut Vec<ListedCall>,
) -> Result<(), AllocError>
    requires known { number.0 < length (trees state.now) }
    requires earlier { AreTreesBelow number.0 node.now.children }
    ensures { OnOk result (map call_of found.new.items ≡ map call_of found.old.items ++ (calls.all_of (calls_of_parts state.now node.now.children) ++ calls.own_calls (label_at (state.now).types node.now))) }
{
    add_each(state, node.children.as_slice(), number, found)?;
    add_own(state, node, found)
}

// Adds the calls of a node by its form.
#[cycle(calls)]
fn add_form(
    state: &State,
    form: Form,
    node: &Node,
    number: TreeId,
    found: &mut Vec<ListedCall>,
) -> Result<(), AllocError>
    requires known { number.0 < length (trees state.now) }
    requires earlier { AreTreesBelow number.0 node.now.children }
    ensures { OnOk result (map call_of found.new.items ≡ map call_of found.old.items ++ calls_in_node state.now form node.now) }
{
    match form {
        Form::Spelled | Form::Name | Form::Zero => Ok(()),
        Form::Cast => add_last(state, node.children.as_slice(), number, found),
        _ => add_all(state, node, number, found),
    }
}

/// Adds the calls of the expression or the initializer with a number: those of its parts stand before its own, those of
/// a default argument stand at each use, and there are none of what a size measures or of a call through a pointer.
#[cycle(calls)]
pub fn add_calls(
    state: &State,
    number: TreeId,
    found: &mut Vec<ListedCall>,
) -> Result<(), AllocError>
    requires { number.0 < length (trees state.now) }
    ensures { OnOk result (map call_of found.new.items ≡ map call_of found.old.items ++ calls_at state.now number) }
{
    let node = state.node(number);
    add_form(state, form_of(node.production), node, number, found)
}

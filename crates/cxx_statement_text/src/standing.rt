//! Which statements are one block, and of which nothing is written.
ghost use Rattle.std.specs.Prelude.{◌≡◌, ◌<◌, List, length, option_map, IfOk, IfSome};
ghost use Rattle.std.specs.List.{slice_get};
ghost use Rattle.cxx_reading.specs.Trees.{CxxTree, CxxTrees};
ghost use Rattle.cxx_tree.specs.Arena.{trees_in, AreTreesBelow};
ghost use Rattle.cxx_tree.specs.Held.{tree, trees};
ghost use Rattle.cxx_statement_text.specs.Forms as forms;
ghost use Rattle.cxx_statement_text.specs.Objects as objects;
ghost use Rattle.cxx_statement_text.specs.Statements as text;
ghost use Rattle.cxx_statement_text.specs.Written.{children_at, facts_in, parts_in};

use crate::conditions::declared;
use crate::form::{Form, form_of};
use crate::heads::has_several;
use crate::objects::printed;
use cxx_model::TreeId;
use cxx_tree::State;
use std::alloc::{AllocError, Global};

fn find(parts: &[TreeId], index: usize) -> Option<TreeId>
    ensures { result ≡ slice_get parts.now index }
{
    parts.get(index).copied()
}

/// The part with a number, from 0, where there is one.
pub(crate) fn child(parts: &[TreeId], index: usize, end: TreeId) -> Option<TreeId>
    requires { AreTreesBelow end.0 parts.now }
    ensures is { result ≡ slice_get parts.now index }
    ensures below { IfSome result (λ number. number.0 < end.0) }
{
    let _ = end;
    find(parts, index)
}

fn is_declared(found: Option<TreeId>) -> bool
    ensures { (children : TreeId → CxxTrees) → result ≡ objects.is_found (option_map children found) }
{
    found.is_some()
}

// Whether the condition that stands first declares an object.
fn declares(state: &State, parts: &[TreeId], end: TreeId) -> bool
    requires known { end.0 < length (trees state.now) }
    requires earlier { AreTreesBelow end.0 parts.now }
    ensures { result ≡ objects.is_found (text.declared_in (parts_in state.now parts.now)) }
{
    is_declared(declared(state, parts, end))
}

fn is_block_by(
    state: &State,
    alloc: Global,
    form: Form,
    parts: &[TreeId],
    end: TreeId,
) -> Result<bool, AllocError>
    requires known { end.0 < length (trees state.now) }
    requires earlier { AreTreesBelow end.0 parts.now }
    ensures { IfOk result (λ one. one ≡ text.is_block_as form (facts_in state.now) (parts_in state.now parts.now)) }
{
    match form {
        Form::Block => Ok(true),
        Form::If | Form::Switch => Ok(declares(state, parts, end)),
        Form::For => has_several(state, alloc, parts, end),
        _ => Ok(false),
    }
}

/// Whether a statement is one block.
pub(crate) fn is_block(state: &State, alloc: Global, number: TreeId) -> Result<bool, AllocError>
    requires { number.0 < length (trees state.now) }
    ensures { IfOk result (λ one. one ≡ text.is_block_as (forms.form_of (tree state.now number).label.production) (facts_in state.now) (children_at state.now number)) }
{
    let node = state.node(number);
    is_block_by(
        state,
        alloc,
        form_of(node.production),
        node.children.as_slice(),
        number,
    )
}

fn is_empty(numbers: &[TreeId]) -> bool
    ensures { (all : List CxxTree) → result ≡ text.has_none (trees_in all numbers.now) }
{
    match numbers {
        [] => true,
        _ => false,
    }
}

// Whether no declarator among some trees prints.
fn prints_nothing(
    state: &State,
    alloc: Global,
    parts: &[TreeId],
    end: TreeId,
) -> Result<bool, AllocError>
    requires known { end.0 < length (trees state.now) }
    requires earlier { AreTreesBelow end.0 parts.now }
    ensures { IfOk result (λ one. one ≡ text.has_none (objects.printed_in (facts_in state.now) (parts_in state.now parts.now))) }
{
    let found = printed(state, alloc, parts, end)?;
    let numbers = found.as_slice();
    Ok(is_empty(numbers))
}

fn is_nothing_by(
    state: &State,
    alloc: Global,
    form: Form,
    parts: &[TreeId],
    end: TreeId,
) -> Result<bool, AllocError>
    requires known { end.0 < length (trees state.now) }
    requires earlier { AreTreesBelow end.0 parts.now }
    ensures { IfOk result (λ one. one ≡ text.is_nothing_as form (facts_in state.now) (parts_in state.now parts.now)) }
{
    match form {
        Form::Declaration => prints_nothing(state, alloc, parts, end),
        _ => Ok(false),
    }
}

/// Whether nothing of a statement is written.
pub(crate) fn is_nothing(state: &State, alloc: Global, number: TreeId) -> Result<bool, AllocError>
    requires { number.0 < length (trees state.now) }
    ensures { IfOk result (λ one. one ≡ text.is_nothing_as (forms.form_of (tree state.now number).label.production) (facts_in state.now) (children_at state.now number)) }
{
    let node = state.node(number);
    is_nothing_by(
        state,
        alloc,
        form_of(node.production),
        node.children.as_slice(),
        number,
    )
}

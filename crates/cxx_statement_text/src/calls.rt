//! The calls of statements that are listed, in the order of the text.
ghost use Rattle.std.specs.Prelude.{◌≡◌, ◌<◌, ◌∷◌, ◌++◌, [], flat_map, length, map, IfSome, OnOk};
ghost use Rattle.cxx_phrase_text.specs.Calls.{all_of};
ghost use Rattle.cxx_phrase_text.specs.Listing.{call_of};
ghost use Rattle.cxx_tree.specs.Arena.{trees_in, AreTreesBelow};
ghost use Rattle.cxx_tree.specs.Held.{tree, trees};
ghost use Rattle.cxx_statement_text.specs.Calls as calls;
ghost use Rattle.cxx_statement_text.specs.Listed.{calls_found, calls_in_node, calls_of_parts};
ghost use Rattle.cxx_statement_text.specs.Objects as objects;
ghost use Rattle.cxx_statement_text.specs.Statements as text;
ghost use Rattle.cxx_statement_text.specs.Written.{children_at, facts_in, parts_in};

use crate::conditions::{after, declared};
use crate::form::{Form, form_of};
use crate::objects::{initializer, printed};
use crate::production::{DECLARATION_STATEMENT, EXPRESSION_STATEMENT};
use crate::standing::child;
use cxx_model::{Node, TreeId};
use cxx_phrase_text::{ListedCall, add_calls};
use cxx_tree::State;
use std::alloc::{AllocError, Global};

// ---- expressions

// Adds those of the expression that stands first.
fn add_first(
    state: &State,
    parts: &[TreeId],
    end: TreeId,
    found: &mut Vec<ListedCall>,
) -> Result<(), AllocError>
    requires known { end.0 < length (trees state.now) }
    requires earlier { AreTreesBelow end.0 parts.now }
    ensures { OnOk result (map call_of found.new.items ≡ map call_of found.old.items ++ calls.calls_first (parts_in state.now parts.now)) }
{
    match parts {
        [first, ..] => add_calls(state, *first, found),
        [] => Ok(()),
    }
}

// Adds those of an expression, or of what an expression statement holds.
fn add_clause_tree(
    state: &State,
    number: TreeId,
    found: &mut Vec<ListedCall>,
) -> Result<(), AllocError>
    requires { number.0 < length (trees state.now) }
    ensures { OnOk result (map call_of found.new.items ≡ map call_of found.old.items ++ calls.clause_calls (parts_in state.now (number ∷ []))) }
{
    let node = state.node(number);
    if node.production == EXPRESSION_STATEMENT {
        return add_first(state, node.children.as_slice(), number, found);
    }
    add_calls(state, number, found)
}

// Adds those of what stands first as a part of a `for`.
fn add_clause(
    state: &State,
    parts: &[TreeId],
    end: TreeId,
    found: &mut Vec<ListedCall>,
) -> Result<(), AllocError>
    requires known { end.0 < length (trees state.now) }
    requires earlier { AreTreesBelow end.0 parts.now }
    ensures { OnOk result (map call_of found.new.items ≡ map call_of found.old.items ++ calls.clause_calls (parts_in state.now parts.now)) }
{
    match parts {
        [first, ..] => add_clause_tree(state, *first, found),
        [] => Ok(()),
    }
}

// ---- declarations

// Adds those of the initializer among the parts of a declarator, where there is one.
fn add_among(state: &State, parts: &[TreeId], found: &mut Vec<ListedCall>) -> Result<(), AllocError>
    requires { AreTreesBelow (length (trees state.now)) parts.now }
    ensures { OnOk result (map call_of found.new.items ≡ map call_of found.old.items ++ calls.first_calls (objects.initializers_in (parts_in state.now parts.now))) }
{
    let Some(number) = initializer(state, parts) else {
        return Ok(());
    };
    add_calls(state, number, found)
}

// Adds those of the initializer of an object.
fn add_object(state: &State, number: TreeId, found: &mut Vec<ListedCall>) -> Result<(), AllocError>
    requires { number.0 < length (trees state.now) }
    ensures { OnOk result (map call_of found.new.items ≡ map call_of found.old.items ++ calls.object_calls (tree state.now number)) }
{
    add_among(state, state.node(number).children.as_slice(), found)
}

// Adds those of each of some objects.
fn add_objects(
    state: &State,
    numbers: &[TreeId],
    found: &mut Vec<ListedCall>,
) -> Result<(), AllocError>
    requires { AreTreesBelow (length (trees state.now)) numbers.now }
    ensures { OnOk result (map call_of found.new.items ≡ map call_of found.old.items ++ flat_map calls.object_calls (trees_in (trees state.now) numbers.now)) }
{
    for number in numbers {
        add_object(state, *number, found)?;
    }
    Ok(())
}

// Adds those of the objects that a declaration declares, given the parts of its statement.
fn add_declaration(
    state: &State,
    alloc: Global,
    parts: &[TreeId],
    end: TreeId,
    found: &mut Vec<ListedCall>,
) -> Result<(), AllocError>
    requires known { end.0 < length (trees state.now) }
    requires earlier { AreTreesBelow end.0 parts.now }
    ensures { OnOk result (map call_of found.new.items ≡ map call_of found.old.items ++ calls.declaration_calls (facts_in state.now) (parts_in state.now parts.now)) }
{
    let objects = printed(state, alloc, parts, end)?;
    add_objects(state, objects.as_slice(), found)
}

// Adds those of the objects that a declaration statement declares.
fn add_declaration_of(
    state: &State,
    alloc: Global,
    number: TreeId,
    found: &mut Vec<ListedCall>,
) -> Result<(), AllocError>
    requires { number.0 < length (trees state.now) }
    ensures { OnOk result (map call_of found.new.items ≡ map call_of found.old.items ++ calls.declaration_calls (facts_in state.now) (children_at state.now number)) }
{
    add_declaration(
        state,
        alloc,
        state.node(number).children.as_slice(),
        number,
        found,
    )
}

// ---- conditions

// Adds those of the condition that stands first.
fn add_condition(
    state: &State,
    alloc: Global,
    parts: &[TreeId],
    end: TreeId,
    found: &mut Vec<ListedCall>,
) -> Result<(), AllocError>
    requires known { end.0 < length (trees state.now) }
    requires earlier { AreTreesBelow end.0 parts.now }
    ensures { OnOk result (map call_of found.new.items ≡ map call_of found.old.items ++ calls.condition_calls (facts_in state.now) (parts_in state.now parts.now)) }
{
    match declared(state, parts, end) {
        Some(declaration) => add_declaration_of(state, alloc, declaration, found),
        None => add_first(state, parts, end, found),
    }
}

// Adds those of the condition that stands first as a part of a `for`, where it declares no object.
fn add_head(
    state: &State,
    parts: &[TreeId],
    end: TreeId,
    found: &mut Vec<ListedCall>,
) -> Result<(), AllocError>
    requires known { end.0 < length (trees state.now) }
    requires earlier { AreTreesBelow end.0 parts.now }
    ensures { OnOk result (map call_of found.new.items ≡ map call_of found.old.items ++ calls.head_calls (parts_in state.now parts.now) (text.declared_in (parts_in state.now parts.now))) }
{
    match declared(state, parts, end) {
        Some(_) => Ok(()),
        None => add_clause(state, parts, end, found),
    }
}

// Adds those of the condition that stands first, where it declares an object.
fn add_round(
    state: &State,
    alloc: Global,
    parts: &[TreeId],
    end: TreeId,
    found: &mut Vec<ListedCall>,
) -> Result<(), AllocError>
    requires known { end.0 < length (trees state.now) }
    requires earlier { AreTreesBelow end.0 parts.now }
    ensures { OnOk result (map call_of found.new.items ≡ map call_of found.old.items ++ calls.round_calls (facts_in state.now) (text.declared_in (parts_in state.now parts.now))) }
{
    match declared(state, parts, end) {
        Some(declaration) => add_declaration_of(state, alloc, declaration, found),
        None => Ok(()),
    }
}

// Adds those of the first part of a `for`.
fn add_beginning_tree(
    state: &State,
    alloc: Global,
    number: TreeId,
    found: &mut Vec<ListedCall>,
) -> Result<(), AllocError>
    requires { number.0 < length (trees state.now) }
    ensures { OnOk result (map call_of found.new.items ≡ map call_of found.old.items ++ calls.beginning_calls (facts_in state.now) (parts_in state.now (number ∷ []))) }
{
    let node = state.node(number);
    if node.production == DECLARATION_STATEMENT {
        return add_declaration(state, alloc, node.children.as_slice(), number, found);
    }
    add_clause_tree(state, number, found)
}

// Adds those of the first part of a `for`, which stands first.
fn add_beginning(
    state: &State,
    alloc: Global,
    parts: &[TreeId],
    end: TreeId,
    found: &mut Vec<ListedCall>,
) -> Result<(), AllocError>
    requires known { end.0 < length (trees state.now) }
    requires earlier { AreTreesBelow end.0 parts.now }
    ensures { OnOk result (map call_of found.new.items ≡ map call_of found.old.items ++ calls.beginning_calls (facts_in state.now) (parts_in state.now parts.now)) }
{
    match parts {
        [first, ..] => add_beginning_tree(state, alloc, *first, found),
        [] => Ok(()),
    }
}

// ---- behind the first part

// Adds those of the condition of a `do`, which stands second.
fn add_end(
    state: &State,
    parts: &[TreeId],
    end: TreeId,
    found: &mut Vec<ListedCall>,
) -> Result<(), AllocError>
    requires known { end.0 < length (trees state.now) }
    requires earlier { AreTreesBelow end.0 parts.now }
    ensures { OnOk result (map call_of found.new.items ≡ map call_of found.old.items ++ calls.calls_first (text.after (parts_in state.now parts.now))) }
{
    add_first(state, after(parts, end), end, found)
}

// Adds those in the head of a `for` of its condition, which stands second.
fn add_test(
    state: &State,
    parts: &[TreeId],
    end: TreeId,
    found: &mut Vec<ListedCall>,
) -> Result<(), AllocError>
    requires known { end.0 < length (trees state.now) }
    requires earlier { AreTreesBelow end.0 parts.now }
    ensures { OnOk result (map call_of found.new.items ≡ map call_of found.old.items ++ calls.head_calls (text.after (parts_in state.now parts.now)) (text.declared_in (text.after (parts_in state.now parts.now)))) }
{
    add_head(state, after(parts, end), end, found)
}

// Adds those of the part behind the first one.
fn add_clause_after(
    state: &State,
    parts: &[TreeId],
    end: TreeId,
    found: &mut Vec<ListedCall>,
) -> Result<(), AllocError>
    requires known { end.0 < length (trees state.now) }
    requires earlier { AreTreesBelow end.0 parts.now }
    ensures { OnOk result (map call_of found.new.items ≡ map call_of found.old.items ++ calls.clause_calls (text.after (parts_in state.now parts.now))) }
{
    add_clause(state, after(parts, end), end, found)
}

// Adds those of the step of a `for`, which stands third.
fn add_step(
    state: &State,
    parts: &[TreeId],
    end: TreeId,
    found: &mut Vec<ListedCall>,
) -> Result<(), AllocError>
    requires known { end.0 < length (trees state.now) }
    requires earlier { AreTreesBelow end.0 parts.now }
    ensures { OnOk result (map call_of found.new.items ≡ map call_of found.old.items ++ calls.clause_calls (text.after (text.after (parts_in state.now parts.now)))) }
{
    add_clause_after(state, after(parts, end), end, found)
}

// Adds those in the body of a `for` of its condition, which stands second.
fn add_round_after(
    state: &State,
    alloc: Global,
    parts: &[TreeId],
    end: TreeId,
    found: &mut Vec<ListedCall>,
) -> Result<(), AllocError>
    requires known { end.0 < length (trees state.now) }
    requires earlier { AreTreesBelow end.0 parts.now }
    ensures { OnOk result (map call_of found.new.items ≡ map call_of found.old.items ++ calls.round_calls (facts_in state.now) (text.declared_in (text.after (parts_in state.now parts.now)))) }
{
    add_round(state, alloc, after(parts, end), end, found)
}

// ---- parts that are statements

// Adds those of a statement, where there is one.
#[cycle(calls)]
fn add_found(
    state: &State,
    alloc: Global,
    number: Option<TreeId>,
    end: TreeId,
    found: &mut Vec<ListedCall>,
) -> Result<(), AllocError>
    requires known { end.0 < length (trees state.now) }
    requires within { IfSome number (λ part. part.0 < end.0) }
    ensures { OnOk result (map call_of found.new.items ≡ map call_of found.old.items ++ calls_found state.now number) }
{
    let Some(number) = number else {
        return Ok(());
    };
    add_statement_calls(state, alloc, number, found)
}

// Adds those of the part with a number, from 0, where there is one.
#[cycle(calls)]
fn add_part(
    state: &State,
    alloc: Global,
    parts: &[TreeId],
    index: usize,
    end: TreeId,
    found: &mut Vec<ListedCall>,
) -> Result<(), AllocError>
    requires known { end.0 < length (trees state.now) }
    requires earlier { AreTreesBelow end.0 parts.now }
    ensures { OnOk result (map call_of found.new.items ≡ map call_of found.old.items ++ calls.part (calls_of_parts state.now parts.now) index) }
{
    add_found(state, alloc, child(parts, index, end), end, found)
}

// Adds those of each part.
#[cycle(calls)]
fn add_each(
    state: &State,
    alloc: Global,
    parts: &[TreeId],
    end: TreeId,
    found: &mut Vec<ListedCall>,
) -> Result<(), AllocError>
    requires known { end.0 < length (trees state.now) }
    requires earlier { AreTreesBelow end.0 parts.now }
    ensures { OnOk result (map call_of found.new.items ≡ map call_of found.old.items ++ all_of (calls_of_parts state.now parts.now)) }
{
    for part in parts {
        add_statement_calls(state, alloc, *part, found)?;
    }
    Ok(())
}

// ---- statements

// Adds those of both statements of an `if`.
#[cycle(calls)]
fn add_branches(
    state: &State,
    alloc: Global,
    parts: &[TreeId],
    end: TreeId,
    found: &mut Vec<ListedCall>,
) -> Result<(), AllocError>
    requires known { end.0 < length (trees state.now) }
    requires earlier { AreTreesBelow end.0 parts.now }
    ensures { OnOk result (map call_of found.new.items ≡ map call_of found.old.items ++ (calls.part (calls_of_parts state.now parts.now) 1 ++ calls.part (calls_of_parts state.now parts.now) 2)) }
{
    add_part(state, alloc, parts, 1, end, found)?;
    add_part(state, alloc, parts, 2, end, found)
}

// Adds those of an `if`.
#[cycle(calls)]
fn add_if(
    state: &State,
    alloc: Global,
    parts: &[TreeId],
    end: TreeId,
    found: &mut Vec<ListedCall>,
) -> Result<(), AllocError>
    requires known { end.0 < length (trees state.now) }
    requires earlier { AreTreesBelow end.0 parts.now }
    ensures { OnOk result (map call_of found.new.items ≡ map call_of found.old.items ++ (calls.condition_calls (facts_in state.now) (parts_in state.now parts.now) ++ (calls.part (calls_of_parts state.now parts.now) 1 ++ calls.part (calls_of_parts state.now parts.now) 2))) }
{
    add_condition(state, alloc, parts, end, found)?;
    add_branches(state, alloc, parts, end, found)
}

// Adds those of a `switch` or a `while`.
#[cycle(calls)]
fn add_controlled(
    state: &State,
    alloc: Global,
    parts: &[TreeId],
    end: TreeId,
    found: &mut Vec<ListedCall>,
) -> Result<(), AllocError>
    requires known { end.0 < length (trees state.now) }
    requires earlier { AreTreesBelow end.0 parts.now }
    ensures { OnOk result (map call_of found.new.items ≡ map call_of found.old.items ++ (calls.condition_calls (facts_in state.now) (parts_in state.now parts.now) ++ calls.part (calls_of_parts state.now parts.now) 1)) }
{
    add_condition(state, alloc, parts, end, found)?;
    add_part(state, alloc, parts, 1, end, found)
}

// Adds those of a `do`.
#[cycle(calls)]
fn add_do(
    state: &State,
    alloc: Global,
    parts: &[TreeId],
    end: TreeId,
    found: &mut Vec<ListedCall>,
) -> Result<(), AllocError>
    requires known { end.0 < length (trees state.now) }
    requires earlier { AreTreesBelow end.0 parts.now }
    ensures { OnOk result (map call_of found.new.items ≡ map call_of found.old.items ++ (calls.part (calls_of_parts state.now parts.now) 0 ++ calls.calls_first (text.after (parts_in state.now parts.now)))) }
{
    add_part(state, alloc, parts, 0, end, found)?;
    add_end(state, parts, end, found)
}

// Adds those of what a `for` does in each round.
#[cycle(calls)]
fn add_rounds(
    state: &State,
    alloc: Global,
    parts: &[TreeId],
    end: TreeId,
    found: &mut Vec<ListedCall>,
) -> Result<(), AllocError>
    requires known { end.0 < length (trees state.now) }
    requires earlier { AreTreesBelow end.0 parts.now }
    ensures { OnOk result (map call_of found.new.items ≡ map call_of found.old.items ++ (calls.round_calls (facts_in state.now) (text.declared_in (text.after (parts_in state.now parts.now))) ++ calls.part (calls_of_parts state.now parts.now) 3)) }
{
    add_round_after(state, alloc, parts, end, found)?;
    add_part(state, alloc, parts, 3, end, found)
}

// Adds those of a `for` behind its first part.
#[cycle(calls)]
fn add_test_and_rounds(
    state: &State,
    alloc: Global,
    parts: &[TreeId],
    end: TreeId,
    found: &mut Vec<ListedCall>,
) -> Result<(), AllocError>
    requires known { end.0 < length (trees state.now) }
    requires earlier { AreTreesBelow end.0 parts.now }
    ensures { OnOk result (map call_of found.new.items ≡ map call_of found.old.items ++ (calls.head_calls (text.after (parts_in state.now parts.now)) (text.declared_in (text.after (parts_in state.now parts.now))) ++ (calls.clause_calls (text.after (text.after (parts_in state.now parts.now))) ++ (calls.round_calls (facts_in state.now) (text.declared_in (text.after (parts_in state.now parts.now))) ++ calls.part (calls_of_parts state.now parts.now) 3)))) }
{
    add_test(state, parts, end, found)?;
    add_step(state, parts, end, found)?;
    add_rounds(state, alloc, parts, end, found)
}

// Adds those of a `for`.
#[cycle(calls)]
fn add_for(
    state: &State,
    alloc: Global,
    parts: &[TreeId],
    end: TreeId,
    found: &mut Vec<ListedCall>,
) -> Result<(), AllocError>
    requires known { end.0 < length (trees state.now) }
    requires earlier { AreTreesBelow end.0 parts.now }
    ensures { OnOk result (map call_of found.new.items ≡ map call_of found.old.items ++ calls.for_calls (facts_in state.now) (parts_in state.now parts.now) (calls_of_parts state.now parts.now)) }
{
    add_beginning(state, alloc, parts, end, found)?;
    add_test_and_rounds(state, alloc, parts, end, found)
}

// Adds those of a statement behind its labels, of which a label has none.
#[cycle(calls)]
fn add_labels(
    state: &State,
    alloc: Global,
    parts: &[TreeId],
    keyword: &[u8],
    end: TreeId,
    found: &mut Vec<ListedCall>,
) -> Result<(), AllocError>
    requires known { end.0 < length (trees state.now) }
    requires earlier { AreTreesBelow end.0 parts.now }
    ensures { OnOk result (map call_of found.new.items ≡ map call_of found.old.items ++ calls.label_calls keyword.now (calls_of_parts state.now parts.now)) }
{
    match keyword {
        [] => add_each(state, alloc, parts, end, found),
        _ => Ok(()),
    }
}

// Adds those of a node by its form.
#[cycle(calls)]
fn add_form(
    state: &State,
    alloc: Global,
    form: Form,
    node: &Node,
    number: TreeId,
    found: &mut Vec<ListedCall>,
) -> Result<(), AllocError>
    requires known { number.0 < length (trees state.now) }
    requires earlier { AreTreesBelow number.0 node.now.children }
    ensures { OnOk result (map call_of found.new.items ≡ map call_of found.old.items ++ calls_in_node state.now form node.now) }
{
    let spelling = node.spelling.as_slice();
    let parts = node.children.as_slice();
    match form {
        Form::Block => add_each(state, alloc, parts, number, found),
        Form::Declaration => add_declaration(state, alloc, parts, number, found),
        Form::Expression | Form::Return => add_first(state, parts, number, found),
        Form::If => add_if(state, alloc, parts, number, found),
        Form::Switch | Form::While => add_controlled(state, alloc, parts, number, found),
        Form::Label => add_labels(state, alloc, parts, spelling, number, found),
        Form::Do => add_do(state, alloc, parts, number, found),
        Form::For => add_for(state, alloc, parts, number, found),
        Form::Jump => Ok(()),
    }
}

/// Adds the calls of the statement with a number, in the order of its lines: those of a condition that declares an object
/// stand where its declaration is written, and there are none of the value of a label.
#[cycle(calls)]
pub fn add_statement_calls(
    state: &State,
    alloc: Global,
    number: TreeId,
    found: &mut Vec<ListedCall>,
) -> Result<(), AllocError>
    requires { number.0 < length (trees state.now) }
    ensures { OnOk result (map call_of found.new.items ≡ map call_of found.old.items ++ calls.statement_calls (facts_in state.now) (tree state.now number)) }
{
    let node = state.node(number);
    add_form(state, alloc, form_of(node.production), node, number, found)
}

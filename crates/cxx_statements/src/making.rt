//! The trees of statements, and the type that a switch is over.

ghost use Rattle.std.specs.Prelude.{◌≡◌, ◌++◌, [], ◌∷◌, IfOk};
ghost use Rattle.cxx_model.specs.Types.Trees.{fundamental};
ghost use Rattle.cxx_reading.specs.Initializers.{operand_of};
ghost use Rattle.cxx_statements.specs.Making.{GrowsType};
ghost use Rattle.cxx_statements.specs.Productions as definition_of;
ghost use Rattle.cxx_statements.specs.Statements as definition;
ghost use Rattle.cxx_cursor.specs.Asking.{IsTreeKnown};
ghost use Rattle.cxx_cursor.specs.Making.{GrowsTree};
ghost use Rattle.cxx_cursor.specs.Views.{AreTreesHeld, trees_held};
ghost use Rattle.cxx_tree.specs.Held.{tree};

use crate::production;
use cxx_cursor::{Cursor, node_from, push};
use cxx_model::{Base, Listed, Stop, Text, TreeId, TreeIdList, TypeId};
use cxx_tree::State;
use std::alloc::{AllocError, Global};

pub(crate) fn one_tree(alloc: Global, one: TreeId) -> Result<TreeIdList, AllocError>
    ensures { IfOk result (λ all. all ≡ one ∷ []) }
{
    let mut all = Listed::new(alloc);
    all.push(one)?;
    Ok(all)
}

pub(crate) fn two_trees(alloc: Global, one: TreeId, two: TreeId) -> Result<TreeIdList, AllocError>
    ensures { IfOk result (λ all. all ≡ one ∷ two ∷ []) }
{
    let mut all = Listed::new(alloc);
    all.push(one)?;
    all.push(two)?;
    Ok(all)
}

pub(crate) fn three_trees(
    alloc: Global,
    one: TreeId,
    two: TreeId,
    three: TreeId,
) -> Result<TreeIdList, AllocError>
    ensures { IfOk result (λ all. all ≡ one ∷ two ∷ three ∷ []) }
{
    let mut all = Listed::new(alloc);
    all.push(one)?;
    all.push(two)?;
    all.push(three)?;
    Ok(all)
}

/// Two trees before others.
pub(crate) fn before_trees(
    one: TreeId,
    two: TreeId,
    others: TreeIdList,
) -> Result<TreeIdList, AllocError>
    ensures { IfOk result (λ all. all ≡ one ∷ two ∷ others) }
{
    let mut all = others;
    all.push_front(two)?;
    all.push_front(one)?;
    Ok(all)
}

/// The trees with one more.
pub(crate) fn with_tree(all: TreeIdList, one: TreeId) -> Result<TreeIdList, AllocError>
    ensures { IfOk result (λ more. more ≡ all ++ one ∷ []) }
{
    let mut all = all;
    all.push(one)?;
    Ok(all)
}

/// A tree that is spelled by its keyword.
pub(crate) fn word_tree(
    state: &mut State,
    production: u8,
    word: &[u8],
    parts: TreeIdList,
    from: &Cursor<'_>,
    to: &Cursor<'_>,
) -> Result<TreeId, Stop>
    requires { AreTreesHeld state.old parts }
    ensures { GrowsTree state.old state.new result (definition.word_tree production word.now (trees_held state.old parts) from.now to.now) }
{
    let word = Text::from_slice(from.alloc(), word)?;
    push(state, node_from(production, word, from, to, parts))
}

/// One that is not.
pub(crate) fn statement_tree(
    state: &mut State,
    production: u8,
    parts: TreeIdList,
    from: &Cursor<'_>,
    to: &Cursor<'_>,
) -> Result<TreeId, Stop>
    requires { AreTreesHeld state.old parts }
    ensures { GrowsTree state.old state.new result (definition.statement_tree production (trees_held state.old parts) from.now to.now) }
{
    let word = Listed::new(from.alloc());
    push(state, node_from(production, word, from, to, parts))
}

/// A selection of one of two statements, where another one is there (6.4.1).
#[tactic(auto, using(cxx_cursor::proofs::Kept::later_refl))]
pub(crate) fn selection_tree(
    state: &mut State,
    condition: TreeId,
    one: TreeId,
    other: TreeIdList,
    from: &Cursor<'_>,
    to: &Cursor<'_>,
) -> Result<TreeId, Stop>
    requires condition { IsTreeKnown state.old condition }
    requires one { IsTreeKnown state.old one }
    requires other { AreTreesHeld state.old other }
    ensures { GrowsTree state.old state.new result (definition.statement_tree definition_of.selection (tree state.old condition ∷ tree state.old one ∷ trees_held state.old other) from.now to.now) }
{
    let all = before_trees(condition, one, other)?;
    statement_tree(state, production::SELECTION, all, from, to)
}

/// Trees with one more in one tree.
#[tactic(auto, using(cxx_cursor::proofs::Kept::later_refl, cxx_cursor::proofs::Kept::trees_append, cxx_cursor::proofs::Kept::trees_below_append))]
pub(crate) fn longer_tree(
    state: &mut State,
    production: u8,
    parts: TreeIdList,
    last: TreeId,
    from: &Cursor<'_>,
    to: &Cursor<'_>,
) -> Result<TreeId, Stop>
    requires parts { AreTreesHeld state.old parts }
    requires last { IsTreeKnown state.old last }
    ensures { GrowsTree state.old state.new result (definition.statement_tree production (trees_held state.old parts ++ tree state.old last ∷ []) from.now to.now) }
{
    let all = with_tree(parts, last)?;
    statement_tree(state, production, all, from, to)
}

/// A part of a `for` that is left out covers no token (6.5.3).
pub(crate) fn no_part(state: &mut State, ahead: &Cursor<'_>) -> Result<TreeId, Stop>
    ensures { GrowsTree state.old state.new result (definition.no_part ahead.now) }
{
    let to = ahead.mark();
    let none = Listed::new(ahead.alloc());
    statement_tree(state, production::EXPRESSION_STATEMENT, none, ahead, &to)
}

fn plain_type(state: &mut State, base: Base) -> Result<TypeId, Stop>
    ensures { GrowsType state.old state.new result (fundamental base) }
{
    match state.plain(base) {
        Ok(of) => Ok(of),
        Err(_) => Err(Stop::OutOfMemory),
    }
}

/// The type of an expression. One that gives nothing is void.
#[tactic(auto, using(cxx_cursor::proofs::Kept::later_refl))]
pub(crate) fn type_of_tree(state: &mut State, number: TreeId) -> Result<TypeId, Stop>
    requires { IsTreeKnown state.old number }
    ensures { GrowsType state.old state.new result (operand_of (tree state.old number)).of }
{
    match state.node(number).operand {
        Some(operand) => Ok(operand.of),
        None => plain_type(state, Base::Void),
    }
}

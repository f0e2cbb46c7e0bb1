//! Tokens that are passed over: those of a body in a class (9.3), and those up to a place.

ghost use Rattle.std.specs.Prelude.{◌≡◌, ◌<◌, length};
ghost use Rattle.cxx_cursor.specs.Asking.{AnyKnown, IsTreeKnown, itself};
ghost use Rattle.cxx_cursor.specs.Making.{GrowsTree};
ghost use Rattle.cxx_cursor.specs.Reading.{IsRead, Takes};
ghost use Rattle.cxx_cursor.specs.Views.{turn_at};
ghost use Rattle.cxx_later.specs.Passing as definition;
ghost use Rattle.cxx_reading.specs.Shapes as shape;
ghost use Rattle.cxx_tree.specs.Held.{meaning, tree, trees};

use cxx_cursor::{Cursor, Turn, is_end, is_punct, node_from, push};
use cxx_model::{FactId, Listed, ScopeId, Stop, Text, TokenKind, TreeId, punct};
use cxx_tree::State;

/// The number of the production of a body that was passed over, which stands for the tokens of the body.
pub(crate) const PASSED_BODY: u8 = 56;

// ---- passing over

fn opens(kind: TokenKind) -> bool
    ensures { result ≡ shape.opens kind }
{
    is_punct(punct::LEFT_PARENTHESIS, kind)
        || (is_punct(punct::LEFT_BRACKET, kind) || is_punct(punct::LEFT_BRACE, kind))
}

fn closes(kind: TokenKind) -> bool
    ensures { result ≡ shape.closes kind }
{
    is_punct(punct::RIGHT_PARENTHESIS, kind)
        || (is_punct(punct::RIGHT_BRACKET, kind) || is_punct(punct::RIGHT_BRACE, kind))
}

// The number of the bracket that closes one that opens.
fn closer_of(kind: TokenKind) -> u8
    ensures { result ≡ definition.closer_of kind }
{
    if is_punct(punct::LEFT_PARENTHESIS, kind) {
        return punct::RIGHT_PARENTHESIS;
    }
    if is_punct(punct::LEFT_BRACKET, kind) {
        return punct::RIGHT_BRACKET;
    }
    punct::RIGHT_BRACE
}

// Whether a token closes the innermost of the brackets that have to close, of which those round it are left.
#[tactic(auto, using(crate::proofs::Closing::innermost_popped, crate::proofs::Closing::outer_popped))]
fn closed_by(kind: TokenKind, closers: &mut Vec<u8>) -> bool
    ensures closes { result ≡ definition.closes_by (definition.innermost closers.old.items) kind }
    ensures outer { closers.new.items ≡ definition.outer closers.old.items }
{
    match closers.pop() {
        Some(number) => is_punct(number, kind),
        None => false,
    }
}

// Behind a bracket that closes: where none is left that has to close, all was passed.
fn closed(closers: &[u8]) -> Turn<(), ()>
    ensures { turn_at (λ x. closers.now) (λ x. x) result ≡ definition.closed closers.now }
{
    match closers {
        [] => Turn::Done(()),
        [_, ..] => Turn::More(()),
    }
}

// A token is passed, or a bracket with what it leaves to be closed.
#[tactic(auto, unfolding(crate::specs::Passing::token_passed))]
pub(crate) fn token_passed(cursor: &mut Cursor<'_>, closers: &mut Vec<u8>) -> Result<(), Stop>
    ensures { Takes (λ x. closers.new.items) cursor.new result (definition.token_passed closers.old.items tt cursor.old) }
{
    let kind = cursor.kind();
    if is_end(kind) {
        return Err(Stop::Fault(cursor.refused()?));
    }
    if opens(kind) {
        closers.push(closer_of(kind))?;
        cursor.advance();
        return Ok(());
    }
    if !closes(kind) {
        cursor.advance();
        return Ok(());
    }
    if !closed_by(kind, closers) {
        return Err(Stop::Fault(cursor.refused()?));
    }
    cursor.advance();
    Ok(())
}

// The next token of a body is passed.
#[tactic(auto, unfolding(crate::specs::Passing::passing_step))]
fn passing_step(cursor: &mut Cursor<'_>, closers: &mut Vec<u8>) -> Result<Turn<(), ()>, Stop>
    ensures { Takes (turn_at (λ x. closers.new.items) (λ x. x)) cursor.new result (definition.passing_step closers.old.items tt cursor.old) }
{
    token_passed(cursor, closers)?;
    Ok(closed(closers.as_slice()))
}

// From an opening bracket behind the one that closes it. The brackets that have to close are kept, the innermost last.
#[tactic(auto, using(cxx_cursor::proofs::Loops::turn, cxx_cursor::proofs::Loops::no_turn), unfolding(crate::specs::Passing::body_passed))]
fn body_passed(cursor: &mut Cursor<'_>) -> Result<(), Stop>
    ensures { Takes (λ x. x) cursor.new result (definition.body_passed tt cursor.old) }
{
    let mut closers = Vec::new(cursor.alloc());
    for _turn in 0..cursor.count() {
        match passing_step(cursor, &mut closers)? {
            Turn::More(()) => {}
            Turn::Done(()) => return Ok(()),
        }
    }
    Err(Stop::Fault(cursor.refused()?))
}

// The tree of a body that was passed over.
fn passed_tree(
    state: &mut State,
    list: ScopeId,
    declarator: TreeId,
    from: &Cursor<'_>,
    to: &Cursor<'_>,
) -> Result<TreeId, Stop>
    requires { declarator.0 < length (trees state.old) }
    ensures { GrowsTree state.old state.new result (definition.passed_tree list.0 (tree state.old declarator) from.now to.now) }
{
    let alloc = from.alloc();
    let mut children = Listed::new(alloc);
    children.push(declarator)?;
    let mut node = node_from(PASSED_BODY, Text::new(alloc), from, to, children);
    node.target = Some(FactId(list.0));
    push(state, node)
}

/// Passes the body of a function in a class over (9.3), from its `{` on: it is read where the outermost class has ended
/// (9.2 p2). Its tree has the declarator of its function, and names the scope of the list of parameters.
#[tactic(auto, using(cxx_cursor::proofs::Kept::later_refl, cxx_cursor::proofs::Kept::later_trans), unfolding(crate::specs::Passing::body_later))]
pub fn body_later(
    state: &mut State,
    cursor: &mut Cursor<'_>,
    list: ScopeId,
    declarator: TreeId,
) -> Result<TreeId, Stop>
    requires { declarator.0 < length (trees state.old) }
    ensures { IsRead tree IsTreeKnown state.old state.new cursor.new result (definition.body_later list.0 (tree state.old declarator) (meaning state.old) cursor.old) }
{
    let from = cursor.mark();
    body_passed(cursor)?;
    passed_tree(state, list, declarator, &from, cursor)
}

// ---- going on

/// Passes tokens up to where so many are left.
#[tactic(auto, using(cxx_cursor::proofs::Loops::turn, cxx_cursor::proofs::Loops::no_turn, cxx_cursor::proofs::Kept::later_refl), unfolding(crate::specs::Passing::forward_to, crate::specs::Passing::forward_step))]
pub fn forward_to(state: &State, cursor: &mut Cursor<'_>, count: u32) -> Result<(), Stop>
    ensures { IsRead itself AnyKnown state.now state.now cursor.new result (definition.forward_to count (meaning state.now) cursor.old) }
{
    let _ = state;
    for _turn in 0..cursor.count() {
        if cursor.count() == count {
            return Ok(());
        }
        cursor.advance();
    }
    Ok(())
}

/// What was passed over before has ended where so many tokens are left.
#[tactic(auto, using(cxx_cursor::proofs::Kept::later_refl), unfolding(crate::specs::Passing::ends_where))]
pub fn ends_where(state: &State, cursor: &Cursor<'_>, count: u32) -> Result<(), Stop>
    ensures { IsRead itself AnyKnown state.now state.now cursor.now result (definition.ends_where count (meaning state.now) cursor.now) }
{
    let _ = state;
    if cursor.count() == count {
        return Ok(());
    }
    Err(Stop::Fault(cursor.refused()?))
}

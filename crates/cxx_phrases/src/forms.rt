//! The trees of expressions, handed over when their last token was read.

ghost use Rattle.std.specs.Prelude.{◌≡◌, ◌<◌, length, IfOk};
ghost use Rattle.cxx_phrases.specs.Forms as form;
ghost use Rattle.cxx_phrases.specs.Views.{IsSized, IsWritten, sized_of, written_of};
ghost use Rattle.cxx_cursor.specs.Asking.{IsAsked, IsTreeKnown};
ghost use Rattle.cxx_cursor.specs.Making.{GrowsTree};
ghost use Rattle.cxx_cursor.specs.Views.{AreTreesHeld, trees_held};
ghost use Rattle.cxx_tree.specs.Arena.{path_at};
ghost use Rattle.cxx_tree.specs.Held.{meaning, tree, type_of};

use crate::lists::{one_tree, three_trees, two_trees, with_tree};
use crate::phrases::Phrases;
use crate::production;
use cxx_cursor::{Cursor, is_punct, joined, last_place, node_from, push};
use cxx_model::{Listed, Path, Place, Stop, Text, TokenKind, TreeId, TreeIdList, TypeId, punct};
use cxx_strings::side_by_side;
use cxx_tree::State;
use std::alloc::{AllocError, Global};

// The spelling of a literal; strings side by side are one (2.13.4).
fn literal_text(alloc: Global, kind: TokenKind, word: &[u8]) -> Result<Text, AllocError>
    ensures { IfOk result (λ text. text ≡ form.literal_text kind word.now) }
{
    match kind {
        TokenKind::Text => side_by_side(alloc, word),
        _ => Text::from_slice(alloc, word),
    }
}

/// A literal (2.13).
#[tactic(auto, using(cxx_cursor::proofs::Kept::later_trans, cxx_cursor::proofs::Kept::later_refl, crate::proofs::Kept::tree_kept, crate::proofs::Kept::tree_later))]
pub(crate) fn literal_asked<P: Phrases>(
    phrases: &P,
    state: &mut State,
    from: &Cursor<'_>,
    to: &Cursor<'_>,
) -> Result<TreeId, Stop>
    requires ready { P.is_ready phrases.now }
    ensures { IsAsked tree IsTreeKnown state.old state.new result ((P.asks phrases.now).whole (form.literal_tree from.now to.now) (meaning state.old)) }
{
    let spelling = literal_text(from.alloc(), from.kind(), from.spelling())?;
    let children = Listed::new(from.alloc());
    let node = node_from(production::LITERAL, spelling, from, to, children);
    phrases.whole(state, node)
}

/// `this` (5.1, 9.3.2).
#[tactic(auto, using(cxx_cursor::proofs::Kept::later_trans, cxx_cursor::proofs::Kept::later_refl, crate::proofs::Kept::tree_kept, crate::proofs::Kept::tree_later))]
pub(crate) fn this_asked<P: Phrases>(
    phrases: &P,
    state: &mut State,
    from: &Cursor<'_>,
    to: &Cursor<'_>,
) -> Result<TreeId, Stop>
    requires ready { P.is_ready phrases.now }
    ensures { IsAsked tree IsTreeKnown state.old state.new result ((P.asks phrases.now).whole (form.this_tree from.now to.now) (meaning state.old)) }
{
    let spelling = Text::from_slice(from.alloc(), from.spelling())?;
    let children = Listed::new(from.alloc());
    let node = node_from(production::THIS, spelling, from, to, children);
    phrases.whole(state, node)
}

/// A name that is not called (5.1).
#[tactic(auto, using(cxx_cursor::proofs::Kept::later_trans, cxx_cursor::proofs::Kept::later_refl, crate::proofs::Kept::tree_kept, crate::proofs::Kept::tree_later))]
pub(crate) fn name_asked<P: Phrases>(
    phrases: &P,
    state: &mut State,
    path: Path,
    from: &Cursor<'_>,
    to: &Cursor<'_>,
) -> Result<TreeId, Stop>
    requires ready { P.is_ready phrases.now }
    ensures { IsAsked tree IsTreeKnown state.old state.new result ((P.asks phrases.now).whole (form.name_tree (path_at path) from.now to.now) (meaning state.old)) }
{
    let spelling = Listed::new(from.alloc());
    let children = Listed::new(from.alloc());
    let mut node = node_from(production::NAME, spelling, from, to, children);
    node.place = last_place(path.parts.as_slice());
    node.path = Some(path);
    phrases.whole(state, node)
}

/// A parenthesis (5.1).
#[tactic(auto, using(cxx_cursor::proofs::Kept::later_trans, cxx_cursor::proofs::Kept::later_refl, crate::proofs::Kept::tree_kept, crate::proofs::Kept::tree_later))]
pub(crate) fn parenthesis_asked<P: Phrases>(
    phrases: &P,
    state: &mut State,
    inside: TreeId,
    from: &Cursor<'_>,
    to: &Cursor<'_>,
) -> Result<TreeId, Stop>
    requires ready { P.is_ready phrases.now }
    requires inside { IsTreeKnown state.old inside }
    ensures { IsAsked tree IsTreeKnown state.old state.new result ((P.asks phrases.now).whole (form.parenthesis_tree (tree state.old inside) from.now to.now) (meaning state.old)) }
{
    let spelling = Listed::new(from.alloc());
    let children = one_tree(from.alloc(), inside)?;
    let node = node_from(production::PARENTHESIS, spelling, from, to, children);
    phrases.whole(state, node)
}

/// A call by a name; the spelling tells whether the name stands in brackets (5.2.2).
#[tactic(auto, using(cxx_cursor::proofs::Kept::later_trans, cxx_cursor::proofs::Kept::later_refl, crate::proofs::Kept::tree_kept, crate::proofs::Kept::tree_later))]
pub(crate) fn call_asked<P: Phrases>(
    phrases: &P,
    state: &mut State,
    spelling: &[u8],
    path: Path,
    arguments: TreeIdList,
    from: &Cursor<'_>,
    to: &Cursor<'_>,
) -> Result<TreeId, Stop>
    requires ready { P.is_ready phrases.now }
    requires arguments { AreTreesHeld state.old arguments }
    ensures { IsAsked tree IsTreeKnown state.old state.new result ((P.asks phrases.now).whole (form.call_tree spelling.now (path_at path) (trees_held state.old arguments) from.now to.now) (meaning state.old)) }
{
    let spelling = Text::from_slice(from.alloc(), spelling)?;
    let mut node = node_from(production::CALL, spelling, from, to, arguments);
    node.place = last_place(path.parts.as_slice());
    node.path = Some(path);
    phrases.whole(state, node)
}

/// A call of what is no name (5.2.2).
#[tactic(auto, using(cxx_cursor::proofs::Kept::later_trans, cxx_cursor::proofs::Kept::later_refl, crate::proofs::Kept::tree_kept, crate::proofs::Kept::tree_later, cxx_cursor::proofs::Kept::trees_append, cxx_cursor::proofs::Kept::trees_below_append))]
pub(crate) fn called_asked<P: Phrases>(
    phrases: &P,
    state: &mut State,
    function: TreeId,
    arguments: TreeIdList,
    from: &Cursor<'_>,
    to: &Cursor<'_>,
) -> Result<TreeId, Stop>
    requires ready { P.is_ready phrases.now }
    requires function { IsTreeKnown state.old function }
    requires arguments { AreTreesHeld state.old arguments }
    ensures { IsAsked tree IsTreeKnown state.old state.new result ((P.asks phrases.now).whole (form.called_tree (tree state.old function) (trees_held state.old arguments) from.now to.now) (meaning state.old)) }
{
    let spelling = Listed::new(from.alloc());
    let children = joined(one_tree(from.alloc(), function)?, arguments)?;
    let node = node_from(production::CALL, spelling, from, to, children);
    phrases.whole(state, node)
}

/// A type with arguments (5.2.3).
#[tactic(auto, using(cxx_cursor::proofs::Kept::later_trans, cxx_cursor::proofs::Kept::later_refl, crate::proofs::Kept::tree_kept, crate::proofs::Kept::tree_later))]
pub(crate) fn functional_asked<P: Phrases>(
    phrases: &P,
    state: &mut State,
    of: TypeId,
    arguments: TreeIdList,
    from: &Cursor<'_>,
    to: &Cursor<'_>,
) -> Result<TreeId, Stop>
    requires ready { P.is_ready phrases.now }
    requires of { of.0 < length (state.old).types }
    requires arguments { AreTreesHeld state.old arguments }
    ensures { IsAsked tree IsTreeKnown state.old state.new result ((P.asks phrases.now).whole (form.functional_tree (type_of state.old of) (trees_held state.old arguments) from.now to.now) (meaning state.old)) }
{
    let spelling = Listed::new(from.alloc());
    let mut node = node_from(production::FUNCTIONAL_CAST, spelling, from, to, arguments);
    node.of = Some(of);
    phrases.whole(state, node)
}

/// A subscript (5.2.1).
#[tactic(auto, using(cxx_cursor::proofs::Kept::later_trans, cxx_cursor::proofs::Kept::later_refl, crate::proofs::Kept::tree_kept, crate::proofs::Kept::tree_later))]
pub(crate) fn subscript_asked<P: Phrases>(
    phrases: &P,
    state: &mut State,
    place: Place,
    object: TreeId,
    index: TreeId,
    from: &Cursor<'_>,
    to: &Cursor<'_>,
) -> Result<TreeId, Stop>
    requires ready { P.is_ready phrases.now }
    requires object { IsTreeKnown state.old object }
    requires index { IsTreeKnown state.old index }
    ensures { IsAsked tree IsTreeKnown state.old state.new result ((P.asks phrases.now).whole (form.subscript_tree place (tree state.old object) (tree state.old index) from.now to.now) (meaning state.old)) }
{
    let spelling = Listed::new(from.alloc());
    let children = two_trees(from.alloc(), object, index)?;
    let mut node = node_from(production::SUBSCRIPT, spelling, from, to, children);
    node.place = place;
    phrases.whole(state, node)
}

// Whether the first token that closes no bracket opens one (13.3.1.1.1).
#[tactic(auto, using(crate::proofs::Closing::passed, crate::proofs::Closing::stopped, crate::proofs::Closing::shorter))]
fn opens_behind(to: &Cursor<'_>) -> bool
    ensures { result ≡ form.opens_behind to.now.tokens }
{
    let mut ahead = to.mark();
    while is_punct(punct::RIGHT_PARENTHESIS, ahead.kind()) {
        ahead.advance();
    }
    is_punct(punct::LEFT_PARENTHESIS, ahead.kind())
}

// Whether a bracket closes and one opens behind all that close.
fn may_be_called(to: &Cursor<'_>) -> bool
    ensures { result ≡ form.may_be_called to.now }
{
    is_punct(punct::RIGHT_PARENTHESIS, to.kind()) && opens_behind(to)
}

// What a name is spelled with, by the brackets that stand behind it (5.2.2).
fn called_word(to: &Cursor<'_>) -> &'static [u8]
    ensures { result.now ≡ form.called_word to.now }
{
    if is_punct(punct::LEFT_PARENTHESIS, to.kind()) {
        b"("
    } else if may_be_called(to) {
        b")"
    } else {
        b""
    }
}

/// A member of an object, or of what is pointed to, by its name and the place of the operator (5.2.5).
#[tactic(auto, using(cxx_cursor::proofs::Kept::later_trans, cxx_cursor::proofs::Kept::later_refl, crate::proofs::Kept::tree_kept, crate::proofs::Kept::tree_later))]
pub(crate) fn selected_asked<P: Phrases>(
    phrases: &P,
    state: &mut State,
    number: u8,
    place: Place,
    path: Path,
    object: TreeId,
    from: &Cursor<'_>,
    to: &Cursor<'_>,
) -> Result<TreeId, Stop>
    requires ready { P.is_ready phrases.now }
    requires object { IsTreeKnown state.old object }
    ensures { IsAsked tree IsTreeKnown state.old state.new result ((P.asks phrases.now).whole (form.member_tree number place (path_at path) (tree state.old object) from.now to.now) (meaning state.old)) }
{
    let spelling = Text::from_slice(from.alloc(), called_word(to))?;
    let children = one_tree(from.alloc(), object)?;
    let mut node = node_from(number, spelling, from, to, children);
    node.place = place;
    node.path = Some(path);
    phrases.whole(state, node)
}

/// A postfix operator (5.2.6).
#[tactic(auto, using(cxx_cursor::proofs::Kept::later_trans, cxx_cursor::proofs::Kept::later_refl, crate::proofs::Kept::tree_kept, crate::proofs::Kept::tree_later))]
pub(crate) fn step_asked<P: Phrases>(
    phrases: &P,
    state: &mut State,
    spelling: Text,
    place: Place,
    operand: TreeId,
    from: &Cursor<'_>,
    to: &Cursor<'_>,
) -> Result<TreeId, Stop>
    requires ready { P.is_ready phrases.now }
    requires operand { IsTreeKnown state.old operand }
    ensures { IsAsked tree IsTreeKnown state.old state.new result ((P.asks phrases.now).whole (form.step_tree spelling place (tree state.old operand) from.now to.now) (meaning state.old)) }
{
    let children = one_tree(from.alloc(), operand)?;
    let mut node = node_from(production::POSTFIX_STEP, spelling, from, to, children);
    node.place = place;
    phrases.whole(state, node)
}

/// A prefix operator (5.3.1, 5.3.2).
#[tactic(auto, using(cxx_cursor::proofs::Kept::later_trans, cxx_cursor::proofs::Kept::later_refl, crate::proofs::Kept::tree_kept, crate::proofs::Kept::tree_later))]
pub(crate) fn prefix_asked<P: Phrases>(
    phrases: &P,
    state: &mut State,
    spelling: Text,
    operand: TreeId,
    from: &Cursor<'_>,
    to: &Cursor<'_>,
) -> Result<TreeId, Stop>
    requires ready { P.is_ready phrases.now }
    requires operand { IsTreeKnown state.old operand }
    ensures { IsAsked tree IsTreeKnown state.old state.new result ((P.asks phrases.now).whole (form.prefix_tree spelling (tree state.old operand) from.now to.now) (meaning state.old)) }
{
    let children = one_tree(from.alloc(), operand)?;
    let node = node_from(production::PREFIX, spelling, from, to, children);
    phrases.whole(state, node)
}

/// A size (5.3.3).
#[tactic(auto, using(cxx_cursor::proofs::Kept::later_trans, cxx_cursor::proofs::Kept::later_refl, crate::proofs::Kept::tree_kept, crate::proofs::Kept::tree_later))]
pub(crate) fn size_asked<P: Phrases>(
    phrases: &P,
    state: &mut State,
    of: Option<TypeId>,
    parts: TreeIdList,
    from: &Cursor<'_>,
    to: &Cursor<'_>,
) -> Result<TreeId, Stop>
    requires ready { P.is_ready phrases.now }
    requires sized { IsSized state.old (of, parts) }
    ensures { IsAsked tree IsTreeKnown state.old state.new result ((P.asks phrases.now).whole (form.size_tree (sized_of state.old (of, parts)) from.now to.now) (meaning state.old)) }
{
    let spelling = Listed::new(from.alloc());
    let mut node = node_from(production::SIZE, spelling, from, to, parts);
    node.of = of;
    phrases.whole(state, node)
}

/// A cast (5.2.9 to 5.2.11, 5.4).
#[tactic(auto, using(cxx_cursor::proofs::Kept::later_trans, cxx_cursor::proofs::Kept::later_refl, crate::proofs::Kept::tree_kept, crate::proofs::Kept::tree_later, cxx_cursor::proofs::Kept::trees_append, cxx_cursor::proofs::Kept::trees_below_append))]
pub(crate) fn cast_asked<P: Phrases>(
    phrases: &P,
    state: &mut State,
    spelling: &[u8],
    of: TypeId,
    parts: TreeIdList,
    operand: TreeId,
    from: &Cursor<'_>,
    to: &Cursor<'_>,
) -> Result<TreeId, Stop>
    requires ready { P.is_ready phrases.now }
    requires written { IsWritten state.old (of, parts) }
    requires operand { IsTreeKnown state.old operand }
    ensures { IsAsked tree IsTreeKnown state.old state.new result ((P.asks phrases.now).whole (form.cast_tree spelling.now (written_of state.old (of, parts)) (tree state.old operand) from.now to.now) (meaning state.old)) }
{
    let spelling = Text::from_slice(from.alloc(), spelling)?;
    let children = with_tree(parts, operand)?;
    let mut node = node_from(production::CAST, spelling, from, to, children);
    node.of = Some(of);
    phrases.whole(state, node)
}

/// An operator between two operands, by the number of its production (5.6 to 5.18).
#[tactic(auto, using(cxx_cursor::proofs::Kept::later_trans, cxx_cursor::proofs::Kept::later_refl, crate::proofs::Kept::tree_kept, crate::proofs::Kept::tree_later))]
pub(crate) fn operator_asked<P: Phrases>(
    phrases: &P,
    state: &mut State,
    number: u8,
    spelling: Text,
    place: Place,
    left: TreeId,
    right: TreeId,
    from: &Cursor<'_>,
    to: &Cursor<'_>,
) -> Result<TreeId, Stop>
    requires ready { P.is_ready phrases.now }
    requires left { IsTreeKnown state.old left }
    requires right { IsTreeKnown state.old right }
    ensures { IsAsked tree IsTreeKnown state.old state.new result ((P.asks phrases.now).whole (form.operator_tree number spelling place (tree state.old left) (tree state.old right) from.now to.now) (meaning state.old)) }
{
    let children = two_trees(from.alloc(), left, right)?;
    let mut node = node_from(number, spelling, from, to, children);
    node.place = place;
    phrases.whole(state, node)
}

/// A conditional expression (5.16).
#[tactic(auto, using(cxx_cursor::proofs::Kept::later_trans, cxx_cursor::proofs::Kept::later_refl, crate::proofs::Kept::tree_kept, crate::proofs::Kept::tree_later))]
pub(crate) fn conditional_asked<P: Phrases>(
    phrases: &P,
    state: &mut State,
    place: Place,
    condition: TreeId,
    one: TreeId,
    other: TreeId,
    from: &Cursor<'_>,
    to: &Cursor<'_>,
) -> Result<TreeId, Stop>
    requires ready { P.is_ready phrases.now }
    requires condition { IsTreeKnown state.old condition }
    requires one { IsTreeKnown state.old one }
    requires other { IsTreeKnown state.old other }
    ensures { IsAsked tree IsTreeKnown state.old state.new result ((P.asks phrases.now).whole (form.conditional_tree place (tree state.old condition) (tree state.old one) (tree state.old other) from.now to.now) (meaning state.old)) }
{
    let spelling = Text::from_slice(from.alloc(), b"?")?;
    let children = three_trees(from.alloc(), condition, one, other)?;
    let mut node = node_from(production::CONDITIONAL, spelling, from, to, children);
    node.place = place;
    phrases.whole(state, node)
}

/// Braces inside of braces (8.5.1).
pub(crate) fn braces_tree(
    state: &mut State,
    parts: TreeIdList,
    from: &Cursor<'_>,
    to: &Cursor<'_>,
) -> Result<TreeId, Stop>
    requires { AreTreesHeld state.old parts }
    ensures { GrowsTree state.old state.new result (form.braces_tree (trees_held state.old parts) from.now to.now) }
{
    let spelling = Text::from_slice(from.alloc(), b"{")?;
    let node = node_from(production::INITIALIZER, spelling, from, to, parts);
    push(state, node)
}

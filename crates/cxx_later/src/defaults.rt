//! Default arguments of functions in a class (8.3.6): passed over where they stand, and kept by the declaration of their
//! function.

ghost use Rattle.std.specs.Prelude.{◌≡◌, ◌<◌, [], ◌∷◌, length, List, IfOk, None};
ghost use Rattle.cxx_cursor.specs.Making.{GrowsTree};
ghost use Rattle.cxx_cursor.specs.Reading.{IsRead, Takes};
ghost use Rattle.cxx_cursor.specs.Views.{AreTreesHeld, trees_held, turn_at};
ghost use Rattle.cxx_later.specs.Defaults as definition;
ghost use Rattle.cxx_later.specs.Kept.{GathersLater};
ghost use Rattle.cxx_model.specs.Facts.Declarations.{type_of_option};
ghost use Rattle.cxx_model.specs.Facts.Fitted.{IsTypeNumberBelow};
ghost use Rattle.cxx_model.specs.Types.Trees.{CxxType};
ghost use Rattle.cxx_tree.specs.Answered.{scope_of_option};
ghost use Rattle.cxx_tree.specs.Arena.{label_at, number_of_option};
ghost use Rattle.cxx_tree.specs.Held.{AreOffersBelow, meaning, offer_at, offers_at, tree, trees, type_of};

use crate::passing::token_passed;
use cxx_cursor::{Cursor, Turn, is_punct, node_from, push};
use cxx_model::{
    FactId, Listed, Node, Place, ScopeId, Stop, Text, TokenKind, TreeId, TreeIdList, TypeId, punct,
};
use cxx_tree::{Offer, OfferList, State};
use std::alloc::{AllocError, Global};

/// The number of the production of a default argument that was passed over, which stands for its tokens.
const PASSED_DEFAULT: u8 = 57;

/// The number of the production of one that is read later.
pub(crate) const LATER_DEFAULT: u8 = 58;

/// The number of the production of a number that is kept with it.
const KEPT_NUMBER: u8 = 59;

// ---- passing over

// What ends a default argument outside of brackets.
fn ends_parameter(kind: TokenKind) -> bool
    ensures { result ≡ definition.ends_parameter kind }
{
    is_punct(punct::COMMA, kind)
        || (is_punct(punct::RIGHT_PARENTHESIS, kind) || is_punct(punct::ELLIPSIS, kind))
}

// Whether no bracket is open.
fn are_closed(closers: &[u8]) -> bool
    ensures { result ≡ definition.are_closed closers.now }
{
    match closers {
        [] => true,
        [_, ..] => false,
    }
}

// The next token of a default argument is passed, where it has not ended.
#[tactic(auto, unfolding(crate::specs::Defaults::deferred_step))]
fn deferred_step(cursor: &mut Cursor<'_>, closers: &mut Vec<u8>) -> Result<Turn<(), ()>, Stop>
    ensures { Takes (turn_at (λ x. closers.new.items) (λ x. x)) cursor.new result (definition.deferred_step closers.old.items tt cursor.old) }
{
    if are_closed(closers.as_slice()) && ends_parameter(cursor.kind()) {
        return Ok(Turn::Done(()));
    }
    token_passed(cursor, closers)?;
    Ok(Turn::More(()))
}

/// Passes a default argument over (8.3.6), from behind its `=` up to the `,`, the `)` or the `...` that ends it.
#[tactic(auto, using(cxx_cursor::proofs::Loops::turn, cxx_cursor::proofs::Loops::no_turn), unfolding(crate::specs::Defaults::deferred_passed))]
pub fn deferred_passed(cursor: &mut Cursor<'_>) -> Result<(), Stop>
    ensures { Takes (λ x. x) cursor.new result (definition.deferred_passed tt cursor.old) }
{
    let mut closers = Vec::new(cursor.alloc());
    for _turn in 0..cursor.count() {
        match deferred_step(cursor, &mut closers)? {
            Turn::More(()) => {}
            Turn::Done(()) => return Ok(()),
        }
    }
    Err(Stop::Fault(cursor.refused()?))
}

// ---- its trees

/// The tree of a default argument that was passed over (8.3.6), with the place of its `=` and the type of its parameter, and
/// with room for so many more brackets where it stands.
pub fn passed_default(
    state: &mut State,
    room: u32,
    equals: Place,
    of: TypeId,
    from: &Cursor<'_>,
    to: &Cursor<'_>,
) -> Result<TreeId, Stop>
    requires { of.0 < length (state.old).types }
    ensures { GrowsTree state.old state.new result (definition.passed_default_tree room equals (type_of state.old of) from.now to.now) }
{
    let alloc = from.alloc();
    let mut node = node_from(
        PASSED_DEFAULT,
        Text::new(alloc),
        from,
        to,
        Listed::new(alloc),
    );
    node.place = equals;
    node.of = Some(of);
    node.target = Some(FactId(room));
    push(state, node)
}

/// What a tree covers, and its place.
#[derive(Clone, Copy)]
pub struct Span {
    pub first: u32,
    pub last: u32,
    pub start: Place,
    pub place: Place,
}

// Where a node stands.
fn span_of(node: &Node) -> Span
    ensures { (types : List CxxType) → result ≡ definition.span_of (label_at types node.now) }
{
    Span {
        first: node.first,
        last: node.last,
        start: node.start,
        place: node.place,
    }
}

// A tree that is kept, over others.
fn kept_tree(
    state: &mut State,
    alloc: Global,
    production: u8,
    span: Span,
    of: Option<TypeId>,
    target: Option<FactId>,
    children: TreeIdList,
) -> Result<TreeId, Stop>
    requires of { IsTypeNumberBelow (length (state.old).types) of }
    requires children { AreTreesHeld state.old children }
    ensures { GrowsTree state.old state.new result (definition.kept_tree production span (type_of_option (state.old).types of) (number_of_option target) (trees_held state.old children)) }
{
    push(
        state,
        Node {
            production,
            children,
            first: span.first,
            last: span.last,
            start: span.start,
            place: span.place,
            path: None,
            operand: None,
            of,
            target,
            call: None,
            spelling: Text::new(alloc),
        },
    )
}

// The tree of a number.
fn number_tree(state: &mut State, alloc: Global, number: u32, span: Span) -> Result<TreeId, Stop>
    ensures { GrowsTree state.old state.new result (definition.number_tree number span) }
{
    kept_tree(
        state,
        alloc,
        KEPT_NUMBER,
        span,
        None,
        Some(FactId(number)),
        Listed::new(alloc),
    )
}

// ---- what a declaration keeps

// The declaration of the function in whose list a default argument stands, where the declarator is that of a function.
fn own_number(list: Option<ScopeId>, number: Option<FactId>, scope: ScopeId) -> Option<FactId>
    ensures { number_of_option result ≡ definition.own_number (scope_of_option list) (number_of_option number) scope.0 }
{
    let Some(list) = list else {
        return None;
    };
    if list.0 == scope.0 {
        return number;
    }
    None
}

fn three(alloc: Global, one: TreeId, two: TreeId, last: TreeId) -> Result<TreeIdList, AllocError>
    ensures { IfOk result (λ all. all ≡ one ∷ two ∷ last ∷ []) }
{
    let mut all = Listed::new(alloc);
    all.push(one)?;
    all.push(two)?;
    all.push(last)?;
    Ok(all)
}

// The tree of one that is kept, over its parts.
fn later_over(
    state: &mut State,
    alloc: Global,
    span: Span,
    of: Option<TypeId>,
    target: Option<FactId>,
    passed: TreeId,
    list: TreeId,
    index: TreeId,
) -> Result<TreeId, Stop>
    requires of { IsTypeNumberBelow (length (state.old).types) of }
    requires passed { passed.0 < length (trees state.old) }
    requires list { list.0 < length (trees state.old) }
    requires index { index.0 < length (trees state.old) }
    ensures { GrowsTree state.old state.new result (definition.kept_tree definition.later_default span (type_of_option (state.old).types of) (number_of_option target) (tree state.old passed ∷ tree state.old list ∷ tree state.old index ∷ [])) }
{
    kept_tree(
        state,
        alloc,
        LATER_DEFAULT,
        span,
        of,
        target,
        three(alloc, passed, list, index)?,
    )
}

// The same, given the index of its parameter.
#[tactic(auto, using(cxx_cursor::proofs::Kept::later_trans, cxx_cursor::proofs::Kept::named_kept, cxx_cursor::proofs::Kept::named_later, crate::proofs::Gathered::tree_kept, crate::proofs::Gathered::tree_later))]
fn later_at(
    state: &mut State,
    alloc: Global,
    span: Span,
    of: Option<TypeId>,
    target: Option<FactId>,
    passed: TreeId,
    list: TreeId,
    index: u32,
) -> Result<TreeId, Stop>
    requires of { IsTypeNumberBelow (length (state.old).types) of }
    requires passed { passed.0 < length (trees state.old) }
    requires list { list.0 < length (trees state.old) }
    ensures { GrowsTree state.old state.new result (definition.kept_tree definition.later_default span (type_of_option (state.old).types of) (number_of_option target) (tree state.old passed ∷ tree state.old list ∷ definition.number_tree index span ∷ [])) }
{
    let index = number_tree(state, alloc, index, span)?;
    later_over(state, alloc, span, of, target, passed, list, index)
}

// The same, given the scope of its list.
#[tactic(auto, using(cxx_cursor::proofs::Kept::later_trans, cxx_cursor::proofs::Kept::named_kept, cxx_cursor::proofs::Kept::named_later, crate::proofs::Gathered::tree_kept, crate::proofs::Gathered::tree_later))]
fn later_in(
    state: &mut State,
    alloc: Global,
    span: Span,
    of: Option<TypeId>,
    target: Option<FactId>,
    passed: TreeId,
    list: ScopeId,
    index: u32,
) -> Result<TreeId, Stop>
    requires of { IsTypeNumberBelow (length (state.old).types) of }
    requires passed { passed.0 < length (trees state.old) }
    ensures { GrowsTree state.old state.new result (definition.kept_tree definition.later_default span (type_of_option (state.old).types of) (number_of_option target) (tree state.old passed ∷ definition.number_tree list.0 span ∷ definition.number_tree index span ∷ [])) }
{
    let list = number_tree(state, alloc, list.0, span)?;
    later_at(state, alloc, span, of, target, passed, list, index)
}

// The tree of one that was passed over.
fn later_tree(
    state: &mut State,
    alloc: Global,
    list: Option<ScopeId>,
    number: Option<FactId>,
    one: Offer,
) -> Result<TreeId, Stop>
    requires { one.tree.0 < length (trees state.old) }
    ensures { GrowsTree state.old state.new result (definition.later_tree (scope_of_option list) (number_of_option number) (offer_at (trees state.old) one)) }
{
    let node = state.node(one.tree);
    let span = span_of(node);
    let of = node.of;
    let target = own_number(list, number, one.scope);
    later_in(
        state, alloc, span, of, target, one.tree, one.scope, one.index,
    )
}

// Whether one was passed over.
fn is_passed(state: &State, one: Offer) -> bool
    requires { one.tree.0 < length (trees state.now) }
    ensures { result ≡ definition.is_passed (offer_at (trees state.now) one) }
{
    state.node(one.tree).production == PASSED_DEFAULT
}

// Adds the tree of one.
fn add_tree(
    state: &mut State,
    alloc: Global,
    list: Option<ScopeId>,
    number: Option<FactId>,
    one: Offer,
    found: &mut TreeIdList,
) -> Result<(), Stop>
    requires { one.tree.0 < length (trees state.old) }
    ensures { GathersLater state.old state.new found.old found.new result (definition.later_tree (scope_of_option list) (number_of_option number) (offer_at (trees state.old) one) ∷ []) }
{
    let number = later_tree(state, alloc, list, number, one)?;
    found.push(number)?;
    Ok(())
}

// Adds the tree of one, where it was passed over.
#[tactic(auto, using(crate::proofs::Gathered::none_added))]
fn add_later(
    state: &mut State,
    alloc: Global,
    list: Option<ScopeId>,
    number: Option<FactId>,
    one: Offer,
    found: &mut TreeIdList,
) -> Result<(), Stop>
    requires { one.tree.0 < length (trees state.old) }
    ensures { GathersLater state.old state.new found.old found.new result (definition.later_trees (scope_of_option list) (number_of_option number) (offer_at (trees state.old) one ∷ [])) }
{
    if is_passed(state, one) {
        return add_tree(state, alloc, list, number, one, found);
    }
    Ok(())
}

// Adds the trees of those that were passed over, of some.
#[tactic(auto, using(crate::proofs::Gathered::none_kept, crate::proofs::Gathered::one_failed))]
fn later_trees(
    state: &mut State,
    alloc: Global,
    list: Option<ScopeId>,
    number: Option<FactId>,
    offers: &[Offer],
    found: &mut TreeIdList,
) -> Result<(), Stop>
    requires { AreOffersBelow (length (trees state.old)) offers.now }
    ensures { GathersLater state.old state.new found.old found.new result (definition.later_trees (scope_of_option list) (number_of_option number) (offers_at (trees state.old) offers.now)) }
{
    for one in offers {
        add_later(state, alloc, list, number, *one, found)?;
    }
    Ok(())
}

// Those that were read or passed over in the part that is being read.
#[tactic(auto, unfolding(cxx_tree::specs::Held::meaning))]
fn offers_now(state: &State, alloc: Global) -> Result<OfferList, AllocError>
    ensures below { IfOk result (λ all. AreOffersBelow (length (trees state.now)) all) }
    ensures is { IfOk result (λ all. offers_at (trees state.now) all ≡ (meaning state.now).offered) }
{
    Listed::from_slice(alloc, state.offers())
}

/// The default arguments that were passed over in a declarator, as trees for the end of the class (8.3.6), with the scope of
/// the list of its function and the number of its declaration; those that were read are looked at no more.
#[tactic(auto, using(cxx_cursor::proofs::Kept::later_refl, cxx_cursor::proofs::Kept::later_trans, cxx_cursor::proofs::Kept::trees_kept, cxx_cursor::proofs::Kept::trees_later), unfolding(crate::specs::Defaults::defaults_kept))]
pub fn defaults_kept(
    state: &mut State,
    cursor: &Cursor<'_>,
    list: Option<ScopeId>,
    number: Option<FactId>,
) -> Result<TreeIdList, Stop>
    ensures { IsRead trees_held AreTreesHeld state.old state.new cursor.now result (definition.defaults_kept (scope_of_option list) (number_of_option number) (meaning state.old) cursor.now) }
{
    let alloc = cursor.alloc();
    let offers = offers_now(state, alloc)?;
    let mut found = Listed::new(alloc);
    later_trees(state, alloc, list, number, offers.as_slice(), &mut found)?;
    state.clear_offers();
    Ok(found)
}

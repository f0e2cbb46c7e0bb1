//! What stands behind the declarator of a function (8.4).

ghost use Rattle.std.specs.Prelude.{◌≡◌, ◌<◌, ◌++◌, [], None, length, IfOk};
ghost use Rattle.cxx_space.specs.Parts.{body_or_not, function_end};
ghost use Rattle.cxx_language.specs.Later as later;
ghost use Rattle.cxx_language.specs.Units as units;
ghost use Rattle.cxx_space.specs.Views.{IsBodyKnown, IsDeclaredKnown, body_of, declares_of};
ghost use Rattle.cxx_cursor.specs.Reading.{IsRead};
ghost use Rattle.cxx_cursor.specs.Views.{name_at};
ghost use Rattle.cxx_tree.specs.Answered.{scope_of_option};
ghost use Rattle.cxx_tree.specs.Held.{meaning, tree, trees, type_of};
ghost use Rattle.cxx_units.specs.Said.{IsListed, IsListedTurn, listed_of, listed_turn};

use crate::space::{Defines, Space};
use cxx_cursor::{Cursor, NameToken, Turn, is_keyword, is_punct, joined};
use cxx_model::{
    FactId, FaultText, LeftOut, Listed, ScopeId, Stop, TreeId, TreeIdList, TypeId, keyword, punct,
};
use cxx_tree::State;
use cxx_units::declarator_ended;
use cxx_units::ends::ends_declarator;
use cxx_units::said::Listed as ListedTrees;
use cxx_units::trees::with_tree;
use std::alloc::{AllocError, Global};

/// What a declarator leads to: its tree, what is kept of the default arguments that were passed over in it, and the body of the
/// function that it defines.
#[derive(Drop)]
pub(crate) struct Declared {
    pub tree: TreeId,
    pub defaults: TreeIdList,
    pub body: Option<TreeId>,
}

/// What a declarator leads to in which no default argument was passed over.
pub(crate) fn declared_with(alloc: Global, number: TreeId, body: Option<TreeId>) -> Declared
    ensures { result ≡ record { tree = number; defaults = []; body = body } }
{
    Declared {
        tree: number,
        defaults: Listed::new(alloc),
        body,
    }
}

/// The same where it defines no function.
pub(crate) fn alone(alloc: Global, number: TreeId) -> Declared
    ensures { result ≡ record { tree = number; defaults = []; body = None } }
{
    declared_with(alloc, number, None)
}

// What is kept of default arguments stands before the declarator.
fn with_defaults(so_far: ListedTrees, defaults: TreeIdList) -> Result<ListedTrees, AllocError>
    ensures { IfOk result (λ listed. listed ≡ record { trees = so_far.trees ++ defaults; is_first = so_far.is_first }) }
{
    Ok(ListedTrees {
        trees: joined(so_far.trees, defaults)?,
        is_first: so_far.is_first,
    })
}

impl<D: Defines> Space<'_, D> {
    // A body, or what may not stand there.
    #[tactic(auto, using(cxx_cursor::proofs::Kept::later_refl, cxx_cursor::proofs::Kept::later_trans))]
    fn body_or_not(
        &self,
        state: &mut State,
        cursor: &mut Cursor<'_>,
        name: &NameToken,
        of: TypeId,
        number: FactId,
        list: ScopeId,
    ) -> Result<Option<TreeId>, Stop>
        requires { of.0 < length (state.old).types }
        ensures { IsRead body_of IsBodyKnown state.old state.new cursor.new result (body_or_not self.now.room (name_at name.now) (type_of state.old of) number.0 list.0 (meaning state.old) cursor.old) }
    {
        if is_punct(punct::LEFT_BRACE, cursor.kind()) {
            let body = self
                .declares
                .body(state, cursor, name, of, number, list, self.room)?;
            return Ok(Some(body));
        }
        if is_keyword(keyword::TRY, cursor.kind()) {
            let form = FaultText::LeftOut(LeftOut::Exception);
            return Err(Stop::Fault(cursor.faulty(form)?));
        }
        Err(Stop::Fault(cursor.refused()?))
    }

    // Where a declarator has its own list of parameters, a body may stand behind it.
    #[tactic(auto, using(cxx_cursor::proofs::Kept::later_refl))]
    fn behind_list(
        &self,
        state: &mut State,
        cursor: &mut Cursor<'_>,
        name: &NameToken,
        of: TypeId,
        number: FactId,
        list: Option<ScopeId>,
    ) -> Result<Option<TreeId>, Stop>
        requires { of.0 < length (state.old).types }
        ensures { IsRead body_of IsBodyKnown state.old state.new cursor.new result (units.behind_list self.now.room (name_at name.now) (type_of state.old of) number.0 (scope_of_option list) (meaning state.old) cursor.old) }
    {
        match list {
            None => Err(Stop::Fault(cursor.refused()?)),
            Some(list) => self.body_or_not(state, cursor, name, of, number, list),
        }
    }

    /// Behind the declarator of the function with a declaration: its body, where it has one.
    #[tactic(auto, using(cxx_cursor::proofs::Kept::later_refl))]
    pub(crate) fn function_ended(
        &self,
        state: &mut State,
        cursor: &mut Cursor<'_>,
        is_first: bool,
        name: &NameToken,
        of: TypeId,
        number: FactId,
        list: Option<ScopeId>,
    ) -> Result<Option<TreeId>, Stop>
        requires { of.0 < length (state.old).types }
        ensures { IsRead body_of IsBodyKnown state.old state.new cursor.new result (function_end self.now.room is_first (name_at name.now) (type_of state.old of) number.0 (scope_of_option list) (meaning state.old) cursor.old) }
    {
        if ends_declarator(cursor.kind()) {
            return Ok(None);
        }
        if is_first {
            return self.behind_list(state, cursor, name, of, number, list);
        }
        Err(Stop::Fault(cursor.refused()?))
    }
}

// Behind a body a declaration has ended; else its end or another declarator follows.
#[tactic(auto, using(cxx_cursor::proofs::Kept::trees_append, cxx_cursor::proofs::Kept::trees_below_append, cxx_cursor::proofs::Kept::later_refl))]
fn ended_behind(
    state: &State,
    cursor: &mut Cursor<'_>,
    so_far: ListedTrees,
    number: TreeId,
    body: Option<TreeId>,
) -> Result<Turn<ListedTrees, TreeIdList>, Stop>
    requires listed { IsListed state.now so_far }
    requires number { number.0 < length (trees state.now) }
    requires body { IsBodyKnown state.now body }
    ensures { IsRead listed_turn IsListedTurn state.now state.now cursor.new result (later.ended_behind (listed_of state.now so_far) (tree state.now number) (body_of state.now body) (meaning state.now) cursor.old) }
{
    match body {
        None => declarator_ended(state, cursor, so_far, number),
        Some(body) => {
            let all = with_tree(so_far.trees, number)?;
            Ok(Turn::Done(with_tree(all, body)?))
        }
    }
}

/// Behind a declarator, with what it leads to: the end of its declaration, or another declarator.
#[tactic(auto, using(cxx_cursor::proofs::Kept::trees_append, cxx_cursor::proofs::Kept::trees_below_append, cxx_cursor::proofs::Kept::later_refl))]
pub(crate) fn ended_by(
    state: &State,
    cursor: &mut Cursor<'_>,
    so_far: ListedTrees,
    one: Declared,
) -> Result<Turn<ListedTrees, TreeIdList>, Stop>
    requires listed { IsListed state.now so_far }
    requires known { IsDeclaredKnown state.now one }
    ensures { IsRead listed_turn IsListedTurn state.now state.now cursor.new result (later.ended_by (listed_of state.now so_far) (declares_of state.now one) (meaning state.now) cursor.old) }
{
    let with = with_defaults(so_far, one.defaults)?;
    ended_behind(state, cursor, with, one.tree, one.body)
}

//! Bounds (8.3.4) and the values of enumerators (7.2), which are constant expressions (5.19), and default arguments (8.3.6).

ghost use Rattle.std.specs.Prelude.{◌≡◌, ◌<◌, [], ◌∷◌, length, IfOk};
ghost use Rattle.cxx_knot.specs.Knot.{asking_by};
ghost use Rattle.cxx_knot.specs.Readers as definition;
ghost use Rattle.cxx_reading.specs.Reads.{count_ahead, give, repeat};
ghost use Rattle.cxx_reading.specs.Syntax as syntax;
ghost use Rattle.cxx_cursor.specs.Reading.{IsRead};
ghost use Rattle.cxx_cursor.specs.Views.{AreTreesHeld, IsTreesTurn, IsValue, lexeme_at, trees_held, trees_turn, value_of};
ghost use Rattle.cxx_tree.specs.Held.{meaning, type_of};

use crate::asking::Asking;
use cxx_cursor::{Cursor, Spelled, Turn, is_name, is_punct, joined};
use cxx_later::{deferred_passed, passed_default};
use cxx_model::{EnumId, Listed, Stop, TreeId, TreeIdList, TypeId, punct};
use cxx_phrases::{Level, Phrases, read_expression};
use cxx_syntax::Defaults;
use cxx_tree::State;
use std::alloc::{AllocError, Global};

/// The readers of expressions, and who is asked for what they are, with room for so many more brackets.
#[derive_where(Clone, Copy)]
pub(crate) struct Values<'n, K, P> {
    pub kinds: &'n K,
    pub room: u32,
    pub phrases: &'n P,
}

// A list of one tree.
fn one_tree(alloc: Global, number: TreeId) -> Result<TreeIdList, AllocError>
    ensures { IfOk result (λ all. all ≡ number ∷ []) }
{
    let mut all = Listed::new(alloc);
    all.push(number)?;
    Ok(all)
}

// Behind an enumerator.
#[tactic(auto, using(cxx_cursor::proofs::Kept::later_refl), unfolding(cxx_reading::specs::Syntax::enumerator_ended))]
fn enumerator_ended(
    state: &State,
    cursor: &mut Cursor<'_>,
    so_far: TreeIdList,
) -> Result<Turn<TreeIdList, TreeIdList>, Stop>
    requires { AreTreesHeld state.now so_far }
    ensures { IsRead trees_turn IsTreesTurn state.now state.now cursor.new result (syntax.enumerator_ended (trees_held state.now so_far) (meaning state.now) cursor.old) }
{
    let _ = state;
    if is_punct(punct::COMMA, cursor.kind()) {
        cursor.advance();
        return Ok(Turn::More(so_far));
    }
    if is_punct(punct::RIGHT_BRACE, cursor.kind()) {
        cursor.advance();
        return Ok(Turn::Done(so_far));
    }
    Err(Stop::Fault(cursor.refused()?))
}

impl<K: Asking, P: Phrases> Values<'_, K, P> {
    // A constant expression, with its value, which is asked before what follows is looked at (5.19).
    #[tactic(auto, using(cxx_cursor::proofs::Kept::trees_kept, cxx_cursor::proofs::Kept::trees_later, cxx_cursor::proofs::Kept::trees_append, cxx_cursor::proofs::Kept::trees_below_append, cxx_cursor::proofs::Kept::later_trans, cxx_cursor::proofs::Kept::later_refl), unfolding(crate::specs::Readers::valued))]
    fn valued(
        &self,
        state: &mut State,
        cursor: &mut Cursor<'_>,
    ) -> Result<(Option<i128>, TreeIdList), Stop>
        requires ready { K.is_ready self.now.kinds.now }
        requires phrases { P.is_ready self.now.phrases.now }
        ensures { IsRead value_of IsValue state.old state.new cursor.new result (definition.valued (asking_by K.asks K.wholes K.offers self.now.kinds.now self.now.room) (P.asks self.now.phrases.now) (P.inner self.now.phrases.now) (meaning state.old) cursor.old) }
    {
        let number = read_expression(self.phrases, state, cursor, Level::Constant)?;
        let value = self.kinds.constant(state, number, self.room)?;
        Ok((Some(value), one_tree(cursor.alloc(), number)?))
    }

    // The value of a bound, and its end.
    #[tactic(auto, using(cxx_cursor::proofs::Kept::trees_kept, cxx_cursor::proofs::Kept::trees_later, cxx_cursor::proofs::Kept::trees_append, cxx_cursor::proofs::Kept::trees_below_append, cxx_cursor::proofs::Kept::later_trans, cxx_cursor::proofs::Kept::later_refl), unfolding(crate::specs::Readers::bound_value))]
    fn bound_value(
        &self,
        state: &mut State,
        cursor: &mut Cursor<'_>,
    ) -> Result<(Option<i128>, TreeIdList), Stop>
        requires ready { K.is_ready self.now.kinds.now }
        requires phrases { P.is_ready self.now.phrases.now }
        ensures { IsRead value_of IsValue state.old state.new cursor.new result (definition.bound_value (asking_by K.asks K.wholes K.offers self.now.kinds.now self.now.room) (P.asks self.now.phrases.now) (P.inner self.now.phrases.now) (meaning state.old) cursor.old) }
    {
        let value = self.valued(state, cursor)?;
        cursor.punct(punct::RIGHT_BRACKET)?;
        Ok(value)
    }

    // Behind `[` (8.3.4).
    #[tactic(auto, using(cxx_cursor::proofs::Kept::trees_kept, cxx_cursor::proofs::Kept::trees_later, cxx_cursor::proofs::Kept::trees_append, cxx_cursor::proofs::Kept::trees_below_append, cxx_cursor::proofs::Kept::later_trans, cxx_cursor::proofs::Kept::later_refl), unfolding(crate::specs::Readers::bound_at))]
    pub fn bound_at(
        &self,
        state: &mut State,
        cursor: &mut Cursor<'_>,
        is_first: bool,
    ) -> Result<(Option<i128>, TreeIdList), Stop>
        requires ready { K.is_ready self.now.kinds.now }
        requires phrases { P.is_ready self.now.phrases.now }
        ensures { IsRead value_of IsValue state.old state.new cursor.new result (definition.bound_at (asking_by K.asks K.wholes K.offers self.now.kinds.now self.now.room) (P.asks self.now.phrases.now) (P.inner self.now.phrases.now) is_first (meaning state.old) cursor.old) }
    {
        if !is_punct(punct::RIGHT_BRACKET, cursor.kind()) {
            return self.bound_value(state, cursor);
        }
        if !is_first {
            return Err(Stop::Fault(cursor.refused()?));
        }
        cursor.advance();
        Ok((None, Listed::new(cursor.alloc())))
    }

    // The value of an enumerator, where one is written.
    #[tactic(auto, using(cxx_cursor::proofs::Kept::trees_kept, cxx_cursor::proofs::Kept::trees_later, cxx_cursor::proofs::Kept::trees_append, cxx_cursor::proofs::Kept::trees_below_append, cxx_cursor::proofs::Kept::later_trans, cxx_cursor::proofs::Kept::later_refl), unfolding(crate::specs::Readers::value_at, cxx_reading::specs::Syntax::no_value))]
    fn value_at(
        &self,
        state: &mut State,
        cursor: &mut Cursor<'_>,
    ) -> Result<(Option<i128>, TreeIdList), Stop>
        requires ready { K.is_ready self.now.kinds.now }
        requires phrases { P.is_ready self.now.phrases.now }
        ensures { IsRead value_of IsValue state.old state.new cursor.new result (definition.value_at (asking_by K.asks K.wholes K.offers self.now.kinds.now self.now.room) (P.asks self.now.phrases.now) (P.inner self.now.phrases.now) (meaning state.old) cursor.old) }
    {
        if !is_punct(punct::EQUALS, cursor.kind()) {
            return Ok((None, Listed::new(cursor.alloc())));
        }
        cursor.advance();
        self.valued(state, cursor)
    }

    // An enumerator, which is declared before what follows is looked at (7.2).
    #[tactic(auto, using(cxx_cursor::proofs::Kept::trees_kept, cxx_cursor::proofs::Kept::trees_later, cxx_cursor::proofs::Kept::trees_append, cxx_cursor::proofs::Kept::trees_below_append, cxx_cursor::proofs::Kept::later_trans, cxx_cursor::proofs::Kept::later_refl), unfolding(crate::specs::Readers::enumerator_at))]
    fn enumerator_at(
        &self,
        state: &mut State,
        cursor: &mut Cursor<'_>,
        number: EnumId,
        so_far: TreeIdList,
        name: Spelled<'_>,
    ) -> Result<TreeIdList, Stop>
        requires known { AreTreesHeld state.old so_far }
        requires ready { K.is_ready self.now.kinds.now }
        requires phrases { P.is_ready self.now.phrases.now }
        ensures { IsRead trees_held AreTreesHeld state.old state.new cursor.new result (definition.enumerator_at (asking_by K.asks K.wholes K.offers self.now.kinds.now self.now.room) (P.asks self.now.phrases.now) (P.inner self.now.phrases.now) number.0 (trees_held state.old so_far) (lexeme_at name.entry) (meaning state.old) cursor.old) }
    {
        let (value, parts) = self.value_at(state, cursor)?;
        self.kinds
            .enumerator(state, number, name, value, self.room)?;
        Ok(joined(so_far, parts)?)
    }

    // An enumerator, and what separates it from the next.
    #[tactic(auto, using(cxx_cursor::proofs::Kept::trees_kept, cxx_cursor::proofs::Kept::trees_later, cxx_cursor::proofs::Kept::trees_append, cxx_cursor::proofs::Kept::trees_below_append, cxx_cursor::proofs::Kept::later_trans, cxx_cursor::proofs::Kept::later_refl), unfolding(crate::specs::Readers::enumerator_step))]
    fn enumerator_step(
        &self,
        state: &mut State,
        cursor: &mut Cursor<'_>,
        number: EnumId,
        so_far: TreeIdList,
    ) -> Result<Turn<TreeIdList, TreeIdList>, Stop>
        requires known { AreTreesHeld state.old so_far }
        requires ready { K.is_ready self.now.kinds.now }
        requires phrases { P.is_ready self.now.phrases.now }
        ensures { IsRead trees_turn IsTreesTurn state.old state.new cursor.new result (definition.enumerator_step (asking_by K.asks K.wholes K.offers self.now.kinds.now self.now.room) (P.asks self.now.phrases.now) (P.inner self.now.phrases.now) number.0 (trees_held state.old so_far) (meaning state.old) cursor.old) }
    {
        if !is_name(cursor.kind()) {
            return Err(Stop::Fault(cursor.refused()?));
        }
        let name = cursor.token();
        let all = self.enumerator_at(state, cursor, number, so_far, name)?;
        enumerator_ended(state, cursor, all)
    }

    // Behind the `{` of an enumeration (7.2).
    #[tactic(auto, using(cxx_cursor::proofs::Kept::trees_kept, cxx_cursor::proofs::Kept::trees_later, cxx_cursor::proofs::Kept::trees_append, cxx_cursor::proofs::Kept::trees_below_append, cxx_cursor::proofs::Kept::later_trans, cxx_cursor::proofs::Kept::later_refl), unfolding(crate::specs::Readers::enumerators_at))]
    pub fn enumerators_at(
        &self,
        state: &mut State,
        cursor: &mut Cursor<'_>,
        number: EnumId,
    ) -> Result<TreeIdList, Stop>
        requires ready { K.is_ready self.now.kinds.now }
        requires phrases { P.is_ready self.now.phrases.now }
        ensures { IsRead trees_held AreTreesHeld state.old state.new cursor.new result (definition.enumerators_at (asking_by K.asks K.wholes K.offers self.now.kinds.now self.now.room) (P.asks self.now.phrases.now) (P.inner self.now.phrases.now) number.0 (meaning state.old) cursor.old) }
    {
        if is_punct(punct::RIGHT_BRACE, cursor.kind()) {
            cursor.advance();
            return Ok(Listed::new(cursor.alloc()));
        }
        self.enumerators_run(state, cursor, number)
    }

    // One enumerator after another.
    #[tactic(auto, using(cxx_cursor::proofs::Loops::turn, cxx_cursor::proofs::Loops::no_turn, cxx_cursor::proofs::Kept::later_trans, cxx_cursor::proofs::Kept::later_refl))]
    fn enumerators_run(
        &self,
        state: &mut State,
        cursor: &mut Cursor<'_>,
        number: EnumId,
    ) -> Result<TreeIdList, Stop>
        requires ready { K.is_ready self.now.kinds.now }
        requires phrases { P.is_ready self.now.phrases.now }
        ensures { IsRead trees_held AreTreesHeld state.old state.new cursor.new result (repeat (definition.enumerator_step (asking_by K.asks K.wholes K.offers self.now.kinds.now self.now.room) (P.asks self.now.phrases.now) (P.inner self.now.phrases.now) number.0) give (count_ahead cursor.old) [] (meaning state.old) cursor.old) }
    {
        let mut so_far = Listed::new(cursor.alloc());
        for _turn in 0..cursor.count() {
            match self.enumerator_step(state, cursor, number, so_far)? {
                Turn::More(next) => so_far = next,
                Turn::Done(all) => return Ok(all),
            }
        }
        Ok(so_far)
    }

    // A default argument, from its `=` on, as it is converted to the type of its parameter (8.3.6).
    #[tactic(auto, using(cxx_cursor::proofs::Kept::type_kept, cxx_cursor::proofs::Kept::type_later, cxx_cursor::proofs::Kept::later_trans, cxx_cursor::proofs::Kept::later_refl), unfolding(crate::specs::Readers::fallback_now))]
    fn fallback_now(
        &self,
        state: &mut State,
        cursor: &mut Cursor<'_>,
        index: usize,
        of: TypeId,
    ) -> Result<TreeIdList, Stop>
        requires ready { K.is_ready self.now.kinds.now }
        requires phrases { P.is_ready self.now.phrases.now }
        requires known { of.0 < length (state.old).types }
        ensures { IsRead trees_held AreTreesHeld state.old state.new cursor.new result (definition.fallback_now (asking_by K.asks K.wholes K.offers self.now.kinds.now self.now.room) (P.asks self.now.phrases.now) (P.inner self.now.phrases.now) index (type_of state.old of) (meaning state.old) cursor.old) }
    {
        let equals = cursor.place();
        cursor.advance();
        let was = self.kinds.begun(state, equals)?;
        let number = read_expression(self.phrases, state, cursor, Level::Assignment)?;
        let converted = self.kinds.ended(state, equals, was, index, of, number)?;
        Ok(one_tree(cursor.alloc(), converted)?)
    }

    // One that is passed over, from its `=` on.
    #[tactic(auto, using(cxx_cursor::proofs::Kept::trees_kept, cxx_cursor::proofs::Kept::trees_later, cxx_cursor::proofs::Kept::later_trans, cxx_cursor::proofs::Kept::later_refl), unfolding(crate::specs::Readers::fallback_later))]
    fn fallback_later(
        &self,
        state: &mut State,
        cursor: &mut Cursor<'_>,
        index: usize,
        of: TypeId,
    ) -> Result<TreeIdList, Stop>
        requires ready { K.is_ready self.now.kinds.now }
        requires phrases { P.is_ready self.now.phrases.now }
        requires known { of.0 < length (state.old).types }
        ensures { IsRead trees_held AreTreesHeld state.old state.new cursor.new result (definition.fallback_later (asking_by K.asks K.wholes K.offers self.now.kinds.now self.now.room) (P.asks self.now.phrases.now).room index (type_of state.old of) (meaning state.old) cursor.old) }
    {
        let equals = cursor.place();
        cursor.advance();
        let from = cursor.mark();
        deferred_passed(cursor)?;
        let number = passed_default(state, self.phrases.room(), equals, of, &from, cursor)?;
        self.kinds.passed(state, index, number)?;
        Ok(one_tree(cursor.alloc(), number)?)
    }

    // One, or what is passed over of it in a class (9.2 p2).
    #[tactic(auto, using(cxx_cursor::proofs::Kept::type_kept, cxx_cursor::proofs::Kept::type_later, cxx_cursor::proofs::Kept::later_trans), unfolding(crate::specs::Readers::fallback_at))]
    fn fallback_at(
        &self,
        state: &mut State,
        cursor: &mut Cursor<'_>,
        index: usize,
        of: TypeId,
    ) -> Result<TreeIdList, Stop>
        requires ready { K.is_ready self.now.kinds.now }
        requires phrases { P.is_ready self.now.phrases.now }
        requires known { of.0 < length (state.old).types }
        ensures { IsRead trees_held AreTreesHeld state.old state.new cursor.new result (definition.fallback_at (asking_by K.asks K.wholes K.offers self.now.kinds.now self.now.room) (P.asks self.now.phrases.now) (P.inner self.now.phrases.now) index (type_of state.old of) (meaning state.old) cursor.old) }
    {
        if self.kinds.is_later(state)? {
            return self.fallback_later(state, cursor, index, of);
        }
        self.fallback_now(state, cursor, index, of)
    }
}

impl<K: Asking, P: Phrases> Defaults for Values<'_, K, P> {
    ghost fallback_by = { λ self. definition.fallback_at (asking_by K.asks K.wholes K.offers self.kinds.now self.room) (P.asks self.phrases.now) (P.inner self.phrases.now) };

    ghost is_open = { λ self. K.is_ready self.kinds.now × P.is_ready self.phrases.now };

    fn fallback(
        &self,
        state: &mut State,
        cursor: &mut Cursor<'_>,
        index: usize,
        of: TypeId,
    ) -> Result<TreeIdList, Stop> {
        self.fallback_at(state, cursor, index, of)
    }
}

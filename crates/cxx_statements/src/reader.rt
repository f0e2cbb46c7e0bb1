//! Statements in which others stand (6.3 to 6.5), and what begins and ends one.

ghost use Rattle.std.specs.Prelude.{◌≡◌, [], Some, true, false};
ghost use Rattle.cxx_statements.specs.Statements as definition;
ghost use Rattle.cxx_statements.specs.Views.{IsAround, IsSeveral, IsSeveralTurn, IsStated, around_of, several_of, several_turn, stated_of};
ghost use Rattle.cxx_cursor.specs.Asking.{AnyKnown, IsTreeKnown, itself};
ghost use Rattle.cxx_cursor.specs.Reading.{IsRead, Takes};
ghost use Rattle.cxx_cursor.specs.Views.{AreTreesHeld, trees_held};
ghost use Rattle.cxx_tree.specs.Held.{meaning, tree};

use crate::around::{Around, Several, Stated, Switch};
use crate::labels::labels_in;
use crate::making::{
    longer_tree, one_tree, selection_tree, statement_tree, two_trees, type_of_tree, with_tree,
};
use crate::parts::{Parts, Target};
use crate::production;
use crate::simple::{empty_in, flat_in};
use crate::tests::begins_statement;
use crate::values::Values;
use crate::within::Within;
use cxx_cursor::{Cursor, Turn, is_keyword, is_punct};
use cxx_model::{Listed, Stop, TreeId, TreeIdList, TypeId, keyword, punct};
use cxx_tree::State;
use std::alloc::Global;

/// The readers of statements: what they ask, with room for so many more brackets and statements, and the readers behind
/// those.
#[derive_where(Clone, Copy)]
pub(crate) struct Reader<'n, P, N> {
    pub parts: &'n P,
    pub room: u32,
    pub inner: &'n N,
}

// In the body of a loop (6.5).
fn in_a_loop(around: Around) -> Around
    ensures { result ≡ record around { in_loop = true; breaks = true } }
{
    Around {
        in_loop: true,
        breaks: true,
        switch: around.switch,
    }
}

// Behind it: the labels in it are those of the switch around.
fn behind_loop(in_loop: bool, breaks: bool, inside: Around) -> Around
    ensures { result ≡ record inside { in_loop = in_loop; breaks = breaks } }
{
    Around {
        in_loop,
        breaks,
        switch: inside.switch,
    }
}

// In the body of a switch over a type (6.4.2).
fn in_a_switch(alloc: Global, of: TypeId, around: &Around) -> Around
    ensures { result ≡ record around.now { breaks = true; switch = Some (record { of = of; values = []; has_default = false }) } }
{
    Around {
        in_loop: around.in_loop,
        breaks: true,
        switch: Some(Switch {
            of,
            values: Values::new(alloc),
            has_default: false,
        }),
    }
}

// Takes a keyword.
fn keyword_taken(cursor: &mut Cursor<'_>, number: u8) -> Result<(), Stop>
    ensures { Takes (λ x. x) cursor.new result (definition.keyword_taken number tt cursor.old) }
{
    if !is_keyword(number, cursor.kind()) {
        return Err(Stop::Fault(cursor.refused()?));
    }
    cursor.advance();
    Ok(())
}

// Labels stand before their statement in one tree (6.1).
#[tactic(auto, using(cxx_cursor::proofs::Kept::later_trans, cxx_cursor::proofs::Kept::later_refl, crate::proofs::Kept::around_kept, crate::proofs::Kept::around_later, crate::proofs::Kept::trees_counted), unfolding(crate::specs::Statements::labelled))]
fn labelled(
    state: &mut State,
    labels: TreeIdList,
    one: Stated,
    from: &Cursor<'_>,
    cursor: &Cursor<'_>,
) -> Result<Stated, Stop>
    requires labels { AreTreesHeld state.old labels }
    requires one { IsStated state.old one }
    ensures { IsRead stated_of IsStated state.old state.new cursor.now result (definition.labelled from.now (trees_held state.old labels) (stated_of state.old one) (meaning state.old) cursor.now) }
{
    if labels.len() == 0 {
        return Ok(one);
    }
    let tree = longer_tree(state, production::LABEL, labels, one.tree, from, cursor)?;
    Ok(Stated {
        tree,
        around: one.around,
    })
}

impl<P: Parts, N: Within> Reader<'_, P, N> {
    // A block, with its `{` (6.3).
    #[tactic(auto, using(cxx_cursor::proofs::Kept::later_trans, cxx_cursor::proofs::Kept::later_refl, crate::proofs::Kept::around_kept, crate::proofs::Kept::around_later), unfolding(crate::specs::Statements::block_in))]
    fn block_in(
        &self,
        state: &mut State,
        cursor: &mut Cursor<'_>,
        around: Around,
    ) -> Result<Stated, Stop>
        requires ready { P.is_ready self.now.parts.now }
        requires open { N.is_open self.now.inner.now }
        requires around { IsAround state.old around }
        ensures { IsRead stated_of IsStated state.old state.new cursor.new result (definition.block_in (N.inner self.now.inner.now) (around_of state.old around) (meaning state.old) cursor.old) }
    {
        let from = cursor.mark();
        cursor.advance();
        let inside = self.inner.statements(state, cursor, around)?;
        let tree = statement_tree(state, production::BLOCK, inside.trees, &from, cursor)?;
        Ok(Stated {
            tree,
            around: inside.around,
        })
    }

    // What begins no statement at all is met before the limit of nesting.
    #[tactic(auto, using(cxx_cursor::proofs::Kept::later_trans, cxx_cursor::proofs::Kept::later_refl), unfolding(crate::specs::Statements::begun))]
    fn begun(&self, state: &mut State, cursor: &Cursor<'_>) -> Result<(), Stop>
        requires ready { P.is_ready self.now.parts.now }
        ensures { IsRead itself AnyKnown state.old state.new cursor.now result (definition.begun (P.asks self.now.parts.now self.now.room) (meaning state.old) cursor.now) }
    {
        if begins_statement(cursor.kind()) || is_punct(punct::SEMICOLON, cursor.kind()) {
            return Ok(());
        }
        let _head = self.parts.head(state, cursor, self.room)?;
        Ok(())
    }

    #[tactic(auto, using(cxx_cursor::proofs::Kept::later_trans, cxx_cursor::proofs::Kept::later_refl, crate::proofs::Kept::around_kept, crate::proofs::Kept::around_later))]
    fn nested_statement(
        &self,
        state: &mut State,
        cursor: &mut Cursor<'_>,
        around: Around,
    ) -> Result<Stated, Stop>
        requires ready { P.is_ready self.now.parts.now }
        requires open { N.is_open self.now.inner.now }
        requires around { IsAround state.old around }
        ensures { IsRead stated_of IsStated state.old state.new cursor.new result (definition.nested_statement (P.asks self.now.parts.now self.now.room) (N.inner self.now.inner.now) (around_of state.old around) (meaning state.old) cursor.old) }
    {
        self.begun(state, cursor)?;
        self.inner.sub_statement(state, cursor, around)
    }

    // A statement in another one (6.4, 6.5).
    #[tactic(auto, using(cxx_cursor::proofs::Kept::later_trans, cxx_cursor::proofs::Kept::later_refl), unfolding(crate::specs::Statements::sub_in))]
    fn sub_in(
        &self,
        state: &mut State,
        cursor: &mut Cursor<'_>,
        around: Around,
    ) -> Result<Stated, Stop>
        requires ready { P.is_ready self.now.parts.now }
        requires open { N.is_open self.now.inner.now }
        requires around { IsAround state.old around }
        ensures { IsRead stated_of IsStated state.old state.new cursor.new result (definition.sub_in (P.asks self.now.parts.now self.now.room) (N.inner self.now.inner.now) (around_of state.old around) (meaning state.old) cursor.old) }
    {
        if is_punct(punct::LEFT_BRACE, cursor.kind()) {
            return self.block_in(state, cursor, around);
        }
        self.nested_statement(state, cursor, around)
    }

    #[tactic(auto, using(cxx_cursor::proofs::Kept::later_trans, cxx_cursor::proofs::Kept::later_refl, crate::proofs::Kept::around_kept, crate::proofs::Kept::around_later), unfolding(crate::specs::Statements::else_part))]
    fn else_part(
        &self,
        state: &mut State,
        cursor: &mut Cursor<'_>,
        around: Around,
    ) -> Result<Several, Stop>
        requires ready { P.is_ready self.now.parts.now }
        requires open { N.is_open self.now.inner.now }
        requires around { IsAround state.old around }
        ensures { IsRead several_of IsSeveral state.old state.new cursor.new result (definition.else_part (P.asks self.now.parts.now self.now.room) (N.inner self.now.inner.now) (around_of state.old around) (meaning state.old) cursor.old) }
    {
        cursor.advance();
        let other = self.sub_in(state, cursor, around)?;
        Ok(Several {
            trees: one_tree(cursor.alloc(), other.tree)?,
            around: other.around,
        })
    }

    // Behind the first statement of an `if` (6.4.1).
    #[tactic(auto, using(cxx_cursor::proofs::Kept::later_trans, cxx_cursor::proofs::Kept::later_refl), unfolding(crate::specs::Statements::other_part))]
    fn other_part(
        &self,
        state: &mut State,
        cursor: &mut Cursor<'_>,
        around: Around,
    ) -> Result<Several, Stop>
        requires ready { P.is_ready self.now.parts.now }
        requires open { N.is_open self.now.inner.now }
        requires around { IsAround state.old around }
        ensures { IsRead several_of IsSeveral state.old state.new cursor.new result (definition.other_part (P.asks self.now.parts.now self.now.room) (N.inner self.now.inner.now) (around_of state.old around) (meaning state.old) cursor.old) }
    {
        if is_keyword(keyword::ELSE, cursor.kind()) {
            return self.else_part(state, cursor, around);
        }
        Ok(Several {
            trees: Listed::new(cursor.alloc()),
            around,
        })
    }

    // Behind the condition of an `if`, with a scope that was entered.
    #[tactic(auto, using(cxx_cursor::proofs::Kept::later_trans, cxx_cursor::proofs::Kept::later_refl, crate::proofs::Kept::around_kept, crate::proofs::Kept::around_later, crate::proofs::Kept::tree_kept, crate::proofs::Kept::tree_later, cxx_cursor::proofs::Kept::trees_kept, cxx_cursor::proofs::Kept::trees_later), unfolding(crate::specs::Statements::if_ended))]
    fn if_ended(
        &self,
        state: &mut State,
        cursor: &mut Cursor<'_>,
        from: &Cursor<'_>,
        condition: TreeId,
        around: Around,
    ) -> Result<Stated, Stop>
        requires ready { P.is_ready self.now.parts.now }
        requires open { N.is_open self.now.inner.now }
        requires around { IsAround state.old around }
        requires condition { IsTreeKnown state.old condition }
        ensures { IsRead stated_of IsStated state.old state.new cursor.new result (definition.if_ended (P.asks self.now.parts.now self.now.room) (N.inner self.now.inner.now) from.now (tree state.old condition) (around_of state.old around) (meaning state.old) cursor.old) }
    {
        let one = self.sub_in(state, cursor, around)?;
        let other = self.other_part(state, cursor, one.around)?;
        self.parts.leave_block(state, self.room)?;
        let tree = selection_tree(state, condition, one.tree, other.trees, from, cursor)?;
        Ok(Stated {
            tree,
            around: other.around,
        })
    }

    // 6.4.1
    #[tactic(auto, using(cxx_cursor::proofs::Kept::later_trans, cxx_cursor::proofs::Kept::later_refl, crate::proofs::Kept::around_kept, crate::proofs::Kept::around_later), unfolding(crate::specs::Statements::if_in))]
    fn if_in(
        &self,
        state: &mut State,
        cursor: &mut Cursor<'_>,
        around: Around,
    ) -> Result<Stated, Stop>
        requires ready { P.is_ready self.now.parts.now }
        requires open { N.is_open self.now.inner.now }
        requires around { IsAround state.old around }
        ensures { IsRead stated_of IsStated state.old state.new cursor.new result (definition.if_in (P.asks self.now.parts.now self.now.room) (N.inner self.now.inner.now) (around_of state.old around) (meaning state.old) cursor.old) }
    {
        let from = cursor.mark();
        cursor.advance();
        cursor.punct(punct::LEFT_PARENTHESIS)?;
        let condition = self.inner.condition(state, cursor, Target::Bool)?;
        self.if_ended(state, cursor, &from, condition, around)
    }

    // 6.4.2
    #[tactic(auto, using(cxx_cursor::proofs::Kept::later_trans, cxx_cursor::proofs::Kept::later_refl, crate::proofs::Kept::around_kept, crate::proofs::Kept::around_later, crate::proofs::Kept::tree_kept, crate::proofs::Kept::tree_later), unfolding(crate::specs::Statements::switch_in))]
    fn switch_in(
        &self,
        state: &mut State,
        cursor: &mut Cursor<'_>,
        around: Around,
    ) -> Result<Stated, Stop>
        requires ready { P.is_ready self.now.parts.now }
        requires open { N.is_open self.now.inner.now }
        requires around { IsAround state.old around }
        ensures { IsRead stated_of IsStated state.old state.new cursor.new result (definition.switch_in (P.asks self.now.parts.now self.now.room) (N.inner self.now.inner.now) (around_of state.old around) (meaning state.old) cursor.old) }
    {
        let from = cursor.mark();
        cursor.advance();
        cursor.punct(punct::LEFT_PARENTHESIS)?;
        let condition = self.inner.condition(state, cursor, Target::Promoted)?;
        let of = type_of_tree(state, condition)?;
        let body = self.sub_in(state, cursor, in_a_switch(cursor.alloc(), of, &around))?;
        self.parts.leave_block(state, self.room)?;
        let all = two_trees(cursor.alloc(), condition, body.tree)?;
        let tree = statement_tree(state, production::SWITCH, all, &from, cursor)?;
        Ok(Stated { tree, around })
    }

    // Behind what a loop has before its body, with a scope that was entered.
    #[tactic(auto, using(cxx_cursor::proofs::Kept::later_trans, cxx_cursor::proofs::Kept::later_refl, crate::proofs::Kept::around_kept, crate::proofs::Kept::around_later, cxx_cursor::proofs::Kept::trees_kept, cxx_cursor::proofs::Kept::trees_later), unfolding(crate::specs::Statements::loop_ended))]
    fn loop_ended(
        &self,
        state: &mut State,
        cursor: &mut Cursor<'_>,
        number: u8,
        from: &Cursor<'_>,
        before: TreeIdList,
        around: Around,
    ) -> Result<Stated, Stop>
        requires ready { P.is_ready self.now.parts.now }
        requires open { N.is_open self.now.inner.now }
        requires around { IsAround state.old around }
        requires before { AreTreesHeld state.old before }
        ensures { IsRead stated_of IsStated state.old state.new cursor.new result (definition.loop_ended (P.asks self.now.parts.now self.now.room) (N.inner self.now.inner.now) number from.now (trees_held state.old before) (around_of state.old around) (meaning state.old) cursor.old) }
    {
        let in_loop = around.in_loop;
        let breaks = around.breaks;
        let body = self.sub_in(state, cursor, in_a_loop(around))?;
        self.parts.leave_block(state, self.room)?;
        let tree = longer_tree(state, number, before, body.tree, from, cursor)?;
        Ok(Stated {
            tree,
            around: behind_loop(in_loop, breaks, body.around),
        })
    }

    // 6.5.1
    #[tactic(auto, using(cxx_cursor::proofs::Kept::later_trans, cxx_cursor::proofs::Kept::later_refl, crate::proofs::Kept::around_kept, crate::proofs::Kept::around_later), unfolding(crate::specs::Statements::while_in))]
    fn while_in(
        &self,
        state: &mut State,
        cursor: &mut Cursor<'_>,
        around: Around,
    ) -> Result<Stated, Stop>
        requires ready { P.is_ready self.now.parts.now }
        requires open { N.is_open self.now.inner.now }
        requires around { IsAround state.old around }
        ensures { IsRead stated_of IsStated state.old state.new cursor.new result (definition.while_in (P.asks self.now.parts.now self.now.room) (N.inner self.now.inner.now) (around_of state.old around) (meaning state.old) cursor.old) }
    {
        let from = cursor.mark();
        cursor.advance();
        cursor.punct(punct::LEFT_PARENTHESIS)?;
        let condition = self.inner.condition(state, cursor, Target::Bool)?;
        let before = one_tree(cursor.alloc(), condition)?;
        self.loop_ended(state, cursor, production::WHILE, &from, before, around)
    }

    // 6.5.2
    #[tactic(auto, using(cxx_cursor::proofs::Kept::later_trans, cxx_cursor::proofs::Kept::later_refl, crate::proofs::Kept::around_kept, crate::proofs::Kept::around_later, crate::proofs::Kept::tree_kept, crate::proofs::Kept::tree_later), unfolding(crate::specs::Statements::do_in))]
    fn do_in(
        &self,
        state: &mut State,
        cursor: &mut Cursor<'_>,
        around: Around,
    ) -> Result<Stated, Stop>
        requires ready { P.is_ready self.now.parts.now }
        requires open { N.is_open self.now.inner.now }
        requires around { IsAround state.old around }
        ensures { IsRead stated_of IsStated state.old state.new cursor.new result (definition.do_in (P.asks self.now.parts.now self.now.room) (N.inner self.now.inner.now) (around_of state.old around) (meaning state.old) cursor.old) }
    {
        let from = cursor.mark();
        cursor.advance();
        let in_loop = around.in_loop;
        let breaks = around.breaks;
        let body = self.sub_in(state, cursor, in_a_loop(around))?;
        keyword_taken(cursor, keyword::WHILE)?;
        cursor.punct(punct::LEFT_PARENTHESIS)?;
        let condition = self.inner.last_condition(state, cursor)?;
        cursor.punct(punct::SEMICOLON)?;
        let all = two_trees(cursor.alloc(), body.tree, condition)?;
        let tree = statement_tree(state, production::DO, all, &from, cursor)?;
        Ok(Stated {
            tree,
            around: behind_loop(in_loop, breaks, body.around),
        })
    }

    // 6.5.3
    #[tactic(auto, using(cxx_cursor::proofs::Kept::later_trans, cxx_cursor::proofs::Kept::later_refl, crate::proofs::Kept::around_kept, crate::proofs::Kept::around_later), unfolding(crate::specs::Statements::for_in))]
    fn for_in(
        &self,
        state: &mut State,
        cursor: &mut Cursor<'_>,
        around: Around,
    ) -> Result<Stated, Stop>
        requires ready { P.is_ready self.now.parts.now }
        requires open { N.is_open self.now.inner.now }
        requires around { IsAround state.old around }
        ensures { IsRead stated_of IsStated state.old state.new cursor.new result (definition.for_in (P.asks self.now.parts.now self.now.room) (N.inner self.now.inner.now) (around_of state.old around) (meaning state.old) cursor.old) }
    {
        let from = cursor.mark();
        cursor.advance();
        cursor.punct(punct::LEFT_PARENTHESIS)?;
        let before = self.inner.loop_parts(state, cursor)?;
        self.loop_ended(state, cursor, production::FOR, &from, before, around)
    }

    // One of them, or a statement in which no other stands.
    #[tactic(auto, using(cxx_cursor::proofs::Kept::later_trans, cxx_cursor::proofs::Kept::later_refl), unfolding(crate::specs::Statements::keyword_in))]
    fn keyword_in(
        &self,
        state: &mut State,
        cursor: &mut Cursor<'_>,
        around: Around,
    ) -> Result<Stated, Stop>
        requires ready { P.is_ready self.now.parts.now }
        requires open { N.is_open self.now.inner.now }
        requires around { IsAround state.old around }
        ensures { IsRead stated_of IsStated state.old state.new cursor.new result (definition.keyword_in (P.asks self.now.parts.now self.now.room) (N.inner self.now.inner.now) (around_of state.old around) (meaning state.old) cursor.old) }
    {
        if is_keyword(keyword::IF, cursor.kind()) {
            return self.if_in(state, cursor, around);
        }
        if is_keyword(keyword::SWITCH, cursor.kind()) {
            return self.switch_in(state, cursor, around);
        }
        if is_keyword(keyword::WHILE, cursor.kind()) {
            return self.while_in(state, cursor, around);
        }
        if is_keyword(keyword::DO, cursor.kind()) {
            return self.do_in(state, cursor, around);
        }
        if is_keyword(keyword::FOR, cursor.kind()) {
            return self.for_in(state, cursor, around);
        }
        flat_in(self.parts, state, cursor, around, self.room)
    }

    // One without labels.
    #[tactic(auto, using(cxx_cursor::proofs::Kept::later_trans, cxx_cursor::proofs::Kept::later_refl), unfolding(crate::specs::Statements::unlabelled_in))]
    fn unlabelled_in(
        &self,
        state: &mut State,
        cursor: &mut Cursor<'_>,
        around: Around,
    ) -> Result<Stated, Stop>
        requires ready { P.is_ready self.now.parts.now }
        requires open { N.is_open self.now.inner.now }
        requires around { IsAround state.old around }
        ensures { IsRead stated_of IsStated state.old state.new cursor.new result (definition.unlabelled_in (P.asks self.now.parts.now self.now.room) (N.inner self.now.inner.now) (around_of state.old around) (meaning state.old) cursor.old) }
    {
        if is_punct(punct::LEFT_BRACE, cursor.kind()) {
            return self.block_in(state, cursor, around);
        }
        if is_punct(punct::SEMICOLON, cursor.kind()) {
            return empty_in(state, cursor, around);
        }
        self.keyword_in(state, cursor, around)
    }

    #[tactic(auto, using(cxx_cursor::proofs::Kept::later_trans, cxx_cursor::proofs::Kept::later_refl, crate::proofs::Kept::around_kept, crate::proofs::Kept::around_later, cxx_cursor::proofs::Kept::trees_kept, cxx_cursor::proofs::Kept::trees_later, cxx_cursor::proofs::Kept::trees_append, cxx_cursor::proofs::Kept::trees_below_append), unfolding(crate::specs::Statements::statement_in))]
    fn statement_in(
        &self,
        state: &mut State,
        cursor: &mut Cursor<'_>,
        around: Around,
    ) -> Result<Stated, Stop>
        requires ready { P.is_ready self.now.parts.now }
        requires open { N.is_open self.now.inner.now }
        requires around { IsAround state.old around }
        ensures { IsRead stated_of IsStated state.old state.new cursor.new result (definition.statement_in (P.asks self.now.parts.now self.now.room) (N.inner self.now.inner.now) (around_of state.old around) (meaning state.old) cursor.old) }
    {
        let from = cursor.mark();
        let labels = labels_in(self.parts, state, cursor, around, self.room)?;
        let one = self.unlabelled_in(state, cursor, labels.around)?;
        labelled(state, labels.trees, one, &from, cursor)
    }

    /// A statement that is no block, in another one, in a scope of its own (6.4, 6.5).
    #[tactic(auto, using(cxx_cursor::proofs::Kept::later_trans, cxx_cursor::proofs::Kept::later_refl, crate::proofs::Kept::around_kept, crate::proofs::Kept::around_later, crate::proofs::Kept::tree_kept, crate::proofs::Kept::tree_later), unfolding(crate::specs::Statements::sub_statement_at))]
    pub fn sub_statement_at(
        &self,
        state: &mut State,
        cursor: &mut Cursor<'_>,
        around: Around,
    ) -> Result<Stated, Stop>
        requires ready { P.is_ready self.now.parts.now }
        requires open { N.is_open self.now.inner.now }
        requires around { IsAround state.old around }
        ensures { IsRead stated_of IsStated state.old state.new cursor.new result (definition.sub_statement_at (P.asks self.now.parts.now self.now.room) (N.inner self.now.inner.now) (around_of state.old around) (meaning state.old) cursor.old) }
    {
        self.parts.enter_block(state, self.room)?;
        let one = self.statement_in(state, cursor, around)?;
        self.parts.leave_block(state, self.room)?;
        Ok(one)
    }

    #[tactic(auto, using(cxx_cursor::proofs::Kept::later_trans, cxx_cursor::proofs::Kept::later_refl, cxx_cursor::proofs::Kept::trees_kept, cxx_cursor::proofs::Kept::trees_later, cxx_cursor::proofs::Kept::trees_append, cxx_cursor::proofs::Kept::trees_below_append), unfolding(crate::specs::Statements::statement_step))]
    fn statement_step(
        &self,
        state: &mut State,
        cursor: &mut Cursor<'_>,
        so_far: Several,
    ) -> Result<Turn<Several, Several>, Stop>
        requires ready { P.is_ready self.now.parts.now }
        requires open { N.is_open self.now.inner.now }
        requires so_far { IsSeveral state.old so_far }
        ensures { IsRead several_turn IsSeveralTurn state.old state.new cursor.new result (definition.statement_step (P.asks self.now.parts.now self.now.room) (N.inner self.now.inner.now) (several_of state.old so_far) (meaning state.old) cursor.old) }
    {
        if is_punct(punct::RIGHT_BRACE, cursor.kind()) {
            cursor.advance();
            return Ok(Turn::Done(so_far));
        }
        let one = self.statement_in(state, cursor, so_far.around)?;
        Ok(Turn::More(Several {
            trees: with_tree(so_far.trees, one.tree)?,
            around: one.around,
        }))
    }

    /// Statements up to the `}`, in the scope where the reader stands (6.3).
    #[tactic(auto, using(cxx_cursor::proofs::Loops::turn, cxx_cursor::proofs::Loops::no_turn, cxx_cursor::proofs::Kept::later_trans, cxx_cursor::proofs::Kept::later_refl), unfolding(crate::specs::Statements::statements_in))]
    pub fn statements_in(
        &self,
        state: &mut State,
        cursor: &mut Cursor<'_>,
        around: Around,
    ) -> Result<Several, Stop>
        requires ready { P.is_ready self.now.parts.now }
        requires open { N.is_open self.now.inner.now }
        requires around { IsAround state.old around }
        ensures { IsRead several_of IsSeveral state.old state.new cursor.new result (definition.statements_in (P.asks self.now.parts.now self.now.room) (N.inner self.now.inner.now) (around_of state.old around) (meaning state.old) cursor.old) }
    {
        let mut so_far = Several {
            trees: Listed::new(cursor.alloc()),
            around,
        };
        for _turn in 0..cursor.count() {
            match self.statement_step(state, cursor, so_far)? {
                Turn::More(next) => so_far = next,
                Turn::Done(all) => return Ok(all),
            }
        }
        let _ = so_far;
        Err(Stop::Fault(cursor.refused()?))
    }

    /// In a scope of their own.
    #[tactic(auto, using(cxx_cursor::proofs::Kept::later_trans, cxx_cursor::proofs::Kept::later_refl, crate::proofs::Kept::around_kept, crate::proofs::Kept::around_later, cxx_cursor::proofs::Kept::trees_kept, cxx_cursor::proofs::Kept::trees_later, cxx_cursor::proofs::Kept::trees_append, cxx_cursor::proofs::Kept::trees_below_append), unfolding(crate::specs::Statements::statements_at))]
    pub fn statements_at(
        &self,
        state: &mut State,
        cursor: &mut Cursor<'_>,
        around: Around,
    ) -> Result<Several, Stop>
        requires ready { P.is_ready self.now.parts.now }
        requires open { N.is_open self.now.inner.now }
        requires around { IsAround state.old around }
        ensures { IsRead several_of IsSeveral state.old state.new cursor.new result (definition.statements_at (P.asks self.now.parts.now self.now.room) (N.inner self.now.inner.now) (around_of state.old around) (meaning state.old) cursor.old) }
    {
        self.parts.enter_block(state, self.room)?;
        let inside = self.statements_in(state, cursor, around)?;
        self.parts.leave_block(state, self.room)?;
        Ok(inside)
    }
}

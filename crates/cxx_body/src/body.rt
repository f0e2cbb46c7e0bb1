//! Who reads what the statements of a body are made of.

ghost use Rattle.cxx_answers.specs.Answers.{constant_here as constant_here_of};
ghost use Rattle.cxx_cursor.specs.Asking.{AnyKnown, IsAsked, IsTreeKnown, itself};
ghost use Rattle.cxx_tree.specs.Held.{meaning, tree};

use crate::expressions::expression_for;
use crate::heads::statement_head;
use crate::phrasing::Phrasing;
use crate::values::converted;
use cxx_answers::constant_here;
use cxx_cursor::Cursor;
use cxx_language::read_local_declaration;
use cxx_model::{Stop, TreeId};
use cxx_statements::{Head, Parts, Purpose, Target};
use cxx_tree::State;

/// A body is read by those who read its expressions and declarations.
#[derive_where(Clone, Copy)]
pub(crate) struct Body<'p, P> {
    pub phrasing: &'p P,
}

// The value of the constant of a label (5.19).
fn value_of(state: &mut State, number: TreeId) -> Result<i128, Stop>
    requires { IsTreeKnown state.old number }
    ensures { IsAsked itself AnyKnown state.old state.new result (constant_here_of (tree state.old number) (meaning state.old)) }
{
    let alloc = state.alloc();
    match constant_here(alloc, state, number) {
        Ok(value) => Ok(value),
        Err(stop) => Err(stop),
    }
}

impl<P: Phrasing> Parts for Body<'_, P> {
    ghost use Rattle.cxx_language.specs.Statements.{parts_at};

    ghost asks = { λ self. parts_at };

    ghost is_ready = { λ self. Unit {0} };

    #[tactic(auto, unfolding(cxx_language::specs::Statements::parts_at))]
    fn head(&self, state: &mut State, cursor: &Cursor<'_>, room: u32) -> Result<Head, Stop> {
        statement_head(self.phrasing, state, cursor, room)
    }

    #[tactic(auto, unfolding(cxx_language::specs::Statements::parts_at))]
    fn declaration(
        &self,
        state: &mut State,
        cursor: &mut Cursor<'_>,
        room: u32,
    ) -> Result<TreeId, Stop> {
        read_local_declaration(self.phrasing, state, cursor, room)
    }

    #[tactic(auto, unfolding(cxx_language::specs::Statements::parts_at))]
    fn expression(
        &self,
        state: &mut State,
        cursor: &mut Cursor<'_>,
        purpose: Purpose,
        room: u32,
    ) -> Result<TreeId, Stop> {
        expression_for(self.phrasing, state, cursor, purpose, room)
    }

    #[tactic(auto, unfolding(cxx_language::specs::Statements::parts_at))]
    fn converted(
        &self,
        state: &mut State,
        target: Target,
        number: TreeId,
        _room: u32,
    ) -> Result<TreeId, Stop> {
        converted(state, target, number)
    }

    #[tactic(auto, unfolding(cxx_language::specs::Statements::parts_at))]
    fn value(&self, state: &mut State, number: TreeId, _room: u32) -> Result<i128, Stop> {
        value_of(state, number)
    }

    #[tactic(auto, using(crate::proofs::Asked::asked), unfolding(cxx_language::specs::Statements::parts_at))]
    fn enter_block(&self, state: &mut State, _room: u32) -> Result<(), Stop> {
        state.enter_block(None)
    }

    #[tactic(auto, unfolding(cxx_language::specs::Statements::parts_at))]
    fn leave_block(&self, state: &mut State, _room: u32) -> Result<(), Stop> {
        state.leave_block();
        Ok(())
    }
}

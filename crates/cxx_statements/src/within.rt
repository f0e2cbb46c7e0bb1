//! What stands behind a bracket that was taken, and a statement in another one, which count for the nesting.

ghost use Rattle.cxx_reading.specs.State.{CxxState};
ghost use Rattle.cxx_statements.specs.Statements as definition;
ghost use Rattle.cxx_statements.specs.Views.{IsAround, IsSeveral, IsStated, IsTarget, around_of, several_of, stated_of, target_of};
ghost use Rattle.cxx_cursor.specs.Asking.{IsTreeKnown};
ghost use Rattle.cxx_cursor.specs.Reading.{IsRead};
ghost use Rattle.cxx_cursor.specs.Views.{AreTreesHeld, trees_held};
ghost use Rattle.cxx_tree.specs.Held.{meaning, tree};

use crate::around::{Around, Several, Stated};
use crate::parts::Target;
use cxx_cursor::Cursor;
use cxx_model::{Stop, TreeId, TreeIdList};
use cxx_tree::State;

/// The readers there. `inner` is the definition that they follow.
pub(crate) trait Within {
    ghost inner: { Self → definition.Within CxxState };

    ghost is_open: { Self → Type 0 };

    /// A condition behind the `(`, up to its end, in a scope that is entered for it (6.4).
    fn condition(
        &self,
        state: &mut State,
        cursor: &mut Cursor<'_>,
        target: Target,
    ) -> Result<TreeId, Stop>
        requires open { is_open self.now }
        requires target { IsTarget state.old target }
        ensures { IsRead tree IsTreeKnown state.old state.new cursor.new result ((inner self.now).condition (target_of state.old target) (meaning state.old) cursor.old) };

    /// Behind the `(` of a `do` (6.5.2).
    fn last_condition(&self, state: &mut State, cursor: &mut Cursor<'_>) -> Result<TreeId, Stop>
        requires { is_open self.now }
        ensures { IsRead tree IsTreeKnown state.old state.new cursor.new result ((inner self.now).last_condition (meaning state.old) cursor.old) };

    /// Behind the `(` of a `for`, in a scope that is entered for it: its three parts (6.5.3).
    fn loop_parts(&self, state: &mut State, cursor: &mut Cursor<'_>) -> Result<TreeIdList, Stop>
        requires { is_open self.now }
        ensures { IsRead trees_held AreTreesHeld state.old state.new cursor.new result ((inner self.now).loop_parts (meaning state.old) cursor.old) };

    /// A statement that is no block, in a scope of its own (6.4, 6.5).
    fn sub_statement(
        &self,
        state: &mut State,
        cursor: &mut Cursor<'_>,
        around: Around,
    ) -> Result<Stated, Stop>
        requires open { is_open self.now }
        requires around { IsAround state.old around }
        ensures { IsRead stated_of IsStated state.old state.new cursor.new result ((inner self.now).sub_statement (around_of state.old around) (meaning state.old) cursor.old) };

    /// Behind the `{`, in a scope of its own (6.3).
    fn statements(
        &self,
        state: &mut State,
        cursor: &mut Cursor<'_>,
        around: Around,
    ) -> Result<Several, Stop>
        requires open { is_open self.now }
        requires around { IsAround state.old around }
        ensures { IsRead several_of IsSeveral state.old state.new cursor.new result ((inner self.now).statements (around_of state.old around) (meaning state.old) cursor.old) };
}

ghost use Rattle.cxx_heads.specs.Heads.{head_at, is_declared_condition};
ghost use Rattle.cxx_language.specs.Asked.{asked, inner_at, phrases_at};
ghost use Rattle.cxx_phrases.specs.Initializers.{expression_at};
ghost use Rattle.cxx_cursor.specs.Asking.{AnyKnown, IsTreeKnown, itself};
ghost use Rattle.cxx_cursor.specs.Reading.{IsRead};
ghost use Rattle.cxx_tree.specs.Held.{meaning, tree};

use cxx_cursor::Cursor;
use cxx_heads::Head;
use cxx_language::Declares;
use cxx_model::{Stop, TreeId};
use cxx_phrases::Level;
use cxx_tree::State;

/// Who reads expressions, and tells how a statement begins. What a reader takes is room for so many brackets inside one
/// another.
pub trait Phrasing: Declares {
    /// What begins ahead where no statement begins by its keyword (6.8). No token is taken.
    fn head(&self, state: &mut State, cursor: &Cursor<'_>, room: u32) -> Result<Head, Stop>
        ensures { IsRead itself AnyKnown state.old state.new cursor.now result (head_at (asked room).kinds (inner_at room).types (meaning state.old) cursor.now) };

    /// Whether a condition is a declaration (6.4). No token is taken.
    fn is_condition(&self, state: &mut State, cursor: &Cursor<'_>, room: u32) -> Result<bool, Stop>
        ensures { IsRead itself AnyKnown state.old state.new cursor.now result (is_declared_condition (asked room).kinds (inner_at room).types (meaning state.old) cursor.now) };

    /// An expression, which may hold what its level allows (5).
    fn phrase(
        &self,
        state: &mut State,
        cursor: &mut Cursor<'_>,
        level: Level,
        room: u32,
    ) -> Result<TreeId, Stop>
        ensures { IsRead tree IsTreeKnown state.old state.new cursor.new result (expression_at (phrases_at room) (inner_at room).phrases level (meaning state.old) cursor.old) };
}

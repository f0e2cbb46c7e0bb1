//! How default arguments are read (8.3.6).

ghost use Rattle.std.specs.Prelude.{◌<◌, length};
ghost use Rattle.cxx_reading.specs.Kinds as definition;
ghost use Rattle.cxx_reading.specs.State.{CxxState};
ghost use Rattle.cxx_cursor.specs.Reading.{IsRead};
ghost use Rattle.cxx_cursor.specs.Views.{AreTreesHeld, trees_held};
ghost use Rattle.cxx_tree.specs.Held.{meaning, type_of};

use cxx_cursor::Cursor;
use cxx_model::{Stop, TreeIdList, TypeId};
use cxx_tree::State;

/// The reader of default arguments. `fallback_by` is the definition that it follows.
pub trait Defaults {
    ghost fallback_by: { Self → definition.Fallback CxxState };

    ghost is_open: { Self → Type 0 };

    /// From the `=` behind the declared parameter with an index and a type (8.3.6).
    fn fallback(
        &self,
        state: &mut State,
        cursor: &mut Cursor<'_>,
        index: usize,
        of: TypeId,
    ) -> Result<TreeIdList, Stop>
        requires open { is_open self.now }
        requires known { of.0 < length (state.old).types }
        ensures { IsRead trees_held AreTreesHeld state.old state.new cursor.new result ((fallback_by self.now) index (type_of state.old of) (meaning state.old) cursor.old) };
}

ghost use Rattle.std.specs.Prelude.{◌≡◌, ◌<◌, length};
ghost use Rattle.cxx_phrases.specs.Phrases as definition;
ghost use Rattle.cxx_phrases.specs.Views.{IsSized, IsWritten, sized_of, written_of};
ghost use Rattle.cxx_reading.specs.State.{CxxState};
ghost use Rattle.cxx_reading.specs.Tokens.{path_ahead};
ghost use Rattle.cxx_cursor.specs.Asking.{AnyKnown, IsAsked, IsTreeKnown, IsTypeKnown, itself};
ghost use Rattle.cxx_cursor.specs.Reading.{IsRead};
ghost use Rattle.cxx_tree.specs.Arena.{AreTreesBelow, IsNodeBelow, tree_over};
ghost use Rattle.cxx_tree.specs.Held.{meaning, tree, trees, type_of};

use crate::level::Level;
use crate::shape::TypeShape;
use cxx_cursor::Cursor;
use cxx_model::{Kind, Node, Stop, TreeId, TreeIdList, TypeId};
use cxx_tree::State;

/// What a reader of expressions asks of its user. `asks` and `inner` are the definitions that the answers follow: those of
/// what is asked, and those of the readers behind a bracket or an operator that was taken.
pub trait Phrases {
    ghost asks: { Self → definition.Phrases CxxState };

    ghost inner: { Self → definition.Inner CxxState };

    ghost is_ready: { Self → Type 0 };

    /// How many more brackets and operators that count for the nesting there may be.
    fn room(&self) -> u32
        ensures { result ≡ (asks self.now).room };

    /// What the name ahead is to a reader (3.4).
    fn kind(&self, state: &mut State, ahead: &Cursor<'_>) -> Result<Kind, Stop>
        requires { is_ready self.now }
        ensures { IsAsked itself AnyKnown state.old state.new result ((asks self.now).kind (path_ahead ahead.now) (meaning state.old)) };

    /// The type that the name ahead names, where it is of that kind (7.1.5.2).
    fn type_named(&self, state: &mut State, ahead: &Cursor<'_>) -> Result<TypeId, Stop>
        requires { is_ready self.now }
        ensures { IsAsked type_of IsTypeKnown state.old state.new result ((asks self.now).type_named (path_ahead ahead.now) (meaning state.old)) };

    /// An expression was read as a whole (5): it is added with what it means.
    fn whole(&self, state: &mut State, node: Node) -> Result<TreeId, Stop>
        requires ready { is_ready self.now }
        requires below { IsNodeBelow (length (state.old).types) node }
        requires children { AreTreesBelow (length (trees state.old)) node.children }
        ensures { IsAsked tree IsTreeKnown state.old state.new result ((asks self.now).whole (tree_over (state.old).types (trees state.old) node) (meaning state.old)) };

    /// A type, with the trees of what it is written of (8.1).
    fn type_id(
        &self,
        state: &mut State,
        cursor: &mut Cursor<'_>,
    ) -> Result<(TypeId, TreeIdList), Stop>
        requires { is_ready self.now }
        ensures { IsRead written_of IsWritten state.old state.new cursor.new result ((asks self.now).type_id (meaning state.old) cursor.old) };

    /// An expression behind a bracket or an operator.
    fn inner_expression(
        &self,
        state: &mut State,
        cursor: &mut Cursor<'_>,
        level: Level,
    ) -> Result<TreeId, Stop>
        requires { is_ready self.now }
        ensures { IsRead tree IsTreeKnown state.old state.new cursor.new result ((inner self.now).expression level (meaning state.old) cursor.old) };

    /// What stands behind `sizeof`: the type, where one is written, and the trees of that, or else of the operand (5.3.3).
    fn inner_sized(
        &self,
        state: &mut State,
        cursor: &mut Cursor<'_>,
    ) -> Result<(Option<TypeId>, TreeIdList), Stop>
        requires { is_ready self.now }
        ensures { IsRead sized_of IsSized state.old state.new cursor.new result ((inner self.now).sized (meaning state.old) cursor.old) };

    /// A type behind a bracket (8.1).
    fn inner_type_id(
        &self,
        state: &mut State,
        cursor: &mut Cursor<'_>,
    ) -> Result<(TypeId, TreeIdList), Stop>
        requires { is_ready self.now }
        ensures { IsRead written_of IsWritten state.old state.new cursor.new result ((inner self.now).type_id (meaning state.old) cursor.old) };

    /// Whether a type stands behind a bracket up to its end, behind which the cursor stands then (8.2).
    fn inner_type_passed(
        &self,
        state: &mut State,
        cursor: &mut Cursor<'_>,
    ) -> Result<TypeShape, Stop>
        requires { is_ready self.now }
        ensures { IsRead itself AnyKnown state.old state.new cursor.new result ((inner self.now).type_passed (meaning state.old) cursor.old) };
}

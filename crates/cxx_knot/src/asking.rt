ghost use Rattle.std.specs.Prelude.{◌<◌, ℕ, length};
ghost use Rattle.cxx_knot.specs.Readers.{Offering};
ghost use Rattle.cxx_reading.specs.Reads.{Asks};
ghost use Rattle.cxx_reading.specs.State.{CxxState};
ghost use Rattle.cxx_reading.specs.Trees.{CxxTree};
ghost use Rattle.cxx_cursor.specs.Asking.{AnyKnown, IsAsked, IsTreeKnown, itself};
ghost use Rattle.cxx_tree.specs.Arena.{AreTreesBelow, IsNodeBelow, tree_over};
ghost use Rattle.cxx_tree.specs.Held.{meaning, tree, trees, type_of};

use cxx_model::{Node, Place, Stop, TreeId, TypeId};
use cxx_syntax::Kinds;
use cxx_tree::State;

/// What is asked while a unit is read: of names and declarations, what an expression means, which `wholes` defines, and of
/// default arguments, which `offers` defines.
pub trait Asking: Kinds {
    ghost wholes: { Self → ℕ → CxxTree → Asks CxxState CxxTree };

    ghost offers: { Self → Offering CxxState };

    /// An expression was read as a whole (5): it is added with what it means.
    fn whole(&self, state: &mut State, node: Node, room: u32) -> Result<TreeId, Stop>
        requires ready { Self.is_ready self.now }
        requires below { IsNodeBelow (length (state.old).types) node }
        requires children { AreTreesBelow (length (trees state.old)) node.children }
        ensures { IsAsked tree IsTreeKnown state.old state.new result (wholes self.now room (tree_over (state.old).types (trees state.old) node) (meaning state.old)) };

    /// Whether the default arguments here are read where the outermost class has ended (8.3.6, 9.2 p2).
    fn is_later(&self, state: &mut State) -> Result<bool, Stop>
        requires { Self.is_ready self.now }
        ensures { IsAsked itself AnyKnown state.old state.new result ((offers self.now).is_later (meaning state.old)) };

    /// A default argument of the parameter with an index was passed over.
    fn passed(&self, state: &mut State, index: usize, number: TreeId) -> Result<(), Stop>
        requires ready { Self.is_ready self.now }
        requires number { number.0 < length (trees state.old) }
        ensures { IsAsked itself AnyKnown state.old state.new result ((offers self.now).passed index (tree state.old number) (meaning state.old)) };

    /// A default argument begins, at its `=` (8.3.6): whether another one is being read round it.
    fn begun(&self, state: &mut State, equals: Place) -> Result<bool, Stop>
        requires { Self.is_ready self.now }
        ensures { IsAsked itself AnyKnown state.old state.new result ((offers self.now).begun equals (meaning state.old)) };

    /// A default argument of the parameter with an index and a type was read, and is added as it is converted at its `=`;
    /// `was` is what `begun` answered.
    fn ended(
        &self,
        state: &mut State,
        equals: Place,
        was: bool,
        index: usize,
        of: TypeId,
        number: TreeId,
    ) -> Result<TreeId, Stop>
        requires ready { Self.is_ready self.now }
        requires of { of.0 < length (state.old).types }
        requires number { number.0 < length (trees state.old) }
        ensures { IsAsked tree IsTreeKnown state.old state.new result ((offers self.now).ended equals was index (type_of state.old of) (tree state.old number) (meaning state.old)) };
}

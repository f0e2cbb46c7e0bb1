//! The question of the readers of expressions.

ghost use Rattle.std.specs.Prelude.{◌<◌, length};
ghost use Rattle.cxx_expr.specs.Elaborating as definition;
ghost use Rattle.cxx_cursor.specs.Asking.{IsAsked, IsTreeKnown};
ghost use Rattle.cxx_tree.specs.Arena.{AreTreesBelow, IsNodeBelow, tree_over};
ghost use Rattle.cxx_tree.specs.Held.{meaning, tree, trees};

use crate::elaborating::elaborate;
use cxx_expr::Questions;
use cxx_model::{Node, Stop, TreeId};
use cxx_tree::State;

/// An expression was read as a whole (clause 5): it is added with what it means. It stops as `elaborate` does.
#[tactic(auto, using(crate::proofs::Asked::asked))]
pub fn whole<Q: Questions>(questions: &Q, state: &mut State, node: Node) -> Result<TreeId, Stop>
    requires ready { Q.is_ready questions.now }
    requires below { IsNodeBelow (length (state.old).types) node }
    requires children { AreTreesBelow (length (trees state.old)) node.children }
    ensures { IsAsked tree IsTreeKnown state.old state.new result (definition.elaborate (Q.asks questions.now) (tree_over (state.old).types (trees state.old) node) (meaning state.old)) }
{
    let alloc = state.alloc();
    elaborate(alloc, questions, state, node)
}

//! The parts of a tree.
ghost use Rattle.std.specs.Prelude.{◌≡◌, ◌<◌, length, option_map, IfSome};
ghost use Rattle.cxx_form.specs.Order as text;
ghost use Rattle.cxx_form.specs.Order.{first_tree, parts_of_production};
ghost use Rattle.cxx_reading.specs.Trees.{in_turn};
ghost use Rattle.cxx_tree.specs.Arena.{tree_in, trees_in, AreTreesBelow};
ghost use Rattle.cxx_tree.specs.Held.{tree, trees};

use crate::production::{BLOCK, DECLARATOR};
use cxx_model::TreeId;
use cxx_tree::State;

/// The trees of the parts of a tree.
pub(crate) fn parts_of(state: &State, number: TreeId) -> &[TreeId]
    requires { number.0 < length (trees state.now) }
    ensures is { in_turn (trees_in (trees state.now) result.now) ≡ (tree_in (trees state.now) number.0).children }
    ensures below { AreTreesBelow (length (trees state.now)) result.now }
{
    state.node(number).children.as_slice()
}

/// The first of a production among some trees.
pub(crate) fn first_part(state: &State, parts: &[TreeId], production: u8) -> Option<TreeId>
    requires { AreTreesBelow (length (trees state.now)) parts.now }
    ensures is { option_map (tree state.now) result ≡ first_tree (parts_of_production production (in_turn (trees_in (trees state.now) parts.now))) }
    ensures below { IfSome result (λ number. number.0 < length (trees state.now)) }
{
    for part in parts {
        if state.node(*part).production == production {
            return Some(*part);
        }
    }
    None
}

/// The declarator of a definition of a function.
pub(crate) fn declarator_of(state: &State, number: TreeId) -> Option<TreeId>
    requires { number.0 < length (trees state.now) }
    ensures is { option_map (tree state.now) result ≡ text.declarator_of (tree state.now number) }
    ensures below { IfSome result (λ part. part.0 < length (trees state.now)) }
{
    first_part(state, parts_of(state, number), DECLARATOR)
}

/// The body of a definition of a function.
pub(crate) fn body_of(state: &State, number: TreeId) -> Option<TreeId>
    requires { number.0 < length (trees state.now) }
    ensures is { option_map (tree state.now) result ≡ text.body_of (tree state.now number) }
    ensures below { IfSome result (λ part. part.0 < length (trees state.now)) }
{
    first_part(state, parts_of(state, number), BLOCK)
}

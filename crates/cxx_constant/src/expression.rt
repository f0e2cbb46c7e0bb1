//! The value of an integral constant expression (5.19).
ghost use Rattle.std.specs.Prelude.{◌≡◌, ◌<◌, length};
ghost use Rattle.cxx_model.specs.Facts.Declarations.{graph_at};
ghost use Rattle.cxx_model.specs.Facts.Fitted.{Fitted};
ghost use Rattle.cxx_sizes.specs.Noted.{Notes};
ghost use Rattle.cxx_tree.specs.Arena.{tree_in, trees_of, AreNodesBelow, HaveEarlierChildren};
ghost use Rattle.cxx_constant.specs.Constants as definition;
ghost use Rattle.cxx_constant.specs.Known.{value_at, IsValueBelow};

use crate::fault::ConstantFault;
use crate::known::Known;
use crate::values::value;
use cxx_graph::Graph;
use cxx_model::TreeId;
use cxx_sizes::Layouts;
use cxx_tree::Trees;
use cxx_types::TypeTable;

/// The value of an integral constant expression, by the number of its tree (5.19). The facts of the graph were noted. A
/// fault names the first part from the left that is no constant or gives no value. No memory is taken. A name of an object
/// takes time in proportion to the count of the declarations from its first one to the one that gives its value.
#[tactic(auto, unfolding(crate::specs::Known::part_at, crate::specs::Constants::constant))]
pub fn constant(
    layouts: &Layouts,
    graph: &Graph,
    types: &TypeTable,
    trees: &Trees,
    number: TreeId,
) -> Result<i128, ConstantFault>
    requires known { number.0 < length trees.now }
    requires fitted { Fitted graph.now types.now }
    requires noted { Notes layouts.now (graph_at types.now graph.now).facts }
    requires nodes { AreNodesBelow (length types.now) trees.now }
    requires children { HaveEarlierChildren 0 trees.now }
    ensures is { value_at (trees_of types.now trees.now) result ≡ definition.constant (graph_at types.now graph.now) (tree_in (trees_of types.now trees.now) number.0) }
    ensures below { IsValueBelow (length trees.now) result }
{
    let known = Known {
        layouts,
        graph,
        types,
        trees,
    };
    value(&known, number)
}

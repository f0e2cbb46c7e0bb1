//! Who makes types for what is declared so far.

ghost use Rattle.std.specs.Prelude.{List};
ghost use Rattle.cxx_model.specs.Facts.Fitted.{Fitted};
ghost use Rattle.cxx_model.specs.Facts.Graph.{Graph as Declared};
ghost use Rattle.cxx_model.specs.Types.Numbers.{Keeps};
ghost use Rattle.cxx_model.specs.Types.Trees.{CxxType};

use cxx_graph::Graph;
use cxx_types::TypeTable;

/// Somebody who looks at a graph and makes types of its table. `wants` is what is to hold before, and `makes` says what is
/// answered, by the graph, the types before and the types behind.
pub trait MakesTypes<T> {
    ghost wants: { Self → Declared → List CxxType → Type 0 };

    ghost makes: { Self → Declared → List CxxType → List CxxType → T → Type 0 };

    /// Each number that was given before keeps its type.
    fn make(&self, graph: &Graph, types: &mut TypeTable) -> T
        requires wants { wants self.now graph.now types.old }
        requires fitted { Fitted graph.now types.old }
        ensures keeps { Keeps types.old types.new }
        ensures fitted { Fitted graph.now types.new }
        ensures makes { makes self.now graph.now types.old types.new result };
}

//! What a graph says of classes and enumerations.
ghost use Rattle.std.specs.Prelude.{◌≡◌, ◌<◌, length, Bool};
ghost use Rattle.cxx_model.specs.Facts.Declarations.{graph_at};
ghost use Rattle.cxx_model.specs.Facts.Graph.{enumerations};
ghost use Rattle.cxx_model.specs.Facts.Pending.{is_pending as is_pending_of};
ghost use Rattle.cxx_meaning.specs.Conversions.Enumerations.{promoted as promoted_of};
ghost use Rattle.cxx_meaning.specs.Conversions.Pointers.{is_complete as is_complete_of};

use cxx_graph::Graph;
use cxx_model::{Base, ClassId, EnumId};
use cxx_types::TypeTable;

/// The type to which an enumeration is promoted (4.5).
pub fn promoted(graph: &Graph, types: &TypeTable, number: EnumId) -> Option<Base>
    requires { number.0 < enumerations graph.now.facts }
    ensures { result ≡ promoted_of (graph_at types.now graph.now) number.0 }
{
    let _ = types;
    graph.promoted(number)
}

/// Whether the end of a class was read (9.2).
pub fn is_complete(graph: &Graph, types: &TypeTable, class: ClassId) -> bool
    requires { class.0 < length graph.now.classes }
    ensures { result ≡ is_complete_of (graph_at types.now graph.now) class.0 }
{
    let _ = types;
    graph.complete(class)
}

/// Whether a class must be complete before it is asked (14.7.1). A class that is no specialisation never is.
pub fn is_pending(graph: &Graph, types: &TypeTable, class: ClassId) -> bool
    ensures { result ≡ is_pending_of (graph_at types.now graph.now) class.0 }
{
    let _ = types;
    graph.pending(class)
}

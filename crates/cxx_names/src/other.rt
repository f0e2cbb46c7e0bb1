//! Whether declarations have a name, also one that is no word (12.3.2, 12.4, 13.5).

ghost use Rattle.std.specs.Prelude.{◌≡◌, ◌&&◌, length};
ghost use Rattle.std.specs.List.{slice_get};
ghost use Rattle.cxx_model.specs.Facts.Conflicts.{has_name as has_a_name, same_name as same_name_of};
ghost use Rattle.cxx_model.specs.Facts.Declarations.{name_at};
ghost use Rattle.cxx_model.specs.Facts.Fitted.{IsGraphBelow, IsNameBelow};
ghost use Rattle.cxx_names.specs.Named.{has_the_name};

use crate::entry::declares_name;
use crate::looked::fact_of;
use cxx_graph::Graph;
use cxx_model::{FactId, Name};
use cxx_types::TypeTable;

// Whether a name is another one, which is there.
fn same_name(types: &TypeTable, one: &Name, two: &Name) -> bool
    requires one { IsNameBelow (length types.now) one.now }
    requires two { IsNameBelow (length types.now) two.now }
    ensures { result ≡ (has_a_name (name_at types.now two.now) && same_name_of (name_at types.now one.now) (name_at types.now two.now)) }
{
    match two {
        Name::Unnamed => false,
        Name::Spelled(two) => match one {
            Name::Spelled(one) => one == two,
            _ => false,
        },
        Name::Operator(two) => match one {
            Name::Operator(one) => *one == *two,
            _ => false,
        },
        Name::Conversion(two) => match one {
            Name::Conversion(one) => types.same(*one, *two),
            _ => false,
        },
        Name::Destructor => match one {
            Name::Destructor => true,
            _ => false,
        },
    }
}

/// Whether a declaration has a name.
#[tactic(auto, using(crate::proofs::Clashing::fact_below))]
pub fn has_name(graph: &Graph, types: &TypeTable, number: FactId, name: &Name) -> bool
    requires below { IsGraphBelow (length types.now) graph.now }
    requires name { IsNameBelow (length types.now) name.now }
    ensures { result ≡ has_the_name types.now (name_at types.now name.now) (slice_get graph.now.facts number.0) }
{
    match fact_of(graph, number) {
        Some(fact) => declares_name(fact.what) && same_name(types, &fact.name, name),
        None => false,
    }
}

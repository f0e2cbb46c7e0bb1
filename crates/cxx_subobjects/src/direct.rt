//! Direct bases (10).
ghost use Rattle.std.specs.Prelude.{◌≡◌};
ghost use Rattle.cxx_subobjects.specs.Direct.{direct_base_at, direct_base_named};

use cxx_graph::Graph;
use cxx_model::{ClassId, Entity};

/// A direct base of a class, by its position.
#[derive(Clone, Copy)]
pub(crate) struct DirectBase {
    pub class: ClassId,
    pub parent: ClassId,
    pub index: u32,
}

fn direct_base_in(what: &Entity) -> Option<DirectBase>
    ensures { result ≡ direct_base_named what.now }
{
    match what {
        Entity::Ancestor {
            class,
            parent,
            index,
            ..
        } => Some(DirectBase {
            class: *class,
            parent: *parent,
            index: *index,
        }),
        _ => None,
    }
}

/// The direct base that a fact names.
pub(crate) fn direct_base(graph: &Graph, number: u32) -> Option<DirectBase>
    ensures { result ≡ direct_base_at graph.now.facts number }
{
    let fact = graph.facts().get(number as usize)?;
    direct_base_in(&fact.what)
}

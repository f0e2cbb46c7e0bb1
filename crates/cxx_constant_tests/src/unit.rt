//! A unit without declarations, and the types of its formulas.
ghost use Rattle.std.specs.Prelude.{ℕ, ◌<◌, ◌≤◌, length, IfOk};
ghost use Rattle.cxx_constant_tests.specs.Units.{IsUnit};

use crate::stopped::Stopped;
use cxx_graph::Graph;
use cxx_hash::Key;
use cxx_model::{Base, TypeId};
use cxx_sizes::Layouts;
use cxx_types::TypeTable;
use std::alloc::Global;

#[derive(Drop)]
pub(crate) struct Unit {
    pub graph: Graph,
    pub types: TypeTable,
    pub layouts: Layouts,
    /// There are at least so many types.
    pub known: u64,
}

/// A unit without types.
pub(crate) fn empty_unit(alloc: Global) -> Unit
    ensures { IsUnit result }
{
    Unit {
        graph: Graph::new(alloc, Key::of(&[])),
        types: TypeTable::new(alloc, Key::of(&[])),
        layouts: Layouts::new(alloc),
        known: 0,
    }
}

// How many types there are at least, once a type has a number.
fn raised(known: u64, number: TypeId) -> u64
    ensures { (count : ℕ) → known ≤ count → number.0 < count → result ≤ count }
{
    if number.0 >= known && number.0 < u64::MAX {
        number.0 + 1
    } else {
        known
    }
}

/// A type of clause 3.9.1.
pub(crate) fn with_plain(unit: Unit, base: Base) -> Result<(Unit, TypeId), Stopped>
    requires { IsUnit unit }
    ensures { IfOk result (λ made. IsUnit made.0) }
{
    let Unit {
        graph,
        mut types,
        layouts,
        known,
    } = unit;
    let number = types.plain(base)?;
    let unit = Unit {
        graph,
        types,
        layouts,
        known: raised(known, number),
    };
    Ok((unit, number))
}

/// A pointer to a type.
pub(crate) fn with_pointer(unit: Unit, to: TypeId) -> Result<(Unit, TypeId), Stopped>
    requires { IsUnit unit }
    ensures { IfOk result (λ made. IsUnit made.0) }
{
    if to.0 >= unit.known {
        return Err(Stopped::IllRow);
    }
    let Unit {
        graph,
        mut types,
        layouts,
        known,
    } = unit;
    let number = types.pointer_to(to)?;
    let unit = Unit {
        graph,
        types,
        layouts,
        known: raised(known, number),
    };
    Ok((unit, number))
}

//! The subobjects of a class that are of a base class (10.1).
ghost use Rattle.std.specs.Prelude.{◌≡◌, ◌<◌, ◌++◌, length, ℕ, List, IfOk, OnOk};
ghost use Rattle.std.specs.BTreeMap.{get};
ghost use Rattle.std.specs.Ordering.{nat_cmp};
ghost use Rattle.cxx_model.specs.Facts.Declarations.{graph_at};
ghost use Rattle.cxx_subobjects.specs.Direct.{direct_base_at, through_base};
ghost use Rattle.cxx_subobjects.specs.Paths.{subobjects};
ghost use Rattle.cxx_subobjects.specs.Reached.{along};
ghost use Rattle.cxx_subobjects.specs.Table.{AreKnown, IsTable};

use crate::direct::direct_base;
use crate::reached::reached;
use crate::table::Table;
use cxx_graph::Graph;
use cxx_model::{ClassId, NumberList, OutOfMemory};
use cxx_types::TypeTable;
use std::alloc::Global;

/// How often a class is a base subobject of another (10.1), and where: by the positions of the direct bases that lead to
/// it, from 1.
#[derive(Drop)]
pub enum Subobjects {
    None,
    /// The only path.
    One(NumberList),
    /// The first two paths, in the order of their positions.
    Several(NumberList, NumberList),
}

// The first two paths of each class, by one more fact.
fn count(table: &mut Table, graph: &Graph, number: u32) -> Result<(), OutOfMemory>
    requires { AreKnown table.old.steps.items (get nat_cmp table.old.known) }
    ensures base { table.new.base ≡ table.old.base }
    ensures known { OnOk result (AreKnown table.new.steps.items (get nat_cmp table.new.known)) }
    ensures table { OnOk result ((paths : ℕ → List (List ℕ)) → IsTable table.old.base.0 table.old.steps.items (get nat_cmp table.old.known) paths → IsTable table.old.base.0 table.new.steps.items (get nat_cmp table.new.known) (λ class. paths class ++ through_base paths class (direct_base_at graph.now.facts number))) }
{
    match direct_base(graph, number) {
        None => Ok(()),
        Some(direct) => table.add(direct),
    }
}

// The first two paths of each class, by the facts of some bases, of which the last one comes first.
fn counted(alloc: Global, graph: &Graph, base: ClassId, order: &[u32]) -> Result<Table, OutOfMemory>
    ensures base { IfOk result (λ table. table.base ≡ base) }
    ensures known { IfOk result (λ table. AreKnown table.steps.items (get nat_cmp table.known)) }
    ensures table { IfOk result (λ table. IsTable base.0 table.steps.items (get nat_cmp table.known) (along graph.now.facts base.0 order.now)) }
{
    let mut table = Table::new(alloc, base);
    for done in 0..order.len() {
        count(&mut table, graph, order[order.len() - 1 - done])?;
    }
    Ok(table)
}

/// How often another class is a base subobject of a class, and by which positions of bases (10.1); a class is one of itself,
/// by no position. It takes time for each base once, however many subobjects there are.
pub fn base_subobjects(
    alloc: Global,
    graph: &Graph,
    types: &TypeTable,
    class: ClassId,
    base: ClassId,
) -> Result<Subobjects, OutOfMemory>
    requires class_known { class.0 < length graph.now.classes }
    requires base_known { base.0 < length graph.now.classes }
    ensures { IfOk result (λ found. found ≡ subobjects (graph_at types.now graph.now) class.0 base.0) }
{
    let _ = types;
    let order = reached(alloc, graph, class)?;
    let table = counted(alloc, graph, base, &order)?;
    table.found(alloc, class)
}

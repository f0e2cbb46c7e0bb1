//! Operators and their candidates.

ghost use Rattle.std.specs.Prelude.{◌≤◌, length};
ghost use Rattle.cxx_builtin.specs.Plans.{AreOperandsBelow};
ghost use Rattle.cxx_model.specs.Facts.Fitted.{Fitted};

use crate::stopped::Stopped;
use crate::texts::{text_of, text_of_needed};
use cxx_candidates::built_in_candidates;
use cxx_graph::Graph;
use cxx_model::{OperandList, Wait, punct};
use cxx_types::TypeTable;
use std::alloc::Global;

/// The number of an operator by its spelling (2.12); that of `[]` is the number of `[`.
pub(crate) fn operator_of(spelling: &[u8]) -> Result<u8, Stopped> {
    let text = spelling.strip_suffix(b"]").unwrap_or(spelling);
    match punct::SPELLINGS.iter().position(|entry| text == *entry) {
        Some(number) => Ok(number as u8),
        None => Err(Stopped::IllRow),
    }
}

/// The candidates for an operator and its operands, as a text.
pub(crate) fn listed(
    alloc: Global,
    graph: &Graph,
    types: &mut TypeTable,
    operator: u8,
    operands: &OperandList,
) -> Result<String, Stopped>
    requires below { AreOperandsBelow (length types.old) operands.now }
    requires fitted { Fitted graph.now types.old }
    ensures fitted { Fitted graph.now types.new }
    ensures grown { length types.old ≤ length types.new }
{
    match built_in_candidates(alloc, graph, types, operator, operands) {
        Ok(lists) => text_of(alloc, types, lists.as_slice()),
        Err(Wait::Needs(class)) => text_of_needed(alloc, class),
        Err(Wait::OutOfMemory) => Err(Stopped::OutOfMemory),
    }
}

ghost use Rattle.std.specs.Prelude.{◌<◌, length};
ghost use Rattle.cxx_model.specs.Facts.Declarations.{graph_at};
ghost use Rattle.cxx_model.specs.Facts.Fitted.{Fitted};
ghost use Rattle.cxx_meaning.specs.Conversions.BuiltIn as definition;
ghost use Rattle.cxx_meaning.specs.Conversions.Conditional.{conditional as conditional_of};
ghost use Rattle.cxx_builtin.specs.Built.{Answers};
ghost use Rattle.cxx_builtin.specs.Plans.{AreOperandsBelow, operands_at};
ghost use Rattle.cxx_standard.specs.Views.{operand_at};

use crate::conditional::conditional;
use crate::making::built;
use crate::result::planned;
use cxx_graph::Graph;
use cxx_model::{BuiltIn, ClassId, Operand, OperandList, Wait};
use cxx_types::TypeTable;
use std::alloc::Global;

/// Why an operator gives no result.
#[derive(Clone, Copy)]
pub enum ResultFault {
    /// Clause 5 gives the operands no meaning.
    NoFit,
    /// The class must be complete first (14.7.1).
    Needs(ClassId),
    OutOfMemory,
}

/// What an operator does with operands that are of no class (clause 5): the types to which they are converted, and the
/// type of the whole. `++` and `--` behind their operand have an operand of type `int` as the second. Types are only
/// added to the table.
pub fn built_in_result(
    alloc: Global,
    graph: &Graph,
    types: &mut TypeTable,
    operator: u8,
    operands: &OperandList,
) -> Result<BuiltIn, ResultFault>
    requires known { AreOperandsBelow (length types.old) operands.now }
    requires fitted { Fitted graph.now types.old }
    ensures { Answers graph.now types.old types.new result (definition.built_in_result (graph_at types.old graph.now) operator (operands_at types.old operands.now)) }
{
    match planned(alloc, graph, types, operator, operands.as_slice()) {
        Err(Wait::Needs(class)) => Err(ResultFault::Needs(class)),
        Err(Wait::OutOfMemory) => Err(ResultFault::OutOfMemory),
        Ok(None) => Err(ResultFault::NoFit),
        Ok(Some(plan)) => match built(alloc, graph, types, plan) {
            Ok(whole) => Ok(whole),
            Err(_) => Err(ResultFault::OutOfMemory),
        },
    }
}

/// What the second and the third operand of the conditional operator become, and the type of the whole, where neither has
/// to be converted to a class (5.16). The first operand is converted to `bool`. Types are only added to the table.
pub fn conditional_result(
    alloc: Global,
    graph: &Graph,
    types: &mut TypeTable,
    one: Operand,
    two: Operand,
) -> Result<BuiltIn, ResultFault>
    requires one_known { one.of.0 < length types.old }
    requires two_known { two.of.0 < length types.old }
    requires fitted { Fitted graph.now types.old }
    ensures { Answers graph.now types.old types.new result (conditional_of (graph_at types.old graph.now) (operand_at types.old one) (operand_at types.old two)) }
{
    match conditional(alloc, graph, types, one, two) {
        Err(Wait::Needs(class)) => Err(ResultFault::Needs(class)),
        Err(Wait::OutOfMemory) => Err(ResultFault::OutOfMemory),
        Ok(None) => Err(ResultFault::NoFit),
        Ok(Some(plan)) => match built(alloc, graph, types, plan) {
            Ok(whole) => Ok(whole),
            Err(_) => Err(ResultFault::OutOfMemory),
        },
    }
}

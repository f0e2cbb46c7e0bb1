//! What operators and casts do with operands, whose types are made in the table of the state (clause 5).

ghost use Rattle.std.specs.Prelude.{◌<◌, length};
ghost use Rattle.cxx_expr.specs.Built.{MakesBuilt};
ghost use Rattle.cxx_expr.specs.Casting.{MakesCast};
ghost use Rattle.cxx_expr.specs.Views.{AreOperandsBelow, operands_in};
ghost use Rattle.cxx_meaning.specs.Conversions.BuiltIn.{built_in_result as built_in_result_of};
ghost use Rattle.cxx_meaning.specs.Conversions.Casts.{cast as cast_of};
ghost use Rattle.cxx_meaning.specs.Conversions.Conditional.{conditional as conditional_of};
ghost use Rattle.cxx_standard.specs.Views.{operand_at};
ghost use Rattle.cxx_tree.specs.Held.{meaning, type_of};

use cxx_builtin::{BuiltIn, ResultFault, built_in_result, conditional_result};
use cxx_casts::{CastSteps, cast};
use cxx_graph::Graph;
use cxx_model::{Operand, OperandList, TypeId, Wait};
use cxx_tree::{MakesTypes, State};
use cxx_types::TypeTable;
use std::alloc::Global;

// An operator with its operands.
#[derive(Drop)]
struct Operated<'o> {
    alloc: Global,
    operator: u8,
    operands: &'o OperandList,
}

impl MakesTypes<Result<BuiltIn, ResultFault>> for Operated<'_> {
    ghost use Rattle.std.specs.Prelude.{length};
    ghost use Rattle.cxx_builtin.specs.Built.{Means};
    ghost use Rattle.cxx_builtin.specs.Plans.{AreOperandsBelow as AreOperandsThere, operands_at};
    ghost use Rattle.cxx_meaning.specs.Conversions.BuiltIn.{built_in_result};
    ghost use Rattle.cxx_model.specs.Facts.Declarations.{graph_at};

    ghost wants = { λ self graph types. AreOperandsThere (length types) self.operands.now };

    ghost makes = { λ self graph old new result. Means new result (built_in_result (graph_at old graph) self.operator (operands_at old self.operands.now)) };

    fn make(&self, graph: &Graph, types: &mut TypeTable) -> Result<BuiltIn, ResultFault> {
        built_in_result(self.alloc, graph, types, self.operator, self.operands)
    }
}

// The second and the third operand of the conditional operator.
#[derive(Drop)]
struct Arms {
    alloc: Global,
    one: Operand,
    two: Operand,
}

impl MakesTypes<Result<BuiltIn, ResultFault>> for Arms {
    ghost use Rattle.std.specs.Prelude.{length, ◌<◌};
    ghost use Rattle.cxx_builtin.specs.Built.{Means};
    ghost use Rattle.cxx_meaning.specs.Conversions.Conditional.{conditional};
    ghost use Rattle.cxx_model.specs.Facts.Declarations.{graph_at};
    ghost use Rattle.cxx_standard.specs.Views.{operand_at};

    ghost wants = { λ self graph types. (self.one.of.0 < length types) × (self.two.of.0 < length types) };

    ghost makes = { λ self graph old new result. Means new result (conditional (graph_at old graph) (operand_at old self.one) (operand_at old self.two)) };

    fn make(&self, graph: &Graph, types: &mut TypeTable) -> Result<BuiltIn, ResultFault> {
        conditional_result(self.alloc, graph, types, self.one, self.two)
    }
}

// An operand that is cast to a type.
#[derive(Drop)]
struct Converted {
    alloc: Global,
    // Whether a class has one base alone of the class from which it is cast (5.2.9).
    is_single: bool,
    from: Operand,
    to: TypeId,
}

impl MakesTypes<Result<Option<CastSteps>, Wait>> for Converted {
    ghost use Rattle.std.specs.Prelude.{length, ◌<◌};
    ghost use Rattle.cxx_casts.specs.Made.{IsCast};
    ghost use Rattle.cxx_meaning.specs.Conversions.Casts.{cast};
    ghost use Rattle.cxx_model.specs.Facts.Declarations.{graph_at};
    ghost use Rattle.cxx_model.specs.Types.Numbers.{type_at};
    ghost use Rattle.cxx_standard.specs.Views.{operand_at};

    ghost wants = { λ self graph types. (self.from.of.0 < length types) × (self.to.0 < length types) };

    ghost makes = { λ self graph old new result. IsCast new result (cast (graph_at old graph) self.is_single (operand_at old self.from) (type_at old self.to.0)) };

    fn make(&self, graph: &Graph, types: &mut TypeTable) -> Result<Option<CastSteps>, Wait> {
        cast(self.alloc, graph, types, self.is_single, self.from, self.to)
    }
}

/// What an operator does with operands of no class (clause 5).
#[tactic(auto, using(crate::proofs::Built::operands_there, crate::proofs::Built::operator_means))]
pub fn built_in_here(
    alloc: Global,
    state: &mut State,
    operator: u8,
    operands: &OperandList,
) -> Result<BuiltIn, ResultFault>
    requires { AreOperandsBelow (length (state.old).types) operands.now }
    ensures { MakesBuilt state.old state.new result (built_in_result_of (meaning state.old).graph operator (operands_in (state.old).types operands.now)) }
{
    state.make(&Operated {
        alloc,
        operator,
        operands,
    })
}

/// What the second and the third operand of the conditional operator become (5.16).
#[tactic(auto, unfolding(cxx_tree::specs::Held::meaning))]
pub fn conditional_here(
    alloc: Global,
    state: &mut State,
    one: Operand,
    two: Operand,
) -> Result<BuiltIn, ResultFault>
    requires one_known { one.of.0 < length (state.old).types }
    requires two_known { two.of.0 < length (state.old).types }
    ensures { MakesBuilt state.old state.new result (conditional_of (meaning state.old).graph (operand_at (state.old).types one) (operand_at (state.old).types two)) }
{
    state.make(&Arms { alloc, one, two })
}

/// For which named casts `(T)e` stands (5.4).
#[tactic(auto, unfolding(cxx_tree::specs::Held::meaning))]
pub fn cast_here(
    alloc: Global,
    state: &mut State,
    is_single: bool,
    from: Operand,
    to: TypeId,
) -> Result<Option<CastSteps>, Wait>
    requires from_known { from.of.0 < length (state.old).types }
    requires to_known { to.0 < length (state.old).types }
    ensures { MakesCast state.old state.new result (cast_of (meaning state.old).graph is_single (operand_at (state.old).types from) (type_of state.old to)) }
{
    state.make(&Converted {
        alloc,
        is_single,
        from,
        to,
    })
}

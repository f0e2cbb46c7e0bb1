//! The object of a call of a member, with the implicit object parameters of the functions of its class (13.3.1).

ghost use Rattle.std.specs.Prelude.{◌<◌, length};
ghost use Rattle.cxx_answers.specs.Objects.{GrowsObject};
ghost use Rattle.cxx_expr.specs.Making.{GrowsType};
ghost use Rattle.cxx_model.specs.Types.Trees as trees;
ghost use Rattle.cxx_overload.specs.Objects.{object_parameter};
ghost use Rattle.cxx_standard.specs.Views.{operand_at};
ghost use Rattle.cxx_tree.specs.Held.{type_of};

use cxx_expr::operands::bare_type;
use cxx_model::{Cv, Operand, Stop, TypeId};
use cxx_overload::Object;
use cxx_tree::State;

// A type with cv words besides its own.
fn type_with(state: &mut State, of: TypeId, cv: Cv) -> Result<TypeId, Stop>
    requires { of.0 < length (state.old).types }
    ensures { GrowsType state.old state.new result (trees.with_cv cv (type_of state.old of)) }
{
    match state.with_cv(of, cv) {
        Ok(of) => Ok(of),
        Err(_) => Err(Stop::OutOfMemory),
    }
}

fn reference_to(state: &mut State, of: TypeId) -> Result<TypeId, Stop>
    requires { of.0 < length (state.old).types }
    ensures { GrowsType state.old state.new result (trees.reference_to (type_of state.old of)) }
{
    match state.reference_to(of) {
        Ok(of) => Ok(of),
        Err(_) => Err(Stop::OutOfMemory),
    }
}

// The implicit object parameter of a nonstatic member function of the class of an object, with some words behind its
// parameter list.
#[tactic(auto, using(cxx_expr::proofs::Kept::later_trans))]
fn implicit_parameter(
    state: &mut State,
    object: Operand,
    is_const: bool,
    is_volatile: bool,
) -> Result<TypeId, Stop>
    requires { object.of.0 < length (state.old).types }
    ensures { GrowsType state.old state.new result (object_parameter (operand_at (state.old).types object) (record { is_const = is_const; is_volatile = is_volatile })) }
{
    let bare = bare_type(state, object.of)?;
    let cv = Cv {
        is_const,
        is_volatile,
    };
    let of = type_with(state, bare, cv)?;
    reference_to(state, of)
}

/// The object of a call that an lvalue gives.
#[tactic(auto, using(cxx_expr::proofs::Kept::later_trans, cxx_expr::proofs::Kept::type_later))]
pub(crate) fn object_of(state: &mut State, operand: Operand) -> Result<Object, Stop>
    requires { operand.of.0 < length (state.old).types }
    ensures { GrowsObject state.old state.new operand result }
{
    let plain = implicit_parameter(state, operand, false, false)?;
    let of_const = implicit_parameter(state, operand, true, false)?;
    let of_volatile = implicit_parameter(state, operand, false, true)?;
    let of_both = implicit_parameter(state, operand, true, true)?;
    Ok(Object {
        operand,
        plain,
        of_const,
        of_volatile,
        of_both,
    })
}

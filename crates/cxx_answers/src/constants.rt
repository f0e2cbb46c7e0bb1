//! Values of constant expressions (5.19).

ghost use Rattle.std.specs.Prelude.{List, ◌≡◌, ◌<◌, length, IfOk};
ghost use Rattle.cxx_answers.specs.Answers as definition;
ghost use Rattle.cxx_constant.specs.Constants as constants;
ghost use Rattle.cxx_constant.specs.Known.{IsFaultBelow, IsValueBelow, fault_at as fault_in, value_at};
ghost use Rattle.cxx_model.specs.Stops.{Faulty};
ghost use Rattle.cxx_reading.specs.Trees.{CxxTree};
ghost use Rattle.cxx_sizes.specs.Noted.{Notes};
ghost use Rattle.cxx_cursor.specs.Asking.{IsAsked, IsConstantKnown, itself};
ghost use Rattle.cxx_tree.specs.Held.{meaning, tree, trees};

use cxx_constant::{ConstantFault, constant};
use cxx_expr::faults::fault;
use cxx_model::{Fault, FaultText, OutOfMemory, Stop, TreeId};
use cxx_sizes::Layouts;
use cxx_tree::State;
use std::alloc::{AllocError, Global};

#[tactic(auto, unfolding(cxx_tree::specs::Held::meaning))]
fn value(layouts: &Layouts, state: &State, number: TreeId) -> Result<i128, ConstantFault>
    requires known { number.0 < length (trees state.now) }
    requires noted { Notes layouts.now (meaning state.now).graph.facts }
    ensures is { value_at (trees state.now) result ≡ constants.constant (meaning state.now).graph (tree state.now number) }
    ensures below { IsValueBelow (length (trees state.now)) result }
{
    constant(layouts, state.graph(), state.types(), state.trees(), number)
}

/// The value of an integral constant expression, or why it has none (5.19).
pub fn value_here(state: &State, number: TreeId) -> Result<Result<i128, ConstantFault>, OutOfMemory>
    requires { number.0 < length (trees state.now) }
    ensures is { IfOk result (λ value. value_at (trees state.now) value ≡ constants.constant (meaning state.now).graph (tree state.now number)) }
    ensures below { IfOk result (IsValueBelow (length (trees state.now))) }
{
    match state.layouts() {
        Some(layouts) => Ok(value(layouts, state, number)),
        None => Err(OutOfMemory),
    }
}

fn is_zero(value: Result<i128, ConstantFault>) -> bool
    ensures { (all : List CxxTree) → result ≡ definition.is_zero_value (value_at all value) }
{
    match value {
        Ok(0) => true,
        _ => false,
    }
}

/// Whether an expression is an integral constant with the value zero (4.10, 5.19).
#[tactic(auto, unfolding(crate::specs::Answers::is_null_here))]
pub fn is_null_here(state: &State, number: TreeId) -> Result<bool, OutOfMemory>
    requires { number.0 < length (trees state.now) }
    ensures { IfOk result (λ known. known ≡ definition.is_null_here (tree state.now number) (meaning state.now)) }
{
    match value_here(state, number) {
        Ok(value) => Ok(is_zero(value)),
        Err(fault) => Err(fault),
    }
}

// What is no constant is so at its first token; an operator gives no value at its own place.
fn constant_fault(
    alloc: Global,
    state: &State,
    why: ConstantFault,
) -> Result<Box<Fault>, AllocError>
    requires { IsFaultBelow (length (trees state.now)) why }
    ensures { IfOk result (λ at. Faulty at.value ≡ definition.constant_fault (fault_in (trees state.now) why)) }
{
    match why {
        ConstantFault::NotConstant(number) => {
            fault(alloc, state.node(number).start, FaultText::NotAConstant)
        }
        ConstantFault::Overflow(number) => {
            fault(alloc, state.node(number).place, FaultText::ConstantOverflow)
        }
        ConstantFault::DivideByZero(number) => {
            fault(alloc, state.node(number).place, FaultText::DivisionByZero)
        }
    }
}

// No type holds a value from 2^64 on (3.9.1).
fn is_held(value: i128) -> bool
    ensures { result ≡ definition.is_held value }
{
    value < 0x1_0000_0000_0000_0000
}

// What is answered, given the value.
#[tactic(auto, using(cxx_cursor::proofs::Kept::later_refl))]
fn constant_by(
    alloc: Global,
    state: &State,
    number: TreeId,
    value: Result<i128, ConstantFault>,
) -> Result<i128, Stop>
    requires known { number.0 < length (trees state.now) }
    requires below { IsValueBelow (length (trees state.now)) value }
    ensures { IsAsked itself IsConstantKnown state.now state.now result (definition.constant_by (meaning state.now) (tree state.now number) (value_at (trees state.now) value)) }
{
    match value {
        Ok(value) => {
            if is_held(value) {
                Ok(value)
            } else {
                let overflow = ConstantFault::Overflow(number);
                Err(Stop::Fault(constant_fault(alloc, state, overflow)?))
            }
        }
        Err(why) => Err(Stop::Fault(constant_fault(alloc, state, why)?)),
    }
}

/// The value of an integral constant expression (5.19). It stops where the expression is none, and where no type holds the
/// value.
#[tactic(auto, using(cxx_cursor::proofs::Kept::later_refl), unfolding(crate::specs::Answers::constant_here))]
pub fn constant_here(alloc: Global, state: &mut State, number: TreeId) -> Result<i128, Stop>
    requires { number.0 < length (trees state.old) }
    ensures { IsAsked itself IsConstantKnown state.old state.new result (definition.constant_here (tree state.old number) (meaning state.old)) }
{
    match value_here(state, number) {
        Ok(value) => constant_by(alloc, state, number, value),
        Err(_) => Err(Stop::OutOfMemory),
    }
}

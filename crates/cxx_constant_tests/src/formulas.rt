//! Formulas that are built from their ends.
ghost use Rattle.std.specs.Prelude.{◌≡◌, true, IsTrue};
ghost use Rattle.cxx_model.specs.Types.Numbers.{IsFormulaBelow};
ghost use Rattle.cxx_constant_tests.specs.Units.{IsUnit};

use crate::stopped::Stopped;
use crate::unit::Unit;
use cxx_computed::{ComputeStop, computed};
use cxx_model::{Formula, TypeId, punct};
use std::alloc::Global;

// Whether the types of a formula are among so many.
fn is_below(count: u64, formula: &Formula) -> bool
    ensures { IsTrue result → IsFormulaBelow count formula.now }
{
    match formula {
        Formula::Value(_, of) => of.0 < count,
        Formula::Parameter(_, _) => true,
        Formula::Member(of, _) => of.0 < count,
        Formula::SizeOf(of) => of.0 < count,
        Formula::Cast(of, operand) => of.0 < count && is_below(count, operand),
        Formula::Unary(_, operand) => is_below(count, operand),
        Formula::Binary(_, left, right) => is_below(count, left) && is_below(count, right),
        Formula::Conditional(test, left, right) => {
            is_below(count, test) && (is_below(count, left) && is_below(count, right))
        }
    }
}

/// The value of a formula.
#[tactic(auto, using(crate::proofs::Growing::formula_later))]
pub(crate) fn value_in(unit: &Unit, formula: &Formula) -> Result<Option<i128>, Stopped>
    requires { IsUnit unit.now }
{
    if !is_below(unit.known, formula) {
        return Err(Stopped::IllRow);
    }
    match computed(&unit.layouts, &unit.graph, &unit.types, formula) {
        Ok(value) => Ok(Some(value)),
        Err(ComputeStop::NoValue) => Ok(None),
        Err(ComputeStop::Needs(_)) => Err(Stopped::IllRow),
    }
}

fn operator_of_two(first: u8, second: u8) -> Result<u8, Stopped> {
    match (first, second) {
        (b'<', b'<') => Ok(punct::SHIFT_LEFT),
        (b'>', b'>') => Ok(punct::SHIFT_RIGHT),
        (b'<', b'=') => Ok(punct::LESS_OR_EQUAL),
        (b'>', b'=') => Ok(punct::GREATER_OR_EQUAL),
        (b'=', b'=') => Ok(punct::EQUAL_TO),
        (b'!', b'=') => Ok(punct::NOT_EQUAL_TO),
        (b'&', b'&') => Ok(punct::LOGICAL_AND),
        (b'|', b'|') => Ok(punct::LOGICAL_OR),
        _ => Err(Stopped::IllRow),
    }
}

fn operator_of_one(letter: u8) -> Result<u8, Stopped> {
    match letter {
        b'+' => Ok(punct::PLUS),
        b'-' => Ok(punct::MINUS),
        b'~' => Ok(punct::TILDE),
        b'!' => Ok(punct::EXCLAMATION),
        b'*' => Ok(punct::STAR),
        b'/' => Ok(punct::SLASH),
        b'%' => Ok(punct::PERCENT),
        b'<' => Ok(punct::LESS),
        b'>' => Ok(punct::GREATER),
        b'&' => Ok(punct::AMPERSAND),
        b'^' => Ok(punct::CARET),
        b'|' => Ok(punct::BAR),
        _ => Err(Stopped::IllRow),
    }
}

/// The number of an operator by its spelling.
pub(crate) fn operator_of(spelling: &[u8]) -> Result<u8, Stopped> {
    match spelling {
        [letter] => operator_of_one(*letter),
        [first, second] => operator_of_two(*first, *second),
        _ => Err(Stopped::IllRow),
    }
}

fn popped(stack: &mut Vec<Formula>) -> Result<Formula, Stopped> {
    match stack.pop() {
        Some(formula) => Ok(formula),
        None => Err(Stopped::IllRow),
    }
}

/// The last formula as the operand of an operator.
pub(crate) fn push_unary(
    alloc: Global,
    stack: &mut Vec<Formula>,
    operator: u8,
) -> Result<(), Stopped> {
    let operand = popped(stack)?;
    stack.push(Formula::Unary(operator, Box::new(alloc, operand)?))?;
    Ok(())
}

/// The last two formulas as the operands of an operator.
pub(crate) fn push_binary(
    alloc: Global,
    stack: &mut Vec<Formula>,
    operator: u8,
) -> Result<(), Stopped> {
    let right = popped(stack)?;
    let left = popped(stack)?;
    let left = Box::new(alloc, left)?;
    let right = Box::new(alloc, right)?;
    stack.push(Formula::Binary(operator, left, right))?;
    Ok(())
}

/// The last three formulas as the operands of `?:`.
pub(crate) fn push_conditional(alloc: Global, stack: &mut Vec<Formula>) -> Result<(), Stopped> {
    let right = popped(stack)?;
    let left = popped(stack)?;
    let test = popped(stack)?;
    let test = Box::new(alloc, test)?;
    let left = Box::new(alloc, left)?;
    let right = Box::new(alloc, right)?;
    stack.push(Formula::Conditional(test, left, right))?;
    Ok(())
}

/// The last formula, converted to a type.
pub(crate) fn push_cast(
    alloc: Global,
    stack: &mut Vec<Formula>,
    of: TypeId,
) -> Result<(), Stopped> {
    let operand = popped(stack)?;
    stack.push(Formula::Cast(of, Box::new(alloc, operand)?))?;
    Ok(())
}

/// The one formula that is left.
pub(crate) fn whole(stack: Vec<Formula>) -> Result<Formula, Stopped> {
    let mut stack = stack;
    let formula = popped(&mut stack)?;
    if stack.is_empty() {
        Ok(formula)
    } else {
        Err(Stopped::IllRow)
    }
}

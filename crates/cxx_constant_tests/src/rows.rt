//! Rows: a formula in words, each operator behind its operands.
//!
//! A type is a letter: `b` is `bool`, `c a h` are the character types without, with and without a sign, `s t` the short
//! ones, `i j` `int` and `unsigned`, `l m` the long ones, `w` `wchar_t`, `f d e` the floating types, `v` `void`, and `p` a
//! pointer. `=` with a letter and a number is a value of the type, `@` with a letter its size, `(` with a letter a cast, `1`
//! and `2` with its spelling an operator of one or two operands, and `?` the conditional operator.
ghost use Rattle.std.specs.Prelude.{IfOk};
ghost use Rattle.cxx_constant_tests.specs.Units.{IsUnit};

use crate::formulas::{
    operator_of, push_binary, push_cast, push_conditional, push_unary, value_in, whole,
};
use crate::stopped::Stopped;
use crate::unit::{Unit, empty_unit, with_plain, with_pointer};
use cxx_model::{Base, Formula, TypeId};
use std::alloc::Global;

fn base_of(letter: u8) -> Result<Base, Stopped> {
    match letter {
        b'v' => Ok(Base::Void),
        b'b' => Ok(Base::Bool),
        b'c' => Ok(Base::Char),
        b'a' => Ok(Base::SignedChar),
        b'h' => Ok(Base::UnsignedChar),
        b's' => Ok(Base::Short),
        b't' => Ok(Base::UnsignedShort),
        b'i' => Ok(Base::Int),
        b'j' => Ok(Base::Unsigned),
        b'l' => Ok(Base::Long),
        b'm' => Ok(Base::UnsignedLong),
        b'w' => Ok(Base::WideChar),
        b'f' => Ok(Base::Float),
        b'd' => Ok(Base::Double),
        b'e' => Ok(Base::LongDouble),
        _ => Err(Stopped::IllRow),
    }
}

// The type of a letter.
fn typed(unit: Unit, letter: u8) -> Result<(Unit, TypeId), Stopped>
    requires { IsUnit unit }
    ensures { IfOk result (λ made. IsUnit made.0) }
{
    if letter == b'p' {
        let (unit, to) = with_plain(unit, Base::Int)?;
        with_pointer(unit, to)
    } else {
        let base = base_of(letter)?;
        with_plain(unit, base)
    }
}

fn magnitude(digits: &[u8]) -> i128 {
    let mut value: i128 = 0;
    for byte in digits {
        value = value
            .saturating_mul(10)
            .saturating_add(i128::from(byte.saturating_sub(b'0')));
    }
    value
}

fn number(digits: &[u8]) -> i128 {
    match digits {
        [b'-', rest @ ..] => i128::from(0i8).saturating_sub(magnitude(rest)),
        _ => magnitude(digits),
    }
}

fn push_value(unit: Unit, stack: &mut Vec<Formula>, rest: &[u8]) -> Result<Unit, Stopped>
    requires { IsUnit unit }
    ensures { IfOk result IsUnit }
{
    match rest {
        [] => Err(Stopped::IllRow),
        [letter, digits @ ..] => {
            let value = number(digits);
            let (unit, of) = typed(unit, *letter)?;
            stack.push(Formula::Value(value, of))?;
            Ok(unit)
        }
    }
}

fn letter_of(rest: &[u8]) -> Result<u8, Stopped> {
    match rest {
        [letter] => Ok(*letter),
        _ => Err(Stopped::IllRow),
    }
}

fn push_size(unit: Unit, stack: &mut Vec<Formula>, rest: &[u8]) -> Result<Unit, Stopped>
    requires { IsUnit unit }
    ensures { IfOk result IsUnit }
{
    let letter = letter_of(rest)?;
    let (unit, of) = typed(unit, letter)?;
    stack.push(Formula::SizeOf(of))?;
    Ok(unit)
}

fn push_converted(
    alloc: Global,
    unit: Unit,
    stack: &mut Vec<Formula>,
    rest: &[u8],
) -> Result<Unit, Stopped>
    requires { IsUnit unit }
    ensures { IfOk result IsUnit }
{
    let letter = letter_of(rest)?;
    let (unit, of) = typed(unit, letter)?;
    push_cast(alloc, stack, of)?;
    Ok(unit)
}

fn push_operator(
    alloc: Global,
    stack: &mut Vec<Formula>,
    kind: u8,
    rest: &[u8],
) -> Result<(), Stopped> {
    match kind {
        b'1' => push_unary(alloc, stack, operator_of(rest)?),
        b'2' => push_binary(alloc, stack, operator_of(rest)?),
        b'?' => push_conditional(alloc, stack),
        _ => Err(Stopped::IllRow),
    }
}

fn by_kind(
    alloc: Global,
    unit: Unit,
    stack: &mut Vec<Formula>,
    kind: u8,
    rest: &[u8],
) -> Result<Unit, Stopped>
    requires { IsUnit unit }
    ensures { IfOk result IsUnit }
{
    match kind {
        b'=' => push_value(unit, stack, rest),
        b'@' => push_size(unit, stack, rest),
        b'(' => push_converted(alloc, unit, stack, rest),
        _ => {
            push_operator(alloc, stack, kind, rest)?;
            Ok(unit)
        }
    }
}

// One more word.
fn step(alloc: Global, unit: Unit, stack: &mut Vec<Formula>, word: &[u8]) -> Result<Unit, Stopped>
    requires { IsUnit unit }
    ensures { IfOk result IsUnit }
{
    match word {
        [] => Err(Stopped::IllRow),
        [kind, rest @ ..] => by_kind(alloc, unit, stack, *kind, rest),
    }
}

/// The value of the formula of a row.
pub(crate) fn value_of(alloc: Global, line: &str) -> Result<Option<i128>, Stopped> {
    let mut unit = empty_unit(alloc);
    let mut stack = Vec::new(alloc);
    for word in line.split_whitespace() {
        unit = step(alloc, unit, &mut stack, word.as_bytes())?;
    }
    let formula = whole(stack)?;
    value_in(&unit, &formula)
}

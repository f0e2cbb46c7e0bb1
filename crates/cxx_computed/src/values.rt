//! What the operators make of values (5.3.1, 5.6 to 5.13).
ghost use Rattle.std.specs.Prelude.{◌≡◌, ◌<◌, ◌^◌, pos, ◌*ℤ◌, true, false, int_div, int_rem, bit_and, bit_or, bit_xor};
ghost use Rattle.cxx_model.specs.Types.Integral.{holds as holds_value};
ghost use Rattle.cxx_computed.specs.Values as definition;

use crate::integers::{
    digits, holds, is_signed, modulus, truth, value_of_digits, width_of, wrapped,
};
use crate::operators::{BinaryOperator, UnaryOperator, ValueFault};
use cxx_model::Base;

#[tactic(auto, unfolding(crate::specs::Values::value_in))]
fn value_in(of: Base, value: i128) -> Result<i128, ValueFault>
    ensures { result ≡ definition.value_in of value }
{
    if is_signed(of) {
        if holds(of, value) {
            Ok(value)
        } else {
            Err(ValueFault::Overflow)
        }
    } else {
        Ok(wrapped(of, value))
    }
}

/// What an operator makes of a value of a promoted type (5.3.1); `!` of one of `bool`.
#[tactic(auto, unfolding(crate::specs::Values::unary_value))]
pub fn unary_value(operator: UnaryOperator, of: Base, value: i128) -> Result<i128, ValueFault>
    requires { holds_value of value ≡ true }
    ensures { result ≡ definition.unary_value operator of value }
{
    match operator {
        UnaryOperator::Plus => Ok(value),
        UnaryOperator::Minus => value_in(of, -value),
        UnaryOperator::Complement => value_in(of, -1 - value),
        UnaryOperator::Not => Ok(truth(value == 0)),
    }
}

fn unsigned_product(of: Base, one: u128, two: u128) -> i128
    requires one_small { one < 2 ^ 64 }
    requires two_small { two < 2 ^ 64 }
    ensures { result ≡ definition.wrapped of (pos one *ℤ pos two) }
{
    value_of_digits(of, one * two % modulus(of))
}

#[tactic(auto, unfolding(crate::specs::Values::value_in))]
fn product(of: Base, one: i128, two: i128) -> Result<i128, ValueFault>
    requires one_held { holds_value of one ≡ true }
    requires two_held { holds_value of two ≡ true }
    ensures { result ≡ definition.value_in of (one *ℤ two) }
{
    if is_signed(of) {
        value_in(of, one * two)
    } else {
        Ok(unsigned_product(of, one as u128, two as u128))
    }
}

fn quotient(of: Base, one: i128, two: i128) -> Result<i128, ValueFault>
    requires one_held { holds_value of one ≡ true }
    requires two_held { holds_value of two ≡ true }
    ensures { result ≡ definition.divided_by two (definition.value_in of (int_div one two)) }
{
    if two == 0 {
        return Err(ValueFault::DivideByZero);
    }
    value_in(of, one / two)
}

fn remainder(of: Base, one: i128, two: i128) -> Result<i128, ValueFault>
    requires one_held { holds_value of one ≡ true }
    requires two_held { holds_value of two ≡ true }
    ensures { result ≡ definition.divided_by two (definition.value_in of (int_rem one two)) }
{
    if two == 0 {
        Err(ValueFault::DivideByZero)
    } else {
        value_in(of, one % two)
    }
}

fn is_count(of: Base, value: i128) -> bool
    ensures { result ≡ definition.is_count of value }
{
    value >= 0 && value < width_of(of) as i128
}

fn power_of_two(count: u32) -> i128
    requires { count < 64 }
    ensures { result ≡ pos (2 ^ count) }
{
    (1u128 << count) as i128
}

fn shifted_by(of: Base, one: i128, count: u32) -> Result<i128, ValueFault>
    requires held { holds_value of one ≡ true }
    requires small { count < 64 }
    ensures { result ≡ definition.value_in of (one *ℤ pos (2 ^ count)) }
{
    value_in(of, one * power_of_two(count))
}

fn shifted_left(of: Base, one: i128, two: i128) -> Result<i128, ValueFault>
    requires { holds_value of one ≡ true }
    ensures { result ≡ definition.shifted_left of one two }
{
    if is_count(of, two) {
        shifted_by(of, one, two as u32)
    } else {
        Err(ValueFault::Overflow)
    }
}

fn shifted_right(of: Base, one: i128, two: i128) -> Result<i128, ValueFault>
    ensures { result ≡ definition.shifted_right of one two }
{
    if is_count(of, two) {
        Ok(one >> two as u32)
    } else {
        Err(ValueFault::Overflow)
    }
}

fn both_bits(of: Base, one: i128, two: i128) -> i128
    ensures { result ≡ definition.bitwise bit_and of one two }
{
    value_of_digits(of, digits(of, one) & digits(of, two))
}

#[tactic(auto, using(std::proofs::lemmas::Nat::or_lt))]
fn either_bit(of: Base, one: i128, two: i128) -> i128
    ensures { result ≡ definition.bitwise bit_or of one two }
{
    value_of_digits(of, digits(of, one) | digits(of, two))
}

#[tactic(auto, using(std::proofs::lemmas::Nat::xor_lt))]
fn one_bit(of: Base, one: i128, two: i128) -> i128
    ensures { result ≡ definition.bitwise bit_xor of one two }
{
    value_of_digits(of, digits(of, one) ^ digits(of, two))
}

/// What an operator makes of two values of one type (5.6 to 5.13); the right operand of a shift has its own.
#[tactic(auto, unfolding(crate::specs::Values::binary_value))]
pub fn binary_value(
    operator: BinaryOperator,
    of: Base,
    one: i128,
    two: i128,
) -> Result<i128, ValueFault>
    requires one_held { holds_value of one ≡ true }
    requires two_held { definition.is_shift operator ≡ false → holds_value of two ≡ true }
    ensures { result ≡ definition.binary_value operator of one two }
{
    match operator {
        BinaryOperator::Multiply => product(of, one, two),
        BinaryOperator::Divide => quotient(of, one, two),
        BinaryOperator::Remainder => remainder(of, one, two),
        BinaryOperator::Add => value_in(of, one + two),
        BinaryOperator::Subtract => value_in(of, one - two),
        BinaryOperator::ShiftLeft => shifted_left(of, one, two),
        BinaryOperator::ShiftRight => shifted_right(of, one, two),
        BinaryOperator::Less => Ok(truth(one < two)),
        BinaryOperator::Greater => Ok(truth(two < one)),
        BinaryOperator::LessOrEqual => Ok(truth(!(two < one))),
        BinaryOperator::GreaterOrEqual => Ok(truth(!(one < two))),
        BinaryOperator::Equal => Ok(truth(one == two)),
        BinaryOperator::NotEqual => Ok(truth(!(one == two))),
        BinaryOperator::And => Ok(both_bits(of, one, two)),
        BinaryOperator::ExclusiveOr => Ok(one_bit(of, one, two)),
        BinaryOperator::InclusiveOr => Ok(either_bit(of, one, two)),
    }
}

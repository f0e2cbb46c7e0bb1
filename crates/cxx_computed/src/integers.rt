//! Values of the integral types, and their conversions (3.9.1, 4.7, 4.12).
ghost use Rattle.std.specs.Prelude.{◌≡◌, ◌<◌, ◌≤◌, ◌^◌};
ghost use Rattle.cxx_model.specs.Types.Integral.{holds as holds_value, signed, width};
ghost use Rattle.cxx_computed.specs.Values as definition;

use cxx_model::Base;

/// Whether a type has a value (3.9.1).
pub fn holds(of: Base, value: i128) -> bool
    ensures { result ≡ holds_value of value }
{
    match of {
        Base::Bool => value >= 0 && value < 2,
        Base::Char | Base::SignedChar => value >= -0x80 && value < 0x80,
        Base::UnsignedChar => value >= 0 && value < 0x100,
        Base::Short => value >= -0x8000 && value < 0x8000,
        Base::UnsignedShort => value >= 0 && value < 0x1_0000,
        Base::Int | Base::WideChar => value >= -0x8000_0000 && value < 0x8000_0000,
        Base::Unsigned => value >= 0 && value < 0x1_0000_0000,
        Base::Long => value >= -0x8000_0000_0000_0000 && value < 0x8000_0000_0000_0000,
        Base::UnsignedLong => value >= 0 && value < 0x1_0000_0000_0000_0000,
        Base::Void | Base::Float | Base::Double | Base::LongDouble => false,
    }
}

/// How many values the bits of a type have.
pub(crate) fn modulus(of: Base) -> u128
    ensures is { result ≡ 2 ^ width of }
    ensures some { 0 < result }
    ensures small { result ≤ 2 ^ 64 }
{
    match of {
        Base::Bool => 2,
        Base::Char | Base::SignedChar | Base::UnsignedChar => 0x100,
        Base::Short | Base::UnsignedShort => 0x1_0000,
        Base::Int | Base::WideChar | Base::Unsigned => 0x1_0000_0000,
        Base::Long | Base::UnsignedLong => 0x1_0000_0000_0000_0000,
        Base::Void | Base::Float | Base::Double | Base::LongDouble => 1,
    }
}

pub(crate) fn is_signed(of: Base) -> bool
    ensures { result ≡ signed of }
{
    match of {
        Base::Char | Base::SignedChar | Base::Short | Base::Int | Base::WideChar | Base::Long =>
            true,
        _ => false,
    }
}

/// The number that the bits of a value are in a type (4.7).
pub(crate) fn digits(of: Base, value: i128) -> u128
    ensures is { result ≡ definition.digits_of (width of) value }
    ensures small { result < 2 ^ width of }
{
    value.rem_euclid(modulus(of) as i128) as u128
}

/// The value that such bits mean in a type.
pub(crate) fn value_of_digits(of: Base, digits: u128) -> i128
    requires { digits < 2 ^ width of }
    ensures { result ≡ definition.value_of_digits (width of) (signed of) digits }
{
    let modulus = modulus(of);
    if is_signed(of) && digits >= modulus / 2 {
        digits as i128 - modulus as i128
    } else {
        digits as i128
    }
}

pub(crate) fn truth(is: bool) -> i128
    ensures { result ≡ definition.truth is }
{
    if is { 1 } else { 0 }
}

/// A value modulo the bits of an integral type (4.7).
pub(crate) fn wrapped(of: Base, value: i128) -> i128
    ensures { result ≡ definition.wrapped of value }
{
    value_of_digits(of, digits(of, value))
}

/// A value converted to an integral type (4.7, 4.12).
#[tactic(auto, unfolding(crate::specs::Values::converted_value))]
pub fn converted_value(of: Base, value: i128) -> i128
    ensures { result ≡ definition.converted_value of value }
{
    if let Base::Bool = of {
        truth(value != 0)
    } else {
        wrapped(of, value)
    }
}

/// How many bits the values of an integral type take (3.9.1).
pub(crate) fn width_of(of: Base) -> u32
    ensures is { result ≡ width of }
    ensures small { result ≤ 64 }
{
    match of {
        Base::Bool => 1,
        Base::Char | Base::SignedChar | Base::UnsignedChar => 8,
        Base::Short | Base::UnsignedShort => 16,
        Base::Int | Base::WideChar | Base::Unsigned => 32,
        Base::Long | Base::UnsignedLong => 64,
        Base::Void | Base::Float | Base::Double | Base::LongDouble => 0,
    }
}

//! Integer literals (2.13.1).

ghost use Rattle.std.specs.Prelude.{◌≡◌, ◌≤◌, length, true, false, [], ◌∷◌};
ghost use Rattle.std.specs.List.{prefix_len};
ghost use Rattle.cxx_model.specs.Text.Spelling as spec;
ghost use Rattle.cxx_literals.specs.Integers.{parts_option, parts_of, capped_option, base_of, test_of, hexadecimal_parts, zero_parts};

use crate::bytes::{is_l, is_u, is_x};
use crate::runs::{digits_len, hexadecimal_len, octal_len};
use crate::values::value_of;
use cxx_model::Base;

/// Whether the digits are decimal, their value, and what the suffix has.
#[derive(Clone, Copy)]
pub struct IntegerParts {
    pub is_decimal: bool,
    pub value: u128,
    pub has_u: bool,
    pub has_l: bool,
}

#[derive(Clone, Copy)]
enum Radix {
    Decimal,
    Octal,
    Hexadecimal,
}

impl Radix {
    fn base(self) -> u8
        ensures { result ≡ base_of self }
    {
        match self {
            Radix::Decimal => 10,
            Radix::Octal => 8,
            Radix::Hexadecimal => 16,
        }
    }

    fn len(self, text: &[u8]) -> usize
        ensures within { result ≤ length text.now }
        ensures value { result ≡ prefix_len (test_of self) text.now }
    {
        match self {
            Radix::Decimal => digits_len(text),
            Radix::Octal => octal_len(text),
            Radix::Hexadecimal => hexadecimal_len(text),
        }
    }
}

/// A suffix has `u`, `l`, both in either order, or nothing.
fn with_suffix(is_decimal: bool, value: u128, suffix: &[u8]) -> Option<IntegerParts>
    ensures { parts_option result ≡ spec.with_suffix is_decimal value suffix.now }
{
    let (has_u, has_l) = match suffix {
        [] => (false, false),
        [a] if is_u(*a) => (true, false),
        [a] if is_l(*a) => (false, true),
        [a, b] if (is_u(*a) && is_l(*b)) || (is_l(*a) && is_u(*b)) => (true, true),
        _ => return None,
    };
    Some(IntegerParts {
        is_decimal,
        value,
        has_u,
        has_l,
    })
}

/// The digits of a base, and the suffix behind them.
fn with_digits(is_decimal: bool, radix: Radix, text: &[u8]) -> Option<IntegerParts>
    ensures { parts_option result ≡ capped_option (spec.with_digits is_decimal (base_of radix) (test_of radix) text.now) }
{
    let len = radix.len(text);
    let value = value_of(radix.base(), &text[..len]);
    with_suffix(is_decimal, value, &text[len..])
}

/// `0x` and hexadecimal digits, of which there is one at least.
fn hexadecimal(digits: &[u8]) -> Option<IntegerParts>
    ensures { parts_option result ≡ capped_option (hexadecimal_parts digits.now) }
{
    match digits {
        [b, ..] if b.is_ascii_hexdigit() => with_digits(false, Radix::Hexadecimal, digits),
        _ => None,
    }
}

/// A 0 and what stands behind it.
fn after_zero(rest: &[u8]) -> Option<IntegerParts>
    ensures { parts_option result ≡ capped_option (zero_parts rest.now) }
{
    match rest {
        [x, digits @ ..] if is_x(*x) => hexadecimal(digits),
        _ => with_digits(false, Radix::Octal, rest),
    }
}

/// Decimal digits of which the first is not 0; a 0 and octal digits; or `0x` and hexadecimal digits.
pub fn integer_parts(text: &[u8]) -> Option<IntegerParts>
    ensures { parts_option result ≡ capped_option (spec.integer_parts text.now) }
{
    match text {
        [b'0', rest @ ..] => after_zero(rest),
        [b, ..] if b.is_ascii_digit() => with_digits(true, Radix::Decimal, text),
        _ => None,
    }
}

fn most_of(kind: Base) -> u128
    ensures { result ≡ spec.most_of kind }
{
    match kind {
        Base::Int => 2_147_483_647,
        Base::Unsigned => 4_294_967_295,
        Base::Long => 9_223_372_036_854_775_807,
        Base::UnsignedLong => 18_446_744_073_709_551_615,
        _ => 0,
    }
}

/// The type, where it holds the value.
fn holding(value: u128, kind: Base) -> Option<Base>
    ensures { result ≡ spec.first_holding value (kind ∷ []) }
{
    if value <= most_of(kind) {
        Some(kind)
    } else {
        None
    }
}

/// The first of two types that holds the value.
fn first_of_two(value: u128, first: Base, second: Base) -> Option<Base>
    ensures { result ≡ spec.first_holding value (first ∷ second ∷ []) }
{
    match holding(value, first) {
        Some(kind) => Some(kind),
        None => holding(value, second),
    }
}

/// The first type that holds the value, of those that the digits and the suffix allow.
pub fn integer_type(parts: &IntegerParts) -> Option<Base>
    ensures { result ≡ spec.integer_type (parts_of parts.now) }
{
    if parts.has_u && parts.has_l {
        holding(parts.value, Base::UnsignedLong)
    } else if parts.has_u {
        first_of_two(parts.value, Base::Unsigned, Base::UnsignedLong)
    } else if parts.has_l {
        first_of_two(parts.value, Base::Long, Base::UnsignedLong)
    } else if parts.is_decimal {
        first_of_two(parts.value, Base::Int, Base::Long)
    } else {
        match first_of_two(parts.value, Base::Int, Base::Unsigned) {
            Some(kind) => Some(kind),
            None => first_of_two(parts.value, Base::Long, Base::UnsignedLong),
        }
    }
}

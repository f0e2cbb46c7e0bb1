//! The values of digits.

ghost use Rattle.std.specs.Prelude.{◌≡◌, ◌≤◌, ◌<◌, ◌+◌, ◌*◌, ◌^◌, min};
ghost use Rattle.cxx_model.specs.Text.Spelling as spec;

use crate::bytes::digit_value;

/// More than each type of the profile holds. A greater value counts as this.
pub const TOO_MUCH: u128 = 18_446_744_073_709_551_616;

/// The value with one more digit.
fn with_digit(base: u8, value: u128, b: u8) -> u128
    requires base { base ≤ 16 }
    requires value { value ≤ 2 ^ 64 }
    ensures { result ≡ min (base * value + spec.digit_value b) (2 ^ 64) }
{
    let more = u128::from(base) * value + u128::from(digit_value(b));
    more.min(TOO_MUCH)
}

/// The number that digits make in a base.
pub fn value_of(base: u8, digits: &[u8]) -> u128
    requires some { 0 < base }
    requires base { base ≤ 16 }
    ensures { result ≡ min (spec.value_after base 0 digits.now) (2 ^ 64) }
{
    let mut value: u128 = 0;
    for b in digits {
        value = with_digit(base, value, *b);
    }
    value
}

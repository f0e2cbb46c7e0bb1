ghost use Rattle.std.specs.Prelude.{◌≡◌};
ghost use Rattle.cxx_model.specs.Text.Spelling as spec;

/// `+` and `-`.
pub fn is_sign(b: u8) -> bool
    ensures { result ≡ spec.is_sign b }
{
    b == b'+' || b == b'-'
}

/// The letter before an exponent.
pub fn is_exponent(b: u8) -> bool
    ensures { result ≡ spec.is_exponent b }
{
    b == b'E' || b == b'e'
}

pub fn is_octal(b: u8) -> bool
    ensures { result ≡ spec.is_octal b }
{
    b'0' <= b && b <= b'7'
}

/// `x`, with which hexadecimal digits begin.
pub fn is_x(b: u8) -> bool
    ensures { result ≡ spec.is_x b }
{
    b == b'x' || b == b'X'
}

pub fn is_u(b: u8) -> bool
    ensures { result ≡ spec.is_u b }
{
    b == b'u' || b == b'U'
}

pub fn is_l(b: u8) -> bool
    ensures { result ≡ spec.is_l b }
{
    b == b'l' || b == b'L'
}

/// The value of a digit, up to `f` or `F`.
pub fn digit_value(b: u8) -> u8
    ensures { result ≡ spec.digit_value b }
{
    if b <= b'9' {
        b.saturating_sub(b'0')
    } else if b <= b'F' {
        b - 55
    } else {
        b.saturating_sub(87)
    }
}

//! The operators of constant expressions (5.19).

/// The operators with one operand (5.3.1).
#[derive(Clone, Copy)]
pub enum UnaryOperator {
    Plus,
    Minus,
    /// `~`
    Complement,
    /// `!`
    Not,
}

/// The operators with two operands that are both evaluated (5.6 to 5.13).
#[derive(Clone, Copy)]
pub enum BinaryOperator {
    Multiply,
    Divide,
    Remainder,
    Add,
    Subtract,
    ShiftLeft,
    ShiftRight,
    Less,
    Greater,
    LessOrEqual,
    GreaterOrEqual,
    Equal,
    NotEqual,
    /// `&`
    And,
    /// `^`
    ExclusiveOr,
    /// `|`
    InclusiveOr,
}

/// Why an operator gives no value (5, 5.6).
#[derive(Clone, Copy)]
pub enum ValueFault {
    /// The result is none of the values of its type, or a value is shifted by what is no count of bits of it.
    Overflow,
    DivideByZero,
}

/// What the operators with two operands have in common (5.2.1, 5.6 to 5.18).
#[derive(Clone, Copy)]
pub enum BinaryFamily {
    /// `[]`
    Subscript,
    /// `*` and `/`
    Multiply,
    /// `%`, `&`, `^` and `|`
    Bits,
    Add,
    Subtract,
    /// `<<` and `>>`
    Shift,
    /// `<`, `>`, `<=`, `>=`, `==` and `!=`
    Compare,
    /// `&&` and `||`
    Logic,
    Assign,
    Comma,
}

/// What the operators with one operand have in common (5.3).
#[derive(Clone, Copy)]
pub enum UnaryFamily {
    /// `*`
    Follow,
    /// `&`
    Address,
    Plus,
    Minus,
    /// `~`
    Complement,
    /// `!`
    Not,
    /// `++`
    Increment,
    /// `--`
    Decrement,
}

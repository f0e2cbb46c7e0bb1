/// How much is read of an expression (5, 8.5).
#[derive(Clone, Copy)]
pub enum Level {
    /// A whole expression, which may hold commas (5.18).
    Whole,
    /// An assignment-expression (5.17).
    Assignment,
    /// A constant-expression, which is a conditional-expression (5.16, 5.19).
    Constant,
    /// A cast-expression: the operand of a prefix operator or of a cast (5.3, 5.4).
    Operand,
    /// An initializer-clause: an assignment-expression or braces (8.5.1).
    Clause,
}

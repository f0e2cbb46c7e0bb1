//! What an expression is as a part of a constant expression.

use cxx_computed::{BinaryOperator, UnaryOperator, ValueFault};
use cxx_model::Base;

/// What an expression is as a part of a constant expression (5.19). An operator stands with the type to which its first
/// operand was converted.
#[derive(Clone, Copy)]
pub(crate) enum Form {
    /// A literal, an enumerator, a const object or a size, with its value.
    Value(Result<i128, ValueFault>),
    /// 5.2.9, what nothing spells (clause 4), and brackets (5.1): the value of what stands in it, as its type has it
    Cast,
    Unary(UnaryOperator, Base),
    Binary(BinaryOperator, Base),
    /// 5.14
    And,
    /// 5.15
    Or,
    /// 5.16
    Conditional,
    /// What is no constant.
    Other,
}

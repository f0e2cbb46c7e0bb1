//! Why an expression is no constant.

use cxx_model::TreeId;

/// Why an expression has no value as a constant, with the number of the part that is meant (5.19).
#[derive(Clone, Copy)]
pub enum ConstantFault {
    /// The part is no constant.
    NotConstant(TreeId),
    /// The type of the part has not the value that its operator gives (5), a value is shifted by what is no count of bits
    /// of it (5.8), or the size is past the greatest one.
    Overflow(TreeId),
    /// 5.6
    DivideByZero(TreeId),
}

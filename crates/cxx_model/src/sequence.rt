//! Implicit conversion sequences (13.3.3.1), and how two of them stand to each other.

use crate::base::Base;
use crate::listed::Listed;
use crate::types::{FactId, TypeId};

/// What is known of the value of an operand, as far as a conversion asks for it (4.2, 4.10).
#[derive(Clone, Copy, PartialEq, Eq)]
pub enum ConstantKind {
    No,
    /// An integral constant expression of integer type with the value zero.
    Zero,
    /// A narrow string literal.
    NarrowText,
    /// A wide string literal.
    WideText,
}

/// What an expression is to a conversion or an operator (3.10): its type, which is never a reference.
#[derive(Clone, Copy, PartialEq, Eq)]
pub struct Operand {
    pub of: TypeId,
    pub lvalue: bool,
    pub constant: ConstantKind,
}

pub type OperandList = Listed<Operand>;

/// The lvalue transformation of a standard conversion sequence (4.1 to 4.3).
#[derive(Clone, Copy, PartialEq, Eq)]
pub enum First {
    LvalueToRvalue,
    ArrayToPointer,
    FunctionToPointer,
}

/// The promotion or conversion of a standard conversion sequence (4.5 to 4.10, 4.12, 13.3.3.1).
#[derive(Clone, Copy, PartialEq, Eq)]
pub enum Second {
    IntegralPromotion,
    FloatingPromotion,
    Integral,
    Floating,
    FloatingIntegral,
    Pointer,
    Boolean,
    DerivedToBase,
}

/// A standard conversion sequence (13.3.3.1.1): identity where it has no step.
#[derive(Clone, Copy, PartialEq, Eq)]
pub struct StandardSequence {
    pub from: Operand,
    pub to: TypeId,
    pub first: Option<First>,
    pub second: Option<Second>,
    /// A qualification (4.4).
    pub third: bool,
    /// A reference is bound to the operand itself (8.5.3).
    pub binding: bool,
}

/// An implicit conversion sequence (13.3.3.1).
#[derive(Clone, Copy, PartialEq, Eq)]
pub enum Sequence {
    Standard(StandardSequence),
    /// A converting constructor or a conversion function, and the standard sequences on both sides of it.
    User {
        before: StandardSequence,
        function: FactId,
        after: StandardSequence,
    },
    Ambiguous,
    Ellipsis,
    NoSequence,
}

pub type SequenceList = Listed<Sequence>;

/// The rank of a sequence (13.3.3.1.1, table 9), best first.
#[derive(Clone, Copy, PartialEq, Eq)]
pub enum Rank {
    Exact,
    Promotion,
    Conversion,
}

/// How one sequence stands to another (13.3.3.2).
#[derive(Clone, Copy, PartialEq, Eq)]
pub enum Order {
    Better,
    Worse,
    Same,
}

/// A standard conversion sequence between arithmetic types (13.3.3.1.1): identity where it has no step.
#[derive(Clone, Copy, PartialEq, Eq)]
pub struct ArithmeticSequence {
    pub from: Base,
    pub to: Base,
    pub second: Option<Second>,
}

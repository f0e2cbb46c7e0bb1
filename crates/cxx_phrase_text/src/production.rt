//! The numbers of the productions of expressions.

/// 8.5
pub(crate) const INITIALIZER: u8 = 22;

/// 5.1
pub(crate) const NAME: u8 = 36;

/// 5.1
pub(crate) const PARENTHESIS: u8 = 39;

/// 5.2.2
pub(crate) const CALL: u8 = 40;

/// 5.2.3
pub(crate) const FUNCTIONAL_CAST: u8 = 41;

/// 5.2.5: `.`
pub(crate) const MEMBER: u8 = 42;

/// 5.2.5: `->`
pub(crate) const ARROW: u8 = 43;

/// 5.2.1
pub(crate) const SUBSCRIPT: u8 = 44;

/// 5.2.6
pub(crate) const POSTFIX_STEP: u8 = 45;

/// 5.3.1, 5.3.2
pub(crate) const PREFIX: u8 = 46;

/// 5.2.9 to 5.2.11, 5.4
pub(crate) const CAST: u8 = 48;

/// 5.6 to 5.15
pub(crate) const BINARY: u8 = 50;

/// 5.16
pub(crate) const CONDITIONAL: u8 = 51;

/// 5.17, 5.18
pub(crate) const ASSIGNMENT: u8 = 52;

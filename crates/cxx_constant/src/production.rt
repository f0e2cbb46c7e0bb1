//! The numbers of the productions of constant expressions.

/// 2.13, 5.1
pub(crate) const LITERAL: u8 = 34;

/// 5.1: a name without qualifiers
pub(crate) const NAME: u8 = 36;

/// 5.1, 3.4.3
pub(crate) const QUALIFIED_NAME: u8 = 37;

/// 5.1
pub(crate) const PARENTHESIS: u8 = 39;

/// 5.2.3
pub(crate) const FUNCTIONAL_CAST: u8 = 41;

/// 5.3.1
pub(crate) const PREFIX: u8 = 46;

/// 5.3.3
pub(crate) const SIZE: u8 = 47;

/// 5.2.9, 5.4, and conversions that nothing spells (clause 4)
pub(crate) const CAST: u8 = 48;

/// 5.6 to 5.15
pub(crate) const BINARY: u8 = 50;

/// 5.16
pub(crate) const CONDITIONAL: u8 = 51;

//! The numbers of the productions of statements, and of what stands in them.

/// Clause 8
pub(crate) const DECLARATOR: u8 = 20;

/// 8.5
pub(crate) const INITIALIZER: u8 = 22;

/// 6.3
pub(crate) const BLOCK: u8 = 23;

/// 6.7
pub(crate) const DECLARATION_STATEMENT: u8 = 24;

/// 6.2
pub(crate) const EXPRESSION_STATEMENT: u8 = 25;

/// 6.4.1
pub(crate) const IF: u8 = 26;

/// 6.4.2
pub(crate) const SWITCH: u8 = 27;

/// 6.1
pub(crate) const LABEL: u8 = 28;

/// 6.5.1
pub(crate) const WHILE: u8 = 29;

/// 6.5.2
pub(crate) const DO: u8 = 30;

/// 6.5.3
pub(crate) const FOR: u8 = 31;

/// 6.6.1, 6.6.2
pub(crate) const JUMP: u8 = 32;

/// 6.6.3
pub(crate) const RETURN: u8 = 33;

/// 5.2.9 to 5.2.11, 5.4, clause 4
pub(crate) const CAST: u8 = 48;

/// 7.1
pub(crate) const SPECIFIERS: u8 = 53;

//! The numbers of the productions of expressions.

/// 8.5: an initializer, and braces in it
pub const INITIALIZER: u8 = 22;

/// 2.13, 5.1
pub const LITERAL: u8 = 34;

/// 5.1, 9.3.2: `this`
pub const THIS: u8 = 35;

/// 5.1: a name without qualifiers
pub const NAME: u8 = 36;

/// 5.1
pub const PARENTHESIS: u8 = 39;

/// 5.2.2
pub const CALL: u8 = 40;

/// 5.2.3
pub const FUNCTIONAL_CAST: u8 = 41;

/// 5.2.5: `.`
pub const MEMBER: u8 = 42;

/// 5.2.5: `->`
pub const ARROW: u8 = 43;

/// 5.2.1
pub const SUBSCRIPT: u8 = 44;

/// 5.2.6: `++` and `--` behind their operand
pub const STEP: u8 = 45;

/// 5.3.1, 5.3.2
pub const PREFIX: u8 = 46;

/// 5.3.3
pub const SIZE: u8 = 47;

/// 5.2.9 to 5.2.11, 5.4, and conversions that nothing spells (clause 4)
pub const CAST: u8 = 48;

/// 5.6 to 5.15
pub const BINARY: u8 = 50;

/// 5.16
pub const CONDITIONAL: u8 = 51;

/// 5.17, 5.18
pub const ASSIGNMENT: u8 = 52;

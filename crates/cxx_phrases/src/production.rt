//! The numbers of the productions of expressions (5, 8.5).

pub const INITIALIZER: u8 = 22;

pub const LITERAL: u8 = 34;

pub const THIS: u8 = 35;

pub const NAME: u8 = 36;

pub const PARENTHESIS: u8 = 39;

pub const CALL: u8 = 40;

pub const FUNCTIONAL_CAST: u8 = 41;

pub const MEMBER: u8 = 42;

pub const ARROW: u8 = 43;

pub const SUBSCRIPT: u8 = 44;

pub const POSTFIX_STEP: u8 = 45;

pub const PREFIX: u8 = 46;

pub const SIZE: u8 = 47;

pub const CAST: u8 = 48;

pub const BINARY: u8 = 50;

pub const CONDITIONAL: u8 = 51;

pub const ASSIGNMENT: u8 = 52;

//! The numbers of the productions of statements (clause 6).

pub(crate) const BLOCK: u8 = 23;

pub(crate) const DECLARATION_STATEMENT: u8 = 24;

pub(crate) const EXPRESSION_STATEMENT: u8 = 25;

pub(crate) const SELECTION: u8 = 26;

pub(crate) const SWITCH: u8 = 27;

pub(crate) const LABEL: u8 = 28;

pub(crate) const WHILE: u8 = 29;

pub(crate) const DO: u8 = 30;

pub(crate) const FOR: u8 = 31;

pub(crate) const JUMP: u8 = 32;

pub(crate) const RETURN: u8 = 33;

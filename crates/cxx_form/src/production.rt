//! The numbers of the productions that a plain form tells apart.

/// 8.4
pub(crate) const FUNCTION_DEFINITION: u8 = 15;

/// Clause 8.
pub(crate) const DECLARATOR: u8 = 20;

/// 8.5
pub(crate) const INITIALIZER: u8 = 22;

/// 6.3
pub(crate) const BLOCK: u8 = 23;

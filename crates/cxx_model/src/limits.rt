//! The quantities past which a unit is not read (Annex B leaves them to the implementation).

/// Bytes of the input.
pub const MOST_BYTES: u32 = 16_777_216;
/// Tokens of a unit, its end counted.
pub const MOST_TOKENS: u32 = 4_194_304;
/// Brackets that are open at one place.
pub const MOST_NESTING: u32 = 128;
/// Declarations of a unit: with the unit's own scope they are 2,097,152 facts.
pub const MOST_DECLARATIONS: u32 = 2_097_151;
/// Candidates of one call.
pub const MOST_CANDIDATES: u32 = 4_096;
/// Arguments of a call, and parameters of a function.
pub const MOST_ARGUMENTS: u32 = 256;
/// Bytes of the plain form.
pub const MOST_OUTPUT: u32 = 33_554_432;

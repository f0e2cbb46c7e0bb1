//! The letters of the types of clause 3.9.1.

use crate::stopped::Stopped;
use cxx_model::Base;

static LETTERS: [u8; 15] = *b"vbcahstijlmwfde";

static BASES: [Base; 15] = [
    Base::Void,
    Base::Bool,
    Base::Char,
    Base::SignedChar,
    Base::UnsignedChar,
    Base::Short,
    Base::UnsignedShort,
    Base::Int,
    Base::Unsigned,
    Base::Long,
    Base::UnsignedLong,
    Base::WideChar,
    Base::Float,
    Base::Double,
    Base::LongDouble,
];

pub(crate) fn base_of(letter: u8) -> Result<Base, Stopped> {
    let place = LETTERS.iter().position(|other| letter == *other);
    match BASES.get(place.unwrap_or(BASES.len())) {
        Some(base) => Ok(*base),
        None => Err(Stopped::IllRow),
    }
}

pub(crate) fn letter_of(base: Base) -> char {
    let place = BASES.iter().position(|other| base == *other);
    match LETTERS.get(place.unwrap_or(LETTERS.len())) {
        Some(letter) => char::from(*letter),
        None => '?',
    }
}

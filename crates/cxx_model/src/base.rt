/// The fundamental types (3.9.1): `void`, and the arithmetic types.
#[derive(Clone, Copy, Debug, PartialEq, Eq, Hash)]
pub enum Base {
    Void,
    Bool,
    Char,
    SignedChar,
    UnsignedChar,
    Short,
    UnsignedShort,
    Int,
    Unsigned,
    Long,
    UnsignedLong,
    WideChar,
    Float,
    Double,
    LongDouble,
}

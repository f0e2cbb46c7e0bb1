/// Why a type has no size.
#[derive(Clone, Copy)]
pub enum SizeReason {
    /// It is `void`, a function, an array with no bound, a class that is not complete, or has such a part.
    NoSize,
    /// It is past the greatest size of an object.
    TooLarge,
}

/// How many bytes objects of a type take, and at multiples of what they stand.
#[derive(Clone, Copy)]
pub struct Extent {
    pub size: u64,
    pub alignment: u64,
}

/// What some facts say of the objects of a class (9.2, 10).
#[derive(Clone, Copy)]
pub struct Layout {
    /// The bytes of its parts so far.
    pub plain: u64,
    /// The same behind a pointer that stands first.
    pub shifted: u64,
    pub alignment: u64,
    pub is_union: bool,
    /// It has a virtual function itself (10.3).
    pub is_virtual: bool,
    /// A base is polymorphic.
    pub has_polymorphic_base: bool,
    /// A part has no size, or is too large.
    pub fault: Option<SizeReason>,
    /// Its end was read.
    pub is_complete: bool,
}

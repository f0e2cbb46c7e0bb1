/// A word that names a fundamental type (7.1.5.2), but for those of its sign and its size.
#[derive(Clone, Copy)]
pub enum CoreWord {
    Bool,
    Char,
    Int,
    WideChar,
    Float,
    Double,
    Void,
}

#[derive(Clone, Copy)]
pub enum SignWord {
    Signed,
    Unsigned,
}

#[derive(Clone, Copy)]
pub enum SizeWord {
    Short,
    Long,
}

/// The words of a fundamental type that were read (7.1.5.2).
#[derive(Clone, Copy)]
pub struct TypeWords {
    pub core: Option<CoreWord>,
    pub sign: Option<SignWord>,
    pub size: Option<SizeWord>,
}

/// A storage word, or `typedef` (7.1.1, 7.1.3).
#[derive(Clone, Copy)]
pub enum StorageWord {
    Auto,
    Extern,
    Mutable,
    Register,
    Static,
    Typedef,
}

/// Where specifiers stand, which says what words may be among them (7.1.1, 7.1.5.3, 8.1, 8.3.5).
#[derive(Clone, Copy)]
pub enum SpecifierPlace {
    /// A declaration of a namespace.
    Declaration,
    /// A declaration in a block.
    Block,
    /// A declaration in the list of a class (9.2).
    Member,
    Parameter,
    TypeId,
}

/// Whether a declarator has a name (8, 8.1, 8.3.5).
#[derive(Clone, Copy)]
pub enum Naming {
    /// In a declaration of a namespace, where the name may have qualifiers (8.3).
    Qualified,
    /// In another declaration.
    Required,
    /// In a list of parameters.
    Either,
    /// In a type that is named.
    Never,
}

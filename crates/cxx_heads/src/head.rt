/// What a statement begins with where no keyword of a statement stands.
#[derive(Clone, Copy, PartialEq, Eq)]
pub enum Head {
    /// Specifiers with declarators or without (7).
    Declaration,
    /// `using` (7.3.3, 7.3.4).
    Using,
    /// `namespace`, with which an alias begins in a block (7.3.2).
    Namespace,
    /// A name and `:` (6.1).
    Label,
    /// All that is nothing else (6.2).
    Expression,
}

/// The readers of specifiers and declarators: what they ask, with room for so many more brackets, and the readers of what
/// stands behind a bracket.
#[derive_where(Clone, Copy)]
pub struct Reader<'n, K, N> {
    pub kinds: &'n K,
    pub room: u32,
    pub nested: &'n N,
}

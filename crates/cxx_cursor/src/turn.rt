/// What a turn of a loop leads to.
pub enum Turn<A, B> {
    More(A),
    Done(B),
}

// One pair of a book file: where its line number and its value stand, and what they are.
#[derive(Clone, Copy)]
pub(crate) struct Pair<R> {
    pub(crate) line_place: usize,
    pub(crate) value_place: usize,
    pub(crate) line: usize,
    pub(crate) row: R,
}

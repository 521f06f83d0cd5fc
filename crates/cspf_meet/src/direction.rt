/// The direction of a search.
#[derive(Clone, Copy)]
pub(crate) enum Direction {
    /// From the head-end, along the links.
    Ahead,
    /// From the tail-end, against the links.
    Back,
}

/// What the two ways of a pair must not share.
#[derive(Clone, Copy, Debug, PartialEq, Eq)]
pub enum Kind {
    /// No circuit. A circuit is a link together with its reverse.
    Circuits,
    /// No circuit, and no router except the head-end and the tail-end.
    Routers,
}

ghost use Rattle.std.specs.Prelude.{◌≡◌};

use cspf_model::Link;

/// A link of a table, with the index of the router that it leads to and the index of its reverse.
#[derive(Clone, Copy)]
pub struct Edge<'a> {
    /// The index of the link among the links from the same router.
    pub row: usize,
    /// The link.
    pub link: &'a Link,
    /// The link's metric.
    pub metric: u32,
    /// The index of the router that the link leads to, in the list of routers.
    pub end: usize,
    /// The index of the link's reverse among the table's links, or `NO_LINK`.
    pub reverse: u16,
    ghost same: { metric ≡ link.now.metric },
}

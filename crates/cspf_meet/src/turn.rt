ghost use Rattle.std.specs.Prelude.{◌≡◌, ◌<◌, ◌^◌, length};
ghost use Rattle.cspf_model.specs.declared.limits.TheConstants.{MOST_ROUTERS};

use crate::direction::Direction;
use cspf_model::Link;

/// A router that a search looks at.
#[derive(Clone, Copy)]
pub(crate) struct Turn<'a> {
    /// The direction of the search.
    pub(crate) direction: Direction,
    /// The links that the search reads: those from the router, or against the links all links of
    /// the table.
    pub(crate) links: &'a [Link],
    /// For each router, its rank in the other search.
    pub(crate) others: &'a [u64],
    /// The rank of the router.
    pub(crate) rank: u64,
    /// The least rank that waits in the other search.
    pub(crate) beyond: u64,
    /// The index of the router where the other search begins. A way may reach this router even if
    /// it has no transit.
    pub(crate) goal: usize,
    ghost small: { rank < 2 ^ 54 },
    ghost low: { beyond < 2 ^ 54 },
    ghost many: { length others.now ≡ MOST_ROUTERS },
}

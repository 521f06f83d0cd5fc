//! The bandwidths of one link, and what is counted on it.

ghost use Rattle.std.specs.Prelude.{◌≡◌, List};
ghost use Rattle.cspf_book.specs.declared.placement.Placement.{Placement as Placed};
ghost use Rattle.cspf_book.specs.Kept.{IsCountOf};
ghost use Rattle.cspf_book.specs.LinkFigures.{figures_of};

use crate::counts::Counts;
use crate::effective_links::effective_link;
use cspf_model::Link;

/// The bandwidths of a link of the base in bytes per second, each at the priorities 0 to 7.
#[derive(Clone, Copy, Debug, PartialEq, Eq)]
pub struct LinkFigures {
    /// The unreserved bandwidth in the base.
    pub base: [u64; 8],
    /// How much bandwidth the placements count.
    pub counted: [u128; 8],
    /// The link's bandwidth in the effective database: what a request at this setup priority may
    /// have. It is the least bandwidth that is left at this priority or at a more important one.
    pub left: [u64; 8],
}

/// The figures of a link of the base.
pub(crate) fn figures_of(counts: &Counts, link: &Link) -> LinkFigures
    ensures { (placements : List Placed) → IsCountOf counts.now placements
        → result ≡ figures_of placements link.now }
{
    let base = link.free;
    let counted = counts.sums(link.from, link.local);
    let left = effective_link(counts, link).free;
    LinkFigures {
        base,
        counted,
        left,
    }
}

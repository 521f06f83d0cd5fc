ghost use Rattle.cspf_model.specs.declared.limits.TheConstants.{MOST_LEGS};
ghost use Rattle.std.specs.Prelude.{◌≡◌, ◌*◌, ◌<◌, ◌≤◌};
ghost use Rattle.cspf_model.specs.Database.{IsRouterOf};
ghost use Rattle.cspf_search.specs.Arena.{state_of};
ghost use Rattle.cspf_graph.specs.Lists.{AreListed};
ghost use Rattle.cspf_search.specs.ForwardStars.{IsForwardStar};

use crate::arena::Node;
use cspf_db::Table;
use cspf_model::{Link, MOST_ROUTERS};

/// The forward star of a settled node: the node's state, and the links from its router. A state is
/// a router in a leg, and a node is the record of a walk.
#[derive(Clone, Copy)]
pub(crate) struct ForwardStar<'a> {
    /// The index of the node's state (a router in a leg).
    pub(crate) state: usize,
    /// The links from the node's router.
    pub(crate) links: &'a [Link],
    /// For each link, the index of the router that it leads to, in the list of routers.
    pub(crate) ends: &'a [u16],
    /// For each link, the index of its reverse among the table's links, or `NO_LINK`.
    pub(crate) reverses: &'a [u16],
}

/// The forward star of a node (the record of a walk).
pub(crate) fn star_of<'a>(table: &'a Table, node: &Node<'_>) -> ForwardStar<'a>
    requires listed { AreListed table.now }
    requires known { IsRouterOf table.now node.now.router }
    requires from_one { 1 ≤ node.now.leg }
    requires most { node.now.leg ≤ MOST_LEGS }
    ensures { IsForwardStar table.now (state_of node.now) result }
{
    let Some(place) = table.place_of(node.router) else {
        unreachable!();
    };
    ForwardStar {
        state: (usize::from(node.leg) - 1) * MOST_ROUTERS + place,
        links: table.out_at(place),
        ends: table.ends_at(place),
        reverses: table.reverses_at(place),
    }
}

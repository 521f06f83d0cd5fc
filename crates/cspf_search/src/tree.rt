//! Trees of lower bounds. Requests with the same tail-end and the same affinities share a tree.

ghost use Rattle.std.specs.Prelude.{◌≡◌, ◌<◌, ◌^◌, All, length};
ghost use Rattle.cspf_model.specs.declared.limits.TheConstants.{MOST_ROUTERS};

use crate::packing::pack;
use crate::ring_edge::least_open;
use crate::tree_ring::TreeRing;
use crate::tree_steps::settle;
use cspf_db::Table;
use cspf_graph::listed;
use cspf_model::{MOST_ROUTERS, Request};
use cspf_walk::{COST_WEIGHT, LowerBounds};
use std::alloc::{AllocError, Global};

/// For each router, a lower bound of the cost from this router to one tail-end. The bound holds for
/// all ways over links that pass the affinities of the tree, whatever bandwidth these links have
/// left. For ways that cost no more than the bound, the tree also has a lower bound of their number
/// of links.
#[derive(Drop)]
pub struct Tree {
    /// For each router, its bound of the cost times `COST_WEIGHT`, plus its bound of the number of
    /// links. So this is a lower bound of the rank of a way to the tail-end. The rank of a way packs
    /// its cost and its number of links into one number.
    pub(crate) ranks: Vec<u64>,
    ghost many: { length ranks.items ≡ MOST_ROUTERS },
    ghost small: { All (λ rank. rank < 2 ^ 42) ranks.items },
}

impl Tree {
    ghost use Rattle.std.specs.Prelude.{IfOk, IfSome, IfNone};
    ghost use Rattle.cspf_model.specs.declared.request.Request.{Request as Asked};
    ghost use Rattle.cspf_model.specs.Database.{IsRouterOf};
    ghost use Rattle.cspf_search.specs.Trees.{IsTree, ShareTrees, tree_bound};

    /// The tree for the tail-end and the affinities of a request. The result is `None` if no link
    /// begins or ends at the tail-end. All requests with this tail-end and these affinities share
    /// the tree.
    pub fn grow(alloc: Global, table: &Table, request: &Request) -> Result<Option<Tree>, AllocError>
        ensures known { IfOk result (λ grown. IfSome grown (λ tree. (r : Asked)
            → ShareTrees request.now r → IsTree table.now r tree)) }
        ensures unknown { IfOk result (λ grown. IfNone grown
            (¬ IsRouterOf table.now request.now.to)) }
    {
        listed(table);
        let Some(to) = table.place_of(request.to) else {
            return Ok(None);
        };
        let mut any = *request;
        any.bandwidth = 0;
        let mut ring = TreeRing::begin(alloc, to)?;
        settle(table, &any, &mut ring)?;
        let TreeRing {
            near,
            links,
            done,
            ..
        } = ring;
        let edge = least_open(&near, &done, table.routers().len());
        let ranks = pack(alloc, &near, &links, edge)?;
        Ok(Some(Tree { ranks }))
    }

    /// The bound of the cost from the router at the index `place` in the list of routers.
    pub(crate) fn least_cost(&self, place: usize) -> u32
        requires { place < MOST_ROUTERS }
        ensures { result ≡ tree_bound self.now place }
    {
        (self.ranks[place] / COST_WEIGHT) as u32
    }
}

impl LowerBounds for Tree {
    ghost use Rattle.cspf_search.specs.Trees.{tree_rank};

    ghost bound_of = { tree_rank };

    #[inline(always)]
    fn bound(&self, place: usize) -> u64 {
        self.ranks[place]
    }
}

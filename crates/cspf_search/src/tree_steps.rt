//! Grows a tree by a backward search: it starts at the tail-end, follows the links against their
//! direction, and settles all routers. The search uses a link only if the link has a reverse and
//! passes the affinities.

ghost use Rattle.std.specs.Prelude.{◌≡◌, ◌≢◌, ◌<◌, OnOk, length};
ghost use Rattle.cspf_columns.specs.declared.limits.TheConstants.{NO_LINK};
ghost use Rattle.cspf_model.specs.declared.limits.TheConstants.{MOST_ROUTERS};
ghost use Rattle.cspf_model.specs.Database.{AreLinksOf};
ghost use Rattle.cspf_db.specs.Index.{links_of, router_list};
ghost use Rattle.cspf_graph.specs.Lists.{AreListed};
ghost use Rattle.cspf_search.specs.TreeSteps.{AreLinksPassed, IsLinkPassed, IsTreeLower, IsTreeRing, TreeFalls};

use crate::limits::FARTHEST;
use crate::tree_ring::TreeRing;
use cspf_db::{NO_LINK, Table};
use cspf_graph::{accepts, may_lead_over};
use cspf_model::{MOST_ROUTERS, Request};
use std::alloc::AllocError;

/// Offers the router `from` a way of `count` links to the tail-end. The way begins with the link at
/// the index `reverse`, which leads to a router whose cost to the tail-end is `base`. If `reverse`
/// is `NO_LINK`, or the link doesn't pass the affinities of `any`, nothing is offered. `any` is a
/// request for no bandwidth.
fn pass(
    table: &Table,
    any: &Request,
    from: u16,
    reverse: u16,
    base: u32,
    count: u16,
    ring: &mut TreeRing,
) -> Result<(), AllocError>
    requires any { any.now.bandwidth ≡ 0 }
    requires listed { AreListed table.now }
    requires from { from < length (router_list table.now) }
    requires within { reverse ≢ NO_LINK → reverse < length (links_of table.now) }
    ensures falls { OnOk result (TreeFalls ring.old ring.new) }
    ensures passed { OnOk result (IsLinkPassed table.now any.now base count ring.new from reverse) }
{
    let at = usize::from(from);
    if reverse == NO_LINK || ring.is_as_near(at, base, count) {
        return Ok(());
    }
    let link = &table.links()[usize::from(reverse)];
    let ahead = base.saturating_add(link.metric).min(FARTHEST);
    if ring.is_as_near(at, ahead, count) || !accepts(link, any) {
        return Ok(());
    }
    ring.lower(from, ahead, count)
}

/// Offers to each router with a link to the router `to` the way over this link. This way has
/// `count` links, and the part from `to` on costs `base`. The function finds these links as the
/// reverses of the links from `to`.
fn walk(
    table: &Table,
    any: &Request,
    to: usize,
    base: u32,
    count: u16,
    ring: &mut TreeRing,
) -> Result<(), AllocError>
    requires any { any.now.bandwidth ≡ 0 }
    requires listed { AreListed table.now }
    requires links { AreLinksOf table.now (links_of table.now) }
    requires to { to < length (router_list table.now) }
    ensures falls { OnOk result (TreeFalls ring.old ring.new) }
    ensures passed { OnOk result (AreLinksPassed table.now any.now base count ring.new to) }
{
    let ends = table.ends_at(to);
    let reverses = table.reverses_at(to);
    for row in 0..ends.len() {
        pass(table, any, ends[row], reverses[row], base, count, ring)?;
    }
    Ok(())
}

/// Looks at all links that end at the router `to`, and offers the router at the start of each link
/// the way over this link. If no way may lead over `to`, the function looks at no link.
fn take(table: &Table, any: &Request, to: usize, ring: &mut TreeRing) -> Result<(), AllocError>
    requires any { any.now.bandwidth ≡ 0 }
    requires listed { AreListed table.now }
    requires links { AreLinksOf table.now (links_of table.now) }
    requires within { to < MOST_ROUTERS }
    requires ring { IsTreeRing table.now any.now ring.old }
    ensures ring { OnOk result (IsTreeRing table.now any.now ring.new) }
    ensures lower { OnOk result (IsTreeLower ring.old ring.new) }
{
    if to >= table.routers().len() || !may_lead_over(table, any, to) {
        ring.done[to] = true;
        return Ok(());
    }
    let base = ring.near[to];
    let links = ring.links[to];
    walk(table, any, to, base, links.saturating_add(1), ring)?;
    if ring.near[to] == base && ring.links[to] == links {
        ring.done[to] = true;
    }
    Ok(())
}

/// Settles all waiting routers, in the order of their costs, and then of their numbers of links.
pub(crate) fn settle(table: &Table, any: &Request, ring: &mut TreeRing) -> Result<(), AllocError>
    requires any { any.now.bandwidth ≡ 0 }
    requires listed { AreListed table.now }
    requires links { AreLinksOf table.now (links_of table.now) }
    requires ring { IsTreeRing table.now any.now ring.old }
    ensures ring { OnOk result (IsTreeRing table.now any.now ring.new) }
    ensures lower { OnOk result (IsTreeLower ring.old ring.new) }
{
    for _taken in 0..MOST_ROUTERS {
        let Some(to) = ring.nearest() else {
            return Ok(());
        };
        take(table, any, to, ring)?;
    }
    Ok(())
}

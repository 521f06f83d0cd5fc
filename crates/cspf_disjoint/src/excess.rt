//! The excesses of links and routers: by how much a potential rises above a weight.

ghost use Rattle.std.specs.Prelude.{◌≡◌, ◌<◌, ◌↔◌, IsTrue, IfSome, length, sum_by};
ghost use Rattle.cspf_model.specs.Database.{IsLinkOf};
ghost use Rattle.cspf_db.specs.Index.{links_of, router_list};
ghost use Rattle.cspf_graph.specs.Lists.{IsIndexOf};
ghost use Rattle.cspf_pair.specs.Potentials.{BoundsExcess, MayBeUsed, router_excess};
ghost use Rattle.cspf_disjoint.specs.Excess.{BoundsExcessAmong, IsExcessIfUsed};
ghost use Rattle.cspf_disjoint.specs.Potentials.{potentials_of};
ghost use Rattle.cspf_disjoint.specs.Weights.{weights_of};

use crate::potentials::{PotentialLists, number_at};
use crate::weights::WeightRule;
use cspf_addr::Addr;
use cspf_db::Table;
use cspf_graph::{admissible, may_be_left};
use cspf_model::{Link, Request};

/// The index of the router in `Table::routers`. `last` is tried first.
fn place_near(table: &Table, router: Addr, last: usize) -> Option<usize>
    ensures { IfSome result (IsIndexOf table.now router) }
{
    let routers = table.routers();
    if last < routers.len() && routers[last] == router {
        return Some(last);
    }
    table.place_of(router)
}

/// Whether a way may have the link, which begins at the router with the index `from`.
fn may_be_used(table: &Table, request: &Request, link: &Link, from: usize) -> bool
    requires link { IsLinkOf table.now link.now }
    requires from { IsIndexOf table.now link.now.from from }
    ensures { IsTrue result ↔ MayBeUsed table.now request.now link.now }
{
    may_be_left(table, from, request) && admissible(table, link, request)
}

/// The excess of the link, which leads from the router with the index `from` to the router with the
/// index `to`. It is 0 if a way can't have the link.
fn excess_of(
    table: &Table,
    request: &Request,
    lists: PotentialLists<'_>,
    rule: &WeightRule,
    link: &Link,
    from: usize,
    to: usize,
) -> u64
    requires link { IsLinkOf table.now link.now }
    requires from { IsIndexOf table.now link.now.from from }
    requires to { IsIndexOf table.now link.now.to to }
    ensures { IsExcessIfUsed table.now request.now (potentials_of table.now lists.entry)
        (weights_of rule.now) link.now result }
{
    let _routers = table.routers();
    let rise = number_at(lists.arriving, to).saturating_sub(number_at(lists.leaving, from));
    let excess = rise.saturating_sub(rule.of_link(link));
    if excess > 0 && !may_be_used(table, request, link, from) {
        return 0;
    }
    excess
}

/// The sum of the excesses of all links that a way may have, or `None` if it is 2^64 or more.
fn excess_of_links(
    table: &Table,
    request: &Request,
    lists: PotentialLists<'_>,
    rule: &WeightRule,
) -> Option<u64>
    ensures { IfSome result (BoundsExcessAmong table.now request.now
        (potentials_of table.now lists.entry) (weights_of rule.now) (links_of table.now)) }
{
    let links = table.links();
    let ends = table.ends();
    let mut total: u64 = 0;
    let mut from = 0;
    for row in 0..links.len() {
        let link = &links[row];
        from = place_near(table, link.from, from)?;
        let to = usize::from(ends[row]);
        total = total.checked_add(excess_of(table, request, lists, rule, link, from, to))?;
    }
    Some(total)
}

/// The sum of the excesses of all routers, or `None` if it is 2^64 or more.
fn excess_of_routers(table: &Table, lists: PotentialLists<'_>, rule: &WeightRule) -> Option<u64>
    ensures { IfSome result (λ total. total ≡ sum_by (router_excess
        (potentials_of table.now lists.entry) (weights_of rule.now)) (router_list table.now)) }
{
    let routers = table.routers();
    let mut total: u64 = 0;
    for place in 0..routers.len() {
        let rise = number_at(lists.leaving, place).saturating_sub(number_at(lists.arriving, place));
        total = total.checked_add(rise.saturating_sub(rule.of_router(routers[place])))?;
    }
    Some(total)
}

/// The sum of the excesses of all links that a way may have and of all routers, or `None` if it is
/// 2^64 or more.
pub(crate) fn total_excess(
    table: &Table,
    request: &Request,
    lists: PotentialLists<'_>,
    rule: &WeightRule,
) -> Option<u64>
    ensures { IfSome result (BoundsExcess table.now request.now
        (potentials_of table.now lists.entry) (weights_of rule.now)) }
{
    let _links = table.links();
    let _routers = table.routers();
    let links = excess_of_links(table, request, lists, rule)?;
    let routers = excess_of_routers(table, lists, rule)?;
    let total = links.checked_add(routers)?;
    Some(total)
}

//! The check of an answer. It trusts nothing of the search: whatever the potentials are, an answer
//! that passes is right.

ghost use Rattle.std.specs.Prelude.{◌≡◌, ◌<◌, ℕ, true, List, Contains, IfSome};
ghost use Rattle.cspf_model.specs.declared.link.Link.{Link as Linked};
ghost use Rattle.cspf_model.specs.Database.{IsLinkOf};
ghost use Rattle.cspf_model.specs.Walks.{routers_passed};
ghost use Rattle.cspf_pair.specs.Pairs.{IsLeastPair, IsPair, IsWay};
ghost use Rattle.cspf_pair.specs.Potentials.{AreOfKind, BoundsExcess};
ghost use Rattle.cspf_disjoint.specs.Bound.{IsWithinBound};
ghost use Rattle.cspf_disjoint.specs.Potentials.{potentials_of};
ghost use Rattle.cspf_disjoint.specs.Weights.{weights_of};

use crate::excess::total_excess;
use crate::potentials::{PotentialLists, potential_at_end, potential_at_start};
use crate::weights::{WeightRule, weight_along};
use cspf_addr::Addr;
use cspf_db::Table;
use cspf_model::{Link, Request};
use cspf_pair::{Kind, least_by_potentials, ways_by_potentials};

/// Whether the potential of the tail-end is above that of the head-end, although no link that a way
/// may have and no router has an excess.
fn rises_without_excess(
    table: &Table,
    request: &Request,
    lists: PotentialLists<'_>,
    rule: &WeightRule,
) -> bool
    ensures none { result ≡ true → BoundsExcess table.now request.now
        (potentials_of table.now lists.entry) (weights_of rule.now) 0 }
    ensures rises { result ≡ true → (potentials_of table.now lists.entry).leaving request.now.from
        < (potentials_of table.now lists.entry).arriving request.now.to }
{
    let Some(start) = potential_at_start(table, request, lists) else {
        return false;
    };
    let Some(end) = potential_at_end(table, request, lists) else {
        return false;
    };
    let Some(total) = total_excess(table, request, lists, rule) else {
        return false;
    };
    total == 0 && start < end
}

/// Whether the potentials prove that there is no way.
pub(crate) fn has_no_way(table: &Table, request: &Request, lists: PotentialLists<'_>) -> bool
    ensures { result ≡ true → (way : List Linked) → ¬ IsWay table.now request.now way }
{
    // Law: without an excess and without weights there is no way.
    ways_by_potentials();
    rises_without_excess(table, request, lists, &WeightRule::Nothing)
}

/// Whether the potentials prove that each way has the link.
pub(crate) fn each_has(
    table: &Table,
    request: &Request,
    lists: PotentialLists<'_>,
    link: &Link,
) -> bool
    requires { IsLinkOf table.now link.now }
    ensures { result ≡ true → (way : List Linked) → IsWay table.now request.now way
        → Contains way link.now }
{
    // Law: without an excess each way has a weight.
    ways_by_potentials();
    rises_without_excess(table, request, lists, &WeightRule::ByLink(*link))
}

/// Whether the potentials prove that each way passes through the router.
pub(crate) fn each_passes(
    table: &Table,
    request: &Request,
    lists: PotentialLists<'_>,
    router: Addr,
) -> bool
    ensures { result ≡ true → (way : List Linked) → IsWay table.now request.now way
        → Contains (routers_passed way) router }
{
    // Law: without an excess each way has a weight.
    ways_by_potentials();
    rises_without_excess(table, request, lists, &WeightRule::ByRouter(router))
}

/// Whether the potentials prove that no pair is smaller than these two ways.
pub(crate) fn is_least(
    table: &Table,
    request: &Request,
    kind: Kind,
    lists: PotentialLists<'_>,
    one: &[Link],
    other: &[Link],
) -> bool
    requires pair { IsPair table.now request.now kind one.now other.now }
    requires fits { AreOfKind kind (potentials_of table.now lists) }
    ensures { result ≡ true → IsLeastPair table.now request.now kind one.now other.now }
{
    // Law: a pair is the least one if its weight is at most what the potentials prove.
    least_by_potentials();
    let _rows = table.links();
    match proven(table, request, lists, one, other) {
        Some(yes) => yes,
        None => false,
    }
}

/// Whether the weight of both ways, twice the potential of the head-end and all excesses together
/// are at most twice the potential of the tail-end. `None` if a sum is 2^64 or more.
fn proven(
    table: &Table,
    request: &Request,
    lists: PotentialLists<'_>,
    one: &[Link],
    other: &[Link],
) -> Option<bool>
    ensures { IfSome result (λ yes. yes ≡ true → IsWithinBound table.now request.now
        (potentials_of table.now lists.entry) one.now other.now) }
{
    let start = u128::from(potential_at_start(table, request, lists)?);
    let end = u128::from(potential_at_end(table, request, lists)?);
    let first = u128::from(weight_along(one)?);
    let second = u128::from(weight_along(other)?);
    let excess = u128::from(total_excess(table, request, lists, &WeightRule::BySize)?);
    Some(first + second + 2 * start + excess <= 2 * end)
}

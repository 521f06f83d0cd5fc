//! An explicit route: its links and its cost.

ghost use Rattle.cspf_model.specs.declared.limits.TheConstants.{MOST_ROUTE_LINKS};
ghost use Rattle.std.specs.Prelude.{◌≡◌, ◌<◌, ◌≤◌, ◌^◌, ◌↔◌, IsTrue, length, map, nat_eq};
ghost use Rattle.std.specs.List.{list_any, IsDistinct};
ghost use Rattle.std.specs.List.Sorted.{IsNonDecreasing};
ghost use Rattle.cspf_model.specs.Walks.{cost_of};
ghost use Rattle.cspf_model.specs.RouteLinks.{AreLinked, IsKept, VisitsTwice};

use crate::Link;
use crate::limits::MOST_ROUTE_LINKS;
use cspf_addr::Addr;
use std::marker::Model;

/// An explicit route: 1 to `MOST_ROUTE_LINKS` links. Each link begins where the previous link ends.
#[derive(Debug, Drop)]
pub struct Route {
    links: Vec<Link>,
    cost: u64,
}

impl Model for Route {
    ghost use Rattle.std.specs.Prelude.{List};
    ghost use Rattle.std.specs.Coded.{coded_list};
    ghost use Rattle.cspf_model.specs.declared.link.Link.{Link};
    ghost use Rattle.cspf_model.specs.contracts.link.Link.{the_row};
    ghost use Rattle.cspf_model.specs.RouteLinks.{IsKept};

    ghost Value = { List Link };

    ghost coded = { coded_list the_row.coded };

    ghost view = { λ a. a.links.items };

    ghost invariant = { λ a. IsKept a.links.items a.cost };
}

impl Route {
    /// The route along these links, with their cost.
    pub fn new(links: Vec<Link>, cost: u64) -> Route
        requires { IsKept links.items cost }
        ensures { result ≡ links.items }
    {
        Route { links, cost }
    }

    /// The links in order, from the head-end on.
    pub fn links(&self) -> &[Link]
        ensures value { result.now ≡ self.now }
        ensures some { 0 < length self.now }
        ensures most { length self.now ≤ MOST_ROUTE_LINKS }
        ensures linked { AreLinked self.now }
    {
        self.links.as_slice()
    }

    /// The sum of the links' metrics. It is below 2^45.
    pub fn cost(&self) -> u64
        ensures value { result ≡ cost_of self.now }
        ensures small { result < 2 ^ 45 }
    {
        self.cost
    }

    /// Whether the route visits some router twice. The start at the head-end counts as one visit.
    pub fn again(&self) -> bool
        ensures { IsTrue result ↔ VisitsTwice self.now }
    {
        let links = self.links.as_slice();
        ends_at(links, links[0].from) || ends_meet(links)
    }
}

/// Whether some link ends at the router.
fn ends_at(links: &[Link], router: Addr) -> bool
    ensures { result ≡ list_any (λ l. nat_eq router l.to) links.now }
{
    links.iter().any(|link| router == link.to)
}

/// If there are at most this many links, `ends_meet` compares all pairs of links, and doesn't sort
/// their ends.
const FEW: usize = 24;

/// Whether two links end at the same router. The call compares all pairs of links, so its time is
/// quadratic.
fn any_pair_meets(links: &[Link]) -> bool
    ensures { IsTrue result ↔ (¬ IsDistinct nat_eq (map (λ l. l.to) links.now)) }
{
    for (i, link) in links.iter().enumerate() {
        if ends_at(&links[i + 1..], link.to) {
            return true;
        }
    }
    false
}

/// Writes the router at which each link ends into `ends`.
fn list_ends(ends: &mut [Addr], links: &[Link])
    requires { length ends.old ≡ length links.now }
    ensures { ends.new ≡ map (λ l. l.to) links.now }
{
    for (at, link) in links.iter().enumerate() {
        ends[at] = link.to;
    }
}

/// Whether the sorted list has some router twice.
fn repeats(sorted: &[Addr]) -> bool
    requires { IsNonDecreasing sorted.now }
    ensures { IsTrue result ↔ (¬ IsDistinct nat_eq sorted.now) }
{
    for at in 1..sorted.len() {
        if sorted[at - 1] == sorted[at] {
            return true;
        }
    }
    false
}

/// Whether two links end at the same router. The call uses the slice `ends` to sort the routers at
/// which the links end.
fn ends_meet_in(ends: &mut [Addr], links: &[Link]) -> bool
    requires { length ends.old ≡ length links.now }
    ensures { IsTrue result ↔ (¬ IsDistinct nat_eq (map (λ l. l.to) links.now)) }
{
    list_ends(ends, links);
    ends.sort_unstable();
    repeats(ends)
}

/// Whether two links end at the same router. For more than `FEW` links the call sorts the routers
/// at which the links end, which is faster than comparing all pairs. It takes no memory.
fn ends_meet(links: &[Link]) -> bool
    requires { length links.now ≤ MOST_ROUTE_LINKS }
    ensures { IsTrue result ↔ (¬ IsDistinct nat_eq (map (λ l. l.to) links.now)) }
{
    if links.len() <= FEW {
        return any_pair_meets(links);
    }
    let mut ends = [Addr::new(0); MOST_ROUTE_LINKS];
    ends_meet_in(&mut ends[..links.len()], links)
}

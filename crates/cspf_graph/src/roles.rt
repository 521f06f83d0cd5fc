//! What a route may do at each router in each leg. May a link lead the route to the router? May the
//! route go on to the next leg at the router? Both answers follow from what a route may do in the
//! leg after the last hop, and from the targets of the legs. A leg's targets are the routers where
//! the leg may end.

ghost use Rattle.std.specs.Prelude.{◌≡◌, ◌≢◌, true, ◌+◌, ◌*◌, ◌<◌, ◌↔◌, ◌⊎◌, All, IsTrue, IfOk, length, slice_get};
ghost use Rattle.cspf_db.specs.Index.{router_list};
ghost use Rattle.cspf_model.specs.Targets.{IsLoose};
ghost use Rattle.cspf_graph.specs.Lists.{AreListed, IsIndexOf, router_at};
ghost use Rattle.cspf_graph.specs.Roles.{AreRoles, AreTargets, AreTargetsOf, IsRole};
ghost use Rattle.cspf_graph.specs.RoleSteps.{AreRoleRows, AreRolesMarked, AreRolesUpTo, IsSpread};

use crate::lists::listed;
use cspf_db::Table;
use cspf_model::{MOST_ROUTERS, Request};
use std::alloc::{AllocError, Global};

/// What a route may do at a router in a leg.
#[derive(Clone, Copy, Debug)]
pub struct Role {
    /// Whether a link may lead the route to the router.
    pub enter: bool,
    /// Whether the route may go on to the next leg at the router. The router is then a target of
    /// the leg (a router where the leg may end), and a route may visit the router.
    pub target: bool,
}

/// The role of a router to which no link may lead a route, and at which the route may not go on to
/// the next leg.
const NOTHING: Role = Role {
    enter: false,
    target: false,
};

/// What a route may do at the router with the index `place` in the leg after the last hop. This leg
/// is loose, and its only target is the tail-end.
fn last_role(table: &Table, request: &Request, place: usize) -> Role
    requires { place < length (router_list table.now) }
    ensures { IsRole table.now request.now (length request.now.hops + 1)
        (router_at table.now place) result }
{
    let last = table.routers()[place] == request.to;
    Role {
        enter: last || table.transit_at(place),
        target: last,
    }
}

/// The same as `last_role` for a router that isn't the tail-end. A role says what a route may do at
/// a router in a leg.
fn passed_role(table: &Table, request: &Request, place: usize) -> Role
    requires { place < length (router_list table.now) }
    ensures { router_at table.now place ≢ request.now.to
        → IsRole table.now request.now (length request.now.hops + 1)
        (router_at table.now place) result }
{
    Role {
        enter: table.transit_at(place),
        target: false,
    }
}

/// Sets the role of each router in the leg after the last hop. `to` is the index of the tail-end.
fn set_last_roles(table: &Table, request: &Request, to: usize, roles: &mut [Role])
    requires listed { AreListed table.now }
    requires to { IsIndexOf table.now request.now.to to }
    requires many { length roles.old ≡ (length request.now.hops + 1) * MOST_ROUTERS }
    ensures { AreRolesUpTo table.now request.now 0 roles.new }
{
    let first = request.hops.len() * MOST_ROUTERS;
    for place in 0..table.routers().len() {
        roles[first + place] = passed_role(table, request, place);
    }
    roles[first + to] = last_role(table, request, to);
}

/// Where a list of roles has the roles of two legs. The roles of a leg to a hop begin at the index
/// `first`, and the roles of the leg after the last hop at the index `last`. Each leg has one role
/// for each of the `count` routers. A role says what a route may do at a router in a leg.
#[derive(Clone, Copy)]
struct RoleRows {
    first: usize,
    last: usize,
    count: usize,
}

/// Does the first step for a leg to a hop, before targets (routers where a leg may end) are
/// considered. In a loose leg, sets `enter` for each router that has it in the leg after the last
/// hop. In a strict leg, clears `enter` for all routers. Clears `target` for all routers.
fn spread(roles: &mut [Role], rows: RoleRows, loose: bool)
    requires rows { AreRoleRows rows roles.old }
    ensures { IsSpread rows loose roles.old roles.new }
{
    for place in 0..rows.count {
        let enter = loose && roles[rows.last + place].enter;
        roles[rows.first + place] = Role {
            enter,
            target: false,
        };
    }
}

/// The new role of a router that is a target of this leg (a router where the leg may end) or of the
/// preceding leg. `own` says whether the router is a target of this leg. `stands` says whether a
/// link may lead a route to the router in the leg after the last hop. `begins` says whether the
/// router is the head-end. A role says what a route may do at a router in a leg.
fn with_more(old: Role, stands: bool, own: bool, begins: bool) -> Role
    ensures enter { IsTrue result.enter ↔ (IsTrue old.enter ⊎ IsTrue stands) }
    ensures target { IsTrue result.target
        ↔ (IsTrue old.target ⊎ ((own ≡ true) × (IsTrue stands ⊎ IsTrue begins))) }
{
    Role {
        enter: old.enter || stands,
        target: old.target || (own && (stands || begins)),
    }
}

/// Does the step that considers targets (routers where a leg may end). `places` has the indexes of
/// the targets of this leg if `own` is true, and otherwise of the preceding leg. Sets `enter` for
/// each of these routers that has it in the leg after the last hop. If `own` is true, also sets
/// `target` for these routers, and for the head-end if it is in `places`. `from` is the index of
/// the head-end.
fn mark(roles: &mut [Role], rows: RoleRows, places: &[u16], own: bool, from: usize)
    requires rows { AreRoleRows rows roles.old }
    requires places { All (λ place. place < rows.count) places.now }
    ensures { AreRolesMarked rows places.now own from roles.old roles.new }
{
    for place in places {
        let at = usize::from(*place);
        let stands = roles[rows.last + at].enter;
        roles[rows.first + at] = with_more(roles[rows.first + at], stands, own, at == from);
    }
}

/// The targets of the leg to a hop (routers where the leg may end), as indexes in the list of
/// routers. `leg_index` is the index of the hop.
fn targets_of(
    alloc: Global,
    table: &Table,
    request: &Request,
    leg_index: usize,
) -> Result<Vec<u16>, AllocError>
    requires { leg_index < length request.now.hops }
    ensures { IfOk result (λ places. AreTargetsOf table.now request.now (leg_index + 1) places.items) }
{
    match request.hops.get(leg_index) {
        Some(hop) => {
            let mut owners = Vec::with_capacity(alloc, MOST_ROUTERS)?;
            table.list_owners(&mut owners, hop.prefix);
            Ok(owners)
        }
        None => Ok(Vec::new(alloc)),
    }
}

/// Whether the leg to the hop at the index `leg_index` is loose.
pub fn is_loose(request: &Request, leg_index: usize) -> bool
    requires { leg_index < length request.now.hops }
    ensures { IsTrue result ↔ IsLoose (slice_get request.now.hops leg_index) }
{
    match request.hops.get(leg_index) {
        Some(hop) => hop.loose,
        None => true,
    }
}

/// A leg to a hop, the routers at which the leg may begin, and its targets (routers where the leg
/// may end). The routers are given by their indexes in the list of routers.
#[derive(Clone, Copy)]
struct Leg<'a> {
    /// The index of the hop.
    index: usize,
    /// The routers at which the leg may begin: for the first leg, the head-end, and for each other
    /// leg, the targets of the preceding leg.
    starts: &'a [u16],
    /// The targets of the leg (routers where the leg may end).
    targets: &'a [u16],
}

/// Sets the role of each router in the leg to a hop. `from` is the index of the head-end.
fn set_roles(table: &Table, request: &Request, leg: Leg<'_>, from: usize, roles: &mut [Role])
    requires within { leg.index < length request.now.hops }
    requires listed { AreListed table.now }
    requires starts { AreTargetsOf table.now request.now leg.index leg.starts.now }
    requires targets { AreTargetsOf table.now request.now (leg.index + 1) leg.targets.now }
    requires from { IsIndexOf table.now request.now.from from }
    requires many { length roles.old ≡ (length request.now.hops + 1) * MOST_ROUTERS }
    requires known { AreRolesUpTo table.now request.now leg.index roles.old }
    ensures { AreRolesUpTo table.now request.now (leg.entry.index + 1) roles.new }
{
    let rows = RoleRows {
        first: leg.index * MOST_ROUTERS,
        last: request.hops.len() * MOST_ROUTERS,
        count: table.routers().len(),
    };
    spread(roles, rows, is_loose(request, leg.index));
    mark(roles, rows, leg.starts, false, from);
    mark(roles, rows, leg.targets, true, from);
}

/// What a route may do at each router in each leg, and the targets of the legs to hops (routers
/// where these legs may end).
#[derive(Drop)]
pub struct Roles {
    /// The role of each router in each leg, leg by leg. Each leg has 1,024 roles. Among the roles
    /// of a leg, a router's role is at the router's index in `Table::routers`.
    pub states: Vec<Role>,
    /// For each hop, the targets of the leg to this hop (routers where this leg may end), as
    /// indexes in `Table::routers`.
    pub targets: Vec<Vec<u16>>,
}

/// Computes what a route may do at each router in each leg, and the targets of the legs to hops
/// (routers where these legs may end). `from` and `to` are the indexes of the head-end and the
/// tail-end in `Table::routers`.
pub fn find_roles(
    alloc: Global,
    table: &Table,
    request: &Request,
    from: usize,
    to: usize,
) -> Result<Roles, AllocError>
    requires from { IsIndexOf table.now request.now.from from }
    requires to { IsIndexOf table.now request.now.to to }
    ensures states { IfOk result (λ roles. AreRoles table.now request.now roles.states.items) }
    ensures targets { IfOk result (λ roles. AreTargets table.now request.now roles.targets.items) }
{
    listed(table);
    let hops = request.hops.len();
    let mut states = Vec::from_elem(alloc, NOTHING, (hops + 1) * MOST_ROUTERS)?;
    set_last_roles(table, request, to, &mut states);
    let mut targets: Vec<Vec<u16>> = Vec::with_capacity(alloc, hops)?;
    let head = [from as u16];
    for leg_index in 0..hops {
        let own = targets_of(alloc, table, request, leg_index)?;
        let starts = if leg_index == 0 {
            head.as_slice()
        } else {
            targets[leg_index - 1].as_slice()
        };
        let leg = Leg {
            index: leg_index,
            starts,
            targets: &own,
        };
        set_roles(table, request, leg, from, &mut states);
        targets.push(own)?;
    }
    Ok(Roles { states, targets })
}

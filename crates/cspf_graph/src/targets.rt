ghost use Rattle.std.specs.Prelude.{◌≤◌, ◌+◌, ◌↔◌, IsTrue, length};
ghost use Rattle.cspf_model.specs.Targets.{IsTarget, IsInside};

use cspf_addr::Addr;
use cspf_db::Table;
use cspf_model::Request;

/// Whether the router is a target of the leg (RFC 3209 4.3.3.2). The only target of leg 0 is the
/// head-end. The targets of leg i are the routers of the table with an address in the prefix of hop
/// i, where the first hop is hop 1. The only target of the leg after the last hop is the tail-end.
pub fn member(table: &Table, router: Addr, leg: usize, request: &Request) -> bool
    requires { leg ≤ length request.now.hops + 1 }
    ensures { IsTrue result ↔ IsTarget table.now request.now leg router }
{
    if leg == 0 {
        return router == request.from;
    }
    match request.hops.get(leg - 1) {
        Some(hop) => table.owns(router, hop.prefix),
        None => router == request.to,
    }
}

/// Whether a route may visit the router in the leg. The first leg is leg 1. In a loose leg a route
/// may visit any router. In a strict leg a route may visit only the targets of this leg and of the
/// preceding leg (RFC 3209 4.3.3.1). A leg's targets are the routers where the leg may end. The leg
/// after the last hop is loose.
pub fn inside(table: &Table, router: Addr, leg: usize, request: &Request) -> bool
    requires from_one { 1 ≤ leg }
    requires most { leg ≤ length request.now.hops + 1 }
    ensures { IsTrue result ↔ IsInside table.now request.now leg router }
{
    let loose = match request.hops.get(leg - 1) {
        Some(hop) => hop.loose,
        None => true,
    };
    loose || member(table, router, leg - 1, request) || member(table, router, leg, request)
}

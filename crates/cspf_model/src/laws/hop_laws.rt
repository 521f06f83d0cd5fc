//! Laws of hops and routes. Each function here has an empty body, and its contract states the law.
ghost use Rattle.cspf_model.specs.HopLaws.{AreRoutesWithoutHops};
ghost use Rattle.cspf_model.specs.Examples.{MayStandAtOwners, MayNotStandElsewhere, MayStandAnywhere, IsOutsideBeforeInside, MayBeEmpty, MayBeMetByAnyLink, AreFound, both_ways, six_links, three_links, router};

/// Without hops, the routes are exactly the walks that end at the tail-end.
pub fn route_without_hops()
    ensures { AreRoutesWithoutHops }
{}

/// Examples of routes in two small networks. A strict leg may visit several routers with an address
/// in its hop's prefix, but not the router 3.3.3.3, which has none. A loose leg may visit this
/// router. A leg may have no links. An interface address counts as the router's even if the
/// interface's link isn't admissible.
pub fn worked_routes()
    ensures six_links { AreFound (both_ways six_links) (router 4) }
    ensures three_links { AreFound (both_ways three_links) (router 3) }
    ensures strict { MayStandAtOwners }
    ensures strict_alone { MayNotStandElsewhere }
    ensures loose { MayStandAnywhere }
    ensures before { IsOutsideBeforeInside }
    ensures empty { MayBeEmpty }
    ensures inadmissible { MayBeMetByAnyLink }
{}

//! Laws of pairs. Each function here has an empty body, and its contract states the law.
ghost use Rattle.cspf_pair.specs.Laws.{
  ArePairsByCircuits,
  ArePairsOfLinksNoSmaller,
  IsLeastPairOfLinksNoSmaller,
  IsNoPairByLink,
  IsNoPairByRouter,
};
ghost use Rattle.cspf_pair.specs.PotentialLaws.{IsLeastByPotentials, IsWayByPotentials};

/// If each way has a certain link, there is no pair of either kind. If each way passes through a
/// certain router, there is no pair that shares no router.
pub fn no_pair_for_this_reason()
    ensures link { IsNoPairByLink }
    ensures router { IsNoPairByRouter }
{}

/// A pair that shares no router is a pair that shares no circuit.
pub fn pair_by_routers_is_by_circuits()
    ensures { ArePairsByCircuits }
{}

/// For two ways without a common link there is always a pair that shares no circuit and isn't
/// larger. So no two such ways are smaller than the least pair that shares no circuit.
pub fn pairs_of_links_are_no_smaller()
    ensures pair { ArePairsOfLinksNoSmaller }
    ensures least { IsLeastPairOfLinksNoSmaller }
{}

/// Whatever potentials the routers have: if a pair weighs at most what the potentials prove, no pair
/// is smaller.
pub fn least_by_potentials()
    ensures { IsLeastByPotentials }
{}

/// Whatever potentials the routers have: if no link and no router has an excess, each way weighs at
/// least as much as the potential rises from the head-end to the tail-end.
pub fn ways_by_potentials()
    ensures { IsWayByPotentials }
{}

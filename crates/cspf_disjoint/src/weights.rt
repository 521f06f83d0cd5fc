//! The weights by which an answer is proved.

ghost use Rattle.std.specs.Prelude.{◌≡◌, IfSome};
ghost use Rattle.cspf_pair.specs.Potentials.{by_size, weight_of};

use cspf_addr::Addr;
use cspf_model::Link;
use cspf_pair::COST_WEIGHT;

/// Which links and routers have a weight.
#[derive(Clone, Copy, Debug)]
pub(crate) enum WeightRule {
    /// Each link has the weight `metric * COST_WEIGHT + 1`.
    BySize,
    /// Nothing has a weight.
    Nothing,
    /// A link with the key of this link has the weight 1.
    ByLink(Link),
    /// This router has the weight 1.
    ByRouter(Addr),
}

impl WeightRule {
    ghost use Rattle.std.specs.Prelude.{◌≡◌};
    ghost use Rattle.cspf_disjoint.specs.Weights.{weights_of};

    /// The weight of the link.
    pub(crate) fn of_link(&self, link: &Link) -> u64
        ensures { result ≡ (weights_of self.now).of_link link.now }
    {
        match self {
            WeightRule::BySize => u64::from(link.metric) * COST_WEIGHT + 1,
            WeightRule::ByLink(one) => u64::from(one.from == link.from && one.local == link.local),
            WeightRule::Nothing | WeightRule::ByRouter(_) => 0,
        }
    }

    /// The weight of the router.
    pub(crate) fn of_router(&self, router: Addr) -> u64
        ensures { result ≡ (weights_of self.now).of_router router }
    {
        match self {
            WeightRule::ByRouter(one) => u64::from(*one == router),
            WeightRule::BySize | WeightRule::Nothing | WeightRule::ByLink(_) => 0,
        }
    }
}

/// The weight of the way by size, or `None` if it is 2^64 or more.
pub(crate) fn weight_along(way: &[Link]) -> Option<u64>
    ensures { IfSome result (λ weight. weight ≡ weight_of by_size way.now) }
{
    let rule = WeightRule::BySize;
    let mut weight: u64 = 0;
    for link in way {
        weight = weight.checked_add(rule.of_link(link))?;
    }
    Some(weight)
}

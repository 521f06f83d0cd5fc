use crate::kind::Kind;
use cspf_model::Request;

/// A request for a pair of ways.
#[derive(Clone, Copy, Debug, PartialEq, Eq)]
pub struct PairRequest {
    /// The ends, the setup priority, the bandwidth and the affinities. Both ways have to meet them.
    /// The hops of this request don't matter.
    pub request: Request,
    /// What the two ways must not share.
    pub kind: Kind,
}

use cspf_addr::Addr;
use cspf_model::{Link, Route};

/// The answer to a request for a pair.
#[derive(Debug, Drop)]
pub enum PairOutcome {
    /// Two ways that are a pair. No pair has a smaller size: a smaller total cost, or the same total
    /// cost and fewer links. The second way doesn't come before the first in the order of walks.
    Pair(Route, Route),
    /// There is a way, but no pair, because each way has this link.
    EachBy(Link),
    /// There is a way, but no pair that shares no router, because each way passes through this
    /// router.
    EachThrough(Addr),
    /// There is no way.
    NoRoute,
    /// The database doesn't have the head-end.
    UnknownFrom,
    /// The database doesn't have the tail-end.
    UnknownTo,
}

//! A request for an explicit route, and the reason why a request is refused.

ghost use Rattle.std.specs.Prelude.{◌≢◌, ◌<◌, IfOk, IfErr};

use cspf_addr::{Addr, Hops, Mask};
use thiserror::Error;

/// A request for an explicit route (RFC 2702 7).
#[derive(Clone, Copy, Debug, PartialEq, Eq)]
pub struct Request {
    /// The number that the client gave the request. The answer repeats it.
    pub id: u64,
    /// The head-end: the router at which a route begins.
    pub from: Addr,
    /// The tail-end: the router at which a route ends.
    pub to: Addr,
    /// The setup priority, 0 (the highest) to 7 (RFC 3209 4.7.1).
    pub setup: u8,
    /// The bandwidth, in bytes per second, that each link of a route must have unreserved at the
    /// setup priority.
    pub bandwidth: u64,
    /// A link of any of these groups isn't admitted (RFC 3209 4.7.4).
    pub exclude_any: Mask,
    /// Only links of at least one of these groups are admitted (RFC 3209 4.7.4). The mask 0 admits
    /// all links.
    pub include_any: Mask,
    /// Only links of all these groups are admitted (RFC 3209 4.7.4).
    pub include_all: Mask,
    /// The hops that a route has to follow, in this order (RFC 3209 4.3.3).
    pub hops: Hops,
    ghost priority: { setup < 8 },
    ghost two_ends: { from ≢ to },
}

/// The reason why a request is refused.
#[derive(Clone, Copy, Debug, PartialEq, Eq, Error)]
pub enum RequestError {
    /// The setup priority is above 7.
    #[error("a setup priority above 7")]
    Priority,
    /// The head-end and the tail-end are the same router.
    #[error("a request from a router to itself")]
    SameEnds,
}

impl Request {
    ghost use Rattle.cspf_model.specs.Fields.{request_fields, HasRequestFields, IsRequestFault};

    /// The request with these fields. A setup priority above 7 is refused. Otherwise a request from
    /// a router to itself is refused.
    pub fn new(
        id: u64,
        from: Addr,
        to: Addr,
        setup: u8,
        bandwidth: u64,
        exclude_any: Mask,
        include_any: Mask,
        include_all: Mask,
        hops: Hops,
    ) -> Result<Request, RequestError>
        ensures ok { IfOk result (λ q. HasRequestFields q (request_fields
            id from to setup bandwidth exclude_any include_any include_all hops)) }
        ensures err { IfErr result (IsRequestFault (request_fields
            id from to setup bandwidth exclude_any include_any include_all hops)) }
    {
        if setup > 7 {
            return Err(RequestError::Priority);
        }
        if from == to {
            return Err(RequestError::SameEnds);
        }
        Ok(Request {
            id,
            from,
            to,
            setup,
            bandwidth,
            exclude_any,
            include_any,
            include_all,
            hops,
        })
    }
}

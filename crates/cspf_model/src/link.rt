//! A link with its traffic engineering attributes, and the reason why a link is refused.

ghost use Rattle.std.specs.Prelude.{◌≡◌, ◌≢◌, length, IfOk, OnErr};

use cspf_addr::{Addr, Mask};
use thiserror::Error;

/// A one-way, numbered, point-to-point link with its traffic engineering attributes (RFC 3630 2.5).
#[derive(Clone, Copy, Debug, PartialEq, Eq)]
pub struct Link {
    /// The router at which the link begins.
    pub from: Addr,
    /// The address of the link's interface at that router (RFC 3630 2.5.3). Together with `from` it
    /// is the link's key.
    pub local: Addr,
    /// The Router ID of the neighbor, at which the link ends (RFC 3630 2.5.2).
    pub to: Addr,
    /// The address of the neighbor's interface (RFC 3630 2.5.4).
    pub remote: Addr,
    /// The traffic engineering metric (RFC 3630 2.5.5).
    pub metric: u32,
    /// The administrative groups that the link belongs to (RFC 3630 2.5.9).
    pub group: Mask,
    /// The unreserved bandwidth at each of the eight priorities, in bytes per second (RFC 3630
    /// 2.5.8). Index 0 has the bandwidth at priority 0, the highest.
    pub free: [u64; 8],
    ghost eight: { length free ≡ 8 },
    ghost two_ends: { from ≢ to },
}

/// The reason why a link is refused.
#[derive(Clone, Copy, Debug, PartialEq, Eq, Error)]
pub enum LinkError {
    /// The link begins and ends at the same router.
    #[error("a link from a router to itself")]
    SelfLink,
}

impl Link {
    ghost use Rattle.cspf_model.specs.Fields.{HasLinkFields};

    /// The link with these attributes. A link from a router to itself is refused.
    pub fn new(
        from: Addr,
        local: Addr,
        to: Addr,
        remote: Addr,
        metric: u32,
        group: Mask,
        free: [u64; 8],
    ) -> Result<Link, LinkError>
        ensures ok { IfOk result (λ link. HasLinkFields link (record {
          from = from;
          local = local;
          to = to;
          remote = remote;
          metric = metric;
          group = group;
          free = free;
        })) }
        ensures self_link { OnErr result (from ≡ to) }
    {
        if from == to {
            return Err(LinkError::SelfLink);
        }
        Ok(Link {
            from,
            local,
            to,
            remote,
            metric,
            group,
            free,
        })
    }
}

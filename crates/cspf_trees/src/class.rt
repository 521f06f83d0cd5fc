ghost use Rattle.std.specs.Prelude.{◌+◌, ◌≤◌};
ghost use Rattle.cspf_trees.specs.Classes.{HasClass};
ghost use Rattle.cspf_trees.specs.declared.limits.TheConstants.{MOST_TREES, WAYS};

use crate::limits::{MOST_TREES, WAYS};
use cspf_addr::{Addr, Mask};
use cspf_model::Request;

/// A class of requests: all requests with the same tail-end and the same affinities. The requests
/// of a class share one tree.
#[derive(Clone, Copy, Debug, PartialEq, Eq)]
pub(crate) struct Class {
    /// The tail-end.
    pub(crate) to: Addr,
    /// The groups of which a link must have none.
    pub(crate) exclude_any: Mask,
    /// The groups of which a link must have at least one, unless there are no such groups.
    pub(crate) include_any: Mask,
    /// The groups of which a link must have all.
    pub(crate) include_all: Mask,
}

/// The class of a request: all requests with its tail-end and its affinities.
pub(crate) fn class_of(request: &Request) -> Class
    ensures { HasClass request.now result }
{
    Class {
        to: request.to,
        exclude_any: request.exclude_any,
        include_any: request.include_any,
        include_all: request.include_all,
    }
}

/// Mixes one more number into a hash.
fn mixed(hash: u64, number: u32) -> u64 {
    (hash ^ u64::from(number)).wrapping_mul(0x9e37_79b9_7f4a_7c15)
}

/// A hash of a class. A class is all requests with one tail-end and the same affinities.
pub(crate) fn hash_of(class: &Class) -> u64 {
    let hash = mixed(0, class.to.number());
    let hash = mixed(hash >> 8, class.exclude_any.bits());
    let hash = mixed(hash >> 8, class.include_any.bits());
    mixed(hash >> 8, class.include_all.bits())
}

/// The index of the first row for a class. The class may have its row here or in the next `WAYS` -
/// 1 rows. A class is all requests with one tail-end and the same affinities.
pub(crate) fn first_row(class: &Class) -> usize
    ensures { result + WAYS ≤ MOST_TREES }
{
    let bucket = (hash_of(class) >> 40) as usize % (MOST_TREES / WAYS);
    bucket * WAYS
}

ghost use Rattle.std.specs.Prelude.{◌≡◌, ◌+◌, ◌*◌, ◌≤◌, length, take, IfOk, IsOk, OnOk, if◌then◌else◌};
ghost use Rattle.std.specs.Int.{w16, from_be_bytes};
ghost use Rattle.cspf_ero.specs.declared.limits.TheConstants.{MOST_OBJECT_BYTES};
ghost use Rattle.cspf_ero.specs.Objects.{object_of};

use cspf_model::Route;
use std::alloc::{AllocError, Global};

/// The EXPLICIT_ROUTE object of a route (RFC 2205 3.1.2, RFC 3209 4.3). For each link in order, the
/// object has a strict subobject with the link's remote address. The head-end has no subobject. The
/// object has at most `MOST_OBJECT_BYTES` bytes.
pub fn write_ero(alloc: Global, route: &Route) -> Result<Vec<u8>, AllocError>
    ensures object { IfOk result (λ bytes. bytes.items ≡ object_of route.now) }
    ensures length { IfOk result (λ bytes. length bytes.items ≡ 4 + 8 * length route.now) }
    ensures most { IfOk result (λ bytes. length bytes.items ≤ MOST_OBJECT_BYTES) }
    ensures field { IfOk result (λ bytes. from_be_bytes w16 (take 2 bytes.items) ≡ length bytes.items) }
{
    let links = route.links();
    let size = 4 + 8 * links.len();
    let [high, low] = (size as u16).to_be_bytes();
    let mut object = Vec::with_capacity(alloc, size)?;
    object.extend_from_slice(&[high, low, 20, 1])?;
    for link in links {
        let [a, b, c, d] = link.remote.number().to_be_bytes();
        object.extend_from_slice(&[1, 8, a, b, c, d, 32, 0])?;
    }
    Ok(object)
}

//! The reader of EXPLICIT_ROUTE objects. It returns an object's hops, or the first reason to refuse
//! the object.

ghost use Rattle.std.specs.Prelude.{◌≡◌, ◌≤◌, ℕ, List, length, take, IfOk};
ghost use Rattle.cspf_ero.specs.Reading.{ero_of, sized_ero_of, subobject_hops, hop_at};

use crate::ero_error::EroError;
use cspf_addr::{Addr, Hop, Hops, MOST_HOPS, Prefix};

/// How many bytes at the start of an object are enough to decide which hops it has. A header and
/// `MOST_HOPS` subobjects have fewer bytes.
pub const FIRST_BYTES: usize = 64;

/// The hops that the bytes of an EXPLICIT_ROUTE object spell (RFC 2205 3.1.2, RFC 3209 4.3), or the
/// first reason to refuse the object. The header is checked first, and then the subobjects in their
/// order.
pub fn read_ero(bytes: &[u8]) -> Result<Hops, EroError>
    ensures { result ≡ ero_of bytes.now }
{
    read_sized(bytes, bytes.len())
}

/// The hops of an object of `size` bytes. `front` has the first `FIRST_BYTES` bytes of the object,
/// or all its bytes if it has fewer. The result is the same as that of `read_ero` for the whole
/// object: later bytes don't matter, because more than seven hops are refused.
pub fn read_ero_front(front: &[u8], size: usize) -> Result<Hops, EroError>
    ensures { (bytes : List ℕ) → length bytes ≡ size → take FIRST_BYTES bytes ≡ front.now
        → result ≡ ero_of bytes }
{
    read_sized(front, size)
}

/// The hops of an object that has `size` bytes and begins with `bytes`.
#[tactic(auto, unfolding(crate::specs::Reading::sized_ero_of))]
fn read_sized(bytes: &[u8], size: usize) -> Result<Hops, EroError>
    ensures { result ≡ sized_ero_of size bytes.now }
{
    if bytes.len() < 4 {
        return Err(EroError::Short);
    }
    let length = u16::from_be_bytes([bytes[0], bytes[1]]);
    if usize::from(length) != size || size % 4 != 0 {
        return Err(EroError::Length);
    }
    if bytes[2] != 20 || bytes[3] != 1 {
        return Err(EroError::Class);
    }
    let (_, body) = bytes.split_at(4);
    if body.is_empty() {
        return Err(EroError::Empty);
    }
    read_hops(body)
}

/// The hops that the subobjects in `body` spell. `body` has all bytes after the object's header.
fn read_hops(body: &[u8]) -> Result<Hops, EroError>
    ensures { result ≡ subobject_hops MOST_HOPS 4 body.now }
{
    let mut hops = Hops::none();
    let mut rest = body;
    while !rest.is_empty() {
        if hops.len() == MOST_HOPS {
            return Err(EroError::TooManyHops);
        }
        hops.push(read_hop(rest, 4 + 8 * hops.len())?);
        (_, rest) = rest.split_at(8);
    }
    Ok(hops)
}

/// The hop of the first subobject of `bytes`, which begin at the offset `at` of the object.
#[tactic(auto, unfolding(crate::specs::Reading::hop_at))]
fn read_hop(bytes: &[u8], at: usize) -> Result<Hop, EroError>
    requires { 1 ≤ length bytes.now }
    ensures value { result ≡ hop_at at bytes.now }
    ensures whole { IfOk result (λ hop. 8 ≤ length bytes.now) }
{
    let loose = bytes[0] >= 128;
    let kind = bytes[0] % 128;
    if kind != 1 {
        return Err(EroError::Unsupported { at, kind });
    }
    if bytes.len() < 8 || bytes[1] != 8 {
        return Err(EroError::Sublength { at });
    }
    let address = Addr::new(u32::from_be_bytes([bytes[2], bytes[3], bytes[4], bytes[5]]));
    let Ok(prefix) = Prefix::new(address, bytes[6]) else {
        return Err(EroError::PrefixLength { at });
    };
    Ok(Hop { prefix, loose })
}

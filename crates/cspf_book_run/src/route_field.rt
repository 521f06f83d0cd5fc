//! Reads and writes the route field of a `held` row.

ghost use Rattle.std.specs.Prelude.{◌≡◌, ◌%◌, IfOk, length};
ghost use Rattle.std.specs.List.{flat_map};
ghost use Rattle.std.specs.Option.{option_map};
ghost use Rattle.cspf_book_run.specs.RouteText.{link_bytes, route_text_of, steps_in, steps_of};
ghost use Rattle.cspf_book_run.specs.RouteText.{AreRouteTextsReadBack};

use cspf_addr::Addr;
use cspf_book::Passed;
use hex::FromHexError;
use std::alloc::{AllocError, Global};

/// The steps of the route that a text spells: for each link, the address of its interface and the
/// router that it leads to. The text has 16 hexadecimal digits of either case for each link, 8 for
/// each address in network order. The result is `None` if the text is empty or spells no route. The
/// number of links isn't limited.
#[tactic(auto, unfolding(crate::specs::RouteText::steps_of))]
pub fn read_steps(alloc: Global, text: &[u8]) -> Result<Option<Vec<(Addr, Addr)>>, AllocError>
    ensures { IfOk result (λ read. option_map (λ steps. steps.items) read ≡ steps_of text.now) }
{
    let bytes = match hex::decode(alloc, text) {
        Ok(bytes) => bytes,
        Err(FromHexError::OutOfMemory) => return Err(AllocError),
        Err(_) => return Ok(None),
    };
    if bytes.is_empty() || bytes.len() % 8 != 0 {
        return Ok(None);
    }
    let steps = steps_in(alloc, bytes.as_slice())?;
    Ok(Some(steps))
}

/// The steps of a route whose links have 8 bytes each.
fn steps_in(alloc: Global, bytes: &[u8]) -> Result<Vec<(Addr, Addr)>, AllocError>
    requires { length bytes.now % 8 ≡ 0 }
    ensures { IfOk result (λ steps. steps.items ≡ steps_in bytes.now) }
{
    let mut steps = Vec::new(alloc);
    let mut rest = bytes;
    while !rest.is_empty() {
        let local = u32::from_be_bytes([rest[0], rest[1], rest[2], rest[3]]);
        let router = u32::from_be_bytes([rest[4], rest[5], rest[6], rest[7]]);
        steps.push((Addr::new(local), Addr::new(router)))?;
        (_, rest) = rest.split_at(8);
    }
    Ok(steps)
}

/// The text of a route: 16 lower-case hexadecimal digits for each link. They spell the address of
/// the link's interface, and then the router that the link leads to.
#[tactic(auto, unfolding(crate::specs::RouteText::route_text_of))]
pub fn route_text(alloc: Global, path: &[Passed]) -> Result<Vec<u8>, AllocError>
    ensures { IfOk result (λ text. text.items ≡ route_text_of path.now) }
{
    let bytes = path_bytes(alloc, path)?;
    Ok(hex::encode(alloc, bytes)?.into_bytes())
}

/// The bytes of a route: 8 for each link.
fn path_bytes(alloc: Global, path: &[Passed]) -> Result<Vec<u8>, AllocError>
    ensures { IfOk result (λ bytes. bytes.items ≡ flat_map link_bytes path.now) }
{
    let mut bytes = Vec::new(alloc);
    for link in path {
        bytes.extend_from_slice(&link.local.number().to_be_bytes())?;
        bytes.extend_from_slice(&link.to.number().to_be_bytes())?;
    }
    Ok(bytes)
}

/// Law: the text of a route is read as the route's steps.
pub fn route_texts_are_read_back()
    ensures { AreRouteTextsReadBack }
{}

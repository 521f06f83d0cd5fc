//! A test whether one of several links on a path has a given key.

ghost use Rattle.std.specs.Prelude.{◌≡◌};
ghost use Rattle.cspf_book.specs.Placements.{has_key};

use crate::path::Passed;
use cspf_addr::Addr;

/// Whether one of the links has this key.
pub(crate) fn has_key(links: &[Passed], from: Addr, local: Addr) -> bool
    ensures { result ≡ has_key links.now (from, local) }
{
    links
        .iter()
        .any(|link| link.from == from && link.local == local)
}

ghost use Rattle.std.specs.Prelude.{◌↔◌, IsTrue};
ghost use Rattle.cspf_model.specs.Admissible.{IsAdmitted, IsUsable};

use cspf_db::Table;
use cspf_model::{Link, Request};

/// Whether the request admits the link. The link has to pass the request's three affinity tests
/// (RFC 3209 4.7.4). At the setup priority, the request's bandwidth, in bytes per second, has to be
/// unreserved on the link (RFC 3630 2.5.8).
pub fn accepts(link: &Link, request: &Request) -> bool
    ensures { IsTrue result ↔ IsAdmitted request.now link.now }
{
    let group = link.group.bits();
    let any = request.include_any.bits();
    let all = request.include_all.bits();
    group & request.exclude_any.bits() == 0
        && (any == 0 || group & any != 0)
        && (all == 0 || (group & all) ^ all == 0)
        && request.bandwidth <= link.free[usize::from(request.setup)]
}

/// Whether a link of the table is admissible for the request: the request admits the link, and the
/// table has the link's reverse. The reverse may have any metric, groups and bandwidths.
pub fn admissible(table: &Table, link: &Link, request: &Request) -> bool
    ensures { IsTrue result ↔ IsUsable table.now request.now link.now }
{
    accepts(link, request) && table.has_reverse(link)
}

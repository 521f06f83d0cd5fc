//! Tests of changes: which keys changes have, and at which routers changes put links. The tests
//! read no table.
ghost use Rattle.std.specs.Prelude.{◌≡◌, ◌<◌};
ghost use Rattle.std.specs.Ordering.{eq_by_cmp};
ghost use Rattle.cspf_model.specs.Changes.{change_key_cmp, key_changed};
ghost use Rattle.cspf_model.specs.Lemmas.RepeatedKeys.{is_changed};
ghost use Rattle.cspf_model.specs.Lemmas.RowsLeft.{is_untouched};
ghost use Rattle.std.specs.List.{list_any};
ghost use Rattle.cspf_model.specs.Lemmas.GoneRouters.{puts_at};

use cspf_addr::Addr;
use cspf_model::{Change, Link};

/// Whether the change has the key `key`. A change to a link has the link's key. A change of a
/// router's transit has the router and `None` as its key.
fn is_on(change: &Change, key: (Addr, Option<Addr>)) -> bool
    ensures { result ≡ eq_by_cmp change_key_cmp key (key_changed change.now) }
{
    let other = change.key();
    key.0 == other.0 && key.1 == other.1
}

/// Whether one of the changes has the key `key`.
pub(super) fn any_on(changes: &[Change], key: (Addr, Option<Addr>)) -> bool
    ensures { result ≡ is_changed changes.now key }
{
    changes.iter().any(|change| is_on(change, key))
}

/// Whether none of the changes has the key of the row `row` (a link).
pub(super) fn is_untouched(row: &Link, changes: &[Change]) -> bool
    ensures { result ≡ is_untouched changes.now row.now }
{
    !any_on(changes, (row.from, Some(row.local)))
}

/// Whether the change puts a link that begins or ends at the router.
fn puts_at(change: &Change, router: Addr) -> bool
    ensures { result ≡ puts_at router change.now }
{
    match change {
        Change::Put(link) => link.from == router || link.to == router,
        _ => false,
    }
}

/// Whether one of the changes puts a link that begins or ends at the router.
pub(super) fn any_puts_at(changes: &[Change], router: Addr) -> bool
    ensures { result ≡ list_any (puts_at router) changes.now }
{
    changes.iter().any(|change| puts_at(change, router))
}

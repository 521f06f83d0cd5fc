//! Potentials of routers, stored in lists.

ghost use Rattle.std.specs.Prelude.{◌≡◌, ℕ, slice_index_or, IfSome};
ghost use Rattle.cspf_model.specs.Database.{Database};
ghost use Rattle.cspf_pair.specs.Potentials.{AreOfKind};
ghost use Rattle.cspf_disjoint.specs.Potentials.{potentials_of};

use cspf_db::Table;
use cspf_model::Request;
use cspf_pair::Kind;

/// Two potentials for each router, at the router's index in `Table::routers`. A router behind the
/// end of a list has the potential 0.
#[derive(Clone, Copy)]
pub(crate) struct PotentialLists<'a> {
    /// The potentials where links arrive.
    pub(crate) arriving: &'a [u64],
    /// The potentials where links leave.
    pub(crate) leaving: &'a [u64],
}

/// The number at this index, or 0 behind the end of the list.
pub(crate) fn number_at(numbers: &[u64], place: usize) -> u64
    ensures { result ≡ slice_index_or numbers.now place 0 }
{
    match numbers.get(place) {
        Some(number) => *number,
        None => 0,
    }
}

/// These potentials for a pair of this kind. If the ways may share routers, each router has the
/// potential `arriving` in both lists.
pub(crate) fn lists_of_kind<'a>(
    kind: Kind,
    arriving: &'a [u64],
    leaving: &'a [u64],
) -> PotentialLists<'a>
    ensures { (d : Database) → AreOfKind kind (potentials_of d result) }
{
    match kind {
        Kind::Circuits => PotentialLists {
            arriving,
            leaving: arriving,
        },
        Kind::Routers => PotentialLists { arriving, leaving },
    }
}

/// The potential with which links leave the head-end, if the table has the head-end.
pub(crate) fn potential_at_start(
    table: &Table,
    request: &Request,
    lists: PotentialLists<'_>,
) -> Option<u64>
    ensures { IfSome result
        (λ n. n ≡ (potentials_of table.now lists.entry).leaving request.now.from) }
{
    let place = table.place_of(request.from)?;
    let _routers = table.routers();
    Some(number_at(lists.leaving, place))
}

/// The potential with which links arrive at the tail-end, if the table has the tail-end.
pub(crate) fn potential_at_end(
    table: &Table,
    request: &Request,
    lists: PotentialLists<'_>,
) -> Option<u64>
    ensures { IfSome result
        (λ n. n ≡ (potentials_of table.now lists.entry).arriving request.now.to) }
{
    let place = table.place_of(request.to)?;
    let _routers = table.routers();
    Some(number_at(lists.arriving, place))
}

//! The column of reverses: for each row (a link), the index of the row that is its reverse. The
//! column changes whenever the rows change.
ghost use Rattle.std.specs.Prelude.{◌≡◌, ◌<◌, ◌≤◌, length, map, slice_index_or, vec_len};
ghost use Rattle.std.specs.Vec.{vec_capacity};
ghost use Rattle.std.specs.List.{HoldsAt, insert, remove as without};
ghost use Rattle.cspf_model.specs.declared.link.Link.{Link as Linked};
ghost use Rattle.cspf_model.specs.Database.{Key, key_of};
ghost use Rattle.cspf_columns.specs.declared.limits.TheConstants.{NO_LINK, ROOM_FOR_LINKS};
ghost use Rattle.cspf_model.specs.Lemmas.LinkRows.{AreByKey};
ghost use Rattle.cspf_columns.specs.Rows.{ArePaired, AreSpansAtEnds, AreTiedColumns, IsSpanOf};
ghost use Rattle.cspf_columns.specs.Reverses.{AreReversesBut, IsIndexOfReverse, index_before, index_behind, no_key, same_key};

use crate::columns::Columns;
use crate::insertion::insert_within;
use crate::limits::NO_LINK;
use crate::rows::index_of;
use crate::spans::Span;
use cspf_model::Link;

/// Returns `at` if the row (a link) at this index is the reverse of the link, and otherwise
/// `NO_LINK`. The row at `at` has the key that a reverse of the link has.
fn index_back(rows: &[Link], at: usize, link: &Link) -> u16
    requires by_key { AreByKey rows.now }
    requires most { length rows.now ≤ ROOM_FOR_LINKS }
    requires within { at < length rows.now }
    requires key { HoldsAt (λ l. key_of l ≡ (link.now.to, link.now.remote)) rows.now at }
    ensures { IsIndexOfReverse no_key rows.now link.now result }
{
    let other = &rows[at];
    if other.to != link.from || other.remote != link.local {
        return NO_LINK;
    }
    at as u16
}

/// The index of the row (a link) that is the reverse of the link, or `NO_LINK`.
pub fn reverse_index(rows: &[Link], link: &Link) -> u16
    requires by_key { AreByKey rows.now }
    requires most { length rows.now ≤ ROOM_FOR_LINKS }
    ensures { IsIndexOfReverse no_key rows.now link.now result }
{
    let Some(at) = index_of(rows, link.to, link.remote) else {
        return NO_LINK;
    };
    index_back(rows, at, link)
}

/// The index of the link's reverse, or `NO_LINK`. `span` is the range of the rows (links) that
/// begin at the router where the link ends.
fn reverse_within(rows: &[Link], span: &Span, link: &Link) -> u16
    requires by_key { AreByKey rows.now }
    requires most { length rows.now ≤ ROOM_FOR_LINKS }
    requires span { IsSpanOf rows.now link.now.to span.now }
    ensures { IsIndexOfReverse no_key rows.now link.now result }
{
    let (first, end) = (usize::from(span.first), usize::from(span.end));
    let Some(at) = index_of(&rows[first..end], link.to, link.remote) else {
        return NO_LINK;
    };
    index_back(rows, first + at, link)
}

/// Lists for each row (a link) the index of its reverse, or `NO_LINK`.
pub(crate) fn list_reverses(reverses: &mut Vec<u16>, rows: &[Link], ends: &[u16], spans: &[Span])
    requires by_key { AreByKey rows.now }
    requires most { length rows.now ≤ ROOM_FOR_LINKS }
    requires ends { length ends.now ≡ length rows.now }
    requires spans { AreSpansAtEnds rows.now ends.now spans.now }
    requires room { ROOM_FOR_LINKS ≤ vec_capacity reverses.old }
    ensures column { AreReversesBut no_key rows.now reverses.new.items }
    ensures room { ROOM_FOR_LINKS ≤ vec_capacity reverses.new }
{
    reverses.clear();
    for (at, link) in rows.iter().enumerate() {
        let span = &spans[usize::from(ends[at])];
        reverses.push_reserved(reverse_within(rows, span, link));
    }
}

/// Separates the row (a link) at the index `at` from its reverse, if it has a reverse. In the
/// column of reverses, both rows then have `NO_LINK`.
pub(crate) fn unpair(columns: &mut Columns, at: usize)
    requires paired { ArePaired columns.old }
    requires within { at < length columns.old.rows.items }
    ensures tied { AreTiedColumns columns.new }
    ensures rows { columns.new.rows.items ≡ columns.old.rows.items }
    ensures routers { columns.new.routers.items ≡ columns.old.routers.items }
    ensures parted { (k : Key) → HoldsAt (λ l. key_of l ≡ k) columns.new.rows.items at
        → AreReversesBut (same_key k) columns.new.rows.items columns.new.reverses.items }
{
    let other = columns.reverses[at];
    if other == NO_LINK {
        return;
    }
    columns.reverses[usize::from(other)] = NO_LINK;
    columns.reverses[at] = NO_LINK;
}

/// Pairs the row (a link) at the index `at` with its reverse, if it has a reverse. In the column of
/// reverses, each of the two rows gets the index of the other row. Before the call, the row is
/// unpaired in this column.
pub(crate) fn pair(columns: &mut Columns, at: usize)
    requires tied { AreTiedColumns columns.old }
    requires most { length columns.old.rows.items ≤ ROOM_FOR_LINKS }
    requires within { at < length columns.old.rows.items }
    requires parted { (d : Linked)
        → AreReversesBut (same_key (key_of (slice_index_or columns.old.rows.items at d)))
        columns.old.rows.items columns.old.reverses.items }
    ensures paired { ArePaired columns.new }
    ensures rows { columns.new.rows.items ≡ columns.old.rows.items }
    ensures routers { columns.new.routers.items ≡ columns.old.routers.items }
{
    let other = reverse_index(&columns.rows, &columns.rows[at]);
    if other == NO_LINK {
        return;
    }
    columns.reverses[usize::from(other)] = at as u16;
    columns.reverses[at] = other;
}

/// The new index of the row (a link) at the index `reverse`, after another row is inserted at `at`.
/// If `reverse` is at least `at`, the index grows by 1. `NO_LINK` stays `NO_LINK`.
fn behind(reverse: u16, at: usize) -> u16
    ensures { result ≡ index_behind at reverse }
{
    if reverse != NO_LINK && at <= usize::from(reverse) {
        reverse + 1
    } else {
        reverse
    }
}

/// The new index of the row (a link) at the index `reverse`, after another row is removed at `at`.
/// If `reverse` is at least `at`, the index falls by 1. `NO_LINK` stays `NO_LINK`.
fn before(reverse: u16, at: usize) -> u16
    ensures { result ≡ index_before at reverse }
{
    if reverse != NO_LINK && at <= usize::from(reverse) && reverse > 0 {
        reverse - 1
    } else {
        reverse
    }
}

/// Adds 1 to each item that is at least `at`, because a row (a link) is inserted at `at`. `NO_LINK`
/// stays `NO_LINK`.
fn move_behind(reverses: &mut [u16], at: usize)
    ensures { reverses.new ≡ map (index_behind at) reverses.old }
{
    for reverse in reverses.iter_mut() {
        *reverse = behind(*reverse, at);
    }
}

/// Subtracts 1 from each item that is at least `at`, because the row (a link) at `at` is removed.
/// `NO_LINK` stays `NO_LINK`.
fn move_before(reverses: &mut [u16], at: usize)
    ensures { reverses.new ≡ map (index_before at) reverses.old }
{
    for reverse in reverses.iter_mut() {
        *reverse = before(*reverse, at);
    }
}

/// Inserts `NO_LINK` at the index `at`, for a row (a link) that is inserted at this index, and
/// adapts the other items to the rows' new indexes. The vector has capacity for another item, so
/// the call allocates no memory and can't fail.
pub(crate) fn open_gap(reverses: &mut Vec<u16>, at: usize)
    requires few { vec_len reverses.old ≤ ROOM_FOR_LINKS }
    requires upto { at ≤ vec_len reverses.old }
    requires room { vec_len reverses.old < vec_capacity reverses.old }
    ensures opened { reverses.new.items ≡ insert (map (index_behind at) reverses.old.items) at NO_LINK }
    ensures capacity { vec_capacity reverses.old ≤ vec_capacity reverses.new }
{
    move_behind(reverses, at);
    insert_within(reverses, at, NO_LINK);
}

/// Removes the item at the index `at`, because the row (a link) at this index is removed, and
/// adapts the other items to the rows' new indexes.
pub(crate) fn close_gap(reverses: &mut Vec<u16>, at: usize)
    requires { at < vec_len reverses.old }
    ensures closed { reverses.new.items ≡ map (index_before at) (without reverses.old.items at) }
    ensures capacity { vec_capacity reverses.old ≤ vec_capacity reverses.new }
{
    let _ = reverses.remove(at);
    move_before(reverses, at);
}

//! Computes the effective bandwidths of links, which are what the placements leave, and updates the
//! table of the effective database link by link.

ghost use Rattle.std.specs.Prelude.{◌≡◌, ◌-◌, ◌<◌, min, List, length, slice_index};
ghost use Rattle.std.specs.Option.{option_map};
ghost use Rattle.cspf_model.specs.declared.batch.Change.TheVariants.{Put};
ghost use Rattle.cspf_model.specs.Database.{key_of, link_at};
ghost use Rattle.cspf_model.specs.Fields.{HasLinkFields, fields_of_link};
ghost use Rattle.cspf_model.specs.Changes.{after_change};
ghost use Rattle.cspf_book.specs.declared.placement.Placement.{Placement as Placed};
ghost use Rattle.cspf_book.specs.Placements.{ends_of_link};
ghost use Rattle.cspf_book.specs.Effective.{effective_link};
ghost use Rattle.cspf_book.specs.Alike.{AreAlike, IsCurrentNowAt, IsWithinLimits};
ghost use Rattle.cspf_book.specs.Kept.{IsCountOf};

use crate::counts::Counts;
use cspf_addr::Addr;
use cspf_db::Table;
use cspf_model::{Batch, Change, Link};

/// The bandwidth that is left on a link at a priority. `sums` is the bandwidth that is counted on
/// the link at each priority.
fn left(link: &Link, sums: [u128; 8], priority: u8) -> u64
    requires { priority < 8 }
    ensures { result ≡ slice_index link.now.free priority - slice_index sums priority }
{
    let held = sums[usize::from(priority)];
    let free = link.free[usize::from(priority)];
    u128::from(free).saturating_sub(held) as u64
}

/// The effective bandwidth at a priority: the lesser of the bandwidth that is left at this priority
/// and `least`. `least` is the effective bandwidth at the next more important priority.
fn lesser(link: &Link, sums: [u128; 8], priority: u8, least: u64) -> u64
    requires { priority < 8 }
    ensures { result ≡ min least (slice_index link.now.free priority - slice_index sums priority) }
{
    let figure = left(link, sums, priority);
    if figure < least { figure } else { least }
}

/// The link with its effective bandwidths, which follow from the bandwidth that `counts` has for
/// the link.
pub(crate) fn effective_link(counts: &Counts, link: &Link) -> Link
    ensures effective { (placements : List Placed) → IsCountOf counts.now placements
        → result ≡ effective_link placements link.now }
    ensures ends { ends_of_link result ≡ ends_of_link link.now }
{
    let sums = counts.sums(link.from, link.local);
    let first = left(link, sums, 0);
    let second = lesser(link, sums, 1, first);
    let third = lesser(link, sums, 2, second);
    let fourth = lesser(link, sums, 3, third);
    let fifth = lesser(link, sums, 4, fourth);
    let sixth = lesser(link, sums, 5, fifth);
    let seventh = lesser(link, sums, 6, sixth);
    let eighth = lesser(link, sums, 7, seventh);
    with_free(
        link,
        [first, second, third, fourth, fifth, sixth, seventh, eighth],
    )
}

/// The same link with these unreserved bandwidths.
fn with_free(link: &Link, free: [u64; 8]) -> Link
    ensures { HasLinkFields result (record (fields_of_link link.now) { free = free }) }
{
    Link {
        from: link.from,
        local: link.local,
        to: link.to,
        remote: link.remote,
        metric: link.metric,
        group: link.group,
        free,
    }
}

/// Law: the database of each table is within the limits on links, routers and marks. A mark says
/// that a router carries no transit.
pub(crate) fn within_limits(table: &Table)
    ensures { IsWithinLimits table.now }
{
    let _ = table.links();
    let _ = table.marks();
}

/// Puts this link in place of the table's link with the same key. The two links have to run to the
/// same router. No memory is allocated.
fn put_over(table: &mut Table, one: &mut Batch, link: Link)
    requires one { length one.old.changes ≡ 1 }
    requires there { option_map ends_of_link (link_at table.old (key_of link)) ≡ Some (ends_of_link link) }
    ensures put { table.new ≡ after_change table.old (Put link) }
    ensures one { length one.new.changes ≡ 1 }
{
    within_limits(table);
    one.changes[0] = Change::Put(link);
    table.absorb(one);
}

/// If the base has a link with this key, puts this link with its effective bandwidths into the
/// table.
pub(crate) fn refresh(
    table: &mut Table,
    one: &mut Batch,
    base: &Table,
    counts: &Counts,
    from: Addr,
    local: Addr,
)
    requires one { length one.old.changes ≡ 1 }
    requires alike { AreAlike base.now table.old }
    ensures one { length one.new.changes ≡ 1 }
    ensures alike { AreAlike base.now table.new }
    ensures at { (placements : List Placed) → IsCountOf counts.now placements
        → IsCurrentNowAt base.now placements table.old table.new (from, local) }
{
    within_limits(base);
    if let Some(link) = base.find(from, local) {
        put_over(table, one, effective_link(counts, &link));
    }
}

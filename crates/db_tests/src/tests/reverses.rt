//! Which index the reverse of each link has, according to the table. Batches put and remove links
//! and reverses, so that other links move to other indexes.
use super::edits::Edit::{self, Put, Remove};
use super::edits::{answer, answers, assert_case, link};
use cspf_addr::{Addr, Mask};
use cspf_db::{NO_LINK, Table};
use cspf_model::{Batch, Change, Link, LinkError};
use std::alloc::{AllocError, Global};
use std::process::Abort;
use std::test::Fail;

// The reverse of `link`, with other attributes. It joins the same two interfaces in the opposite
// direction.
fn back(link: &Link) -> Result<Link, LinkError> {
    Link::new(
        link.to,
        link.remote,
        link.from,
        link.local,
        20,
        Mask::new(2),
        [0; 8],
    )
}

fn is_reverse(link: &Link, other: &Link) -> bool {
    (other.from, other.local) == (link.to, link.remote)
        && (other.to, other.remote) == (link.from, link.local)
}

// The index of the reverse of a link, found by checking all links.
fn plain_reverse(links: &[Link], link: &Link) -> Option<usize> {
    for (at, other) in links.iter().enumerate() {
        if is_reverse(link, other) {
            return Some(at);
        }
    }
    None
}

// The index of a reverse as the table gives it: `NO_LINK` if there is no reverse.
fn index_of(reverse: Option<usize>) -> usize {
    reverse.unwrap_or(usize::from(NO_LINK))
}

// The number of the links `out` that have a reverse. The result is `None` if the table gives
// another reverse for one of them than a search through all links.
fn count_out(table: &Table, out: &[Link], reverses: &[u16]) -> Option<u32> {
    let mut both = 0u32;
    for (link, reverse) in out.iter().zip(reverses) {
        let wanted = plain_reverse(table.links(), link);
        let has_one = wanted.is_some();
        if index_of(wanted) != usize::from(*reverse) || table.has_reverse(link) != has_one {
            return None;
        }
        both = both.saturating_add(u32::from(has_one));
    }
    if out.len() == reverses.len() {
        Some(both)
    } else {
        None
    }
}

// The number of links of the table that have a reverse. The result is `None` if the table gives
// another reverse for one of them than a search through all links.
fn count_reverses(table: &Table) -> Option<u32> {
    let mut both = 0u32;
    for at in 0..table.routers().len() {
        let (out, reverses) = (table.out_at(at), table.reverses_at(at));
        both = both.saturating_add(count_out(table, out, reverses)?);
    }
    Some(both)
}

// The indexes of the reverses of all links, in the order of the links.
fn reverses_of(alloc: Global, table: &Table) -> Result<Vec<u16>, AllocError> {
    let routers = table.routers();
    let mut all = Vec::new(alloc);
    for at in 0..routers.len() {
        all.extend_from_slice(table.reverses_at(at))?;
    }
    Ok(all)
}

// Changes that put a link and its reverse.
const THERE: Edit = Put(20, 1, 30, 2);

const BACK: Edit = Put(30, 2, 20, 1);

// A batch that fits, and the state of the table after it: the indexes of the reverses of all links,
// and whether the table has the reverse of `THERE`.
type Step = (&'static [Edit], &'static [u16], bool);

// A link is put alone, and its reverse is put in a later batch.
const COME: &[Step] = &[
    (&[], &[], false),
    (&[THERE], &[NO_LINK], false),
    (&[BACK], &[1, 0], true),
];

// A link and its reverse are put in two batches, and later in one batch. When the link `THERE`
// alone is removed, its reverse is still in the table.
const COME_AND_GO: &[Step] = &[
    (&[THERE], &[NO_LINK], false),
    (&[BACK], &[1, 0], true),
    (&[Remove(30, 2), Remove(20, 1)], &[], false),
    (&[BACK, THERE], &[1, 0], true),
    (&[Remove(20, 1)], &[NO_LINK], true),
    (&[THERE], &[1, 0], true),
    (&[Remove(30, 2)], &[NO_LINK], false),
];

const REPLACED: &[Step] = &[
    (&[THERE, BACK], &[1, 0], true),
    // the link or its reverse gets another remote address
    (&[Put(20, 1, 30, 3)], &[NO_LINK, NO_LINK], true),
    (&[THERE], &[1, 0], true),
    (&[Put(30, 2, 20, 3)], &[NO_LINK, NO_LINK], false),
    (&[BACK], &[1, 0], true),
    // the link or its reverse leads to another router
    (&[Put(20, 1, 40, 2)], &[NO_LINK, NO_LINK], true),
    (&[THERE], &[1, 0], true),
    (&[Put(30, 2, 10, 1)], &[NO_LINK, NO_LINK], false),
    // the links in the opposite direction join the same two routers over other interfaces, so no
    // link has a reverse
    (
        &[Remove(30, 2), Put(30, 3, 20, 4), Put(30, 4, 20, 3)],
        &[NO_LINK, NO_LINK, NO_LINK],
        false,
    ),
    // a link between two other interfaces is put, and its reverse is already in the table
    (&[Put(20, 4, 30, 3)], &[NO_LINK, 2, 1, NO_LINK], false),
];

const MOVED: &[Step] = &[
    (&[THERE, BACK], &[1, 0], true),
    // other links are put, with keys below those of the two links, between them, and above them
    (
        &[Put(10, 1, 20, 7), Put(10, 2, 30, 7)],
        &[NO_LINK, NO_LINK, 3, 2],
        true,
    ),
    (
        &[Put(20, 5, 30, 5)],
        &[NO_LINK, NO_LINK, 4, NO_LINK, 2],
        true,
    ),
    (
        &[Put(40, 1, 20, 9)],
        &[NO_LINK, NO_LINK, 4, NO_LINK, 2, NO_LINK],
        true,
    ),
    (&[Remove(10, 2)], &[NO_LINK, 3, NO_LINK, 1, NO_LINK], true),
    // one link is put while its reverse is removed, and another link is put whose reverse isn't
    // removed
    (
        &[Remove(10, 1), Put(20, 7, 10, 1), Put(20, 9, 40, 1)],
        &[4, NO_LINK, NO_LINK, 5, 0, 3],
        true,
    ),
    (
        &[Remove(20, 5), Remove(20, 7), Remove(40, 1)],
        &[2, NO_LINK, 0],
        true,
    ),
];

// Whether the table accepts the batch of a step, and then has the reverses of the step.
fn takes(alloc: Global, table: &mut Table, step: &Step) -> Result<bool, Fail> {
    let (edits, reverses, has_back) = step;
    let answers = answers(alloc, table, edits, Ok(()))?;
    let holds = answers && table.has_reverse(&link(20, 1, 30, 2)?) == *has_back;
    let found = reverses_of(alloc, table)?;
    Ok(holds && found.as_slice() == *reverses && count_reverses(table).is_some())
}

// Absorbs the batches of the steps into the table, one after the other. After each batch, the table
// must be in the state of the step.
fn make(
    rt: &impl Abort,
    alloc: Global,
    table: &mut Table,
    (name, steps): &(&str, &[Step]),
) -> Result<(), Fail> {
    for (at, step) in steps.iter().enumerate() {
        assert_case(rt, name, at, takes(alloc, table, step)?);
    }
    Ok(())
}

// Absorbs the batches of the steps into an empty table, one after the other. After each batch, the
// table must be in the state of the step.
fn make_all(rt: &impl Abort, alloc: Global, steps: &(&str, &[Step])) -> Result<(), Fail> {
    make(rt, alloc, &mut Table::new(alloc)?, steps)
}

const STEPS: &[(&str, &[Step])] = &[
    ("reverses that come", COME),
    ("reverses that come and go", COME_AND_GO),
    ("replaced reverses", REPLACED),
    ("moved reverses", MOVED),
];

#[test]
fn reverses_after_batches(rt: HostRuntime) -> Result<(), Fail> {
    for steps in STEPS {
        make_all(&rt, rt.alloc(), steps)?;
    }
    Ok(())
}

// Whether one of the changes has the same key as `change`.
fn has_key(changes: &[Change], change: &Change) -> bool {
    for other in changes {
        if other.key() == change.key() {
            return true;
        }
    }
    false
}

// A change that puts a link whose metric, group and unreserved bandwidths differ from those of
// `link` and of `back`.
fn turned(from: Addr, local: Addr, to: Addr, remote: Addr) -> Result<Change, LinkError> {
    let link = Link::new(from, local, to, remote, 30, Mask::new(4), [5; 8])?;
    Ok(Change::Put(link))
}

// A source of pseudorandom numbers, which are the same in each run.
#[derive(Drop)]
pub(super) struct Draw {
    pub(super) state: u32,
}

impl Draw {
    // A random number below `most`, or 0 if `most` is 0.
    pub(super) fn below(&mut self, most: u32) -> u32 {
        self.state = self.state.wrapping_mul(1664525).wrapping_add(1013904223);
        (self.state >> 16).checked_rem(most).unwrap_or(0)
    }

    // A random link of the table, or `None` if the table has no links.
    pub(super) fn link_of(&mut self, table: &Table) -> Option<Link> {
        let links = table.links();
        if links.is_empty() {
            return None;
        }
        links.get(self.below(links.len() as u32) as usize).copied()
    }

    // A random link between two of eight routers. Each router has `interfaces` interfaces.
    fn new_link(&mut self, interfaces: u32) -> Result<Link, LinkError> {
        let from = self.below(8);
        let to = from.wrapping_add(1).wrapping_add(self.below(7)) % 8;
        link(from, self.below(interfaces), to, self.below(interfaces))
    }

    // A random change to the table. It puts a new link, puts the reverse of a link, puts a link
    // back over other interfaces, removes a link, or makes a link lead to another router.
    fn change(&mut self, table: &Table, interfaces: u32) -> Result<Change, LinkError> {
        let kind = self.below(8);
        let Some(old) = self.link_of(table) else {
            return Ok(Change::Put(self.new_link(interfaces)?));
        };
        let (from, local) = (old.from, old.local);
        let other = self.new_link(interfaces)?;
        match kind {
            0 | 1 | 2 => Ok(Change::Put(back(&old)?)),
            3 => Ok(Change::Remove { from, local }),
            4 => turned(old.to, other.local, from, other.remote),
            5 if other.to != from => turned(from, local, other.to, other.remote),
            _ => Ok(Change::Put(other)),
        }
    }

    // A batch of `count` random changes that fits the table. It has fewer changes if 100,000 draws
    // give fewer changes with different keys.
    pub(super) fn batch(
        &mut self,
        alloc: Global,
        table: &Table,
        count: usize,
        interfaces: u32,
    ) -> Result<Batch, Fail> {
        let mut changes: Vec<Change> = Vec::new(alloc);
        for _ in 0..100_000 {
            if changes.len() == count {
                break;
            }
            let change = self.change(table, interfaces)?;
            if !has_key(&changes, &change) {
                changes.push(change)?;
            }
        }
        Ok(Batch { number: 1, changes })
    }
}

// Draws a random batch of `count` changes, and lets the table absorb it. The result is the number
// of links of the table that then have reverses. It is `None` if the batch has fewer changes, if
// the table refuses the batch, or if a reverse is wrong.
fn absorb_drawn(
    alloc: Global,
    table: &mut Table,
    draw: &mut Draw,
    count: usize,
    interfaces: u32,
) -> Result<Option<u32>, Fail> {
    let batch = draw.batch(alloc, table, count, interfaces)?;
    let fits = batch.changes.len() == count && answer(table, &batch, false) == Ok(());
    Ok(if fits { count_reverses(table) } else { None })
}

// Absorbs random batches of a few changes. After each batch, the links that have reverses are
// counted. The result is the sum of these counts.
fn absorb_many(rt: &impl Abort, alloc: Global, table: &mut Table) -> Result<u32, Fail> {
    let mut draw = Draw { state: 7 };
    let mut all = 0u32;
    for number in 0..200 {
        let count = draw.below(20) as usize + 1;
        let both = absorb_drawn(alloc, table, &mut draw, count, 12)?;
        assert_case(rt, "a drawn batch", number, both.is_some());
        all = all.saturating_add(both.unwrap_or(0));
    }
    Ok(all)
}

#[test]
fn reverses_after_drawn_batches(rt: HostRuntime) -> Result<(), Fail> {
    let both = absorb_many(&rt, rt.alloc(), &mut Table::new(rt.alloc())?)?;
    assert_case(&rt, "reverses", both as usize, both > 2000);
    Ok(())
}

// Absorbs random batches of 300 changes. The result is the number of links that have reverses after
// the last batch.
fn absorb_long(rt: &impl Abort, alloc: Global, table: &mut Table) -> Result<u32, Fail> {
    let mut draw = Draw { state: 8 };
    let mut last = 0;
    for number in 0..4 {
        let both = absorb_drawn(alloc, table, &mut draw, 300, 100)?;
        assert_case(rt, "a long batch", number, both.is_some());
        last = both.unwrap_or(0);
    }
    Ok(last)
}

// A batch of 300 changes rewrites all rows (links) of the table at once.
#[test]
fn reverses_after_a_long_batch(rt: HostRuntime) -> Result<(), Fail> {
    let both = absorb_long(&rt, rt.alloc(), &mut Table::new(rt.alloc())?)?;
    assert_case(&rt, "reverses", both as usize, both > 50);
    Ok(())
}

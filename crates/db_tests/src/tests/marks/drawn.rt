//! Compares the marks of a table with a list of flags, after random batches.

use super::are_marks;
use crate::tests::edits::{answer, assert_case, drop_of, node, put};
use crate::tests::reverses::Draw;
use cspf_db::Table;
use cspf_model::{Batch, Change, LinkError};
use std::alloc::{AllocError, Global};
use std::process::Abort;
use std::test::Fail;

// A random change. It puts a new link between two of eight routers, removes a link of the table, or
// sets whether one of twelve addresses has transit.
fn drawn_change(draw: &mut Draw, table: &Table) -> Result<Change, LinkError> {
    match (draw.below(6), draw.link_of(table)) {
        (0, Some(link)) => Ok(drop_of(link.from.number(), link.local.number())),
        (0 | 1 | 2, _) => {
            let from = draw.below(8);
            let to = from.wrapping_add(1).wrapping_add(draw.below(7)) % 8;
            let local = draw.below(4);
            put(from, local, to, local)
        }
        _ => Ok(node(draw.below(12), draw.below(2) == 0)),
    }
}

// A batch of one to four random changes. Two of the changes may have the same key.
fn drawn_batch(alloc: Global, draw: &mut Draw, table: &Table) -> Result<Batch, Fail> {
    let mut changes = Vec::new(alloc);
    for _ in 0..draw.below(4).wrapping_add(1) {
        changes.push(drawn_change(draw, table)?)?;
    }
    Ok(Batch { number: 1, changes })
}

// Whether two of the changes have the same key.
fn has_twins(changes: &[Change]) -> bool {
    for (at, change) in changes.iter().enumerate() {
        for other in &changes[..at] {
            if other.key() == change.key() {
                return true;
            }
        }
    }
    false
}

// Applies the changes to the list of addresses without transit, one change after the other.
fn mark_plainly(marked: &mut [bool; 16], changes: &[Change]) {
    for change in changes {
        if let Change::Node { router, transit } = change {
            marked[(router.number() & 15) as usize] = !*transit;
        }
    }
}

// The addresses whose flags in `marked` are `true`.
fn listed(alloc: Global, marked: &[bool; 16]) -> Result<Vec<u32>, AllocError> {
    let mut marks = Vec::new(alloc);
    for router in 0..16 {
        if marked[router as usize] {
            marks.push(router)?;
        }
    }
    Ok(marks)
}

// Whether the table absorbs the batch if `fits` is true, and refuses it otherwise. Afterwards, the
// addresses that the table marks as without transit must be those in `marked`. If the batch fits,
// the changes of the batch are applied to `marked` first.
fn absorbs(
    alloc: Global,
    table: &mut Table,
    marked: &mut [bool; 16],
    batch: &Batch,
    fits: bool,
) -> Result<bool, AllocError> {
    if fits {
        mark_plainly(marked, &batch.changes);
    }
    let marks = listed(alloc, marked)?;
    let answers = answer(table, batch, false).is_ok() == fits;
    let routers = table.routers().len();
    Ok(answers && are_marks(table, &marks, routers))
}

// Absorbs random batches. After each batch, the marks of addresses without transit are counted. The
// result is the number of refused batches, and the sum of these counts.
fn absorb_drawn(rt: &impl Abort, alloc: Global, table: &mut Table) -> Result<(u32, usize), Fail> {
    let (mut marked, mut draw) = ([false; 16], Draw { state: 9 });
    let (mut refused, mut marks) = (0u32, 0usize);
    for number in 0..200 {
        let batch = drawn_batch(alloc, &mut draw, table)?;
        let fits = !has_twins(&batch.changes);
        let absorbs = absorbs(alloc, table, &mut marked, &batch, fits)?;
        assert_case(rt, "a drawn batch", number, absorbs);
        refused = refused.saturating_add(u32::from(!fits));
        marks = marks.saturating_add(table.marks().len());
    }
    Ok((refused, marks))
}

#[test]
fn marks_after_drawn_batches(rt: HostRuntime) -> Result<(), Fail> {
    let mut table = Table::new(rt.alloc())?;
    let (refused, marks) = absorb_drawn(&rt, rt.alloc(), &mut table)?;
    assert_case(&rt, "refused and marks", marks, refused > 10 && marks > 400);
    Ok(())
}

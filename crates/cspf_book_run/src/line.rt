//! The lines that a run of a book writes. Each line ends with a line feed.

ghost use Rattle.std.specs.Prelude.{◌≡◌, ◌++◌, IfOk, OnOk};
ghost use Rattle.std.specs.List.{flat_map};
ghost use Rattle.cspf_model.specs.Outcome.{answer_of};
ghost use Rattle.cspf_book_run.specs.BookLines.{over_line, lost_line, base_line, released_line, refused_place_line, refused_release_line, IsPlaceReply};

use crate::refusals::{PlaceRefusal, ReleaseRefusal};
use cspf_book::Over;
use cspf_ero::reply_line_as;
use cspf_model::Outcome;
use std::alloc::{AllocError, Global};

/// The bytes of lines or of a row. There are none if memory is refused.
pub(crate) type TextResult = Result<Vec<u8>, AllocError>;

/// The lines of an accepted base batch. First comes an `over` line for each link and priority at
/// which the link has less bandwidth than the placements count on it. Then comes a `lost` line for
/// each placement that loses its route. The line of the batch is last.
pub(crate) fn base_lines(
    alloc: Global,
    over: &[Over],
    lost: &[u64],
    number: u32,
    version: u32,
) -> TextResult
    ensures { IfOk result (λ lines. lines.items ≡ flat_map over_line over.now
        ++ flat_map lost_line lost.now ++ base_line number version) }
{
    let mut lines = Vec::new(alloc);
    write_over(alloc, &mut lines, over)?;
    write_lost(alloc, &mut lines, lost)?;
    let last = format!(in alloc; "base {number} v{version}\n")?;
    lines.extend_from_slice(last.as_bytes())?;
    Ok(lines)
}

/// Writes an `over` line for each link and priority at which the link has less bandwidth than the
/// placements count on it.
pub fn write_over(alloc: Global, lines: &mut Vec<u8>, over: &[Over]) -> Result<(), AllocError>
    ensures { OnOk result (lines.new.items ≡ lines.old.items ++ flat_map over_line over.now) }
{
    for it in over {
        let line = line_of_over(alloc, it)?;
        lines.extend_from_slice(line.as_slice())?;
    }
    Ok(())
}

/// The `over` line of a link and a priority, which reports that the link has too little bandwidth.
fn line_of_over(alloc: Global, over: &Over) -> TextResult
    ensures { IfOk result (λ line. line.items ≡ over_line over.now) }
{
    let (from, local, priority) = (over.from, over.local, over.priority);
    Ok(format!(in alloc; "over {from},{local} {priority}\n")?.into_bytes())
}

/// Writes a `lost` line for each placement that loses its route: the base no longer admits the
/// route.
fn write_lost(alloc: Global, lines: &mut Vec<u8>, lost: &[u64]) -> Result<(), AllocError>
    ensures { OnOk result (lines.new.items ≡ lines.old.items ++ flat_map lost_line lost.now) }
{
    for id in lost {
        let line = line_of_lost(alloc, *id)?;
        lines.extend_from_slice(line.as_slice())?;
    }
    Ok(())
}

/// The `lost` line of a placement that loses its route: the base no longer admits the route.
fn line_of_lost(alloc: Global, id: u64) -> TextResult
    ensures { IfOk result (λ line. line.items ≡ lost_line id) }
{
    Ok(format!(in alloc; "lost {id}\n")?.into_bytes())
}

/// The line that answers the `place` row of the request with this id. `version` is the book's
/// version after the row.
pub(crate) fn place_line(alloc: Global, id: u64, version: u32, outcome: &Outcome) -> TextResult
    ensures { IfOk result (λ line. IsPlaceReply id version (answer_of outcome.now) line.items) }
{
    reply_line_as(alloc, "place", id, version, outcome)
}

/// The line that reports why the request with this id isn't placed.
pub(crate) fn refused_place(alloc: Global, id: u64, why: PlaceRefusal) -> TextResult
    ensures { IfOk result (λ line. line.items ≡ refused_place_line id why) }
{
    Ok(format!(in alloc; "place {id} refused: {why}\n")?.into_bytes())
}

/// The line that reports the release of the placement with this id. `version` is the book's version
/// after the release.
pub(crate) fn released(alloc: Global, id: u64, version: u32) -> TextResult
    ensures { IfOk result (λ line. line.items ≡ released_line id version) }
{
    Ok(format!(in alloc; "released {id} v{version}\n")?.into_bytes())
}

/// The line that reports why no placement with this id is released.
pub(crate) fn refused_release(alloc: Global, id: u64, why: ReleaseRefusal) -> TextResult
    ensures { IfOk result (λ line. line.items ≡ refused_release_line id why) }
{
    Ok(format!(in alloc; "release {id} refused: {why}\n")?.into_bytes())
}

//! The lines about single placements: `held` and `offer` rows, and rows that only look. Each line
//! ends with a line feed.

ghost use Rattle.std.specs.Prelude.{◌≡◌, ◌++◌, IfOk, OnOk};
ghost use Rattle.std.specs.List.{flat_map};
ghost use Rattle.std.specs.String.{string_bytes};
ghost use Rattle.cspf_model.specs.Outcome.{answer_of};
ghost use Rattle.cspf_book_run.specs.BookLines.{over_line};
ghost use Rattle.cspf_book_run.specs.PlacementLines.{held_line, refused_held_line, IsOfferReply, refused_offer_line};
ghost use Rattle.cspf_book_run.specs.PlacementLines.{show_line, shown_attributes, link_item, refused_show_line};
ghost use Rattle.cspf_book_run.specs.PlacementLines.{left_line, left_front, figures_text, refused_left_line};

use crate::held_refusal::HeldRefusal;
use crate::line::{TextResult, write_over};
use crate::refusals::PlaceRefusal;
use cspf_addr::Addr;
use cspf_book::{LinkFigures, Over, Passed, Placement};
use cspf_ero::reply_line_as;
use cspf_model::Outcome;
use std::alloc::{AllocError, Global};

/// The lines of a restored placement with this id. First comes an `over` line for each link and
/// priority at which the placements now count more bandwidth than the link has. `version` is the
/// book's version after the row.
pub(crate) fn held_lines(alloc: Global, over: &[Over], id: u64, version: u32) -> TextResult
    ensures { IfOk result (λ lines.
        lines.items ≡ flat_map over_line over.now ++ held_line id version) }
{
    let mut lines = Vec::new(alloc);
    write_over(alloc, &mut lines, over)?;
    let last = format!(in alloc; "held {id} v{version}\n")?;
    lines.extend_from_slice(last.as_bytes())?;
    Ok(lines)
}

/// The line that reports why the placement with this id isn't restored.
pub(crate) fn refused_held(alloc: Global, id: u64, why: HeldRefusal) -> TextResult
    ensures { IfOk result (λ line. line.items ≡ refused_held_line id why) }
{
    Ok(format!(in alloc; "held {id} refused: {why}\n")?.into_bytes())
}

/// The line that answers the `offer` row of the request with this id. `version` is the book's
/// version, which the row doesn't change.
pub(crate) fn offer_line(alloc: Global, id: u64, version: u32, outcome: &Outcome) -> TextResult
    ensures { IfOk result (λ line. IsOfferReply id version (answer_of outcome.now) line.items) }
{
    reply_line_as(alloc, "offer", id, version, outcome)
}

/// The line that reports why the request with this id wouldn't be placed.
pub(crate) fn refused_offer(alloc: Global, id: u64, why: PlaceRefusal) -> TextResult
    ensures { IfOk result (λ line. line.items ≡ refused_offer_line id why) }
{
    Ok(format!(in alloc; "offer {id} refused: {why}\n")?.into_bytes())
}

/// The line that shows a placement of the book, which has this version. Its route is shown by the
/// keys of the links in order.
pub(crate) fn show_line(alloc: Global, version: u32, placement: &Placement) -> TextResult
    ensures { IfOk result (λ line. line.items ≡ show_line version placement.now) }
{
    let (id, attributes) = (placement.request.id, shown_attributes(alloc, placement)?);
    let mut line = format!(in alloc; "show {id} v{version}{attributes}")?.into_bytes();
    write_links(alloc, &mut line, placement.route.links())?;
    line.push(b'\n')?;
    Ok(line)
}

/// The ends of a placement, its holding priority, its bandwidth, and the number of its links.
fn shown_attributes(alloc: Global, placement: &Placement) -> Result<String, AllocError>
    ensures { IfOk result (λ text. string_bytes text ≡ shown_attributes placement.now) }
{
    let (from, to) = (placement.request.from, placement.request.to);
    let (hold, bandwidth) = (placement.hold, placement.request.bandwidth);
    let links = placement.route.links().len();
    format!(in alloc; " from={from} to={to} hold={hold} bandwidth={bandwidth} links={links}")
}

/// Writes a space and the key of each link, in order.
fn write_links(alloc: Global, line: &mut Vec<u8>, links: &[Passed]) -> Result<(), AllocError>
    ensures { OnOk result (line.new.items ≡ line.old.items ++ flat_map link_item links.now) }
{
    for link in links {
        let item = link_item(alloc, link)?;
        line.extend_from_slice(item.as_slice())?;
    }
    Ok(())
}

/// A space and the key of a link: the router at which it begins, and its interface there.
fn link_item(alloc: Global, link: &Passed) -> TextResult
    ensures { IfOk result (λ item. item.items ≡ link_item link.now) }
{
    let (from, local) = (link.from, link.local);
    Ok(format!(in alloc; " {from},{local}")?.into_bytes())
}

/// The line which reports that there is no placement with this id.
pub(crate) fn refused_show(alloc: Global, id: u64) -> TextResult
    ensures { IfOk result (λ line. line.items ≡ refused_show_line id) }
{
    Ok(format!(in alloc; "show {id} refused: absent\n")?.into_bytes())
}

/// The line that shows the figures of the base's link with this key, in bytes per second at the
/// priorities 0 to 7. `version` is the book's version.
pub(crate) fn left_line(
    alloc: Global,
    from: Addr,
    local: Addr,
    version: u32,
    figures: &LinkFigures,
) -> TextResult
    ensures { IfOk result (λ line. line.items ≡ left_line from local version figures.now) }
{
    let mut line = left_front(alloc, from, local, version)?.into_bytes();
    write_figures(&mut line, b" base=", figures_text(alloc, &figures.base)?)?;
    write_figures(
        &mut line,
        b" counted=",
        counted_text(alloc, &figures.counted)?,
    )?;
    write_figures(&mut line, b" left=", figures_text(alloc, &figures.left)?)?;
    line.push(b'\n')?;
    Ok(line)
}

/// The front of the line that shows a link: the link's key, and the version of the book.
fn left_front(alloc: Global, from: Addr, local: Addr, version: u32) -> Result<String, AllocError>
    ensures { IfOk result (λ text. string_bytes text ≡ left_front from local version) }
{
    format!(in alloc; "left {from},{local} v{version}")
}

/// Appends the name of figures and their text to the line.
fn write_figures(line: &mut Vec<u8>, name: &[u8], text: String) -> Result<(), AllocError>
    ensures { OnOk result (line.new.items ≡ line.old.items ++ name.now ++ string_bytes text) }
{
    line.extend_from_slice(name)?;
    line.extend_from_slice(text.as_bytes())
}

/// Bandwidths, separated by commas.
fn figures_text(alloc: Global, figures: &[u64; 8]) -> Result<String, AllocError>
    ensures { IfOk result (λ text. string_bytes text ≡ figures_text figures.now) }
{
    let [a, b, c, d, e, f, g, h] = *figures;
    format!(in alloc; "{a},{b},{c},{d},{e},{f},{g},{h}")
}

/// Bandwidths that placements count, separated by commas.
fn counted_text(alloc: Global, figures: &[u128; 8]) -> Result<String, AllocError>
    ensures { IfOk result (λ text. string_bytes text ≡ figures_text figures.now) }
{
    let [a, b, c, d, e, f, g, h] = *figures;
    format!(in alloc; "{a},{b},{c},{d},{e},{f},{g},{h}")
}

/// The line which reports that the base has no link with this key.
pub(crate) fn refused_left(alloc: Global, from: Addr, local: Addr) -> TextResult
    ensures { IfOk result (λ line. line.items ≡ refused_left_line from local) }
{
    Ok(format!(in alloc; "left {from},{local} refused: absent\n")?.into_bytes())
}

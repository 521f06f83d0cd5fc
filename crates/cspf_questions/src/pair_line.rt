//! The line that answers a request for a pair.

ghost use Rattle.std.specs.Prelude.{◌≡◌, ◌++◌, IfOk, codes};
ghost use Rattle.std.specs.Fmt.{decimal};
ghost use Rattle.cspf_pair.specs.Answers.{each_by, each_through, pair, pair_answer_of};
ghost use Rattle.cspf_questions.specs.PairLines.{pair_reply_line, way_text, ways_text};

use cspf_addr::Addr;
use cspf_ero::write_ero;
use cspf_model::{Link, Route};
use cspf_pair::PairOutcome;
use std::alloc::{AllocError, Global};

/// The part of a line that describes the way with this number.
fn way(alloc: Global, number: &str, route: &Route) -> Result<Vec<u8>, AllocError>
    ensures { IfOk result (λ text. text.items ≡ way_text number.now route.now) }
{
    let cost = route.cost();
    let object = write_ero(alloc, route)?;
    let digits = hex::encode(alloc, object.as_slice())?;
    let mut text = format!(in alloc; " cost{number}={cost} ero{number}=")?.into_bytes();
    text.extend_from_slice(digits.as_bytes())?;
    Ok(text)
}

/// The part of a line that describes a pair.
fn ways(alloc: Global, one: &Route, other: &Route) -> Result<Vec<u8>, AllocError>
    ensures { IfOk result (λ text. text.items ≡ ways_text one.now other.now) }
{
    let cost = one.cost() + other.cost();
    let hops = one.links().len() + other.links().len();
    let first = way(alloc, "1", one)?;
    let second = way(alloc, "2", other)?;
    let mut text = format!(in alloc; "pair cost={cost} hops={hops}")?.into_bytes();
    text.extend_from_slice(&first)?;
    text.extend_from_slice(&second)?;
    Ok(text)
}

/// The line of a pair.
fn ways_line(
    alloc: Global,
    id: u64,
    version: u32,
    one: &Route,
    other: &Route,
) -> Result<Vec<u8>, AllocError>
    ensures { IfOk result (λ line. line.items ≡ pair_reply_line id version (pair one.now other.now)) }
{
    let words = ways(alloc, one, other)?;
    let mut line = format!(in alloc; "pair {id} v{version} ")?.into_bytes();
    line.extend_from_slice(&words)?;
    line.push(b'\n')?;
    Ok(line)
}

/// The line with these words behind the version.
fn line_of(alloc: Global, id: u64, version: u32, words: &str) -> Result<Vec<u8>, AllocError>
    ensures { IfOk result (λ line. line.items ≡
        codes "pair " ++ decimal id ++ codes " v" ++ decimal version ++ codes " " ++ words.now
        ++ codes "\n") }
{
    Ok(format!(in alloc; "pair {id} v{version} {words}\n")?.into_bytes())
}

/// The line of a link that each way has.
fn link_line(alloc: Global, id: u64, version: u32, link: &Link) -> Result<Vec<u8>, AllocError>
    ensures { IfOk result (λ line. line.items ≡ pair_reply_line id version (each_by link.now)) }
{
    let (from, local) = (link.from, link.local);
    Ok(format!(in alloc; "pair {id} v{version} each by {from},{local}\n")?.into_bytes())
}

/// The line of a router that each way passes through.
fn router_line(alloc: Global, id: u64, version: u32, router: Addr) -> Result<Vec<u8>, AllocError>
    ensures { IfOk result (λ line. line.items ≡ pair_reply_line id version (each_through router)) }
{
    Ok(format!(in alloc; "pair {id} v{version} each through {router}\n")?.into_bytes())
}

/// The line that answers the request `id` for a pair at the version `version` of the database. It ends
/// with a line feed.
pub(crate) fn pair_line(
    alloc: Global,
    id: u64,
    version: u32,
    outcome: &PairOutcome,
) -> Result<Vec<u8>, AllocError>
    ensures { IfOk result (λ line. line.items ≡ pair_reply_line id version (pair_answer_of outcome.now)) }
{
    match outcome {
        PairOutcome::Pair(one, other) => ways_line(alloc, id, version, one, other),
        PairOutcome::EachBy(link) => link_line(alloc, id, version, link),
        PairOutcome::EachThrough(router) => router_line(alloc, id, version, *router),
        PairOutcome::NoRoute => line_of(alloc, id, version, "none"),
        PairOutcome::UnknownFrom => line_of(alloc, id, version, "unknown-from"),
        PairOutcome::UnknownTo => line_of(alloc, id, version, "unknown-to"),
    }
}

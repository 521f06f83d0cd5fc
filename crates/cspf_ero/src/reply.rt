//! The line that answers a request. It has a route's object in hexadecimal digits.

ghost use Rattle.std.specs.Prelude.{◌≡◌, ◌++◌, ◌+◌, ◌*◌, ◌≤◌, ◌<◌, ◌^◌, ◌↔◌, Bool, IsTrue, IfOk, OnOk, length, codes};
ghost use Rattle.std.specs.Fmt.{decimal};
ghost use Rattle.std.specs.String.{string_bytes};
ghost use Rattle.hex.specs.Hex.{encode_lower};
ghost use Rattle.cspf_model.specs.Walks.{cost_of};
ghost use Rattle.cspf_model.specs.RouteLinks.{VisitsTwice};
ghost use Rattle.cspf_model.specs.Outcome.{answer_of};
ghost use Rattle.cspf_model.specs.Best.{route as of_route};
ghost use Rattle.cspf_ero.specs.declared.limits.TheConstants.{MOST_LINE_BYTES, MOST_OBJECT_BYTES};
ghost use Rattle.cspf_ero.specs.ReplyLine.{IsReply, IsReplyAs, measures_text, yes_or_no};

use crate::writer::write_ero;
use cspf_model::{Outcome, Route};
use std::alloc::{AllocError, Global};

/// The line that answers the request `id` at the version `version` of the database. It ends with a
/// line feed, and has a route's object in lower-case hexadecimal digits. It has at most
/// `MOST_LINE_BYTES` bytes.
pub fn reply_line(
    alloc: Global,
    id: u64,
    version: u32,
    outcome: &Outcome,
) -> Result<Vec<u8>, AllocError>
    ensures line { IfOk result (λ line. IsReply id version (answer_of outcome.now) line.items) }
    ensures most { IfOk result (λ line. length line.items ≤ MOST_LINE_BYTES) }
{
    reply_line_as(alloc, "ask", id, version, outcome)
}

/// As `reply_line`, but the line begins with this word instead of `ask`. It may be longer than
/// `MOST_LINE_BYTES` by as many bytes as the word is longer than `ask`.
pub fn reply_line_as(
    alloc: Global,
    word: &str,
    id: u64,
    version: u32,
    outcome: &Outcome,
) -> Result<Vec<u8>, AllocError>
    ensures line { IfOk result (λ line.
        IsReplyAs word.now id version (answer_of outcome.now) line.items) }
    ensures most { IfOk result (λ line. length line.items + 3 ≤ MOST_LINE_BYTES + length word.now) }
{
    match outcome {
        Outcome::Route(route) => route_line(alloc, word, id, version, route),
        Outcome::NoRoute => short_line(alloc, word, id, version, "none"),
        Outcome::UnknownFrom => short_line(alloc, word, id, version, "unknown-from"),
        Outcome::UnknownTo => short_line(alloc, word, id, version, "unknown-to"),
    }
}

/// The reply line for an answer that isn't a route. `words` name this answer.
fn short_line(
    alloc: Global,
    word: &str,
    id: u64,
    version: u32,
    words: &str,
) -> Result<Vec<u8>, AllocError>
    requires { length words.now ≤ 12 }
    ensures line { IfOk result (λ line. line.items ≡
        word.now ++ codes " " ++ decimal id ++ codes " v" ++ decimal version ++ codes " "
        ++ words.now ++ codes "\n") }
    ensures most { IfOk result (λ line. length line.items ≤ 47 + length word.now) }
{
    Ok(format!(in alloc; "{word} {id} v{version} {words}\n")?.into_bytes())
}

/// The reply line for a route.
fn route_line(
    alloc: Global,
    word: &str,
    id: u64,
    version: u32,
    route: &Route,
) -> Result<Vec<u8>, AllocError>
    ensures line { IfOk result (λ line.
        IsReplyAs word.now id version (of_route route.now) line.items) }
    ensures most { IfOk result (λ line. length line.items + 3 ≤ MOST_LINE_BYTES + length word.now) }
{
    let object = write_ero(alloc, route)?;
    let front = route_front(alloc, word, id, version, route)?;
    let mut line = front.into_bytes();
    write_digits(&mut line, object.as_slice())?;
    line.push(b'\n')?;
    Ok(line)
}

/// The reply line for a route, up to the route's object.
#[tactic(auto, unfolding(crate::specs::ReplyLine::measures_text))]
fn route_front(
    alloc: Global,
    word: &str,
    id: u64,
    version: u32,
    route: &Route,
) -> Result<String, AllocError>
    ensures words { IfOk result (λ text. (again : Bool) × (IsTrue again ↔ VisitsTwice route.now)
        × (string_bytes text ≡ word.now ++ codes " " ++ decimal id ++ codes " v" ++ decimal version
        ++ codes " " ++ measures_text (cost_of route.now) (length route.now) again)) }
    ensures most { IfOk result (λ text. length (string_bytes text) ≤ 84 + length word.now) }
{
    let (cost, hops) = (route.cost(), route.links().len());
    let again = yes_or_no(route.again());
    format!(in alloc; "{word} {id} v{version} route cost={cost} hops={hops} again={again} ero=")
}

/// The word `yes` if the test is true, and otherwise the word `no`.
fn yes_or_no(test: bool) -> &'static str
    ensures { result.now ≡ yes_or_no test }
{
    if test { "yes" } else { "no" }
}

/// Appends two hexadecimal digits to the line for each byte.
fn write_digits(line: &mut Vec<u8>, bytes: &[u8]) -> Result<(), AllocError>
    requires { length bytes.now ≤ MOST_OBJECT_BYTES }
    ensures { OnOk result (line.new.items ≡ line.old.items ++ encode_lower bytes.now) }
{
    let start = line.len();
    line.resize(start + 2 * bytes.len(), 0)?;
    let written = hex::encode_to_slice(bytes, &mut line.as_mut_slice()[start..]);
    prove!(written.is_ok());
    Ok(())
}

//! The reader of lists of hops, and why a text isn't a list of hops.

ghost use Rattle.std.specs.Prelude.{◌≡◌, ◌≤◌, length};
ghost use Rattle.cspf_addr.specs.HopLists.{hops_of, hops_from, parts_of, AreHopListsReadBack};
ghost use Rattle.cspf_addr.specs.HopListLaws.{AreHopListsRead, AreBadHopsNamed, AreTooManyRefused};

use crate::hop::read_hop;
use crate::hops::{Hops, MOST_HOPS};
use thiserror::Error;

/// Why a text isn't a list of hops.
#[derive(Clone, Copy, Debug, PartialEq, Eq, Error)]
pub enum HopsError {
    /// The text has more than seven parts.
    #[error("more than {most} hops", most = MOST_HOPS)]
    TooManyHops,
    /// The part with the number `at` is the first part that isn't a hop. Parts are numbered from 1.
    #[error("part {at} is not a hop")]
    BadHop { at: usize },
}

/// The hops that a text spells, separated by single spaces (0x20). The empty text spells no hops.
/// Otherwise the text is cut into parts at its spaces, and each part has to spell a hop. If there
/// are more than seven parts, the text is refused before a part is read.
#[tactic(auto, unfolding(crate::specs::HopLists::hops_of))]
pub fn parse_hops(text: &[u8]) -> Result<Hops, HopsError>
    ensures { result ≡ hops_of text.now }
{
    if text.is_empty() {
        return Ok(Hops::none());
    }
    if part_count(text) > MOST_HOPS {
        return Err(HopsError::TooManyHops);
    }
    read_parts(text)
}

/// The number of parts into which a text is cut at its spaces.
#[tactic(auto, unfolding(crate::specs::HopLists::parts_of))]
fn part_count(text: &[u8]) -> usize
    ensures { result ≡ length (parts_of text.now) }
{
    text.iter().filter(|byte| **byte == b' ').count() + 1
}

/// The hops that the parts of a text spell, or the error for the first part that isn't a hop.
fn read_parts(text: &[u8]) -> Result<Hops, HopsError>
    requires { length (parts_of text.now) ≤ MOST_HOPS }
    ensures { result ≡ hops_from 1 (parts_of text.now) }
{
    let mut hops = Hops::none();
    for part in text.split(|byte| *byte == b' ') {
        let Some(hop) = read_hop(part) else {
            return Err(HopsError::BadHop { at: hops.len() + 1 });
        };
        hops.push(hop);
    }
    Ok(hops)
}

/// Law: a text is read as a list of at most seven hops exactly if it consists of texts of these
/// hops, separated by single spaces. A text of more than seven parts is refused as `TooManyHops`.
/// If any other text is refused, the error has the number of the first part that isn't a hop.
pub fn hop_lists_are_read()
    ensures read { AreHopListsRead }
    ensures bad { AreBadHopsNamed }
    ensures many { AreTooManyRefused }
{}

/// Law: a list of at most seven hops is read back from its text.
pub fn hop_lists_are_read_back()
    ensures { AreHopListsReadBack }
{}

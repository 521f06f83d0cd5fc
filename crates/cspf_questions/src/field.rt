//! Reads the field of the exclusions.

ghost use Rattle.std.specs.Prelude.{◌≡◌, ◌<◌, ◌≤◌, ◌+◌, length, IfOk};
ghost use Rattle.csv.specs.Records.{fields_of};
ghost use Rattle.cspf_rows.specs.FieldValues.{field};
ghost use Rattle.cspf_addr.specs.HopLists.{parts_of};
ghost use Rattle.cspf_questions.specs.ExclusionText.{exclusion_of, kind_of};
ghost use Rattle.cspf_questions.specs.QuestionRows.{exclusions_from, exclusions_of};
ghost use Rattle.cspf_exclusions.specs.declared.exclusion.TheConstants.{MOST_EXCLUSIONS};

use crate::error::ExceptFault;
use cspf_addr::Prefix;
use cspf_exclusions::{Exclusion, ExclusionKind, Exclusions, MOST_EXCLUSIONS};
use csv::ByteRecord;
use std::alloc::{AllocError, Global};

/// The bytes of the field with this number, counted from 1. If the record has no such field, the
/// result is empty.
pub(crate) fn text(fields: &ByteRecord, place: usize) -> &[u8]
    requires { 1 ≤ place }
    ensures { result.now ≡ field (fields_of fields.now) place }
{
    fields.get(place - 1).unwrap_or(&[])
}

/// The kind of exclusion that a letter names: `i` or `r`.
#[tactic(auto, unfolding(crate::specs::ExclusionText::kind_of))]
fn read_kind(letter: u8) -> Option<ExclusionKind>
    ensures { result ≡ kind_of letter }
{
    match letter {
        b'i' => Some(ExclusionKind::Interface),
        b'r' => Some(ExclusionKind::Router),
        _ => None,
    }
}

/// The exclusion that a text spells: a prefix and a letter.
#[tactic(auto, unfolding(crate::specs::ExclusionText::exclusion_of))]
fn read_exclusion(text: &[u8]) -> Option<Exclusion>
    ensures { result ≡ exclusion_of text.now }
{
    let (letter, front) = text.split_last()?;
    let prefix = Prefix::parse(front).ok()?;
    let kind = read_kind(*letter)?;
    Some(Exclusion { prefix, kind })
}

/// The number of parts into which a text is cut at its spaces.
#[tactic(auto, unfolding(cspf_addr::specs::HopLists::parts_of))]
fn part_count(text: &[u8]) -> usize
    ensures { result ≡ length (parts_of text.now) }
{
    text.iter().filter(|byte| **byte == b' ').count() + 1
}

/// The exclusions that the parts of a text spell, or the fault of the first part that isn't an
/// exclusion.
fn read_parts(alloc: Global, text: &[u8]) -> Result<Result<Exclusions, ExceptFault>, AllocError>
    requires { length (parts_of text.now) ≤ MOST_EXCLUSIONS }
    ensures { IfOk result (λ read. read ≡ exclusions_from 1 (parts_of text.now)) }
{
    let mut list = Vec::new(alloc);
    for part in text.split(|byte| *byte == b' ') {
        let Some(exclusion) = read_exclusion(part) else {
            return Ok(Err(ExceptFault::Part { at: list.len() + 1 }));
        };
        list.push(exclusion)?;
    }
    Ok(Ok(Exclusions::new(list)))
}

/// The exclusions that a text spells: 1 to `MOST_EXCLUSIONS` parts with one space between each two.
#[tactic(auto, unfolding(crate::specs::QuestionRows::exclusions_of))]
pub(crate) fn read_exclusions(
    alloc: Global,
    text: &[u8],
) -> Result<Result<Exclusions, ExceptFault>, AllocError>
    ensures { IfOk result (λ read. read ≡ exclusions_of text.now) }
{
    if part_count(text) > MOST_EXCLUSIONS {
        return Ok(Err(ExceptFault::Count));
    }
    read_parts(alloc, text)
}

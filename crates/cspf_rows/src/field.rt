//! Reads the fields of a record. A field spells a number, an address, a mask, a flag or a list of
//! hops.

ghost use Rattle.std.specs.Prelude.{◌≡◌, ◌≢◌, ◌<◌, ◌≤◌, length, IfOk, IfErr, OnOk};
ghost use Rattle.csv.specs.Records.{fields_of};
ghost use Rattle.cspf_rows.specs.FieldValues.{field, number_at, small_number_at, priority_at, flag_at, address_at, mask_at, hops_at, either_hops_of};

use crate::object::read_object;
use crate::row_error::{HopsFault, RowError};
use cspf_addr::{Addr, Hops, Mask};
use csv::ByteRecord;

/// Refuses a record that doesn't have `count` fields.
pub(crate) fn expect_count(fields: &ByteRecord, count: usize) -> Result<(), RowError>
    ensures ok { OnOk result (length (fields_of fields.now) ≡ count) }
    ensures err { IfErr result
        (λ error. (error ≡ RowError.Fields) × (length (fields_of fields.now) ≢ count)) }
{
    if fields.len() == count {
        Ok(())
    } else {
        Err(RowError::Fields)
    }
}

/// The bytes of field `place`, counted from 1. A field past the last one is empty.
pub(crate) fn text(fields: &ByteRecord, place: usize) -> &[u8]
    requires { 1 ≤ place }
    ensures { result.now ≡ field (fields_of fields.now) place }
{
    fields.get(place - 1).unwrap_or(&[])
}

/// The number below 2^64 that a field spells.
#[tactic(auto, unfolding(crate::specs::FieldValues::number_at))]
pub(crate) fn number(fields: &ByteRecord, place: usize) -> Result<u64, RowError>
    requires { 1 ≤ place }
    ensures { result ≡ number_at (fields_of fields.now) place }
{
    cspf_addr::number(text(fields, place)).ok_or(RowError::Number { field: place })
}

/// The number below 2^32 that a field spells.
#[tactic(auto, unfolding(crate::specs::FieldValues::small_number_at))]
pub(crate) fn small_number(fields: &ByteRecord, place: usize) -> Result<u32, RowError>
    requires { 1 ≤ place }
    ensures { result ≡ small_number_at (fields_of fields.now) place }
{
    u32::try_from(number(fields, place)?)
        .ok()
        .ok_or(RowError::Number { field: place })
}

/// The setup priority, 0 to 7, that a field spells.
#[tactic(auto, unfolding(crate::specs::FieldValues::priority_at))]
pub(crate) fn priority(fields: &ByteRecord, place: usize) -> Result<u8, RowError>
    requires { 1 ≤ place }
    ensures value { result ≡ priority_at (fields_of fields.now) place }
    ensures most { IfOk result (λ priority. priority < 8) }
{
    let number = small_number(fields, place)?;
    if number > 7 {
        return Err(RowError::Priority);
    }
    Ok(number as u8)
}

/// The flag that a field spells: 0 is false, and 1 is true.
#[tactic(auto, unfolding(crate::specs::FieldValues::flag_at))]
pub(crate) fn flag(fields: &ByteRecord, place: usize) -> Result<bool, RowError>
    requires { 1 ≤ place }
    ensures { result ≡ flag_at (fields_of fields.now) place }
{
    let number = small_number(fields, place)?;
    if number > 1 {
        return Err(RowError::Number { field: place });
    }
    Ok(number == 1)
}

/// The address that a field spells.
#[tactic(auto, unfolding(crate::specs::FieldValues::address_at))]
pub(crate) fn address(fields: &ByteRecord, place: usize) -> Result<Addr, RowError>
    requires { 1 ≤ place }
    ensures { result ≡ address_at (fields_of fields.now) place }
{
    Addr::parse(text(fields, place)).map_err(|_| RowError::Address { field: place })
}

/// The mask that a field spells.
#[tactic(auto, unfolding(crate::specs::FieldValues::mask_at))]
pub(crate) fn mask(fields: &ByteRecord, place: usize) -> Result<Mask, RowError>
    requires { 1 ≤ place }
    ensures { result ≡ mask_at (fields_of fields.now) place }
{
    Mask::parse(text(fields, place)).map_err(|_| RowError::Mask { field: place })
}

/// The hops that a field spells. The field is a hop list, or `ero:` and the hexadecimal digits of
/// an EXPLICIT_ROUTE object.
#[tactic(auto, unfolding(crate::specs::FieldValues::hops_at))]
pub(crate) fn hops(fields: &ByteRecord, place: usize) -> Result<Hops, RowError>
    requires { 1 ≤ place }
    ensures { result ≡ hops_at (fields_of fields.now) place }
{
    read_hops(text(fields, place)).map_err(RowError::Hops)
}

/// The hops that the text of a field spells.
#[tactic(auto, unfolding(crate::specs::FieldValues::either_hops_of))]
fn read_hops(text: &[u8]) -> Result<Hops, HopsFault>
    ensures { result ≡ either_hops_of text.now }
{
    match text.strip_prefix(b"ero:") {
        Some(digits) => read_object(digits),
        None => cspf_addr::parse_hops(text).map_err(HopsFault::Text),
    }
}

//! Writes the `held` row of a placement, from which the placement can be restored.

ghost use Rattle.std.specs.Prelude.{◌≡◌, ◌++◌, ◌∷◌, [], drop, IfOk, OnOk};
ghost use Rattle.std.specs.Fmt.{decimal};
ghost use Rattle.std.specs.List.{flat_map};
ghost use Rattle.csv.specs.Records.{fields_of, partial_of};
ghost use Rattle.cspf_addr.specs.AddressText.{address_text};
ghost use Rattle.cspf_addr.specs.HopLists.{hops_text};
ghost use Rattle.cspf_addr.specs.HopText.{hop_text};
ghost use Rattle.cspf_addr.specs.MaskText.{mask_text};
ghost use Rattle.cspf_book_run.specs.HeldRows.{AreHeldRowsReadBack, AreHeldTextsCut};
ghost use Rattle.cspf_book_run.specs.HeldRows.{constraint_fields, held_fields, held_text, placing_fields, IsPlacementInRange};

use crate::ranges::placement_in_range;
use crate::route_field::{route_text, route_texts_are_read_back};
use crate::row_text::row_text;
use cspf_addr::{Addr, Hop, Mask, masks_are_spelled};
use cspf_book::Placement;
use cspf_model::{Request, fields_of_links_and_requests};
use cspf_rows::rows_are_read_back;
use csv::ByteRecord;
use std::alloc::{AllocError, Global};

/// The `held` row of a placement. It ends with a line feed. The affinities are written as `0x` and
/// eight lower-case hexadecimal digits each.
pub fn held_row_text(alloc: Global, placement: &Placement) -> Result<Vec<u8>, AllocError>
    ensures text { IfOk result (λ text. text.items ≡ held_text placement.now) }
    ensures range { IsPlacementInRange placement.now }
{
    placement_in_range(placement);
    let fields = held_fields(alloc, placement)?;
    row_text(alloc, &fields)
}

/// The fields of the `held` row of a placement.
fn held_fields(alloc: Global, placement: &Placement) -> Result<ByteRecord, AllocError>
    ensures { IfOk result (λ fields. fields_of fields ≡ held_fields placement.now) }
{
    let mut fields = placing_fields(alloc, &placement.request, placement.hold)?;
    push_constraints(alloc, &mut fields, &placement.request)?;
    let route = route_text(alloc, placement.route.links())?;
    fields.push_field(route.as_slice())?;
    Ok(fields)
}

/// The fields of a `held` row up to the bandwidth.
fn placing_fields(alloc: Global, request: &Request, hold: u8) -> Result<ByteRecord, AllocError>
    ensures fields { IfOk result (λ fields. fields_of fields ≡ placing_fields request.now hold) }
    ensures whole { IfOk result (λ fields. partial_of fields ≡ []) }
{
    let mut fields = ByteRecord::new(alloc);
    fields.push_field(b"held")?;
    push_number(alloc, &mut fields, request.id)?;
    push_address(alloc, &mut fields, request.from)?;
    push_address(alloc, &mut fields, request.to)?;
    push_number(alloc, &mut fields, u64::from(hold))?;
    push_number(alloc, &mut fields, request.bandwidth)?;
    Ok(fields)
}

/// Appends the fields of a `held` row that come after the bandwidth and before the route.
fn push_constraints(
    alloc: Global,
    fields: &mut ByteRecord,
    request: &Request,
) -> Result<(), AllocError>
    requires { partial_of fields.old ≡ [] }
    ensures fields { OnOk result
        (fields_of fields.new ≡ fields_of fields.old ++ constraint_fields request.now) }
    ensures whole { OnOk result (partial_of fields.new ≡ []) }
{
    push_mask(alloc, fields, request.exclude_any)?;
    push_mask(alloc, fields, request.include_any)?;
    push_mask(alloc, fields, request.include_all)?;
    push_hops(alloc, fields, request.hops.as_slice())
}

/// Appends a field with a number.
fn push_number(alloc: Global, fields: &mut ByteRecord, number: u64) -> Result<(), AllocError>
    requires { partial_of fields.old ≡ [] }
    ensures fields { OnOk result (fields_of fields.new ≡ fields_of fields.old ++ decimal number ∷ []) }
    ensures whole { OnOk result (partial_of fields.new ≡ []) }
{
    let text = format!(in alloc; "{number}")?;
    fields.push_field(text.as_bytes())
}

/// Appends a field with an address.
fn push_address(alloc: Global, fields: &mut ByteRecord, address: Addr) -> Result<(), AllocError>
    requires { partial_of fields.old ≡ [] }
    ensures fields { OnOk result
        (fields_of fields.new ≡ fields_of fields.old ++ address_text address ∷ []) }
    ensures whole { OnOk result (partial_of fields.new ≡ []) }
{
    let text = address.text(alloc)?;
    fields.push_field(text.as_bytes())
}

/// Appends a field with a mask.
fn push_mask(alloc: Global, fields: &mut ByteRecord, mask: Mask) -> Result<(), AllocError>
    requires { partial_of fields.old ≡ [] }
    ensures fields { OnOk result (fields_of fields.new ≡ fields_of fields.old ++ mask_text mask ∷ []) }
    ensures whole { OnOk result (partial_of fields.new ≡ []) }
{
    let text = mask.text(alloc)?;
    fields.push_field(text.as_bytes())
}

/// Appends a field with a list of hops.
#[tactic(auto, using(crate::proofs::HeldRows::hops_spaced))]
fn push_hops(alloc: Global, fields: &mut ByteRecord, hops: &[Hop]) -> Result<(), AllocError>
    requires { partial_of fields.old ≡ [] }
    ensures fields { OnOk result (fields_of fields.new ≡ fields_of fields.old ++ hops_text hops.now ∷ []) }
    ensures whole { OnOk result (partial_of fields.new ≡ []) }
{
    let spaced = spaced_hops(alloc, hops)?;
    fields.push_field(behind_first(spaced.as_slice()))
}

/// The text of each hop with a space before it.
fn spaced_hops(alloc: Global, hops: &[Hop]) -> Result<Vec<u8>, AllocError>
    ensures { IfOk result (λ text. text.items ≡ flat_map (λ hop. 32 ∷ hop_text hop) hops.now) }
{
    let mut text = Vec::new(alloc);
    for hop in hops {
        let one = hop.text(alloc)?;
        text.push(b' ')?;
        text.extend_from_slice(one.as_bytes())?;
    }
    Ok(text)
}

/// A text without its first byte.
fn behind_first(text: &[u8]) -> &[u8]
    ensures { result.now ≡ drop 1 text.now }
{
    match text.split_first() {
        Some((_first, rest)) => rest,
        None => text,
    }
}

/// Law: the `held` row of a placement is read as the same request, holding priority and route. The
/// texts of `held` rows are cut into the records of these rows.
pub fn held_rows_are_read_back()
    ensures rows { AreHeldRowsReadBack }
    ensures texts { AreHeldTextsCut }
{
    rows_are_read_back();
    masks_are_spelled();
    fields_of_links_and_requests();
    route_texts_are_read_back();
}

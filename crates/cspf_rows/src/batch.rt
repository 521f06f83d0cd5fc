//! Writes the text of a batch: a line for each change, and then the line of the `end` row.

ghost use Rattle.std.specs.Prelude.{◌≡◌, ◌++◌, ◌∷◌, [], ℕ, List, ◌^◌, ◌<◌, map, codes, IfOk, OnOk};
ghost use Rattle.std.specs.Fmt.{decimal};
ghost use Rattle.std.specs.List.{flat_map};
ghost use Rattle.cspf_addr.specs.AddressText.{address_text};
ghost use Rattle.cspf_addr.specs.MaskText.{mask_text};
ghost use Rattle.cspf_model.specs.declared.batch.Change.TheVariants as change;
ghost use Rattle.cspf_rows.specs.Written.{end_fields};
ghost use Rattle.cspf_rows.specs.BatchText.{batch_text, change_fields, record_line, fields_after, attributes};

use cspf_addr::{Addr, Mask};
use cspf_model::{Batch, Change, Link};
use itoa::Buffer;
use std::alloc::{AllocError, Global};

/// The text of a batch: one line for each change, in order, and then its `end` row. Each line ends
/// with a line feed. The group of a link is written as `0x` and eight lower-case hexadecimal
/// digits.
pub fn batch_text(alloc: Global, batch: &Batch) -> Result<Vec<u8>, AllocError>
    ensures { IfOk result (λ text. text.items ≡ batch_text batch.now) }
{
    let mut text = Vec::new(alloc);
    write_changes(&mut text, &batch.changes)?;
    write_end(&mut text, batch.number, batch.changes.len())?;
    Ok(text)
}

/// Writes the line of each change.
fn write_changes(text: &mut Vec<u8>, changes: &[Change]) -> Result<(), AllocError>
    ensures { OnOk result (text.new.items ≡ text.old.items
        ++ flat_map (λ change. record_line (change_fields change)) changes.now) }
{
    for change in changes {
        match change {
            Change::Put(link) => write_put(text, link)?,
            Change::Remove { from, local } => write_drop(text, *from, *local)?,
            Change::Node { router, transit } => write_node(text, *router, *transit)?,
        }
    }
    Ok(())
}

/// Writes the line of a `put` change.
fn write_put(text: &mut Vec<u8>, link: &Link) -> Result<(), AllocError>
    ensures { OnOk result (text.new.items
        ≡ text.old.items ++ record_line (change_fields (change.Put link.now))) }
{
    write_attributes(text, link)?;
    write_bandwidths(text, &link.free)?;
    text.extend_from_slice(b"\n")
}

/// Writes the fields of a `put` change that precede the unreserved bandwidths.
fn write_attributes(text: &mut Vec<u8>, link: &Link) -> Result<(), AllocError>
    ensures { OnOk result (text.new.items
        ≡ text.old.items ++ (codes "put" ++ fields_after (attributes link.now))) }
{
    text.extend_from_slice(b"put")?;
    write_address(text, link.from)?;
    write_address(text, link.local)?;
    write_address(text, link.to)?;
    write_address(text, link.remote)?;
    write_number(text, u64::from(link.metric))?;
    write_mask(text, link.group)
}

/// Writes a comma and a number.
fn write_number(text: &mut Vec<u8>, number: u64) -> Result<(), AllocError>
    ensures { OnOk result (text.new.items ≡ text.old.items ++ (44 ∷ decimal number)) }
{
    text.extend_from_slice(b",")?;
    write_digits(text, number)
}

/// Writes the decimal digits of a number.
fn write_digits(text: &mut Vec<u8>, number: u64) -> Result<(), AllocError>
    ensures { OnOk result (text.new.items ≡ text.old.items ++ decimal number) }
{
    let mut buffer = Buffer::new();
    text.extend_from_slice(buffer.format(number).as_bytes())
}

/// Writes a comma and an address.
#[tactic(auto, unfolding(cspf_addr::specs::AddressText::address_text))]
fn write_address(text: &mut Vec<u8>, address: Addr) -> Result<(), AllocError>
    ensures { OnOk result (text.new.items ≡ text.old.items ++ (44 ∷ address_text address)) }
{
    let [a, b, c, d] = address.number().to_be_bytes();
    write_number(text, u64::from(a))?;
    write_octet(text, b)?;
    write_octet(text, c)?;
    write_octet(text, d)
}

/// Writes a dot and then one octet of an address in decimal digits.
fn write_octet(text: &mut Vec<u8>, octet: u8) -> Result<(), AllocError>
    ensures { OnOk result (text.new.items ≡ text.old.items ++ (46 ∷ decimal octet)) }
{
    text.extend_from_slice(b".")?;
    write_digits(text, u64::from(octet))
}

/// Writes a comma, and then a mask: `0x` and eight hexadecimal digits.
fn write_mask(text: &mut Vec<u8>, mask: Mask) -> Result<(), AllocError>
    ensures { OnOk result (text.new.items ≡ text.old.items ++ (44 ∷ mask_text mask)) }
{
    let mut digits = [0; 8];
    let Ok(()) = hex::encode_to_slice(mask.bits().to_be_bytes(), &mut digits) else {
        // This can't happen, because `digits` has room for two digits of each of the mask's four
        // bytes.
        unreachable!()
    };
    text.extend_from_slice(b",0x")?;
    text.extend_from_slice(&digits)
}

/// Writes the unreserved bandwidths of a link.
fn write_bandwidths(text: &mut Vec<u8>, free: &[u64]) -> Result<(), AllocError>
    ensures { OnOk result (text.new.items
        ≡ text.old.items ++ fields_after (map decimal free.now)) }
{
    for bandwidth in free {
        write_number(text, *bandwidth)?;
    }
    Ok(())
}

/// Writes the line of a `drop` change, which removes a link.
#[tactic(auto, using(crate::proofs::Lines::line_of_three))]
fn write_drop(text: &mut Vec<u8>, from: Addr, local: Addr) -> Result<(), AllocError>
    ensures { OnOk result (text.new.items
        ≡ text.old.items ++ record_line (change_fields (change.Remove from local))) }
{
    text.extend_from_slice(b"drop")?;
    write_address(text, from)?;
    write_address(text, local)?;
    text.extend_from_slice(b"\n")
}

/// Writes the line of a `node` change: 1 for a router with transit, and 0 for a router without.
#[tactic(auto, using(crate::proofs::Lines::line_of_three))]
fn write_node(text: &mut Vec<u8>, router: Addr, transit: bool) -> Result<(), AllocError>
    ensures { OnOk result (text.new.items
        ≡ text.old.items ++ record_line (change_fields (change.Node router transit))) }
{
    text.extend_from_slice(b"node")?;
    write_address(text, router)?;
    write_number(text, u64::from(transit))?;
    text.extend_from_slice(b"\n")
}

/// Writes the line that ends a batch.
#[tactic(auto, using(crate::proofs::Lines::line_of_three))]
fn write_end(text: &mut Vec<u8>, number: u32, count: usize) -> Result<(), AllocError>
    ensures { OnOk result (text.new.items
        ≡ text.old.items ++ record_line (end_fields number count)) }
{
    text.extend_from_slice(b"end")?;
    write_number(text, u64::from(number))?;
    write_number(text, count as u64)?;
    text.extend_from_slice(b"\n")
}

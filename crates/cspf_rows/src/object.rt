//! Reads the hops of an EXPLICIT_ROUTE object that a field spells in hexadecimal digits. No memory
//! is allocated.

ghost use Rattle.std.specs.Prelude.{◌≡◌, ◌*◌, ◌%◌, ◌≤◌, ◌↔◌, IsTrue, ℕ, List, length, take};
ghost use Rattle.std.specs.List.{AllPass};
ghost use Rattle.hex.specs.Hex.{decode_of, is_hex_digit};
ghost use Rattle.cspf_ero.specs.Reading.{ero_of};
ghost use Rattle.cspf_rows.specs.FieldValues.{hex_hops_of};

use crate::row_error::HopsFault;
use cspf_addr::Hops;
use cspf_ero::{EroError, FIRST_BYTES, read_ero_front};

/// The hops of an EXPLICIT_ROUTE object that is written in hexadecimal digits of either case. Only
/// the object's first bytes are decoded, into a buffer on the stack. These bytes and the object's
/// size are enough to find the hops.
pub(crate) fn read_object(digits: &[u8]) -> Result<Hops, HopsFault>
    ensures { result ≡ hex_hops_of digits.now }
{
    if !are_pairs(digits) {
        return Err(HopsFault::Hex);
    }
    match read_pairs(digits) {
        Ok(hops) => Ok(hops),
        Err(why) => Err(HopsFault::Ero(why)),
    }
}

/// The hops of an EXPLICIT_ROUTE object that is written in pairs of hexadecimal digits.
fn read_pairs(digits: &[u8]) -> Result<Hops, EroError>
    requires { (length digits.now % 2 ≡ 0) × AllPass is_hex_digit digits.now }
    ensures { (bytes : List ℕ) → decode_of digits.now ≡ Ok bytes → result ≡ ero_of bytes }
{
    let size = digits.len() / 2;
    let count = size.min(FIRST_BYTES);
    let mut front = [0; FIRST_BYTES];
    decode_first_bytes(digits, &mut front[..count]);
    read_ero_front(&front[..count], size)
}

/// Decodes as many bytes as `front` has room for.
fn decode_first_bytes(digits: &[u8], front: &mut [u8])
    requires pairs { (length digits.now % 2 ≡ 0) × AllPass is_hex_digit digits.now }
    requires within { 2 * length front.old ≤ length digits.now }
    ensures { (bytes : List ℕ) → decode_of digits.now ≡ Ok bytes
        → front.new ≡ take (length front.old) bytes }
{
    let (first_digits, _) = digits.split_at(2 * front.len());
    let decoded = hex::decode_to_slice(first_digits, front);
    prove!(decoded.is_ok());
}

/// Whether the text consists of an even number of hexadecimal digits.
fn are_pairs(digits: &[u8]) -> bool
    ensures { IsTrue result ↔ ((length digits.now % 2 ≡ 0) × AllPass is_hex_digit digits.now) }
{
    digits.len() % 2 == 0 && digits.iter().all(|digit| is_hex(*digit))
}

/// Whether a byte is a hexadecimal digit of either case.
fn is_hex(byte: u8) -> bool
    ensures { result ≡ is_hex_digit byte }
{
    matches!(byte, b'0'..=b'9' | b'a'..=b'f' | b'A'..=b'F')
}

//! Tests route objects that are read or refused: whole objects, objects that end too early, and
//! objects with one changed byte.

use super::assert_case;
use cspf_addr::parse_hops;
use cspf_ero::{EroError, FIRST_BYTES, read_ero, read_ero_front};
use std::alloc::Global;
use std::test::Fail;

/// EXPLICIT_ROUTE objects in hexadecimal digits, each with the text of its hops.
const OBJECTS: [(&str, &[u8]); 7] = [
    ("000c140181080a0a0a0a0801", b"10.0.0.0/8l"),
    ("000c140101080a000c022000", b"10.0.12.2/32s"),
    ("000c140101080a000c0220ff", b"10.0.12.2/32s"),
    ("000c14018108ffffffff0000", b"0.0.0.0/0l"),
    ("000c14010108ffffffff1f00", b"255.255.255.254/31s"),
    (
        "0014140101080a0900ff100081080404040420ff",
        b"10.9.0.0/16s 4.4.4.4/32l",
    ),
    (
        "003c140101080100000020000108010000012000010801000002200001080100000320000108010000042000\
         01080100000520008108010000062000",
        b"1.0.0.0/32s 1.0.0.1/32s 1.0.0.2/32s 1.0.0.3/32s 1.0.0.4/32s 1.0.0.5/32s 1.0.0.6/32l",
    ),
];

/// Refused bytes, in hexadecimal digits, each with its error.
const REFUSED: [(&str, EroError); 21] = [
    ("", EroError::Short),
    ("000c14", EroError::Short),
    ("000b140101080a00000120", EroError::Length),
    ("000c140181080a0a0a0a08", EroError::Length),
    ("000c140101080a000c02200000000000", EroError::Length),
    ("00060000", EroError::Length),
    ("000c150101080a0000012000", EroError::Class),
    ("000c140201080a0000012000", EroError::Class),
    ("00041501", EroError::Class),
    ("00041401", EroError::Empty),
    ("0008140101080a00", EroError::Sublength { at: 4 }),
    ("000c140101070a0000012000", EroError::Sublength { at: 4 }),
    ("000c140101070a0000012100", EroError::Sublength { at: 4 }),
    ("0008140183040000", EroError::Unsupported { at: 4, kind: 3 }),
    (
        "000c140182080a0a0a0a0801",
        EroError::Unsupported { at: 4, kind: 2 },
    ),
    (
        "000c140120040000007f2100",
        EroError::Unsupported { at: 4, kind: 32 },
    ),
    ("000c140101080a0000012100", EroError::PrefixLength { at: 4 }),
    (
        "0014140101080a00000120000108000000002100",
        EroError::PrefixLength { at: 12 },
    ),
    (
        "0014140101080a00000120000208000000002100",
        EroError::Unsupported { at: 12, kind: 2 },
    ),
    (
        "0010140101080a000001200001080a00",
        EroError::Sublength { at: 12 },
    ),
    (
        "0040140101080a000001200001080a000001200001080a000001200001080a000001200001080a0000012000\
         01080a000001200001080a000001200020040000",
        EroError::TooManyHops,
    ),
];

/// Whether `read_ero` and `read_ero_front` read the object with these digits as the hops of this
/// text.
fn spells(alloc: Global, digits: &str, text: &[u8]) -> Result<bool, Fail> {
    let (object, hops) = (hex::decode(alloc, digits)?, Ok(parse_hops(text)?));
    Ok(read_ero(&object) == hops && read_ero_front(&object, object.len()) == hops)
}

#[test]
fn hops_of_objects(rt: HostRuntime) -> Result<(), Fail> {
    for (at, (digits, text)) in OBJECTS.iter().enumerate() {
        let holds = spells(rt.alloc(), digits, text)?;
        assert_case(&rt, "an object", at, holds);
    }
    Ok(())
}

/// Whether the bytes with these digits are refused with this error.
fn is_refused(alloc: Global, digits: &str, why: EroError) -> Result<bool, Fail> {
    let bytes = hex::decode(alloc, digits)?;
    Ok(read_ero(&bytes) == Err(why))
}

#[test]
fn refusals(rt: HostRuntime) -> Result<(), Fail> {
    for (at, (digits, why)) in REFUSED.iter().enumerate() {
        let holds = is_refused(rt.alloc(), digits, *why)?;
        assert_case(&rt, "a refusal", at, holds);
    }
    Ok(())
}

/// Whether each strict prefix of the object is refused.
fn is_refused_cut(object: &[u8]) -> bool {
    for size in 0..object.len() {
        let why = if size < 4 {
            EroError::Short
        } else {
            EroError::Length
        };
        if read_ero(&object[..size]) != Err(why) {
            return false;
        }
    }
    true
}

#[test]
fn cut_objects(rt: HostRuntime) -> Result<(), Fail> {
    for (at, (digits, _)) in OBJECTS.iter().enumerate() {
        let holds = is_refused_cut(&hex::decode(rt.alloc(), digits)?);
        assert_case(&rt, "a cut object", at, holds);
    }
    Ok(())
}

/// The error of an object of one strict hop after its byte at the offset `at` is set to `byte`. The
/// result is `None` if this object is read.
fn refusal_of_one(at: usize, byte: u8) -> Option<EroError> {
    match (at, byte) {
        (0, 0) | (1, 12) | (2, 20) | (3, 1) | (4, 1 | 129) | (5, 8) | (10, 0..=32) => None,
        (0 | 1, _) => Some(EroError::Length),
        (2 | 3, _) => Some(EroError::Class),
        (4, _) => Some(EroError::Unsupported {
            at: 4,
            kind: byte % 128,
        }),
        (5, _) => Some(EroError::Sublength { at: 4 }),
        (10, _) => Some(EroError::PrefixLength { at: 4 }),
        _ => None,
    }
}

/// Whether an object of one strict hop is read or refused as `refusal_of_one` says, for each value
/// of the byte at this offset.
fn is_answered_at(at: usize) -> bool {
    for byte in 0..=255 {
        let mut bytes = *b"\x00\x0c\x14\x01\x01\x08\x0a\x00\x0c\x02\x20\x00";
        if at < bytes.len() {
            bytes[at] = byte;
        }
        if read_ero(&bytes).err() != refusal_of_one(at, byte) {
            return false;
        }
    }
    true
}

#[test]
fn each_value_of_each_byte(rt: HostRuntime) {
    for at in 0..12 {
        assert_case(&rt, "each byte at", at, is_answered_at(at));
    }
}

/// Whether an object of `length` bytes that begins with `front` is refused with this error.
fn is_long_refused(front: &[u8; FIRST_BYTES], length: usize, why: EroError) -> bool {
    read_ero_front(front, length) == Err(why)
}

/// The first bytes of an object of many hops, with `byte` at the offset `at`.
fn front_with(at: usize, byte: u8) -> [u8; FIRST_BYTES] {
    let mut bytes = [0; FIRST_BYTES];
    let (header, body) = bytes.split_at_mut(4);
    header.copy_from_slice(b"\xff\xc4\x14\x01");
    for at in 0..60 {
        body[at] = b"\x01\x08\x0a\x00\x00\x01\x20\x00"[at % 8];
    }
    if at < bytes.len() {
        bytes[at] = byte;
    }
    bytes
}

/// `read_ero_front` finds why a long object is refused. It gets only the length and the first
/// `FIRST_BYTES` bytes of the object.
#[test]
fn first_bytes_of_long_objects(rt: HostRuntime) {
    let same = front_with(3, 1);
    let are_refused = is_long_refused(&same, 65_476, EroError::TooManyHops)
        && is_long_refused(&same, 65_480, EroError::Length)
        && is_long_refused(&same, 64, EroError::Length);
    let of_class = is_long_refused(&front_with(3, 2), 65_476, EroError::Class);
    let why = EroError::PrefixLength { at: 52 };
    let of_prefix = is_long_refused(&front_with(58, 33), 65_476, why);
    assert_case(&rt, "long objects", 5, are_refused && of_class && of_prefix);
}

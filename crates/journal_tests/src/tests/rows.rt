//! Tests each kind of row of the text formats: the value as which it is read, or the words with
//! which it is refused.

use super::assert_case;
use cspf_addr::{Addr, Mask, parse_hops};
use cspf_model::{Link, LinkError, Request};
use cspf_rows::{Row, RowError};
use csv::{ByteRecord, ReaderBuilder};
use std::alloc::{AllocError, Global};
use std::process::Abort;
use std::test::Fail;

/// One case in each line: the words with which the row is refused, or `read`, and then the row. `F`
/// stands for eight bandwidths of 1000, `S` for seven bandwidths of 1000, `Z` for three affinity
/// masks of 0, and `H` for seven hops.
const ROWS: &str = "kind: foo
kind: foo,1.1.1.1,10.0.0.1
kind: PUT
kind: ,1,0
fields: drop,1.1.1.1
fields: drop,x,x,x
fields: end,x
fields: put,1.1.1.1,10.0.12.1,2.2.2.2,10.0.12.2,10,0x1,S
fields: put,x,10.0.12.1,2.2.2.2,10.0.12.2,10,0x1,F,1000
fields: ask,1,1.1.1.1,2.2.2.2,7,0,Z
read: drop,1.1.1.1,10.0.0.1
address 2: drop,01.1.1.1,10.0.0.1
address 2: drop, 1.1.1.1,10.0.0.1
address 2: drop,,10.0.0.1
address 3: drop,1.1.1.1,10.0.0.256
read: end,4294967295,4294967295
number 2: end,4294967296,0
number 3: end,0,4294967296
number 2: end,+1,0
number 2: end, 1,0
number 3: end,0,-1
number 2: end,,x
read: put,1.1.1.1,10.0.12.1,2.2.2.2,10.0.12.2,0,0x1,F
address 2: put,x,10.0.12.1,1.1.1.1,10.0.12.2,10,0x1,F
address 3: put,1.1.1.1,x,1.1.1.1,10.0.12.2,10,0x1,F
address 4: put,1.1.1.1,10.0.12.1,x,10.0.12.2,10,0x1,F
address 5: put,1.1.1.1,10.0.12.1,1.1.1.1,x,10,0x1,F
number 6: put,1.1.1.1,10.0.12.1,2.2.2.2,10.0.12.2,010,0x1,F
read: put,1.1.1.1,10.0.12.1,2.2.2.2,10.0.12.2,4294967295,0x1,F
number 6: put,1.1.1.1,10.0.12.1,2.2.2.2,10.0.12.2,4294967296,0x1,F
mask 7: put,1.1.1.1,10.0.12.1,1.1.1.1,10.0.12.2,10,0x123456789,F
self-link: put,1.1.1.1,10.0.12.1,1.1.1.1,10.0.12.2,10,0x1,F
read: put,1.1.1.1,10.0.12.1,2.2.2.2,10.0.12.2,10,0x1,18446744073709551615,S
number 8: put,1.1.1.1,10.0.12.1,2.2.2.2,10.0.12.2,10,0x1,18446744073709551616,S
read: put,1.1.1.1,10.0.12.1,2.2.2.2,10.0.12.2,10,0x1,S,18446744073709551615
number 15: put,1.1.1.1,10.0.12.1,1.1.1.1,10.0.12.2,10,0x1,S,18446744073709551616
read: ask,18446744073709551615,1.1.1.1,2.2.2.2,7,0,Z,
number 2: ask,18446744073709551616,1.1.1.1,2.2.2.2,7,0,Z,
address 3: ask,1,x,2.2.2.2,7,0,Z,
address 4: ask,1,1.1.1.1,x,8,0,Z,
priority: ask,1,1.1.1.1,1.1.1.1,8,x,Z,
priority: ask,1,1.1.1.1,1.1.1.1,4294967295,x,Z,
number 5: ask,1,1.1.1.1,1.1.1.1,4294967296,x,Z,
number 5: ask,1,1.1.1.1,1.1.1.1,,x,Z,
number 6: ask,1,1.1.1.1,1.1.1.1,7,x,Z,
read: ask,1,1.1.1.1,2.2.2.2,7,18446744073709551615,Z,
number 6: ask,1,1.1.1.1,2.2.2.2,7,18446744073709551616,Z,
same-ends: ask,1,1.1.1.1,1.1.1.1,7,0,Z,
mask 7: ask,1,1.1.1.1,2.2.2.2,7,0,0X0,0x0,0x0,
mask 8: ask,1,1.1.1.1,2.2.2.2,7,0,0x0,0x,0x0,
mask 9: ask,1,1.1.1.1,1.1.1.1,7,0,0x0,0x0,,x
hops 1: ask,1,1.1.1.1,2.2.2.2,7,0,Z,10.0.0.0/33l
hops 2: ask,1,1.1.1.1,1.1.1.1,7,0,Z,10.9.0.0/16s 4.4.4.4/32
read: ask,1,1.1.1.1,2.2.2.2,7,0,Z,H
hops count: ask,1,1.1.1.1,2.2.2.2,7,0,Z,H 0.0.0.0/0l
read: ask,1,1.1.1.1,2.2.2.2,0,0,Z,10.9.0.0/16s 4.4.4.4/32l
number 5: ask,1,1.1.1.1,2.2.2.2,07,0,Z,
number 2: ask,01,1.1.1.1,2.2.2.2,7,0,Z,
read: end,1,2
kind: NODE,1.1.1.1,0
kind: nodes,1.1.1.1,0
fields: node
fields: node,1.1.1.1
fields: node,x,2,
fields: node,1.1.1.1,0,0
read: node,1.1.1.1,0
read: node,255.255.255.255,1
address 2: node,01.1.1.1,2
address 2: node,1.1.1,x
address 2: node,,0
number 3: node,1.1.1.1,2
number 3: node,1.1.1.1,10
number 3: node,1.1.1.1,00
number 3: node,1.1.1.1,01
number 3: node,1.1.1.1,+1
number 3: node,1.1.1.1, 1
number 3: node,1.1.1.1,-1
number 3: node,1.1.1.1,x
number 3: node,1.1.1.1,true
number 3: node,1.1.1.1,
number 3: node,1.1.1.1,4294967296
number 3: node,1.1.1.1,18446744073709551617";

/// Cases in the form of `ROWS`, with the field of the hops in place of the row. This field begins
/// with `ero:`, or with a similar text. `U` stands for the digits of a subobject of an
/// EXPLICIT_ROUTE object.
const OBJECTS: &str = "hops 1: ero
hops 1: ERO:
hops hex: ero:0
hops hex: ero:000c14010108xa000c022000
hops hex: ero:000c140101080a000c0220 0
hops ero short: ero:
hops ero short: ero:000c14
hops ero length: ero:00080102030405
hops ero class: ero:000c150101080a000c022000
hops ero empty: ero:00041401
hops ero count: ero:00441401UUUUUUUU
hops ero count: ero:00841401UUUUUUUUUUUUUUUU
hops ero length: ero:00841401UUUUUUUUUUUUUUUU00
hops hex: ero:00841401UUUUUUUUUUUUUUUx0
hops ero unsupported: ero:000c140182080a0a0a0a0801
hops ero sublength: ero:000c140101070a000c022000
hops ero prefix-length: ero:000c140101080a000c022100
read: ero:003c1401UUUUUUU
read: ero:000C140101080A000C022000";

/// Splits a line of `ROWS` or `OBJECTS` at its first `: `. The first part is the words of the
/// refusal, or `read`. The second part is the row or the field.
fn case(line: &str) -> (&str, &[u8]) {
    let (words, row) = line.split_once(": ").unwrap_or((line, ""));
    (words, row.as_bytes())
}

/// Reads the only row of a text.
fn only_row(alloc: Global, text: &[u8]) -> Result<Result<Row, RowError>, csv::Error> {
    let mut fields = ByteRecord::new(alloc);
    ReaderBuilder::new()
        .has_headers(false)
        .flexible(true)
        .from_reader(alloc, text)
        .read_byte_record(&mut fields)?;
    Ok(Row::read(&fields))
}

/// The words of the refusal if a row is refused, or `read` if it is read.
fn words_of(alloc: Global, read: Result<Row, RowError>) -> Result<String, AllocError> {
    match read {
        Ok(_) => format!(in alloc; "read"),
        Err(error) => error.to_string(alloc),
    }
}

/// Whether the row of a text is refused with these words, or is read if the words are `read`.
pub(super) fn is_said(alloc: Global, text: &[u8], words: &str) -> Result<bool, Fail> {
    Ok(words_of(alloc, only_row(alloc, text)?)?.as_str() == words)
}

/// The text `front`, followed by a row of `ROWS` or a field of `OBJECTS`. In the row or field, each
/// of the letters `F`, `S`, `Z`, `H` and `U` is replaced by the text that it stands for.
fn text_of(alloc: Global, front: &[u8], row: &[u8]) -> Result<Vec<u8>, AllocError> {
    let mut text = Vec::from_slice(alloc, front)?;
    for byte in row {
        text.extend_from_slice(spelled(byte))?;
    }
    Ok(text)
}

/// The text that a byte of a row in `ROWS` or `OBJECTS` stands for. Each of the letters `F`, `S`,
/// `Z`, `H` and `U` stands for a longer text. Each other byte stands for itself.
fn spelled(byte: &u8) -> &[u8] {
    match *byte {
        b'F' => b"1000,1000,1000,1000,1000,1000,1000,1000",
        b'S' => b"1000,1000,1000,1000,1000,1000,1000",
        b'Z' => b"0x0,0x0,0x0",
        b'H' => b"0.0.0.0/0l 0.0.0.0/0l 0.0.0.0/0l 0.0.0.0/0l 0.0.0.0/0l 0.0.0.0/0l 0.0.0.0/0l",
        b'U' => b"01080a000c022000",
        _ => std::slice::from_ref(byte),
    }
}

/// Asserts for each line of `table` that the text `front`, followed by the line's row, is refused
/// with the line's words. If these words are `read`, the text has to be read as a row.
fn assert_table(rt: &impl Abort, alloc: Global, front: &[u8], table: &str) -> Result<(), Fail> {
    for line in table.lines() {
        let (words, row) = case(line);
        let is_said = is_said(alloc, &text_of(alloc, front, row)?, words)?;
        assert_case(rt, line.as_bytes(), is_said);
    }
    Ok(())
}

#[test]
fn rows_and_refusals(rt: HostRuntime) -> Result<(), Fail> {
    assert_table(&rt, rt.alloc(), b"", ROWS)
}

#[test]
fn objects_and_refusals(rt: HostRuntime) -> Result<(), Fail> {
    let front = b"ask,1,1.1.1.1,2.2.2.2,7,0,0x0,0x0,0x0,";
    assert_table(&rt, rt.alloc(), front, OBJECTS)
}

/// Asserts that the row of the text is read as `row`.
fn assert_row(rt: &impl Abort, alloc: Global, text: &[u8], row: Row) -> Result<(), Fail> {
    let found = only_row(alloc, text)?;
    assert_case(rt, text, found == Ok(row));
    Ok(())
}

const ROUTER: u32 = 0x0102_0304; // 1.2.3.4

const INTERFACE: u32 = 0x0a00_0c01; // 10.0.12.1

/// A row that puts a link from the router `ROUTER` and its interface `INTERFACE`.
const PUT: &[u8] =
    b"put,1.2.3.4,10.0.12.1,2.2.2.2,10.0.12.2,4294967295,0xA,1,2,3,4,5,6,7,18446744073709551615";

/// The value as which the row `PUT` is read.
fn put() -> Result<Row, LinkError> {
    let (from, local) = (Addr::new(ROUTER), Addr::new(INTERFACE));
    let (to, remote) = (Addr::new(0x0202_0202), Addr::new(0x0a00_0c02));
    let (group, free) = (Mask::new(10), [1, 2, 3, 4, 5, 6, 7, u64::MAX]);
    let link = Link::new(from, local, to, remote, u32::MAX, group, free)?;
    Ok(Row::Put(link))
}

/// The row that says whether `ROUTER` has transit: whether routes may pass through this router.
fn node(transit: bool) -> Row {
    let router = Addr::new(ROUTER);
    Row::Node { router, transit }
}

#[test]
fn what_changes_and_an_end_say(rt: HostRuntime) -> Result<(), Fail> {
    let alloc = rt.alloc();
    let (from, local) = (Addr::new(ROUTER), Addr::new(INTERFACE));
    let (number, count) = (7, u32::MAX);
    let (drop, end) = (Row::Remove { from, local }, Row::End { number, count });
    assert_row(&rt, alloc, PUT, put()?)?;
    assert_row(&rt, alloc, b"drop,1.2.3.4,10.0.12.1", drop)?;
    assert_row(&rt, alloc, b"end,7,4294967295", end)?;
    assert_row(&rt, alloc, b"node,1.2.3.4,0", node(false))?;
    assert_row(&rt, alloc, b"node,1.2.3.4,1", node(true))
}

/// The row that asks for a route from `ROUTER` with this bandwidth, these affinity masks and these
/// hops.
fn ask(bandwidth: u64, [exclude, any, all]: [u32; 3], hops: &[u8]) -> Result<Row, Fail> {
    let (from, to) = (Addr::new(ROUTER), Addr::new(0x0202_0202));
    let hops = parse_hops(hops)?;
    let (exclude, any, all) = (Mask::new(exclude), Mask::new(any), Mask::new(all));
    let request = Request::new(9, from, to, 7, bandwidth, exclude, any, all, hops)?;
    Ok(Row::Ask(request))
}

/// A row that asks for a route with a list of hops.
const LIST: &[u8] = b"ask,9,1.2.3.4,2.2.2.2,7,1000,0x1,0x2,0x4,10.9.0.1/16s 4.4.4.4/32l";

const OBJECT: &[u8] =
    b"ask,9,1.2.3.4,2.2.2.2,7,0,0x0,0x0,0x0,ero:0014140181080AFfffff08010108040404042000";

#[test]
fn what_an_ask_says(rt: HostRuntime) -> Result<(), Fail> {
    let (list, object) = (b"10.9.0.1/16s 4.4.4.4/32l", b"10.0.0.0/8l 4.4.4.4/32s");
    assert_case(&rt, list, parse_hops(list)?.len() == 2);
    assert_row(&rt, rt.alloc(), LIST, ask(1000, [1, 2, 4], list)?)?;
    assert_row(&rt, rt.alloc(), OBJECT, ask(0, [0, 0, 0], object)?)
}

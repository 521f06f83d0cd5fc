//! Tests the rows of a book: which row is read from a record, and with which words it is refused.
//! Tests the `held` rows that are written for placements, and the routes in them.

use super::assert_case;
use cspf_addr::{Addr, Hops, Mask, parse_hops};
use cspf_book::{Path, Placement};
use cspf_book_run::{BookRow, held_row_text};
use cspf_model::Request;
use csv::{ByteRecord, ReaderBuilder};
use std::alloc::{AllocError, Global};
use std::test::Fail;

/// One case in each line: the words with which the row is refused, or `read`, and then the row. `A`
/// stands for the fields of a request from 1.1.1.1 to 3.3.3.3 after its id, and `R` for the route
/// through 2.2.2.2.
const ROWS: &str = "kind: held2,1
kind: Held,1,A,R
fields: held
fields: held,1,A
fields: held,1,A,R,
fields: held,x
read: held,1,A,R
number 2: held,18446744073709551616,A,R
address 3: held,1,1.1.1,3.3.3.3,4,700,0x0,0x0,0x0,,x
address 4: held,1,1.1.1.1,3.3.3,4,700,0x0,0x0,0x0,,x
priority: held,1,1.1.1.1,3.3.3.3,8,700,0x0,0x0,0x0,,x
number 5: held,1,1.1.1.1,3.3.3.3,,700,0x0,0x0,0x0,,x
number 6: held,1,1.1.1.1,3.3.3.3,4,-1,0x0,0x0,0x0,,x
mask 7: held,1,1.1.1.1,3.3.3.3,4,700,0,0x0,0x0,,x
mask 8: held,1,1.1.1.1,3.3.3.3,4,700,0x0,0,0x0,,x
mask 9: held,1,1.1.1.1,3.3.3.3,4,700,0x0,0x0,0,,x
hops 1: held,1,1.1.1.1,3.3.3.3,4,700,0x0,0x0,0x0,x,x
same-ends: held,1,1.1.1.1,1.1.1.1,4,700,0x0,0x0,0x0,,x
route: held,1,A,
route: held,1,A,x
route: held,1,A,R0
route: held,1,A,0a000102020202020a00020303030303ff
route: held,1,A,0a00010202020202
route: held,1,A,0a000102020202020a0002030303030
route: held,1,A,0a000102020202020a00020303030302
route: held,1,A,0a000102020202020a0002030303030g
read: held,1,A,0a00010303030303
read: held,1,A,0B00010202020202FFFFFFFF03030303
kind: OFFER,1,A
fields: offer,1
fields: offer,1,A,R
read: offer,1,A
number 2: offer,,A
priority: offer,1,1.1.1.1,3.3.3.3,8,700,0x0,0x0,0x0,
same-ends: offer,1,1.1.1.1,1.1.1.1,4,700,0x0,0x0,0x0,
read: place,1,A
read: release,1
kind: Show,1
fields: show
fields: show,1,2
read: show,18446744073709551615
number 2: show,18446744073709551616
number 2: show,01
kind: left 1.1.1.1,10.0.1.2
fields: left,1.1.1.1
fields: left,1.1.1.1,10.0.1.2,7
read: left,1.1.1.1,10.0.1.2
address 2: left,1.1.1,x
address 3: left,1.1.1.1,10.0.1.256
read: drop,1.1.1.1,10.0.1.2
address 2: drop,x,10.0.1.2";

/// The text for which a byte of a row stands. Each byte but `A` and `R` stands for itself.
fn spelled(byte: &u8) -> &[u8] {
    match *byte {
        b'A' => b"1.1.1.1,3.3.3.3,4,700,0x0,0x0,0x0,",
        b'R' => b"0a000102020202020a00020303030303",
        _ => std::slice::from_ref(byte),
    }
}

/// Reads the fields of the only row of a text.
fn only_record(alloc: Global, text: &[u8]) -> Result<ByteRecord, csv::Error> {
    let mut fields = ByteRecord::new(alloc);
    ReaderBuilder::new()
        .has_headers(false)
        .flexible(true)
        .from_reader(alloc, text)
        .read_byte_record(&mut fields)?;
    Ok(fields)
}

/// The words of the refusal of a text's row, or `read`.
fn words(alloc: Global, text: &[u8]) -> Result<String, Fail> {
    let fields = only_record(alloc, text)?;
    Ok(match BookRow::read(alloc, &fields)? {
        Ok(_) => format!(in alloc; "read")?,
        Err(why) => format!(in alloc; "{why}")?,
    })
}

#[test]
fn book_rows_and_refusals(rt: HostRuntime) -> Result<(), Fail> {
    let alloc = rt.alloc();
    for (i, line) in ROWS.lines().enumerate() {
        let (wanted, row) = line.split_once(": ").unwrap_or((line, ""));
        let mut text = Vec::new(alloc);
        for byte in row.as_bytes() {
            text.extend_from_slice(spelled(byte))?;
        }
        let said = words(alloc, text.as_slice())?;
        assert_case(&rt, "book row", i + 1, said.as_str() == wanted);
    }
    Ok(())
}

/// The request of the cases, with this setup priority.
fn request(id: u64, setup: u8, masks: [u32; 3], hops: Hops) -> Option<Request> {
    Request::new(
        id,
        Addr::new(0x0101_0101),
        Addr::new(0x0303_0303),
        setup,
        700,
        Mask::new(masks[0]),
        Mask::new(masks[1]),
        Mask::new(masks[2]),
        hops,
    )
    .ok()
}

/// The row that is read from a text, if it is one.
fn row_of(alloc: Global, text: &[u8]) -> Result<Option<BookRow>, Fail> {
    let fields = only_record(alloc, text)?;
    Ok(BookRow::read(alloc, &fields)?.ok())
}

/// Whether the row asks what a `place` row with this request would be answered.
fn is_offer(row: &BookRow, asked: &Option<Request>) -> bool {
    match row {
        BookRow::Offer { request, hold } => Some(*request) == *asked && *hold == 0,
        _ => false,
    }
}

/// Whether the row places this request.
fn is_place(row: &BookRow, asked: &Option<Request>) -> bool {
    match row {
        BookRow::Place { request, hold } => Some(*request) == *asked && *hold == 4,
        _ => false,
    }
}

/// Whether the row looks at the placement 1, or releases the placement 7.
fn has_its_id(row: &BookRow) -> bool {
    match row {
        BookRow::Show { id } => *id == 1,
        BookRow::Release { id } => *id == 7,
        _ => false,
    }
}

/// Whether the row looks at the link 10.0.1.2 of the router 1.1.1.1.
fn is_left(row: &BookRow) -> bool {
    match row {
        BookRow::Left { from, local } => {
            *from == Addr::new(0x0101_0101) && *local == Addr::new(0x0a00_0102)
        }
        _ => false,
    }
}

#[test]
fn rows_that_are_read(rt: HostRuntime) -> Result<(), Fail> {
    let alloc = rt.alloc();
    let asked = request(1, 7, [0, 0, 0], Hops::none());
    let offered = match row_of(alloc, b"offer,1,1.1.1.1,3.3.3.3,0,700,0x0,0x0,0x0,")? {
        Some(row) => is_offer(&row, &asked),
        None => false,
    };
    assert_case(&rt, "row", 1, offered);
    let placed = match row_of(alloc, b"place,1,1.1.1.1,3.3.3.3,4,700,0x0,0x0,0x0,")? {
        Some(row) => is_place(&row, &asked),
        None => false,
    };
    assert_case(&rt, "row", 2, placed);
    for (i, text) in [b"show,1".as_slice(), b"release,7".as_slice()]
        .iter()
        .enumerate()
    {
        let is = match row_of(alloc, text)? {
            Some(row) => has_its_id(&row),
            None => false,
        };
        assert_case(&rt, "row", i + 3, is);
    }
    let left = match row_of(alloc, b"left,1.1.1.1,10.0.1.2")? {
        Some(row) => is_left(&row),
        None => false,
    };
    assert_case(&rt, "row", 5, left);
    Ok(())
}

/// A placement with the id `id` along these steps.
fn placement(
    alloc: Global,
    id: u64,
    hold: u8,
    masks: [u32; 3],
    hops: &[u8],
    steps: &[(Addr, Addr)],
) -> Result<Option<Placement>, AllocError> {
    let Ok(hops) = parse_hops(hops) else {
        return Ok(None);
    };
    let Some(request) = request(id, 7, masks, hops) else {
        return Ok(None);
    };
    if hold > 7 {
        return Ok(None);
    }
    let route = Path::along(alloc, request.from, steps)?;
    Ok(Some(Placement {
        request,
        hold,
        route,
    }))
}

/// Whether the row that is written for a placement is this row, and is read as the same placement.
fn is_row(alloc: Global, placement: &Placement, wanted: &[u8]) -> Result<bool, Fail> {
    let text = held_row_text(alloc, placement)?;
    let is_same = match row_of(alloc, text.as_slice())? {
        Some(BookRow::Held { placement: read }) => {
            read.request == placement.request
                && read.hold == placement.hold
                && read.route.links() == placement.route.links()
        }
        _ => false,
    };
    Ok(text.as_slice() == wanted && is_same)
}

#[test]
fn held_rows(rt: HostRuntime) -> Result<(), Fail> {
    let alloc = rt.alloc();
    let through_two = [
        (Addr::new(0x0a00_0102), Addr::new(0x0202_0202)),
        (Addr::new(0xff00_02ab), Addr::new(0x0303_0303)),
    ];
    let first = placement(alloc, 7, 4, [0, 5, 0xffff_ffff], b"", &through_two[..])?;
    let first_is = match first {
        Some(placement) => is_row(
            alloc,
            &placement,
            b"held,7,1.1.1.1,3.3.3.3,4,700,0x00000000,0x00000005,0xffffffff,,0a00010202020202ff0002ab03030303\n",
        )?,
        None => false,
    };
    assert_case(&rt, "held row", 1, first_is);
    let direct = [(Addr::new(0), Addr::new(0x0303_0303))];
    let hops = b"2.2.2.2/32s 10.0.0.0/8l";
    let second = placement(alloc, u64::MAX, 0, [1, 0, 0], hops, &direct[..])?;
    let second_is = match second {
        Some(placement) => is_row(
            alloc,
            &placement,
            b"held,18446744073709551615,1.1.1.1,3.3.3.3,0,700,0x00000001,0x00000000,0x00000000,2.2.2.2/32s 10.0.0.0/8l,0000000003030303\n",
        )?,
        None => false,
    };
    assert_case(&rt, "held row", 2, second_is);
    Ok(())
}

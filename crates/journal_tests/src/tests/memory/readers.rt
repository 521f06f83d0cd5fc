//! Tests readers while memory is refused: each call returns the whole result, or the error
//! `Memory`. When memory is available again, the call returns the whole result.

ghost use Rattle.cspf_rows.specs.GivenBatches.{CanRead};

use crate::tests::{assert_case, empty_batch};
use cspf_addr::{Addr, Hops, Mask, parse_hops};
use cspf_model::{Batch, Change, Link, Request, RequestError};
use cspf_rows::{
    JournalReader, JournalStep, ReadError, RequestsError, Rest, read_journal, read_requests,
};
use std::alloc::Global;
use std::test::Fail;

/// Whether an allocation of one byte succeeds now.
fn has_memory(alloc: Global) -> bool {
    match Vec::from_slice(alloc, &[1u8]) {
        Ok(bytes) => bytes.len() == 1,
        Err(_) => false,
    }
}

/// A journal of one batch, followed by a row that is cut short.
const TORN: &[u8] = b"put,1.1.1.1,10.0.12.1,2.2.2.2,10.0.12.2,10,0x1,\
1000,1000,1000,1000,1000,1000,1000,1000\nend,1,1\nput,2.2.2.2,10.0.1";

/// Whether `TORN` is read as a journal of one batch, which puts the link. The journal has to be
/// torn: rows that are in no batch follow the batch.
fn is_read(alloc: Global, link: &Link) -> Result<bool, ReadError> {
    let journal = read_journal(alloc, TORN)?;
    if journal.batches.len() != 1 || journal.rest != Rest::Torn {
        return Ok(false);
    }
    let batch = &journal.batches[0];
    Ok(batch.number == 1 && batch.changes.as_slice() == [Change::Put(*link)].as_slice())
}

/// Whether the journal is read. If memory is refused, the journal has to be read in a second
/// attempt, or there is still no memory for one byte.
fn is_read_at_last(alloc: Global, link: &Link) -> bool {
    let read = is_read(alloc, link);
    if read == Err(ReadError::Memory) {
        return !has_memory(alloc) || is_read(alloc, link) == Ok(true);
    }
    read == Ok(true)
}

#[test]
fn journals_while_memory_is_refused(rt: HostRuntime) -> Result<(), Fail> {
    let (from, local) = (Addr::new(0x0101_0101), Addr::new(0x0a00_0c01));
    let (to, remote) = (Addr::new(0x0202_0202), Addr::new(0x0a00_0c02));
    let link = Link::new(from, local, to, remote, 10, Mask::new(1), [1000; 8])?;
    assert_case(&rt, b"read", is_read_at_last(rt.alloc(), &link));
    assert_case(&rt, b"given", is_given_at_last(rt.alloc(), &link));
    Ok(())
}

/// Whether a reader of `TORN` returns the batch that puts the link, and then returns the end of the
/// batches: the journal is torn, since rows that are in no batch follow.
fn gives(
    journal: &mut JournalReader<&[u8]>,
    batch: &mut Batch,
    link: &Link,
) -> Result<bool, ReadError>
    requires { CanRead journal.old }
{
    if journal.read_batch(batch)? != JournalStep::Batch || batch.number != 1 {
        return Ok(false);
    }
    if batch.changes.as_slice() != [Change::Put(*link)].as_slice() {
        return Ok(false);
    }
    Ok(journal.read_batch(batch)? == JournalStep::End(Rest::Torn))
}

/// Whether a new reader of `TORN` returns the batch of `TORN`, and then an end which says that the
/// journal is torn. It is torn because rows that are in no batch follow the batch.
fn is_given(alloc: Global, link: &Link) -> Result<bool, ReadError> {
    gives(
        &mut JournalReader::new(alloc, TORN),
        &mut empty_batch(alloc),
        link,
    )
}

/// Whether a reader returns the batch of `TORN`. If memory is refused, a second reader has to
/// return this batch, or there is still no memory for one byte.
fn is_given_at_last(alloc: Global, link: &Link) -> bool {
    let given = is_given(alloc, link);
    if given == Err(ReadError::Memory) {
        return !has_memory(alloc) || is_given(alloc, link) == Ok(true);
    }
    given == Ok(true)
}

/// Three requests: without hops, with a list of hops, and with an EXPLICIT_ROUTE object.
const ASKS: &[u8] = b"ask,7,1.1.1.1,2.2.2.2,0,1000,0x1,0x2,0x4,\n\
ask,8,1.1.1.1,2.2.2.2,0,1000,0x1,0x2,0x4,10.0.0.0/8l 4.4.4.4/32s\n\
ask,9,1.1.1.1,2.2.2.2,0,1000,0x1,0x2,0x4,ero:0014140181080a00000008010108040404042000";

/// A request that differs from the requests of `ASKS` at most in its id and its hops.
fn request(id: u64, hops: Hops) -> Result<Request, RequestError> {
    let (from, to) = (Addr::new(0x0101_0101), Addr::new(0x0202_0202));
    let (exclude_any, include_any) = (Mask::new(1), Mask::new(2));
    let include_all = Mask::new(4);
    Request::new(
        id,
        from,
        to,
        0,
        1000,
        exclude_any,
        include_any,
        include_all,
        hops,
    )
}

/// Whether the requests are read as `wanted`.
fn are_read(alloc: Global, wanted: &[Request]) -> Result<bool, RequestsError> {
    Ok(read_requests(alloc, ASKS)?.as_slice() == wanted)
}

/// Whether the requests are read. If memory is refused, the requests have to be read in a second
/// attempt, or there is still no memory for one byte.
fn are_read_at_last(alloc: Global, wanted: &[Request]) -> bool {
    let read = are_read(alloc, wanted);
    if read == Err(RequestsError::Memory) {
        return !has_memory(alloc) || are_read(alloc, wanted) == Ok(true);
    }
    read == Ok(true)
}

#[test]
fn requests_while_memory_is_refused(rt: HostRuntime) -> Result<(), Fail> {
    let hops = parse_hops(b"10.0.0.0/8l 4.4.4.4/32s")?;
    let wanted = [
        request(7, Hops::none())?,
        request(8, hops)?,
        request(9, hops)?,
    ];
    assert_case(&rt, b"requests", are_read_at_last(rt.alloc(), &wanted));
    Ok(())
}

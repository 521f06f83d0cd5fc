//! Tests the faults that an audit finds in lines of replies, and the journals and requests that it
//! refuses.

use super::assert_case;
use cspf_judge::{Audit, AuditError, AuditFault, audit};
use cspf_model::Refusal;
use cspf_rows::{RequestsError, RowError};
use std::alloc::Global;
use std::test::Fail;

/// A journal whose version 1 has a link from 1.1.1.1 to 2.2.2.2, and the reverse link, which has no
/// unreserved bandwidth.
const JOURNAL: &[u8] = b"put,1.1.1.1,10.0.12.1,2.2.2.2,10.0.12.2,10,0x1,\
1000,1000,1000,1000,1000,1000,1000,1000\n\
put,2.2.2.2,10.0.12.2,1.1.1.1,10.0.12.1,10,0x1,0,0,0,0,0,0,0,0\nend,1,2\n";

/// Two requests for a route over the link of `JOURNAL`, with the ids 7 and 8.
const REQUESTS: &[u8] = b"ask,7,1.1.1.1,2.2.2.2,0,1000,0x0,0x0,0x0,\n\
ask,8,1.1.1.1,2.2.2.2,0,1000,0x0,0x0,0x0,\n";

/// Whether the audit of these replies finds exactly these faults, and `good` lines without a fault.
fn finds(
    alloc: Global,
    replies: &[u8],
    good: u32,
    faults: &[AuditFault],
) -> Result<bool, AuditError> {
    let found = audit(alloc, JOURNAL, REQUESTS, replies)?;
    Ok(found.good == good && found.faults.as_slice() == faults)
}

#[test]
fn a_line_of_each_fault(rt: HostRuntime) -> Result<(), Fail> {
    let replies = b"version 1\n\
ask 7 v1 route cost=10 hops=1 again=no ero=000c140101080a000c022000\n\
ask 7 v1 route cost=10 hops=1 again=no ero=000c140101080a000c022000\n\
ask 9 v1 none\nask 8 v2 none\nhello\n";
    let faults = [
        AuditFault::Doubled { line: 3 },
        AuditFault::Foreign { line: 4 },
        AuditFault::NoVersion { line: 5 },
        AuditFault::Unread { line: 6 },
    ];
    assert_case(&rt, replies, finds(rt.alloc(), replies, 1, &faults)?);
    Ok(())
}

#[test]
fn an_altered_line(rt: HostRuntime) -> Result<(), Fail> {
    let faults = [
        AuditFault::Altered { line: 1 },
        AuditFault::Unanswered { id: 8 },
    ];
    let replies = b"ask 7 v1 none\n";
    assert_case(&rt, replies, finds(rt.alloc(), replies, 0, &faults)?);
    Ok(())
}

#[test]
fn versions_fall_along_the_lines(rt: HostRuntime) -> Result<(), Fail> {
    let replies = b"ask 8 v1 route cost=10 hops=1 again=no ero=000c140101080a000c022000\n\
ask 7 v0 unknown-from";
    assert_case(&rt, replies, finds(rt.alloc(), replies, 2, &[])?);
    Ok(())
}

#[test]
fn another_word_for_a_router_met_again(rt: HostRuntime) -> Result<(), Fail> {
    let replies = b"ask 8 v0 unknown-from\napplied 1\nbatch 2 refused: full\n\
ask 7 v1 route cost=10 hops=1 again=yes ero=000c140101080a000c022000\n\n";
    let faults = [
        AuditFault::Altered { line: 4 },
        AuditFault::Unread { line: 5 },
    ];
    assert_case(&rt, replies, finds(rt.alloc(), replies, 1, &faults)?);
    Ok(())
}

#[test]
fn a_foreign_line_twice(rt: HostRuntime) -> Result<(), Fail> {
    let replies = b"ask 9 v9 none\nask 9 v0 none\nversion\nversions 1\n";
    let faults = [
        AuditFault::Foreign { line: 1 },
        AuditFault::Foreign { line: 2 },
        AuditFault::Unread { line: 4 },
        AuditFault::Unanswered { id: 7 },
        AuditFault::Unanswered { id: 8 },
    ];
    assert_case(&rt, replies, finds(rt.alloc(), replies, 0, &faults)?);
    Ok(())
}

#[test]
fn a_line_behind_one_with_a_fault(rt: HostRuntime) -> Result<(), Fail> {
    let replies = b"ask 8 v2 none\nask 8 v0 unknown-from\nask 7 v1 none\nask 7 v2 none\n";
    let faults = [
        AuditFault::NoVersion { line: 1 },
        AuditFault::Doubled { line: 2 },
        AuditFault::Altered { line: 3 },
        AuditFault::Doubled { line: 4 },
    ];
    assert_case(&rt, replies, finds(rt.alloc(), replies, 0, &faults)?);
    Ok(())
}

#[test]
fn empty_streams(rt: HostRuntime) -> Result<(), Fail> {
    let empty = b"".as_slice();
    let Audit { good, faults } = audit(rt.alloc(), empty, empty, empty)?;
    assert_case(&rt, empty, good == 0 && faults.is_empty());
    Ok(())
}

/// The error of an audit of this journal and these requests, or `None` if the audit has no error.
fn refusal(alloc: Global, journal: &[u8], requests: &[u8]) -> Option<AuditError> {
    audit(alloc, journal, requests, b"hello\n".as_slice()).err()
}

#[test]
fn refused_journals(rt: HostRuntime) -> Result<(), Fail> {
    let torn = b"end,1,0\nend,3,0\n".as_slice();
    let unfit = b"end,1,0\ndrop,1.1.1.1,10.0.12.1\nend,2,1\n".as_slice();
    let absent = AuditError::Batch {
        number: 2,
        refusal: Refusal::Absent { at: 1 },
    };
    let torn_after = Some(AuditError::Torn { after: 1 });
    let is_torn = refusal(rt.alloc(), torn, b"foo\n") == torn_after;
    let is_unfit = refusal(rt.alloc(), unfit, b"foo\n") == Some(absent);
    assert_case(&rt, unfit, is_torn && is_unfit);
    Ok(())
}

#[test]
fn refused_requests(rt: HostRuntime) -> Result<(), Fail> {
    let error = RowError::Kind;
    let bad = RequestsError::Bad { row: 1, error };
    let other = RequestsError::NotAsk { row: 1 };
    let is_bad = refusal(rt.alloc(), JOURNAL, b"foo\n") == Some(AuditError::Requests(bad));
    let is_other = refusal(rt.alloc(), JOURNAL, b"end,1,0\n") == Some(AuditError::Requests(other));
    assert_case(&rt, b"requests", is_bad && is_other);
    Ok(())
}

#[test]
fn one_id_twice(rt: HostRuntime) -> Result<(), Fail> {
    let requests = b"ask,8,1.1.1.1,2.2.2.2,0,0,0x0,0x0,0x0,\n\
ask,7,1.1.1.1,2.2.2.2,0,0,0x0,0x0,0x0,\nask,7,1.1.1.1,3.3.3.3,0,0,0x0,0x0,0x0,\n\
ask,8,1.1.1.1,2.2.2.2,0,0,0x0,0x0,0x0,\n";
    let why = refusal(rt.alloc(), JOURNAL, requests);
    assert_case(&rt, requests, why == Some(AuditError::SameId { row: 3 }));
    Ok(())
}

//! Tests an audit while memory is refused: it returns the whole result, or the error `Memory`. When
//! memory is available again, the audit returns the whole result.

use crate::tests::assert_case;
use cspf_judge::{AuditError, AuditFault, QuestionAuditError, audit, audit_with_questions};
use cspf_questions::{AnswersExcept, Kinds};
use std::alloc::Global;
use std::test::Fail;

/// Whether an allocation of one byte succeeds now.
fn has_memory(alloc: Global) -> bool {
    match Vec::from_slice(alloc, &[1u8]) {
        Ok(bytes) => bytes.len() == 1,
        Err(_) => false,
    }
}

/// A journal. Its version 1 has a link and the link's reverse, and its version 2 has neither.
const JOURNAL: &[u8] = b"put,1.1.1.1,10.0.12.1,2.2.2.2,10.0.12.2,10,0x1,\
1000,1000,1000,1000,1000,1000,1000,1000\n\
put,2.2.2.2,10.0.12.2,1.1.1.1,10.0.12.1,10,0x1,0,0,0,0,0,0,0,0\nend,1,2\n\
drop,1.1.1.1,10.0.12.1\ndrop,2.2.2.2,10.0.12.2\nend,2,2\n";

/// Three requests for a route over the link of `JOURNAL`.
const REQUESTS: &[u8] = b"ask,7,1.1.1.1,2.2.2.2,0,1000,0x0,0x0,0x0,\n\
ask,8,1.1.1.1,2.2.2.2,0,1000,0x0,0x0,0x0,1.1.1.1/32l\n\
ask,9,1.1.1.1,2.2.2.2,0,1000,0x0,0x0,0x0,\n";

/// Replies. The first reply is for version 2, and says `none`. It is wrong, because the database of
/// version 2 has no routers. The second reply is for version 1, and is right. Request 9 has no
/// reply.
const REPLIES: &[u8] = b"ask 8 v2 none\nask 7 v1 \
route cost=10 hops=1 again=no ero=000c140101080a000c022000\napplied 2\n";

/// Whether the audit finds one good reply, and the faults of the first reply and of the request 9.
fn is_found(alloc: Global) -> Result<bool, AuditError> {
    let found = audit(alloc, JOURNAL, REQUESTS, REPLIES)?;
    let faults = [
        AuditFault::Altered { line: 1 },
        AuditFault::Unanswered { id: 9 },
    ];
    Ok(found.good == 1 && found.faults.as_slice() == faults.as_slice())
}

#[test]
fn audits_while_memory_is_refused(rt: HostRuntime) -> Result<(), Fail> {
    let alloc = rt.alloc();
    let found = match is_found(alloc) {
        Err(AuditError::Memory) => !has_memory(alloc) || is_found(alloc) == Ok(true),
        found => found == Ok(true),
    };
    assert_case(&rt, REPLIES, found);
    Ok(())
}

/// A request, and a question for a route without the only circuit.
const ASKED: &[u8] = b"ask,7,1.1.1.1,2.2.2.2,0,1000,0x0,0x0,0x0,\n\
except,8,1.1.1.1,2.2.2.2,0,1000,0x0,0x0,0x0,,10.0.12.0/30i 2.2.2.2/32r\n";

/// The replies to both, of which the one to the question is for version 1.
const ANSWERS: &[u8] = b"except 8 v1 none\nask 7 v1 \
route cost=10 hops=1 again=no ero=000c140101080a000c022000\n";

/// Whether the audit finds that both replies are good.
fn both_are_good(alloc: Global) -> Result<bool, QuestionAuditError> {
    let found = audit_with_questions(alloc, AnswersExcept::value(), JOURNAL, ASKED, ANSWERS)?;
    Ok(found.good == 2 && found.faults.is_empty())
}

#[test]
fn audits_with_questions_while_memory_is_refused(rt: HostRuntime) -> Result<(), Fail> {
    let alloc = rt.alloc();
    let found = match both_are_good(alloc) {
        Err(QuestionAuditError::Audit(AuditError::Memory)) => {
            !has_memory(alloc) || both_are_good(alloc) == Ok(true)
        }
        found => found == Ok(true),
    };
    assert_case(&rt, ANSWERS, found);
    Ok(())
}

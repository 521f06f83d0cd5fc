//! Tests streams of rows that also ask questions: how they are read, and how replies to them are
//! audited.

use super::{Pieces, assert_case, by_bytes, failing};
use cspf_judge::{AuditError, AuditFault, QuestionAuditError, audit_with_questions};
use cspf_questions::{
    AnswersBoth, AnswersExcept, AnswersNone, AnswersPairs, AskedError, AskedRow, ExceptFault,
    Kinds, QuestionError, QuestionKinds, read_asked,
};
use cspf_rows::{RequestsError, RowError};
use std::alloc::Global;
use std::test::Fail;

/// A journal whose version 1 has two links from 1.1.1.1 to 2.2.2.2, of cost 10 and 20, and the reverse
/// of each.
const JOURNAL: &[u8] = b"put,1.1.1.1,10.0.12.1,2.2.2.2,10.0.12.2,10,0x1,\
1000,1000,1000,1000,1000,1000,1000,1000\n\
put,2.2.2.2,10.0.12.2,1.1.1.1,10.0.12.1,10,0x1,0,0,0,0,0,0,0,0\n\
put,1.1.1.1,10.0.13.1,2.2.2.2,10.0.13.2,20,0x1,1000,1000,1000,1000,1000,1000,1000,1000\n\
put,2.2.2.2,10.0.13.2,1.1.1.1,10.0.13.1,20,0x1,0,0,0,0,0,0,0,0\nend,1,4\n";

/// A request for a route, and a question for the same route without the circuit of cost 10.
const REQUESTS: &[u8] = b"ask,7,1.1.1.1,2.2.2.2,0,1000,0x0,0x0,0x0,\n\
except,8,1.1.1.1,2.2.2.2,0,1000,0x0,0x0,0x0,,10.0.12.0/30i\n";

/// Why replies to `REQUESTS` aren't audited, or whether the audit finds exactly these faults, and
/// `good` lines without a fault.
fn finds(
    alloc: Global,
    replies: &[u8],
    good: u32,
    faults: &[AuditFault],
) -> Result<bool, QuestionAuditError> {
    let found = audit_with_questions(alloc, AnswersExcept::value(), JOURNAL, REQUESTS, replies)?;
    Ok(found.good == good && found.faults.as_slice() == faults)
}

#[test]
fn right_answers_of_both_kinds(rt: HostRuntime) {
    let replies = b"version 1\n\
except 8 v1 route cost=20 hops=1 again=no ero=000c140101080a000d022000\n\
ask 7 v1 route cost=10 hops=1 again=no ero=000c140101080a000c022000\n";
    let found = finds(rt.alloc(), replies, 2, &[]);
    assert_case(&rt, replies, found == Ok(true));
}

#[test]
fn answers_with_the_word_of_the_other_kind(rt: HostRuntime) {
    let replies = b"ask 8 v1 route cost=20 hops=1 again=no ero=000c140101080a000d022000\n\
except 7 v1 route cost=10 hops=1 again=no ero=000c140101080a000c022000\n";
    let faults = [
        AuditFault::Altered { line: 1 },
        AuditFault::Altered { line: 2 },
    ];
    let found = finds(rt.alloc(), replies, 0, &faults);
    assert_case(&rt, replies, found == Ok(true));
}

#[test]
fn a_question_answered_with_the_excluded_circuit(rt: HostRuntime) {
    let replies = b"except 8 v1 route cost=10 hops=1 again=no ero=000c140101080a000c022000\n\
except 9 v1 none\nexcept 8 v0 unknown-from\nexcept 7 v2 none\nexcept 7\n";
    let faults = [
        AuditFault::Altered { line: 1 },
        AuditFault::Foreign { line: 2 },
        AuditFault::Doubled { line: 3 },
        AuditFault::NoVersion { line: 4 },
        AuditFault::Unread { line: 5 },
    ];
    let found = finds(rt.alloc(), replies, 0, &faults);
    assert_case(&rt, replies, found == Ok(true));
}

#[test]
fn rows_without_an_answer(rt: HostRuntime) {
    let faults = [
        AuditFault::Unanswered { id: 7 },
        AuditFault::Unanswered { id: 8 },
    ];
    let found = finds(rt.alloc(), b"", 0, &faults);
    assert_case(&rt, REQUESTS, found == Ok(true));
}

/// A request for a pair of the two circuits of `JOURNAL`.
const PAIR: &[u8] = b"pair,9,1.1.1.1,2.2.2.2,0,1000,0x0,0x0,0x0,circuits\n";

/// What an audit finds of a reply to `PAIR`: how many lines are good, and how many faults there are.
fn found_of_pair(alloc: Global, reply: &[u8]) -> Result<(u32, usize), QuestionAuditError> {
    let found = audit_with_questions(alloc, AnswersPairs::value(), JOURNAL, PAIR, reply)?;
    Ok((found.good, found.faults.len()))
}

#[test]
fn answers_to_a_request_for_a_pair(rt: HostRuntime) {
    let right = b"pair 9 v1 pair cost=30 hops=2 cost1=10 ero1=000c140101080a000c022000 \
cost2=20 ero2=000c140101080a000d022000\n";
    let exchanged = b"pair 9 v1 pair cost=30 hops=2 cost1=20 ero1=000c140101080a000d022000 \
cost2=10 ero2=000c140101080a000c022000\n";
    assert_case(&rt, right, found_of_pair(rt.alloc(), right) == Ok((1, 0)));
    assert_case(
        &rt,
        exchanged,
        found_of_pair(rt.alloc(), exchanged) == Ok((0, 1)),
    );
    let reason = b"pair 9 v1 each by 1.1.1.1,10.0.12.1\n";
    assert_case(&rt, reason, found_of_pair(rt.alloc(), reason) == Ok((0, 1)));
    let early = b"pair 9 v0 unknown-from\n";
    assert_case(&rt, early, found_of_pair(rt.alloc(), early) == Ok((1, 0)));
}

/// Streams of rows that are refused, each with the error of an audit.
const REFUSED: &[(&[u8], QuestionAuditError)] = &[
    (
        b"except,8,1.1.1.1,2.2.2.2,0,1000,0x0,0x0,0x0,,10.0.12.0/30i 10.0.0.0/8\n",
        QuestionAuditError::Question {
            row: 1,
            error: QuestionError::Except(ExceptFault::Part { at: 2 }),
        },
    ),
    (
        b"ask,8,1.1.1.1,2.2.2.2,0,1000,0x0,0x0,0x0,\n\
except,8,1.1.1.1,2.2.2.2,0,1000,0x0,0x0,0x0,,10.0.12.0/30i\n",
        QuestionAuditError::Audit(AuditError::SameId { row: 2 }),
    ),
    (
        b"ask,8,1.1.1.1,2.2.2.2,0,1000,0x0,0x0,0x0,\nexcept,9\n",
        QuestionAuditError::Question {
            row: 2,
            error: QuestionError::Row(RowError::Fields),
        },
    ),
    (
        b"node,1.1.1.1,0\n",
        QuestionAuditError::Audit(AuditError::Requests(RequestsError::NotAsk { row: 1 })),
    ),
];

/// Why replies to these rows aren't audited, if they aren't.
fn refusal(alloc: Global, requests: &[u8]) -> Option<QuestionAuditError> {
    audit_with_questions(
        alloc,
        AnswersExcept::value(),
        JOURNAL,
        requests,
        b"hello\n".as_slice(),
    )
    .err()
}

#[test]
fn refused_rows(rt: HostRuntime) {
    for (requests, error) in REFUSED {
        let found = refusal(rt.alloc(), requests);
        assert_case(&rt, requests, found == Some(*error));
    }
}

/// Whether these kinds of rows are read from a stream: the ids of `ask` rows, and of questions.
fn are_read(rows: &[AskedRow], asks: &[u64], questions: &[u64]) -> bool {
    let (mut asked, mut others) = (0, 0);
    for row in rows {
        match row {
            AskedRow::Ask(request) => {
                if asks.get(asked) != Some(&request.id) {
                    return false;
                }
                asked = asked.saturating_add(1);
            }
            AskedRow::Question(question) => {
                if questions.get(others) != Some(&question.id()) {
                    return false;
                }
                others = others.saturating_add(1);
            }
        }
    }
    asked == asks.len() && others == questions.len()
}

/// An `ask` row, an `except` row and a `pair` row.
const EACH_KIND: &[u8] = b"ask,7,1.1.1.1,2.2.2.2,0,1000,0x0,0x0,0x0,\n\
except,8,1.1.1.1,2.2.2.2,0,1000,0x0,0x0,0x0,,10.0.12.0/30i\n\
pair,9,1.1.1.1,2.2.2.2,0,1000,0x0,0x0,0x0,routers\n";

/// Reads `EACH_KIND`, and says whether the `ask` row 7 and the questions 8 and 9 are read. Memory may
/// be refused.
fn each_is_read(alloc: Global) -> Result<bool, AskedError> {
    let rows = read_asked(alloc, AnswersBoth::value(), by_bytes(EACH_KIND))?;
    Ok(are_read(&rows, &[7], &[8, 9]))
}

#[test]
fn rows_of_each_kind(rt: HostRuntime) {
    assert_case(&rt, EACH_KIND, each_is_read(rt.alloc()) == Ok(true));
}

/// The error of reading rows, if any.
fn error_of(alloc: Global, kinds: QuestionKinds, reader: Pieces<'_>) -> Option<AskedError> {
    read_asked(alloc, kinds, reader).err()
}

/// The error of a row of a kind that isn't asked for.
fn unasked(row: u32) -> AskedError {
    AskedError::Requests(RequestsError::Bad {
        row,
        error: RowError::Kind,
    })
}

#[test]
fn questions_of_a_kind_that_is_not_asked_for(rt: HostRuntime) {
    let alloc = rt.alloc();
    for (kinds, row) in [
        (AnswersNone::value(), 2),
        (AnswersExcept::value(), 3),
        (AnswersPairs::value(), 2),
    ] {
        let found = error_of(alloc, kinds, by_bytes(EACH_KIND));
        assert_case(&rt, EACH_KIND, found == Some(unasked(row)));
    }
}

/// Rows of requests for pairs that are refused, each with its error.
const REFUSED_PAIRS: &[(&[u8], QuestionError)] = &[
    (
        b"pair,9,1.1.1.1,2.2.2.2,0,1000,0x0,0x0,0x0,router\n",
        QuestionError::PairKind,
    ),
    (
        b"pair,9,1.1.1.1,2.2.2.2,0,1000,0x0,0x0,0x0,\n",
        QuestionError::PairKind,
    ),
    (
        b"pair,9,1.1.1.1,1.1.1.1,0,1000,0x0,0x0,0x0,router\n",
        QuestionError::Row(RowError::SameEnds),
    ),
    (
        b"pair,9,1.1.1.1,2.2.2.2,8,1000,0x0,0x0,0x0,routers\n",
        QuestionError::Row(RowError::Priority),
    ),
    (
        b"pair,9,1.1.1.1,2.2.2.2,0,1000,0x0,0x0,0x0\n",
        QuestionError::Row(RowError::Fields),
    ),
    (
        b"pair,9,1.1.1.1,2.2.2.2,0,1000,0x0,0x0,0x0,routers,\n",
        QuestionError::Row(RowError::Fields),
    ),
];

#[test]
fn refused_requests_for_pairs(rt: HostRuntime) {
    for (rows, error) in REFUSED_PAIRS {
        let found = error_of(rt.alloc(), AnswersPairs::value(), by_bytes(rows));
        let wanted = AskedError::Question {
            row: 1,
            error: *error,
        };
        assert_case(&rt, rows, found == Some(wanted));
    }
}

#[test]
fn readers_of_rows_that_fail(rt: HostRuntime) {
    let device = AskedError::Requests(RequestsError::Device);
    let found = error_of(rt.alloc(), AnswersBoth::value(), failing(EACH_KIND));
    assert_case(&rt, EACH_KIND, found == Some(device));
}

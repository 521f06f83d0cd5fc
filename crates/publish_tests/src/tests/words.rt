//! Tests the printed texts of errors.

use super::fixtures::assert_case;
use cspf_model::Refusal;
use cspf_publish::{ApplyError, AskError, OpenError};
use std::alloc::{AllocError, Global};
use std::fmt::Display;
use std::process::Abort;
use std::test::Fail;

/// Whether the error is printed as this text.
fn has_words<D: Display + Copy>(alloc: Global, error: D, words: &str) -> Result<bool, AllocError> {
    Ok(error.to_string(alloc)?.as_str() == words)
}

/// Checks that each error of a table is printed as the text beside it.
fn have_words<D: Display + Copy, R: Abort>(
    rt: &R,
    alloc: Global,
    errors: &[(D, &str)],
) -> Result<(), Fail> {
    for (error, words) in errors {
        assert_case(rt, words, words.len(), has_words(alloc, *error, words)?);
    }
    Ok(())
}

const OPEN_ERRORS: &[(OpenError, &str)] = &[
    (OpenError::Askers, "the number of askers is not 1 to 64"),
    (OpenError::Memory, "out of memory"),
    (OpenError::Places, "no place for a reader"),
];

const APPLY_ERRORS: &[(ApplyError, &str)] = &[
    (ApplyError::Stopped, "stopped by a fault of the journal"),
    (ApplyError::Exhausted, "1000000 batches are published"),
    (ApplyError::WrongNumber { expected: 3 }, "expected batch 3"),
    (
        ApplyError::Refused(Refusal::Absent { at: 1 }),
        "change 1 removes a link that is not there",
    ),
    (ApplyError::Memory, "out of memory"),
    (
        ApplyError::Journal { written: 5 },
        "the journal failed after 5 bytes of the batch",
    ),
];

const ASK_ERRORS: &[(AskError, &str)] = &[
    (AskError::NoEntry, "no entry"),
    (AskError::Memory, "out of memory"),
];

#[test]
fn words_of_errors(rt: HostRuntime) -> Result<(), Fail> {
    have_words(&rt, rt.alloc(), OPEN_ERRORS)?;
    have_words(&rt, rt.alloc(), APPLY_ERRORS)?;
    have_words(&rt, rt.alloc(), ASK_ERRORS)
}

//! Tests the batches that a reader of a journal returns one after the other, and the end of the
//! journal.

ghost use Rattle.std.specs.Prelude.{◌≡◌, true, IfOk};
ghost use Rattle.cspf_rows.specs.GivenBatches.{CanRead};

use super::{Pieces, assert_case, by_bytes, empty_batch, failing, has_text, repeated};
use cspf_model::Batch;
use cspf_rows::{JournalReader, JournalStep, MOST_ROWS, ReadError, Rest};
use std::alloc::{AllocError, Global};
use std::io::Read;
use std::test::Fail;

/// The texts of three batches. The first batch has three changes, the second has no change, and the
/// third has one change.
const THREE: [&[u8]; 3] = [
    b"drop,1.1.1.1,0.0.0.0\nnode,1.1.1.1,0\ndrop,1.1.1.1,0.0.0.2\nend,1,3\n",
    b"end,2,0\n",
    b"node,2.2.2.2,1\nend,3,1\n",
];

/// Texts that follow the batches of `THREE`. With each text the journal is clean or torn. It is
/// clean if no row follows its batches, and torn if rows that are in no batch follow them.
const BEHIND: &[(&[u8], Rest)] = &[
    (b"", Rest::Clean),
    (b"\r\n\n", Rest::Clean),
    (b"node,3.3.3.3,1\n", Rest::Torn),
    (b"node,3.3.3.3,1\nend,4,2\nend,4,0\n", Rest::Torn),
    (b"end,3,0\nend,4,0\n", Rest::Torn),
    (b"end,5,0\n", Rest::Torn),
    (b"foo\nend,4,0\n", Rest::Torn),
    (
        b"ask,7,1.1.1.1,2.2.2.2,0,0,0x0,0x0,0x0,\nend,4,0\n",
        Rest::Torn,
    ),
];

/// The texts of the three batches of `THREE`, followed by the text `behind`.
fn text_of_three(alloc: Global, behind: &[u8]) -> Result<Vec<u8>, AllocError> {
    let mut text = Vec::new(alloc);
    for one in THREE {
        text.extend_from_slice(one)?;
    }
    text.extend_from_slice(behind)?;
    Ok(text)
}

/// Whether the reader returns one more batch.
fn gives_batch<R: Read>(journal: &mut JournalReader<R>, batch: &mut Batch) -> bool
    requires { CanRead journal.old }
    ensures { result ≡ true → CanRead journal.new }
{
    journal.read_batch(batch) == Ok(JournalStep::Batch)
}

/// Whether the reader returns one more batch, and `text` is the text of this batch.
fn gives<R: Read>(
    alloc: Global,
    journal: &mut JournalReader<R>,
    batch: &mut Batch,
    text: &[u8],
) -> Result<bool, AllocError>
    requires { CanRead journal.old }
    ensures { IfOk result (λ gives. gives ≡ true → CanRead journal.new) }
{
    Ok(gives_batch(journal, batch) && has_text(alloc, batch, text)?)
}

/// Whether a reader of a journal returns the three batches of `THREE`, and then the end of the
/// batches with the value `rest`. All batches are read into `batch`, which reuses its memory.
fn gives_three(
    alloc: Global,
    journal: &mut JournalReader<Pieces<'_>>,
    batch: &mut Batch,
    rest: Rest,
) -> Result<bool, AllocError>
    requires { CanRead journal.old }
{
    let [first, second, third] = THREE;
    let gives_all = gives(alloc, journal, batch, first)?
        && gives(alloc, journal, batch, second)?
        && gives(alloc, journal, batch, third)?;
    Ok(
        gives_all
            && batch.changes.capacity() >= 3
            && journal.read_batch(batch) == Ok(JournalStep::End(rest)),
    )
}

/// Whether a reader of the texts of `THREE`, followed by the text `behind`, returns the three
/// batches, and then the end of the batches with the value `rest`.
fn are_given(alloc: Global, behind: &[u8], rest: Rest) -> Result<bool, AllocError> {
    let text = text_of_three(alloc, behind)?;
    let mut journal = JournalReader::new(alloc, by_bytes(text.as_slice()));
    gives_three(alloc, &mut journal, &mut empty_batch(alloc), rest)
}

#[test]
fn batch_after_batch(rt: HostRuntime) -> Result<(), Fail> {
    for (behind, rest) in BEHIND {
        assert_case(&rt, behind, are_given(rt.alloc(), behind, *rest)?);
    }
    Ok(())
}

/// The result of the first call of `read_batch`.
fn first_answer(alloc: Global, reader: Pieces<'_>) -> Result<JournalStep, ReadError> {
    let mut journal = JournalReader::new(alloc, reader);
    journal.read_batch(&mut empty_batch(alloc))
}

#[test]
fn rows_behind_batches_are_counted(rt: HostRuntime) {
    let most = first_answer(rt.alloc(), repeated(b"foo\n", MOST_ROWS));
    assert_case(&rt, b"most", most == Ok(JournalStep::End(Rest::Torn)));
    let more = first_answer(rt.alloc(), repeated(b"foo\n", MOST_ROWS + 1));
    assert_case(&rt, b"more", more == Err(ReadError::TooManyRows));
}

/// Texts of one batch, some followed by more bytes.
const FAILING: &[&[u8]] = &[
    b"end,1,0\n",
    b"end,1,0\nnode,1.1.1.1,0\n",
    b"end,1,0\nfoo\n",
];

/// Whether a reader of a journal returns a batch, and then a read fails.
fn gives_and_fails(journal: &mut JournalReader<Pieces<'_>>, batch: &mut Batch) -> bool
    requires { CanRead journal.old }
{
    gives_batch(journal, batch) && journal.read_batch(batch) == Err(ReadError::Device)
}

#[test]
fn readers_that_fail_behind_a_batch(rt: HostRuntime) {
    for behind in FAILING {
        let mut journal = JournalReader::new(rt.alloc(), failing(behind));
        let fails = gives_and_fails(&mut journal, &mut empty_batch(rt.alloc()));
        assert_case(&rt, behind, fails);
    }
}

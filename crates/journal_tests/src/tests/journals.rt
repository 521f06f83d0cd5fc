//! Tests journals: the texts of batches, and journals that are read in pieces or cut after each
//! byte. Some reads fail, and some journals have too many rows.

use super::{Pieces, assert_case, by_bytes, failing, has_text, repeated};
use cspf_addr::{Addr, Mask};
use cspf_model::{Batch, Change, Link};
use cspf_rows::{Journal, MOST_ROWS, ReadError, Rest, batch_text, read_journal};
use std::alloc::{AllocError, Global};
use std::io::Read;
use std::process::Abort;
use std::test::Fail;

/// The texts of the journal's batches, in one list.
fn text_of(alloc: Global, journal: &Journal) -> Result<Vec<u8>, AllocError> {
    let mut text = Vec::new(alloc);
    for batch in &journal.batches {
        text.extend_from_slice(&batch_text(alloc, batch)?)?;
    }
    Ok(text)
}

/// Whether the journal's batches have these texts. Also, the journal has to be clean (no row
/// follows its batches) exactly if `clean` is true.
fn is_journal<R: Read + Drop>(
    alloc: Global,
    reader: R,
    batches: &[u8],
    clean: bool,
) -> Result<bool, Fail> {
    let journal = read_journal(alloc, reader)?;
    let is_clean = journal.rest == Rest::Clean;
    Ok(text_of(alloc, &journal)?.as_slice() == batches && is_clean == clean)
}

/// The text of a batch that puts one link. It has 102 bytes.
const ONE_PUT: &[u8] = b"put,1.1.1.1,10.0.12.1,2.2.2.2,10.0.12.2,10,0x00000001,\
1000,1000,1000,1000,1000,1000,1000,1000\nend,1,1\n";

/// The batch whose text is `ONE_PUT`.
fn one_put(alloc: Global) -> Result<Batch, Fail> {
    let link = Link::new(
        Addr::new(0x0101_0101),
        Addr::new(0x0a00_0c01),
        Addr::new(0x0202_0202),
        Addr::new(0x0a00_0c02),
        10,
        Mask::new(1),
        [1000; 8],
    )?;
    let changes = Vec::from_slice(alloc, &[Change::Put(link)])?;
    Ok(Batch { number: 1, changes })
}

#[test]
fn text_of_one_put(rt: HostRuntime) -> Result<(), Fail> {
    let is_put = has_text(rt.alloc(), &one_put(rt.alloc())?, ONE_PUT)?;
    assert_case(&rt, ONE_PUT, is_put && ONE_PUT.len() == 102);
    Ok(())
}

/// The text of a batch that puts two links. The first link has the greatest bandwidth, and the
/// second link the greatest metric.
const PUTS: &[u8] = b"put,1.1.1.1,10.0.12.1,2.2.2.2,10.0.12.2,10,0x00000001,\
1,2,3,4,5,6,7,18446744073709551615\n\
put,2.2.2.2,10.0.12.2,1.1.1.1,10.0.12.1,4294967295,0xffffff0a,0,0,0,0,0,0,0,0\nend,1,2\n";

/// The text of a batch that removes one link.
const DROP: &[u8] = b"drop,1.1.1.1,10.0.12.1\nend,2,1\n";

/// The text of a batch of twelve changes, each of which removes a link.
const DROPS: &[u8] = b"drop,1.1.1.1,0.0.0.0\ndrop,1.1.1.1,0.0.0.1\ndrop,1.1.1.1,0.0.0.2\n\
drop,1.1.1.1,0.0.0.3\ndrop,1.1.1.1,0.0.0.4\ndrop,1.1.1.1,0.0.0.5\ndrop,1.1.1.1,0.0.0.6\n\
drop,1.1.1.1,0.0.0.7\ndrop,1.1.1.1,0.0.0.8\ndrop,1.1.1.1,0.0.0.9\ndrop,1.1.1.1,0.0.0.10\n\
drop,1.1.1.1,0.0.0.11\nend,3,12\n";

/// The result of reading the first bytes of the text `three_batches`. An item
/// `(from, whole, clean)` is for each cut after at least `from` bytes, up to the `from` of the next
/// item. The batches that are read then have the first `whole` bytes of the text, and `clean` says
/// whether no row follows them.
const THREE_BATCHES: [(usize, usize, bool); 7] = [
    (0, 0, true),
    (1, 0, false),
    (174, 175, true),
    (176, 175, false),
    (205, 206, true),
    (207, 206, false),
    (468, 469, true),
];

/// The result of reading the first bytes of the text `NODES`. The items mean the same as those of
/// `THREE_BATCHES`.
const NODE_BATCHES: [(usize, usize, bool); 7] = [
    (0, 0, true),
    (1, 0, false),
    (22, 23, true),
    (24, 23, false),
    (83, 84, true),
    (85, 84, false),
    (114, 115, true),
];

/// The number of bytes in the texts of the whole batches when a text is cut after `cut` bytes, and
/// whether no row follows these batches. `parts` has the form of `THREE_BATCHES`.
fn whole_part(parts: &[(usize, usize, bool)], cut: usize) -> (usize, bool) {
    let mut found = (0, true);
    for &(from, whole, clean) in parts {
        if from <= cut {
            found = (whole, clean);
        }
    }
    found
}

/// The texts of the three batches `PUTS`, `DROP` and `DROPS`.
fn three_batches(alloc: Global) -> Result<Vec<u8>, AllocError> {
    let mut text = Vec::new(alloc);
    for one in [PUTS, DROP, DROPS] {
        text.extend_from_slice(one)?;
    }
    Ok(text)
}

/// Whether the first `cut` bytes of the text are read as `parts` says: which batches are read, and
/// whether no row follows these batches.
fn is_cut(
    alloc: Global,
    text: &[u8],
    parts: &[(usize, usize, bool)],
    cut: usize,
) -> Result<bool, Fail> {
    let (whole, clean) = whole_part(parts, cut);
    let batches = text.get(..whole).unwrap_or(&[]);
    is_journal(alloc, text.get(..cut).unwrap_or(&[]), batches, clean)
}

/// Asserts that each prefix of the text is read as `parts` says: which batches are read, and
/// whether no row follows these batches.
fn assert_cuts(
    rt: &impl Abort,
    alloc: Global,
    text: &[u8],
    parts: &[(usize, usize, bool)],
) -> Result<(), Fail> {
    for cut in 0..=text.len() {
        let front = text.get(..cut).unwrap_or(&[]);
        assert_case(rt, front, is_cut(alloc, text, parts, cut)?);
    }
    Ok(())
}

#[test]
fn batches_cut_at_each_byte(rt: HostRuntime) -> Result<(), Fail> {
    let text = three_batches(rt.alloc())?;
    assert_case(&rt, &text, text.len() == 469);
    assert_cuts(&rt, rt.alloc(), &text, &THREE_BATCHES)
}

#[test]
fn nodes_cut_at_each_byte(rt: HostRuntime) -> Result<(), Fail> {
    assert_case(&rt, NODES, NODES.len() == 115);
    assert_cuts(&rt, rt.alloc(), NODES, &NODE_BATCHES)
}

/// Pairs: whether the router 1.1.1.1 has transit, and the text of a batch that sets this.
const ONE_NODE: &[(bool, &[u8])] = &[
    (false, b"node,1.1.1.1,0\nend,1,1\n"),
    (true, b"node,1.1.1.1,1\nend,1,1\n"),
];

/// The change in the batch `one_node(transit)`.
fn node(transit: bool) -> Change {
    let router = Addr::new(0x0101_0101);
    Change::Node { router, transit }
}

/// The batch with the number 1 and the only change `node(transit)`. Its text is the one that
/// `ONE_NODE` pairs with `transit`.
fn one_node(alloc: Global, transit: bool) -> Result<Batch, AllocError> {
    let changes = Vec::from_slice(alloc, &[node(transit)])?;
    Ok(Batch { number: 1, changes })
}

/// Whether the journal has only the batch `one_node(transit)`, and no row follows this batch.
fn is_one_node(journal: &Journal, transit: bool) -> bool {
    if journal.rest != Rest::Clean || journal.batches.len() != 1 {
        return false;
    }
    let batch = &journal.batches[0];
    batch.number == 1 && batch.changes.as_slice() == [node(transit)].as_slice()
}

/// Whether the batch `one_node(transit)` is written as this text, and is read from this text.
fn has_node_text(alloc: Global, transit: bool, text: &[u8]) -> Result<bool, Fail> {
    let is_text = has_text(alloc, &one_node(alloc, transit)?, text)?;
    Ok(is_text && is_one_node(&read_journal(alloc, text)?, transit))
}

#[test]
fn a_journal_of_one_node(rt: HostRuntime) -> Result<(), Fail> {
    for (transit, text) in ONE_NODE {
        let is_node = has_node_text(rt.alloc(), *transit, text)?;
        assert_case(&rt, text, is_node && text.len() == 23);
    }
    Ok(())
}

/// Three batches. Each of them says, for one router or more, whether the router has transit. The
/// second batch also removes a link.
const NODES: &[u8] = b"node,1.1.1.1,0\nend,1,1\n\
node,2.2.2.2,0\ndrop,1.1.1.1,10.0.12.1\nnode,1.1.1.1,1\nend,2,3\n\
node,255.255.255.255,1\nend,3,1\n";

/// Journals. Each has the texts of its whole batches, and whether the journal is clean. A journal
/// is clean if no row follows its whole batches.
const JOURNALS: &[(&[u8], &[u8], bool)] = &[
    (b"", b"", true),
    (b"end,1,0", b"end,1,0\n", true),
    (b"end,1,0\nend,2,0\n", b"end,1,0\nend,2,0\n", true),
    (
        b"put,1.1.1.1,10.0.12.1,2.2.2.2,10.0.12.2,10,0x1,\
1000,1000,1000,1000,1000,1000,1000,1000\nend,1,1\nput,2.2.2.2,10.0.1",
        ONE_PUT,
        false,
    ),
    (b"drop,1.1.1.1,10.0.12.1\nend,1,2\nend,1,0\n", b"", false),
    (b"drop,1.1.1.1,10.0.12.1\nend,1,0\n", b"", false),
    (b"end,1,0\nend,2,1\nend,2,0\n", b"end,1,0\n", false),
    (b"end,0,0\n", b"", false),
    (b"end,2,0\n", b"", false),
    (b"end,1,0\nend,3,0\n", b"end,1,0\n", false),
    (b"end,1,0\nend,1,0\n", b"end,1,0\n", false),
    (
        b"end,1,0\nask,7,1.1.1.1,2.2.2.2,0,0,0x0,0x0,0x0,\nend,2,0\n",
        b"end,1,0\n",
        false,
    ),
    (b"end,1,0\ndrop,1.1.1.1\nend,2,0\n", b"end,1,0\n", false),
    (b"end,1,0\n\r\n\n", b"end,1,0\n", true),
    (
        b"drop,1.1.1.1,10.0.12.1\ndrop,1.1.1.1,10.0.12.1\nend,1,2\n",
        b"drop,1.1.1.1,10.0.12.1\ndrop,1.1.1.1,10.0.12.1\nend,1,2\n",
        true,
    ),
    (
        b"node,1.1.1.1,0\nnode,1.1.1.1,1\nend,1,2\n",
        b"node,1.1.1.1,0\nnode,1.1.1.1,1\nend,1,2\n",
        true,
    ),
    (
        b"\"node\",1.1.1.1,\"0\"\r\nend,1,1",
        b"node,1.1.1.1,0\nend,1,1\n",
        true,
    ),
    (b"end,1,0\nnode,1.1.1.1,0\n", b"end,1,0\n", false),
    (b"node,1.1.1.1,0\nend,1,2\nend,1,0\n", b"", false),
    (b"node,1.1.1.1,2\nend,1,1\nend,1,0\n", b"", false),
];

#[test]
fn journals_in_pieces(rt: HostRuntime) -> Result<(), Fail> {
    for (text, batches, clean) in JOURNALS {
        let is_journal = is_journal(rt.alloc(), by_bytes(text), batches, *clean)?;
        assert_case(&rt, text, is_journal);
    }
    Ok(())
}

/// A journal of a batch of three changes.
const CHANGES: &[u8] =
    b"drop,1.1.1.1,0.0.0.0\ndrop,1.1.1.1,0.0.0.1\ndrop,1.1.1.1,0.0.0.2\nend,1,3\n";

/// Whether the journal has one batch of three changes, and the list of changes has capacity for
/// exactly three changes.
fn takes_three(journal: &Journal) -> bool {
    match journal.batches.as_slice() {
        [batch] => batch.changes.len() == 3 && batch.changes.capacity() == 3,
        _ => false,
    }
}

#[test]
fn changes_take_the_room_they_need(rt: HostRuntime) -> Result<(), Fail> {
    let takes_three = takes_three(&read_journal(rt.alloc(), CHANGES)?);
    assert_case(&rt, CHANGES, takes_three);
    Ok(())
}

/// A row that is read as a change.
const CHANGE: &[u8] = b"drop,1.1.1.1,10.0.0.1\n";

/// Whether the journal has rows, but no whole batch: it is torn.
fn is_torn(journal: &Journal) -> bool {
    journal.batches.is_empty() && journal.rest == Rest::Torn
}

#[test]
fn rows_of_a_journal_are_counted(rt: HostRuntime) -> Result<(), Fail> {
    let is_torn = is_torn(&read_journal(rt.alloc(), repeated(CHANGE, MOST_ROWS))?);
    assert_case(&rt, CHANGE, is_torn);
    Ok(())
}

/// The error of reading a journal, if any.
fn error_of(alloc: Global, reader: Pieces<'_>) -> Option<ReadError> {
    read_journal(alloc, reader).err()
}

#[test]
fn one_row_more_than_is_read(rt: HostRuntime) {
    for row in [CHANGE, b"foo\n"].as_slice() {
        let error = error_of(rt.alloc(), repeated(row, MOST_ROWS + 1));
        assert_case(&rt, row, error == Some(ReadError::TooManyRows));
    }
}

/// Texts of journals. For each text, the read after its last byte fails.
const FAILING: &[&[u8]] = &[
    b"end,1,0\nend,2,0\n",
    b"drop,1.1.1.1,0.0.0.0\nend,1,1\ndrop,1.1.1.1,0.0.0.1\nend,2,1\n",
    b"end,1,0\nfoo\n",
];

#[test]
fn readers_of_journals_that_fail(rt: HostRuntime) {
    for rows in FAILING {
        let error = error_of(rt.alloc(), failing(rows));
        assert_case(&rt, rows, error == Some(ReadError::Device));
    }
}

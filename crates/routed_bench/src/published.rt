//! A publisher whose journal stores nothing, and the measurement of the publisher's batches.

use cspf_model::Batch;
use cspf_publish::Publisher;
use std::io;
use std::io::Write;
use std::rt::Clock;
use std::sync::Wait;
use std::time::Instant;

/// A journal that stores no bytes.
#[derive(Drop)]
pub(crate) struct Nothing;

impl Write for Nothing {
    fn write(&mut self, buf: &[u8]) -> io::Result<usize> {
        Ok(buf.len())
    }

    fn flush(&mut self) -> io::Result<()> {
        Ok(())
    }
}

/// Applies the batches, and returns the number of published batches.
pub(crate) fn apply_all<R: AllocGlobal + Wait>(
    rt: &R,
    batches: &[Batch],
    publisher: &mut Publisher<Nothing>,
) -> usize {
    let mut published = 0usize;
    for batch in batches {
        if publisher.apply(rt, rt.alloc(), batch).is_ok() {
            published = published.saturating_add(1);
        }
    }
    published
}

/// Applies each batch, and prints how long it took: `apply CHANGES MICROSECONDS`.
pub(crate) fn time_batches<R: AllocGlobal + Clock + Print + Wait>(
    rt: &R,
    batches: &[Batch],
    publisher: &mut Publisher<Nothing>,
) -> io::Result<()> {
    for batch in batches {
        let start = Instant::now(rt)?;
        let applied = publisher.apply(rt, rt.alloc(), batch).is_ok();
        let took = start.elapsed(rt)?.as_micros();
        if applied {
            println!(rt; "apply {} {took}", batch.changes.len())?;
        }
    }
    Ok(())
}

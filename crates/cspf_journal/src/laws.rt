//! A law that follows from the definitions of `specs/` alone. The function does nothing: its contract
//! is the law.
ghost use Rattle.cspf_journal.specs.Readings.{ReadingsFindCounts};

/// A reading of the count of published batches finds at least the count that the journal's steps
/// before it give. It finds at most the number of batches that were recorded before it.
pub fn readings_find_what_was_counted()
    ensures { ReadingsFindCounts }
{}

//! Tests rows of the text formats, records, journals, requests, audits, snapshots of journals, and
//! streams that are answered row by row. The tests check what is read, refused and written, and the
//! result when a read, a write or an allocation fails.
#![tactic(auto)]

#[cfg(test)]
mod tests;

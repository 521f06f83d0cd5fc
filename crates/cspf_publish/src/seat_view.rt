//! The batches that each user of the replicas (the table's two copies) knows.
use cspf_journal::Known;

/// The batches that a user of the replicas knows, as the rule of the replicas says. A user is a new
/// reader, an asker or the publisher. In proofs each user has a *seat*, and this value is the
/// seat's *view*. No value of this type is made at run time.
pub enum SeatView {
    /// A new reader, which knows no batches yet.
    New,
    /// An asker (which answers requests), with the batches that it knows: those of the replica (a
    /// copy of the table) that it entered last.
    Asker(Known),
    /// The publisher, with the batches that it knows: the published batches.
    Publisher(Known),
}

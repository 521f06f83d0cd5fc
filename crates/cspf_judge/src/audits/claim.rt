/// A line that still has to be compared with the right reply. The line is the first one with the id
/// of its request, and it names a version of the journal. The right reply is the reply to this
/// request at this version.
#[derive(Clone, Copy, Debug, PartialEq, Eq)]
pub(crate) struct Claim {
    /// The index of the line.
    pub(crate) line: usize,
    /// The index of the request.
    pub(crate) request: usize,
    /// The version that the line names. It is at most the number of batches in the journal.
    pub(crate) version: u32,
}

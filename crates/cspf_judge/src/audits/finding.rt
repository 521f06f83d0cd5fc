/// The audit's finding about a line.
#[derive(Clone, Copy, Debug, PartialEq, Eq)]
pub(crate) enum Finding {
    /// The line reports a batch or a run, so it is skipped.
    PassedOver,
    /// The line is the reply to its request at its version.
    Good,
    /// The line doesn't begin with `ask`, an id and a version.
    Unread,
    /// No request has the line's id.
    Foreign,
    /// An earlier line has the line's id.
    Doubled,
    /// The line names a version above the journal's last version.
    NoVersion,
    /// The line isn't the reply to its request at its version.
    Altered,
}

//! The result of checking a batch that fits. With this result, the batch is absorbed without a
//! second check.
use crate::table::fit::tally::Tally;

/// What the changes of a batch do to the table that the batch fits. A plan may be used only with
/// the table and the batch for which `Table::plan` returned it.
#[derive(Clone, Copy, Debug)]
pub struct Plan {
    pub(super) tally: Tally,
}

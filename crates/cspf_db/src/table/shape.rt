//! Whether a batch changes anything of a database except unreserved bandwidths.
ghost use Rattle.std.specs.Prelude.{◌≡◌, true, false};
ghost use Rattle.std.specs.List.{list_any};
ghost use Rattle.cspf_model.specs.Changes.{after_changes, Fits};
ghost use Rattle.cspf_db.specs.Shapes.{HaveOneShape, ShapesTellRouters, shape_of};
ghost use Rattle.cspf_db.specs.Tables.Reshaping.{is_shape, reshapes};

use crate::Table;
use cspf_model::{Batch, Change, Link};

/// Law: if two databases differ at most in unreserved bandwidths, their lists of routers are equal.
pub fn shapes_tell_routers()
    ensures { ShapesTellRouters }
{}

/// Whether the two links are equal except for their unreserved bandwidths.
fn is_shaped_as(link: &Link, other: &Link) -> bool
    ensures { result ≡ is_shape (shape_of link.now) (shape_of other.now) }
{
    link.from == other.from
        && link.local == other.local
        && link.to == other.to
        && link.remote == other.remote
        && link.metric == other.metric
        && link.group == other.group
}

impl Table {
    /// Whether the change changes anything except unreserved bandwidths.
    fn reshapes(&self, change: &Change) -> bool
        ensures { result ≡ reshapes self.now change.now }
    {
        match change {
            Change::Put(link) => match self.find(link.from, link.local) {
                Some(row) => !is_shaped_as(&row, link),
                None => true,
            },
            Change::Remove { from, local } => self.find(*from, *local).is_some(),
            Change::Node { router, transit } => self.transit(*router) != *transit,
        }
    }

    /// Whether one of the changes changes anything except unreserved bandwidths.
    fn any_reshapes(&self, changes: &[Change]) -> bool
        ensures { result ≡ list_any (reshapes self.now) changes.now }
    {
        changes.iter().any(|change| self.reshapes(change))
    }

    /// Whether the batch changes anything of the database except unreserved bandwidths: which links
    /// and marks exist, or where a link ends, its metric or its groups. A mark says that a router
    /// has no transit. The call doesn't check whether the batch fits. If the batch doesn't fit, the
    /// result `true` has no meaning. The call allocates no memory. It makes at most one binary
    /// search for each change, and stops at the first change that changes more than unreserved
    /// bandwidths.
    pub fn changes_shape(&self, batch: &Batch) -> bool
        ensures kept { result ≡ false
            → HaveOneShape self.now (after_changes self.now batch.now.changes) }
        ensures changed { result ≡ true → Fits self.now batch.now
            → ¬ HaveOneShape self.now (after_changes self.now batch.now.changes) }
    {
        self.any_reshapes(&batch.changes)
    }
}

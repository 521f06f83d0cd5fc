//! Changes of a database, and the numbered batches of changes that take effect together.

ghost use Rattle.std.specs.Prelude.{◌≡◌, IfOk};

use crate::Link;
use cspf_addr::Addr;
use std::alloc::{AllocError, Global};
use std::marker::Model;

/// A change to one link, or to whether one router has transit.
#[derive(Clone, Copy, Debug, PartialEq, Eq)]
pub enum Change {
    /// Puts the link at its key. A link that already has this key is replaced.
    Put(Link),
    /// Removes the link with this key.
    Remove {
        /// The router at which the link begins.
        from: Addr,
        /// The address of the link's interface at that router.
        local: Addr,
    },
    /// Sets whether the router with this Router ID has transit. The database may lack this router.
    Node {
        /// The Router ID.
        router: Addr,
        /// Whether routes may pass through the router.
        transit: bool,
    },
}

impl Change {
    ghost use Rattle.cspf_model.specs.Changes.{key_changed};

    /// The key of the change. For a link that is put or removed, the key is the router at which the
    /// link begins, and the address of the link's interface at this router. For a change of a
    /// router's transit, the key is the router and `None`.
    pub fn key(&self) -> (Addr, Option<Addr>)
        ensures { result ≡ key_changed self.now }
    {
        match self {
            Change::Put(link) => (link.from, Some(link.local)),
            Change::Remove { from, local } => (*from, Some(*local)),
            Change::Node { router, .. } => (*router, None),
        }
    }
}

/// A numbered list of changes that take effect together.
#[derive(Debug, Drop)]
pub struct Batch {
    /// The number of the version that the batch makes. The first batch makes version 1.
    pub number: u32,
    /// The changes, in order.
    pub changes: Vec<Change>,
}

impl Model for Batch {
    ghost use Rattle.cspf_model.specs.Numbered.{NumberedChanges};

    ghost Value = { NumberedChanges };

    ghost view = { λ a. record { number = a.number; changes = a.changes.items } };
}

impl Batch {
    /// A batch with the same number and the same changes.
    pub fn copy(&self, alloc: Global) -> Result<Batch, AllocError>
        ensures { IfOk result (λ copy. copy ≡ self.now) }
    {
        Ok(Batch {
            number: self.number,
            changes: Vec::from_slice(alloc, &self.changes)?,
        })
    }
}

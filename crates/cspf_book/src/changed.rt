//! The changes of a batch, to be looked up by their keys.

ghost use Rattle.std.specs.Prelude.{◌≡◌, [], IfOk};
ghost use Rattle.std.specs.Option.{option_copied};
ghost use Rattle.cspf_model.specs.Changes.{last_on};

use cspf_addr::Addr;
use cspf_model::Change;
use std::alloc::{AllocError, Global};
use std::collections::BTreeMap;
use std::marker::Model;

/// The changes of a batch.
#[derive(Drop)]
pub(crate) struct Changed<'a> {
    changes: &'a [Change],
    /// The last of the changes with each key.
    last: BTreeMap<(Addr, Option<Addr>), Change>,
}

impl<'a> Model for Changed<'a> {
    ghost use Rattle.std.specs.Prelude.{List};
    ghost use Rattle.std.specs.Coded.{coded_list};
    ghost use Rattle.cspf_model.specs.declared.batch.Change.{Change};
    ghost use Rattle.cspf_model.specs.contracts.batch.Change.{the_row};
    ghost use Rattle.cspf_book.specs.ByKey.{IsByKey};

    ghost Value = { List Change };

    ghost coded = { coded_list the_row.coded };

    ghost view = { λ a. a.changes.now };

    ghost invariant = { λ a. IsByKey a.last a.changes.now };
}

impl<'a> Changed<'a> {
    /// Returns an empty list of changes. No memory is allocated.
    pub(crate) fn none(alloc: Global) -> Changed<'static>
        ensures { result ≡ [] }
    {
        Changed {
            changes: &[],
            last: BTreeMap::new(alloc),
        }
    }

    /// Returns these changes, with a map from keys to changes.
    pub(crate) fn new(alloc: Global, changes: &'a [Change]) -> Result<Changed<'a>, AllocError>
        ensures { IfOk result (λ changed. changed ≡ changes.now) }
    {
        let mut last = BTreeMap::new(alloc);
        for change in changes {
            last.insert(change.key(), *change)?;
        }
        Ok(Changed { changes, last })
    }

    /// The last change with this key, if there is one. The key of a change of a link is the link's
    /// key. A change of a mark has the router and `None` as its key. A mark says that a router
    /// carries no transit.
    pub(crate) fn last_on(&self, key: (Addr, Option<Addr>)) -> Option<&Change>
        ensures { option_copied result ≡ last_on key self.now }
    {
        self.last.get(&key)
    }
}

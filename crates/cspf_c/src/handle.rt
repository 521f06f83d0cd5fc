ghost use Rattle.std.specs.Prelude.{◌≡◌, Option, MatchOption};
ghost use Rattle.std.specs.declared.option.Option.TheVariants.{None, Some};
ghost use Rattle.std.specs.Coded.{coded_option};
ghost use Rattle.cspf_c.specs.Holding.{holds};
ghost use Rattle.cspf_c.specs.declared.opened.Opened.{Opened as IsOpened};
ghost use Rattle.cspf_c.specs.contracts.opened.Opened.{the_row};

use crate::opened::Opened;
use std::alloc::Global;
use std::marker::Model;
use std::ptr::null_mut;

/// A pointer that C keeps: null, or a pointer to the box of a session. The pointer has the type
/// `*mut u8`, because no argument of an exported function may have a type that contains a `Vec`.
#[repr(C)]
pub struct Handle {
    at: *mut u8,
    pub ghost value: { Option IsOpened } by { coded_option the_row.coded },
}

impl Model for Handle {
    ghost also_owns = { λ h. holds the_row h.at h.value };
}

impl Handle {
    /// A handle without a session. Its pointer is null.
    pub(crate) fn none() -> Handle
        ensures { result.value ≡ None }
    {
        Handle { at: null_mut() }
    }

    /// A handle that holds this session.
    pub(crate) fn of(session: Box<Opened>) -> Handle
        ensures { result.value ≡ Some session.value }
    {
        Handle {
            at: Box::into_raw(session) as *mut u8,
        }
    }

    /// The session that the handle holds, if any.
    pub(crate) fn into_session(self, alloc: Global) -> Option<Box<Opened>>
        ensures { MatchOption result (self.value ≡ None) (λ held. self.value ≡ Some held.value) }
    {
        let Handle { at } = self;
        if at.is_null() {
            return None;
        }
        Some(unsafe { Box::from_raw(alloc, at as *mut Opened) })
    }
}

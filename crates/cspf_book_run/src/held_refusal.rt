//! Why a book refuses a `held` row.
ghost use Rattle.std.specs.Prelude.{◌≡◌};
ghost use Rattle.cspf_book_run.specs.PlaceErrors.{refusal_of_restoring};

use crate::keeper::Unkept;
use crate::write_fault::WriteFault;
use cspf_book::{RestoreError, VersionError};
use std::error::Error;
use std::fmt;

/// Why a placement isn't restored.
#[derive(Clone, Copy, Debug, PartialEq, Eq)]
pub enum HeldRefusal {
    /// A write of an earlier row's text failed, so no more rows are accepted.
    Stopped,
    /// The version is at least `MOST_PLACING_VERSIONS`.
    Exhausted,
    /// The book has a placement with this id.
    SameId,
    /// The book already has `MOST_PLACEMENTS` placements.
    Full,
    /// The route has more than `MOST_PLACED_LINKS` links.
    Long,
    /// The route uses a link twice.
    Twice,
    /// The routes of all placements would have more than `MOST_ROUTES_LINKS` links.
    Links,
    /// Memory was refused at the row. Only a server reports it; elsewhere the run ends.
    Memory,
    /// A write failed while the row was accepted.
    Failed(WriteFault),
}

impl fmt::Display for HeldRefusal {
    ghost use Rattle.std.specs.Prelude.{Some};
    ghost use Rattle.cspf_book_run.specs.PlacementLines.{held_words};

    ghost output = { λ refusal. Some (held_words refusal) };

    fn fmt<W: fmt::Write>(&self, f: &mut fmt::Formatter<W>) -> fmt::Result {
        match self {
            HeldRefusal::Stopped => f.write_str("stopped"),
            HeldRefusal::Exhausted => f.write_str("exhausted"),
            HeldRefusal::SameId => f.write_str("same-id"),
            HeldRefusal::Full => f.write_str("full"),
            HeldRefusal::Long => f.write_str("long"),
            HeldRefusal::Twice => f.write_str("twice"),
            HeldRefusal::Links => f.write_str("links"),
            HeldRefusal::Memory => f.write_str("memory"),
            HeldRefusal::Failed(fault) => write!(f, "{fault}"),
        }
    }
}

impl Error for HeldRefusal {}

impl HeldRefusal {
    /// The refusal that the run reports if a placement isn't restored for a reason of the book, or
    /// because its row isn't written. The result is `None` if memory was refused; this ends the run.
    pub(crate) fn of_restoring(why: VersionError<RestoreError, Unkept>) -> Option<HeldRefusal>
        ensures { result ≡ refusal_of_restoring why }
    {
        match why {
            VersionError::Book(why) => match why {
                RestoreError::SameId => Some(HeldRefusal::SameId),
                RestoreError::Full => Some(HeldRefusal::Full),
                RestoreError::TooLong => Some(HeldRefusal::Long),
                RestoreError::Twice => Some(HeldRefusal::Twice),
                RestoreError::TooManyLinks => Some(HeldRefusal::Links),
                RestoreError::Memory => None,
            },
            VersionError::Taker(why) => match why {
                Unkept::Failed(fault) => Some(HeldRefusal::Failed(fault)),
                Unkept::Memory => None,
            },
        }
    }
}

//! Why a book refuses a `place` or `release` row.
ghost use Rattle.std.specs.Prelude.{◌≡◌};
ghost use Rattle.cspf_book_run.specs.PlaceErrors.{place_refusal_of, refusal_of_placing};

use crate::keeper::Unkept;
use crate::write_fault::WriteFault;
use cspf_book::{PlaceError, VersionError};
use std::error::Error;
use std::fmt;

/// Why a request isn't placed.
#[derive(Clone, Copy, Debug, PartialEq, Eq)]
pub enum PlaceRefusal {
    /// A write of an earlier row's text failed, so no more rows are accepted.
    Stopped,
    /// The version is at least `MOST_PLACING_VERSIONS`.
    Exhausted,
    /// The book already has `MOST_PLACEMENTS` placements with other ids.
    Full,
    /// The routes of all placements would have more than `MOST_ROUTES_LINKS` links.
    Links,
    /// The best route uses a link twice.
    Twice,
    /// The best route has more than `MOST_PLACED_LINKS` links.
    Long,
    /// Memory was refused at the row. Only a server reports it; elsewhere the run ends.
    Memory,
    /// A write failed while the row was accepted.
    Failed(WriteFault),
}

impl fmt::Display for PlaceRefusal {
    ghost use Rattle.std.specs.Prelude.{Some};
    ghost use Rattle.cspf_book_run.specs.BookLines.{place_words};

    ghost output = { λ refusal. Some (place_words refusal) };

    fn fmt<W: fmt::Write>(&self, f: &mut fmt::Formatter<W>) -> fmt::Result {
        match self {
            PlaceRefusal::Stopped => f.write_str("stopped"),
            PlaceRefusal::Exhausted => f.write_str("exhausted"),
            PlaceRefusal::Full => f.write_str("full"),
            PlaceRefusal::Links => f.write_str("links"),
            PlaceRefusal::Twice => f.write_str("twice"),
            PlaceRefusal::Long => f.write_str("long"),
            PlaceRefusal::Memory => f.write_str("memory"),
            PlaceRefusal::Failed(fault) => write!(f, "{fault}"),
        }
    }
}

impl Error for PlaceRefusal {}

impl PlaceRefusal {
    /// The refusal that the run reports for an error of the book. The result is `None` if memory
    /// was refused; this ends the run.
    pub(crate) fn of(why: PlaceError) -> Option<PlaceRefusal>
        ensures { result ≡ place_refusal_of why }
    {
        match why {
            PlaceError::Full => Some(PlaceRefusal::Full),
            PlaceError::TooManyLinks => Some(PlaceRefusal::Links),
            PlaceError::Twice => Some(PlaceRefusal::Twice),
            PlaceError::TooLong => Some(PlaceRefusal::Long),
            PlaceError::Memory => None,
        }
    }

    /// The refusal that the run reports if a request isn't placed for a reason of the book, or
    /// because its row isn't written. The result is `None` if memory was refused; this ends the
    /// run.
    pub(crate) fn of_placing(why: VersionError<PlaceError, Unkept>) -> Option<PlaceRefusal>
        ensures { result ≡ refusal_of_placing why }
    {
        match why {
            VersionError::Book(why) => PlaceRefusal::of(why),
            VersionError::Taker(why) => match why {
                Unkept::Failed(fault) => Some(PlaceRefusal::Failed(fault)),
                Unkept::Memory => None,
            },
        }
    }
}

/// Why no placement is released.
#[derive(Clone, Copy, Debug, PartialEq, Eq)]
pub enum ReleaseRefusal {
    /// A write of an earlier row's text failed, so no more rows are accepted.
    Stopped,
    /// The version is at least `MOST_PLACING_VERSIONS`.
    Exhausted,
    /// No placement has this id.
    Absent,
    /// Memory was refused at the row. Only a server reports it; elsewhere the run ends.
    Memory,
    /// A write failed while the row was accepted.
    Failed(WriteFault),
}

impl fmt::Display for ReleaseRefusal {
    ghost use Rattle.std.specs.Prelude.{Some};
    ghost use Rattle.cspf_book_run.specs.BookLines.{release_words};

    ghost output = { λ refusal. Some (release_words refusal) };

    fn fmt<W: fmt::Write>(&self, f: &mut fmt::Formatter<W>) -> fmt::Result {
        match self {
            ReleaseRefusal::Stopped => f.write_str("stopped"),
            ReleaseRefusal::Exhausted => f.write_str("exhausted"),
            ReleaseRefusal::Absent => f.write_str("absent"),
            ReleaseRefusal::Memory => f.write_str("memory"),
            ReleaseRefusal::Failed(fault) => write!(f, "{fault}"),
        }
    }
}

impl Error for ReleaseRefusal {}

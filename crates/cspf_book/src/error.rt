//! Why a book isn't changed: a request isn't placed, a placement isn't released or restored, or a
//! batch of the base isn't absorbed.
ghost use Rattle.std.specs.Prelude.{◌≡◌};
ghost use Rattle.cspf_book.specs.declared.error.PlaceError.TheVariants as place_error;
ghost use Rattle.cspf_book.specs.declared.error.ReleaseError.TheVariants as release_error;
ghost use Rattle.cspf_book.specs.declared.error.RestoreError.TheVariants as restore_error;
ghost use Rattle.cspf_book.specs.declared.error.AbsorbError.TheVariants as absorb_error;
ghost use Rattle.cspf_book.specs.declared.error.VersionError.TheVariants as version_error;

use crate::limits::{MOST_PLACED_LINKS, MOST_PLACEMENTS, MOST_ROUTES_LINKS};
use cspf_model::Refusal;
use std::alloc::AllocError;
use thiserror::Error;

/// Why a book doesn't get its next version: for a reason `B` of the book, or because the taker
/// refuses the batch of this version for the reason `T`.
#[derive(Clone, Copy, Debug, PartialEq, Eq)]
pub enum VersionError<B, T> {
    /// The book's own reason. The taker wasn't called.
    Book(B),
    /// The taker's reason.
    Taker(T),
}

/// Why a request isn't placed.
#[derive(Clone, Copy, Debug, PartialEq, Eq, Error)]
pub enum PlaceError {
    /// Memory was refused.
    #[error("out of memory")]
    Memory,
    /// The book already has `MOST_PLACEMENTS` placements with other ids.
    #[error("more than {most} placements", most = MOST_PLACEMENTS)]
    Full,
    /// The routes of all placements would have more than `MOST_ROUTES_LINKS` links.
    #[error("more than {most} links of routes", most = MOST_ROUTES_LINKS)]
    TooManyLinks,
    /// The best route uses a link twice. The search allows this, because it checks the bandwidth of
    /// a link for one use only.
    #[error("a route that uses a link twice")]
    Twice,
    /// The best route has more than `MOST_PLACED_LINKS` links.
    #[error("a route of more than {most} links", most = MOST_PLACED_LINKS)]
    TooLong,
}

impl From<AllocError> for PlaceError {
    ghost from_gives = { λ _ error. error ≡ place_error.Memory };

    fn from(_refused: AllocError) -> PlaceError {
        PlaceError::Memory
    }
}

/// Why a placement isn't released.
#[derive(Clone, Copy, Debug, PartialEq, Eq, Error)]
pub enum ReleaseError {
    /// Memory was refused.
    #[error("out of memory")]
    Memory,
    /// No placement has this id.
    #[error("no placement has this id")]
    Absent,
}

/// Why a placement isn't restored. Except for `Memory`, the reasons are tested in this order.
#[derive(Clone, Copy, Debug, PartialEq, Eq, Error)]
pub enum RestoreError {
    /// Memory was refused.
    #[error("out of memory")]
    Memory,
    /// The book has a placement with this id.
    #[error("a placement has this id")]
    SameId,
    /// The book already has `MOST_PLACEMENTS` placements.
    #[error("more than {most} placements", most = MOST_PLACEMENTS)]
    Full,
    /// The route has more than `MOST_PLACED_LINKS` links.
    #[error("a route of more than {most} links", most = MOST_PLACED_LINKS)]
    TooLong,
    /// The route uses a link twice.
    #[error("a route that uses a link twice")]
    Twice,
    /// The routes of all placements would have more than `MOST_ROUTES_LINKS` links.
    #[error("more than {most} links of routes", most = MOST_ROUTES_LINKS)]
    TooManyLinks,
}

/// Why a batch of changes of the base isn't absorbed.
#[derive(Clone, Copy, Debug, PartialEq, Eq)]
pub enum AbsorbError {
    /// Memory was refused.
    Memory,
    /// The batch doesn't fit the base.
    Unfit(Refusal),
}

impl<T> From<AllocError> for VersionError<PlaceError, T> {
    ghost from_gives = { λ _ error. error ≡ version_error.Book place_error.Memory };

    fn from(_refused: AllocError) -> VersionError<PlaceError, T> {
        VersionError::Book(PlaceError::Memory)
    }
}

impl<T> From<AllocError> for VersionError<ReleaseError, T> {
    ghost from_gives = { λ _ error. error ≡ version_error.Book release_error.Memory };

    fn from(_refused: AllocError) -> VersionError<ReleaseError, T> {
        VersionError::Book(ReleaseError::Memory)
    }
}

impl<T> From<AllocError> for VersionError<RestoreError, T> {
    ghost from_gives = { λ _ error. error ≡ version_error.Book restore_error.Memory };

    fn from(_refused: AllocError) -> VersionError<RestoreError, T> {
        VersionError::Book(RestoreError::Memory)
    }
}

impl<T> From<AllocError> for VersionError<AbsorbError, T> {
    ghost from_gives = { λ _ error. error ≡ version_error.Book absorb_error.Memory };

    fn from(_refused: AllocError) -> VersionError<AbsorbError, T> {
        VersionError::Book(AbsorbError::Memory)
    }
}

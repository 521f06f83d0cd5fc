//! Why a record is no row, and the words of each refusal.

ghost use Rattle.std.specs.Prelude.{◌≡◌};

use cspf_addr::HopsError;
use cspf_ero::EroError;
use std::error::Error;
use std::fmt;

/// Why a record is no row. Fields are counted from 1, and field 1 is the word that names the row's
/// kind.
#[derive(Clone, Copy, Debug, PartialEq, Eq)]
pub enum RowError {
    /// The first field names no kind of row.
    Kind,
    /// The number of fields is wrong for a row of this kind.
    Fields,
    /// A field isn't a number in its range.
    Number {
        /// The number of the field in its record, counted from 1.
        field: usize,
    },
    /// A field isn't an address.
    Address {
        /// The number of the field in its record, counted from 1.
        field: usize,
    },
    /// A field isn't a mask.
    Mask {
        /// The number of the field in its record, counted from 1.
        field: usize,
    },
    /// The setup priority is above 7.
    Priority,
    /// The field of the hops spells no hops.
    Hops(HopsFault),
    /// Both endpoints of the link are the same router.
    SelfLink,
    /// The request is from a router to itself.
    SameEnds,
}

/// Why a field spells no hops.
#[derive(Clone, Copy, Debug, PartialEq, Eq)]
pub enum HopsFault {
    /// The text spells no hop list.
    Text(HopsError),
    /// The text after `ero:` doesn't consist of an even number of hexadecimal digits.
    Hex,
    /// The bytes after `ero:` aren't an EXPLICIT_ROUTE object that spells hops.
    Ero(EroError),
}

impl fmt::Display for RowError {
    ghost use Rattle.std.specs.Prelude.{Some};
    ghost use Rattle.cspf_rows.specs.Words.{words};

    ghost output = { λ error. Some (words error) };

    fn fmt<W: fmt::Write>(&self, f: &mut fmt::Formatter<W>) -> fmt::Result {
        match self {
            RowError::Kind => f.write_str("kind"),
            RowError::Fields => f.write_str("fields"),
            RowError::Number { field } => write!(f, "number {field}"),
            RowError::Address { field } => write!(f, "address {field}"),
            RowError::Mask { field } => write!(f, "mask {field}"),
            RowError::Priority => f.write_str("priority"),
            RowError::Hops(fault) => write!(f, "hops {fault}"),
            RowError::SelfLink => f.write_str("self-link"),
            RowError::SameEnds => f.write_str("same-ends"),
        }
    }
}

impl Error for RowError {}

impl fmt::Display for HopsFault {
    ghost use Rattle.std.specs.Prelude.{Some};
    ghost use Rattle.cspf_rows.specs.Words.{hops_words};

    ghost output = { λ fault. Some (hops_words fault) };

    fn fmt<W: fmt::Write>(&self, f: &mut fmt::Formatter<W>) -> fmt::Result {
        match self {
            HopsFault::Text(HopsError::BadHop { at }) => write!(f, "{at}"),
            HopsFault::Text(HopsError::TooManyHops) => f.write_str("count"),
            HopsFault::Hex => f.write_str("hex"),
            HopsFault::Ero(EroError::Short) => f.write_str("ero short"),
            HopsFault::Ero(EroError::Length) => f.write_str("ero length"),
            HopsFault::Ero(EroError::Class) => f.write_str("ero class"),
            HopsFault::Ero(EroError::Empty) => f.write_str("ero empty"),
            HopsFault::Ero(EroError::TooManyHops) => f.write_str("ero count"),
            HopsFault::Ero(EroError::Unsupported { .. }) => f.write_str("ero unsupported"),
            HopsFault::Ero(EroError::Sublength { .. }) => f.write_str("ero sublength"),
            HopsFault::Ero(EroError::PrefixLength { .. }) => f.write_str("ero prefix-length"),
        }
    }
}

impl Error for HopsFault {}

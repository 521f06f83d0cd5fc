use cspf_addr::MOST_HOPS;
use thiserror::Error;

/// Why bytes aren't an EXPLICIT_ROUTE object of 1 to 7 hops. Offsets are counted in bytes from the
/// start of the object, whose first byte has the offset 0.
#[derive(Clone, Copy, Debug, PartialEq, Eq, Error)]
pub enum EroError {
    /// There are fewer than 4 bytes, so there is no whole header.
    #[error("fewer than 4 bytes")]
    Short,
    /// The length field isn't the number of bytes, or isn't a multiple of 4.
    #[error("a length field that isn't the number of bytes or isn't a multiple of 4")]
    Length,
    /// The class isn't 20, or the C-Type isn't 1.
    #[error("another class than 20 or another C-Type than 1")]
    Class,
    /// There is no subobject.
    #[error("no subobject")]
    Empty,
    /// There are more than seven subobjects.
    #[error("more than {most} subobjects", most = MOST_HOPS)]
    TooManyHops,
    /// A subobject isn't an IPv4 prefix.
    #[error("a subobject of type {kind} at {at}")]
    Unsupported {
        /// The offset of the subobject's first byte.
        at: usize,
        /// The subobject's type, below 128.
        kind: u8,
    },
    /// The subobject of an IPv4 prefix isn't 8 bytes long, or is cut off.
    #[error("a subobject that isn't 8 bytes long at {at}")]
    Sublength {
        /// The offset of the subobject's first byte.
        at: usize,
    },
    /// A prefix length is above 32.
    #[error("a prefix length above 32 at {at}")]
    PrefixLength {
        /// The offset of the subobject's first byte.
        at: usize,
    },
}

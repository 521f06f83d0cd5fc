//! The range of the addresses that a prefix covers.
ghost use Rattle.std.specs.Prelude.{◌≡◌, ◌<◌, ◌≤◌, ◌↔◌, ℕ, true, IsTrue};
ghost use Rattle.cspf_db.specs.Tables.AddressRanges.{IsInRange, IsRangeOf};

use cspf_addr::{Addr, Prefix};

/// The addresses from `first` up to, but not including, `end`.
#[derive(Clone, Copy, Debug)]
pub struct AddressRange {
    pub first: u64,
    pub end: u64,
}

/// The range of the addresses that the prefix covers.
pub(super) fn range_of(prefix: Prefix) -> AddressRange
    ensures { IsRangeOf prefix result }
{
    let size = 1u64 << (32 - prefix.length());
    let first = u64::from(prefix.address().number());
    AddressRange {
        first,
        end: first + size,
    }
}

impl AddressRange {
    /// Whether the address is in the range.
    pub(super) fn contains(&self, address: Addr) -> bool
        ensures { IsTrue result ↔ IsInRange self.now address }
    {
        let number = u64::from(address.number());
        self.first <= number && number < self.end
    }

    /// Whether none of the addresses from `lowest` to `highest` is in the range.
    pub(super) fn misses(&self, lowest: Addr, highest: Addr) -> bool
        ensures { result ≡ true
            → (address : ℕ) → lowest ≤ address → address ≤ highest → ¬ IsInRange self.now address }
    {
        u64::from(highest.number()) < self.first || self.end <= u64::from(lowest.number())
    }
}

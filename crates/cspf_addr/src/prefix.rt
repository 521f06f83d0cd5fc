//! Prefixes of addresses: the type `Prefix`, which addresses a prefix covers, the text of a prefix,
//! and the reader of this text.

ghost use Rattle.std.specs.Prelude.{◌≡◌, ◌<◌, ◌≤◌, ◌↔◌, IsTrue, IfOk, IfErr};
ghost use Rattle.std.specs.String.{string_bytes};
ghost use Rattle.cspf_addr.specs.PrefixParts.{with_first_bits, IsPrefix};
ghost use Rattle.cspf_addr.specs.Prefixes.{length_of, ArePrefixTextsRead};
ghost use Rattle.cspf_addr.specs.Prefixes.{AreOthersRefused, ArePrefixesReadBack};

use crate::addr::Addr;
use crate::cut::cut;
use crate::decimal::{is_decimal, number};
use std::alloc::{AllocError, Global};
use std::marker::Model;
use thiserror::Error;

/// An address prefix of 0 to 32 bits (RFC 3209 4.3.3.2). All bits of the address after the prefix
/// length are zero.
#[derive(Clone, Copy, Debug, PartialEq, Eq)]
pub struct Prefix {
    address: Addr,
    length: u8,
}

impl Model for Prefix {
    ghost use Rattle.cspf_addr.specs.PrefixParts.{PrefixParts, IsPrefix};

    ghost Value = { PrefixParts };

    ghost view = { λ p. record { address = p.address; length = p.length } };

    ghost invariant = { λ p. IsPrefix (record { address = p.address; length = p.length }) };

    ghost inverse = { λ p. record { address = p.address; length = p.length } };
}

/// Why a text, or an address with a length, isn't a prefix.
#[derive(Clone, Copy, Debug, PartialEq, Eq, Error)]
pub enum PrefixError {
    /// The text isn't an address, a slash and a decimal number.
    #[error("not an IPv4 address, a slash and a prefix length")]
    NotAPrefix,
    /// The length is above 32.
    #[error("a prefix length above 32")]
    TooLong,
}

impl Prefix {
    ghost use Rattle.cspf_addr.specs.Prefixes.{Covers, prefix_of, prefix_text};

    /// The prefix of this length, 0 to 32 bits, with the first bits of an address. The other bits
    /// are set to zero.
    pub fn new(address: Addr, length: u8) -> Result<Prefix, PrefixError>
        ensures ok { IfOk result (λ prefix.
            (length ≤ 32) × (prefix ≡ with_first_bits length address)) }
        ensures err { IfErr result (λ error. (32 < length) × (error ≡ PrefixError.TooLong)) }
    {
        if length > 32 {
            return Err(PrefixError::TooLong);
        }
        Ok(Prefix::with_first_bits(length, address))
    }

    /// The prefix of length 0, which covers all addresses.
    pub(crate) fn of_all() -> Prefix
        ensures { result ≡ record { address = 0; length = 0 } }
    {
        Prefix {
            address: Addr::new(0),
            length: 0,
        }
    }

    /// The prefix of this length with the first bits of an address.
    fn with_first_bits(length: u8, address: Addr) -> Prefix
        requires { length ≤ 32 }
        ensures { result ≡ with_first_bits length address }
    {
        let size = 1u64 << (32 - length);
        let first = u64::from(address.number()) / size * size;
        Prefix {
            address: Addr::new(first as u32),
            length,
        }
    }

    /// The address of the prefix. Its bits after the prefix length are zero.
    pub fn address(self) -> Addr
        ensures { result ≡ self.address }
    {
        self.address
    }

    /// The prefix length in bits, 0 to 32.
    pub fn length(self) -> u8
        ensures value { result ≡ self.length }
        ensures proper { IsPrefix self }
    {
        self.length
    }

    /// Whether the address begins with the bits of the prefix. A prefix of length 0 covers all
    /// addresses.
    pub fn covers(&self, address: Addr) -> bool
        ensures { IsTrue result ↔ Covers self.now address }
    {
        let rest = 32 - self.length;
        u64::from(self.address.number()) >> rest == u64::from(address.number()) >> rest
    }

    /// The prefix that a text spells, as in `10.0.0.0/8`: an address, a slash and a length in
    /// decimal without leading zeros. Bits of the address after the prefix length may be set; these
    /// bits are dropped.
    #[tactic(auto, unfolding(crate::specs::Prefixes::prefix_of))]
    pub fn parse(text: &[u8]) -> Result<Prefix, PrefixError>
        ensures value { result ≡ prefix_of text.now }
    {
        let (front, back) = cut(text, b'/');
        let Ok(address) = Addr::parse(front) else {
            return Err(PrefixError::NotAPrefix);
        };
        let length = read_length(back)?;
        Ok(Prefix::with_first_bits(length, address))
    }

    /// The text of the prefix, as in `10.0.0.0/8`.
    #[tactic(auto, unfolding(crate::specs::Prefixes::prefix_text))]
    pub fn text(self, alloc: Global) -> Result<String, AllocError>
        ensures value { IfOk result (λ text. string_bytes text ≡ prefix_text self) }
        ensures read { IfOk result (λ text. prefix_of (string_bytes text) ≡ Ok self) }
    {
        let Prefix { address, length } = self;
        format!(in alloc; "{address}/{length}")
    }
}

/// The prefix length that a text spells.
#[tactic(auto, unfolding(crate::specs::Prefixes::length_of))]
fn read_length(text: &[u8]) -> Result<u8, PrefixError>
    ensures value { result ≡ length_of text.now }
    ensures small { IfOk result (λ length. length ≤ 32) }
{
    if !is_decimal(text) {
        return Err(PrefixError::NotAPrefix);
    }
    let Some(bits) = number(text) else {
        return Err(PrefixError::TooLong);
    };
    if bits > 32 {
        return Err(PrefixError::TooLong);
    }
    Ok(bits as u8)
}

/// Law: a text of an address, a slash and a decimal number of at most 32 is read as a prefix. The
/// number is the prefix length, and the prefix has the first bits of the address. Any other text is
/// refused. A prefix is read back from its text.
pub fn prefixes_are_spelled()
    ensures read { ArePrefixTextsRead }
    ensures refused { AreOthersRefused }
    ensures back { ArePrefixesReadBack }
{}

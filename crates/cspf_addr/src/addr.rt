//! IPv4 addresses: the type `Addr`, the text of an address, and the reader of this text.

ghost use Rattle.std.specs.Prelude.{◌≡◌, ◌≢◌, ℕ, ◌^◌, ◌<◌, IfOk, OnErr};
ghost use Rattle.std.specs.Result.{result_ok};
ghost use Rattle.std.specs.String.{string_bytes};
ghost use Rattle.cspf_addr.specs.AddressText.{address_text, octet_of, octets_of, address_of, AreAddressesSpelledOnce, IsAddressTextInjective};

use crate::cut::cut;
use crate::decimal::number;
use std::alloc::{AllocError, Global};
use std::fmt;
use std::marker::Model;
use thiserror::Error;

/// An IPv4 address of a router or of an interface. Addresses are ordered as numbers, whose four
/// bytes are in network order.
#[derive(Clone, Copy, Debug, PartialEq, Eq, PartialOrd, Ord)]
pub struct Addr(u32);

impl Model for Addr {
    ghost use Rattle.std.specs.Prelude.{ℕ};

    ghost Value = { ℕ };

    ghost view = { λ a. a.0 };

    ghost inverse = { λ n. record { 0 = n } };
}

/// Why a text isn't an address.
#[derive(Clone, Copy, Debug, PartialEq, Eq, Error)]
pub enum AddrError {
    #[error("not an IPv4 address")]
    NotAnAddress,
}

impl Addr {
    /// The address with this number.
    pub fn new(number: u32) -> Self
        ensures { result ≡ number }
    {
        Addr(number)
    }

    /// The address as a number.
    pub fn number(self) -> u32
        ensures { result ≡ self }
    {
        self.0
    }

    /// The address that a text spells: four decimal numbers, separated by points. Each number is at
    /// most 255, and has no leading zeros.
    pub fn parse(text: &[u8]) -> Result<Addr, AddrError>
        ensures value { result_ok result ≡ address_of text.now }
        ensures ok { IfOk result (λ address. text.now ≡ address_text address) }
        ensures err { OnErr result ((n : ℕ) → n < 2 ^ 32 → text.now ≢ address_text n) }
        ensures only { (n : ℕ) → n < 2 ^ 32 → text.now ≡ address_text n → result ≡ Ok n }
    {
        read_address(text).ok_or(AddrError::NotAnAddress)
    }

    /// The text of the address, as in `192.0.2.1`.
    pub fn text(self, alloc: Global) -> Result<String, AllocError>
        ensures { IfOk result (λ text. string_bytes text ≡ address_text self) }
    {
        format!(in alloc; "{self}")
    }
}

impl fmt::Display for Addr {
    ghost use Rattle.std.specs.Prelude.{Some};
    ghost use Rattle.cspf_addr.specs.AddressText.{address_text};

    ghost output = { λ address. Some (address_text address) };

    #[tactic(auto, unfolding(crate::specs::AddressText::address_text))]
    fn fmt<W: fmt::Write>(&self, f: &mut fmt::Formatter<W>) -> fmt::Result {
        let [a, b, c, d] = self.0.to_be_bytes();
        write!(f, "{a}.{b}.{c}.{d}")
    }
}

/// The address that a text spells.
#[tactic(auto, unfolding(crate::specs::AddressText::address_of))]
fn read_address(text: &[u8]) -> Option<Addr>
    ensures { result ≡ address_of text.now }
{
    let bytes = octets(text)?;
    Some(Addr(u32::from_be_bytes(bytes)))
}

/// The number that a text spells, or `None` if it spells no number of at most 255.
#[tactic(auto, unfolding(crate::specs::AddressText::octet_of))]
fn octet(text: &[u8]) -> Option<u8>
    ensures { result ≡ octet_of text.now }
{
    u8::try_from(number(text)?).ok()
}

/// The four bytes, in network order, of the address that a text spells.
#[tactic(auto, unfolding(crate::specs::AddressText::octets_of))]
fn octets(text: &[u8]) -> Option<[u8; 4]>
    ensures { result ≡ octets_of text.now }
{
    let (first, rest) = cut(text, b'.');
    let (second, rest) = cut(rest, b'.');
    let (third, fourth) = cut(rest, b'.');
    Some([octet(first)?, octet(second)?, octet(third)?, octet(fourth)?])
}

/// Law: a text is read as the address `n` exactly if it is the text of `n`. No two addresses have
/// the same text.
pub fn addresses_are_spelled_once()
    ensures read { AreAddressesSpelledOnce }
    ensures one { IsAddressTextInjective }
{}

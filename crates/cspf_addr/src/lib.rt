//! Addresses of routers and of their interfaces, prefixes of addresses, hops of explicit routes,
//! administrative group masks, and decimal numbers. This crate defines their values, how each of
//! them is written as text and read, and which addresses a prefix covers.
//!
//! The definitions are in `specs/`: numbers in `Numbers.antt`, addresses in `AddressText.antt`,
//! masks in `MaskText.antt`, prefixes in `PrefixParts.antt` and `Prefixes.antt`, and hops in
//! `HopText.antt` and `HopLists.antt`. `AddressOrder.antt` has the order of addresses, and
//! `HopListLaws.antt` says which texts are lists of hops. Reading a text allocates no memory.
#![tactic(auto)]

mod addr;
mod addr_order;
mod cut;
mod decimal;
mod hop;
mod hop_reader;
mod hops;
mod mask;
mod prefix;

pub use addr::{Addr, AddrError, addresses_are_spelled_once};
pub use addr_order::addresses_compare_as_numbers;
pub use decimal::{number, numbers_are_spelled_once};
pub use hop::{Hop, hops_are_spelled};
pub use hop_reader::{HopsError, hop_lists_are_read, hop_lists_are_read_back, parse_hops};
pub use hops::{Hops, MOST_HOPS};
pub use mask::{Mask, MaskError, masks_are_spelled};
pub use prefix::{Prefix, PrefixError, prefixes_are_spelled};

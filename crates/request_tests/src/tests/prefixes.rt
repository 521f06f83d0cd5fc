//! Tests prefixes that are read, refused or written, and the addresses that they cover.

use super::{assert_case, is_text};
use cspf_addr::{Addr, Prefix, PrefixError};
use std::alloc::Global;

// Whether the text is read as the prefix of this address and length.
fn is_read(text: &[u8], address: u32, length: u8) -> bool {
    match Prefix::parse(text) {
        Ok(prefix) => {
            Prefix::new(Addr::new(address), length) == Ok(prefix) && prefix.length() == length
        }
        Err(_) => false,
    }
}

// Whether `all` covers the last address, 255.255.255.255, and `site` covers 10.9.255.255 but not
// 10.10.0.0.
fn are_covering(all: Prefix, site: Prefix) -> bool {
    all.covers(Addr::new(u32::MAX))
        && site.covers(Addr::new(0x0a09_ffff))
        && !site.covers(Addr::new(0x0a0a_0000))
}

// Whether `all` is written as 0.0.0.0/0, `site` has the address 10.9.0.0, and both cover the
// addresses that they should cover.
fn are_prefixes(alloc: Global, all: Prefix, site: Prefix) -> bool {
    is_text(all.text(alloc), "0.0.0.0/0")
        && site.address() == Addr::new(0x0a09_0000)
        && are_covering(all, site)
}

#[test]
fn prefixes_of_addresses(rt: HostRuntime) -> Result<(), PrefixError> {
    let are_read = is_read(b"0.0.0.0/0", 0, 0)
        && is_read(b"10.9.0.1/16", 0x0a09_0001, 16)
        && is_read(b"10.0.0.0/32", 0x0a00_0000, 32);
    let (all, site) = (Prefix::parse(b"0.0.0.0/0")?, Prefix::parse(b"10.9.0.1/16")?);
    let are_prefixes = are_prefixes(rt.alloc(), all, site);
    assert_case(&rt, "prefixes", 3, are_read && are_prefixes);
    Ok(())
}

// Whether the text is refused with this error.
fn is_refused(text: &[u8], why: PrefixError) -> bool {
    Prefix::parse(text) == Err(why)
}

#[test]
fn texts_of_no_prefixes(rt: HostRuntime) {
    let (none, long) = (PrefixError::NotAPrefix, PrefixError::TooLong);
    let are_none = is_refused(b"10.0.0.0/033", none)
        && is_refused(b"10.0.0.0/", none)
        && is_refused(b"10.0.0.0", none)
        && is_refused(b"10.0.0/33", none);
    let are_long = Prefix::new(Addr::new(0), 33) == Err(long)
        && is_refused(b"10.0.0.0/33", long)
        && is_refused(LONG, long);
    assert_case(&rt, "texts of no prefixes", 7, are_none && are_long);
}

// A text whose prefix length has 200 digits.
const LONG: &[u8] = b"10.0.0.0/\
9999999999999999999999999999999999999999999999999999999999999999999999999999999999999999999999999999\
9999999999999999999999999999999999999999999999999999999999999999999999999999999999999999999999999999";

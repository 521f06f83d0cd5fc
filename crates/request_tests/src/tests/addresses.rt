use super::{assert_case, is_text};
use cspf_addr::{Addr, AddrError};

// Whether the text is read as the address with this number.
fn is_read(text: &[u8], number: u32) -> bool {
    Addr::parse(text) == Ok(Addr::new(number))
}

#[test]
fn addresses_of_four_bytes(rt: HostRuntime) {
    let router = Addr::new(0x0a00_0c02);
    let are_read = is_read(b"10.0.12.2", 0x0a00_0c02)
        && is_read(b"255.255.255.255", u32::MAX)
        && is_read(b"9.255.255.255", 0x09ff_ffff)
        && is_read(b"10.0.0.0", 0x0a00_0000);
    let are_ordered = Addr::new(0x09ff_ffff) < Addr::new(0x0a00_0000);
    let is_written = is_text(router.text(rt.alloc()), "10.0.12.2");
    let holds = are_read && are_ordered && is_written && router.number() == 0x0a00_0c02;
    assert_case(&rt, "addresses", 4, holds);
}

// Whether the text is refused.
fn is_refused(text: &[u8]) -> bool {
    Addr::parse(text) == Err(AddrError::NotAnAddress)
}

#[test]
fn texts_of_no_addresses(rt: HostRuntime) {
    let are_refused = is_refused(b"10.0.12.256")
        && is_refused(b"10.0.12")
        && is_refused(b"10.0.12.2.");
    assert_case(&rt, "texts of no addresses", 3, are_refused);
}

//! Tests lists of hops that are read or refused, and the longest list that is read.

use super::{assert_case, is_text};
use cspf_addr::{Addr, Hop, Hops, HopsError, MOST_HOPS, Prefix, PrefixError, parse_hops};
use std::alloc::Global;

// A hop whose prefix has this length and covers this address.
fn hop(address: u32, length: u8, loose: bool) -> Result<Hop, PrefixError> {
    let prefix = Prefix::new(Addr::new(address), length)?;
    Ok(Hop { prefix, loose })
}

// Whether the list has these hops in this order. They are read one by one (`get`), and as a slice
// (`as_slice`).
fn are_hops(hops: &Hops, wanted: &[Hop]) -> bool {
    for (at, hop) in wanted.iter().enumerate() {
        if hops.get(at) != Some(*hop) {
            return false;
        }
    }
    let ends = hops.len() == wanted.len() && hops.is_empty() == wanted.is_empty();
    ends && hops.get(wanted.len()).is_none() && hops.as_slice() == wanted
}

// Whether the text is read as these hops, in this order.
fn are_read(text: &[u8], wanted: &[Hop]) -> bool {
    match parse_hops(text) {
        Ok(hops) => are_hops(&hops, wanted),
        Err(_) => false,
    }
}

// Whether four texts are read as the right hops: the empty text as no hops, the texts of two single
// hops as `one` and as `other`, and the text of both hops as `both`.
fn are_spelled(one: &[Hop], other: &[Hop], both: &[Hop]) -> bool {
    are_read(b"", &[])
        && are_read(b"10.9.0.1/16s", one)
        && are_read(b"10.0.0.0/8l", other)
        && are_read(b"10.0.0.0/8l 10.9.0.1/16s", both)
}

// Whether each of the two hops is written as the wanted text.
fn are_written(alloc: Global, strict: Hop, loose: Hop) -> bool {
    is_text(strict.text(alloc), "10.9.0.0/16s") && is_text(loose.text(alloc), "10.0.0.0/8l")
}

#[test]
fn hops_with_a_space_between(rt: HostRuntime) -> Result<(), PrefixError> {
    let strict = hop(0x0a09_0000, 16, false)?;
    let loose = hop(0x0a00_0000, 8, true)?;
    let mut pushed = Hops::none();
    pushed.push(loose);
    let is_pushed = pushed.as_slice() == [loose].as_slice();
    let are_spelled = are_spelled(&[strict], &[loose], &[loose, strict]);
    let are_written = are_written(rt.alloc(), strict, loose);
    assert_case(&rt, "hops", 2, are_spelled && are_written && is_pushed);
    Ok(())
}

// Whether the text is refused because the part with the number `at`, counted from 1, isn't a hop.
fn is_bad(text: &[u8], at: usize) -> bool {
    parse_hops(text) == Err(HopsError::BadHop { at })
}

// Whether the text is refused because it has more parts than a list may have hops.
fn has_too_many(text: &[u8]) -> bool {
    parse_hops(text) == Err(HopsError::TooManyHops)
}

const EIGHT: &[u8] =
    b"1.0.0.0/8s 2.0.0.0/8s 3.0.0.0/8s 4.0.0.0/8s 5.0.0.0/8s 6.0.0.0/8s 7.0.0.0/8s 8.0.0.0/8s";

#[test]
fn hops_that_are_refused(rt: HostRuntime) {
    let are_bad = is_bad(b"10.0.0.0/8l  10.0.0.0/8l", 2)
        && is_bad(b" ", 1)
        && is_bad(b"10.0.0.0/8", 1);
    let are_too_many = has_too_many(EIGHT)
        && has_too_many(b"a b c d e f g h")
        && has_too_many(b"       ");
    assert_case(&rt, "refused hops", 6, are_bad && are_too_many);
}

const SEVEN: &[u8] =
    b"1.0.0.0/8s 2.0.0.0/8s 3.0.0.0/8s 4.0.0.0/8s 5.0.0.0/8s 6.0.0.0/8s 7.0.0.0/8s";

#[test]
fn as_many_hops_as_are_kept(rt: HostRuntime) {
    let seven = parse_hops(SEVEN);
    let holds = matches!(seven, Ok(hops) if hops.len() == MOST_HOPS);
    assert_case(&rt, "hops", MOST_HOPS, holds);
}

//! Requests that exclude links: of interfaces and of routers, with unknown and excluded ends, hops
//! and marks. The networks are small, and their answers are known.
use super::Wanted::{self, NoRoute, Route, UnknownFrom, UnknownTo};
use super::{BY_THREE, BY_TWO, FOUR, ONE, SQUARE, THREE, TWO, is_wanted, mark, request, table};
use cspf_addr::{Addr, Prefix};
use cspf_except::best_except;
use cspf_exclusions::ExclusionKind::{self, Interface, Router};
use cspf_exclusions::{Exclusion, Exclusions};
use std::alloc::Global;
use std::test::Fail;

// An exclusion: its prefix and its kind.
type Part = (u32, u8, ExclusionKind);

// A case in the square: the marked routers, head-end and tail-end, the hops, the exclusions, and the
// answer.
type Case = (
    &'static [u32],
    (u32, u32),
    &'static [u8],
    &'static [Part],
    Wanted,
);

const CASES: &[Case] = &[
    (
        &[],
        (ONE, FOUR),
        b"",
        &[(9, 32, Interface)],
        Route(2, BY_TWO),
    ),
    // either end of a circuit
    (
        &[],
        (ONE, FOUR),
        b"",
        &[(0x0a00_0c01, 32, Interface)],
        Route(4, BY_THREE),
    ),
    (
        &[],
        (ONE, FOUR),
        b"",
        &[(0x0a00_0c02, 32, Interface)],
        Route(4, BY_THREE),
    ),
    (
        &[],
        (ONE, FOUR),
        b"",
        &[(0x0a00_0c00, 24, Interface)],
        Route(4, BY_THREE),
    ),
    // the second of two exclusions
    (
        &[],
        (ONE, FOUR),
        b"",
        &[(9, 32, Router), (0x0a00_1804, 32, Interface)],
        Route(4, BY_THREE),
    ),
    // routers, by their Router IDs and by an address
    (
        &[],
        (ONE, FOUR),
        b"",
        &[(TWO, 32, Router)],
        Route(4, BY_THREE),
    ),
    (
        &[],
        (ONE, FOUR),
        b"",
        &[(THREE, 32, Router)],
        Route(2, BY_TWO),
    ),
    (
        &[],
        (ONE, FOUR),
        b"",
        &[(0x0a00_1802, 32, Router)],
        Route(4, BY_THREE),
    ),
    (
        &[],
        (ONE, FOUR),
        b"",
        &[(TWO, 32, Router), (THREE, 32, Router)],
        NoRoute,
    ),
    // an address of the other kind names nothing
    (
        &[],
        (ONE, FOUR),
        b"",
        &[(TWO, 32, Interface)],
        Route(2, BY_TWO),
    ),
    // ends
    (&[], (ONE, FOUR), b"", &[(ONE, 32, Router)], NoRoute),
    (&[], (ONE, FOUR), b"", &[(FOUR, 32, Router)], NoRoute),
    (&[], (ONE, FOUR), b"", &[(0, 0, Interface)], NoRoute),
    (&[], (ONE, FOUR), b"", &[(0, 0, Router)], NoRoute),
    (&[], (9, FOUR), b"", &[(ONE, 32, Router)], UnknownFrom),
    (&[], (ONE, 9), b"", &[(ONE, 32, Router)], UnknownTo),
    // hops: by a Router ID, and by an excluded interface
    (
        &[],
        (ONE, FOUR),
        b"3.3.3.3/32l",
        &[(9, 32, Router)],
        Route(4, BY_THREE),
    ),
    (
        &[],
        (ONE, FOUR),
        b"3.3.3.3/32l",
        &[(0x0a00_0d01, 32, Interface)],
        NoRoute,
    ),
    (
        &[],
        (ONE, FOUR),
        b"10.0.23.3/32l",
        &[(9, 32, Router)],
        Route(4, BY_THREE),
    ),
    (
        &[],
        (ONE, FOUR),
        b"10.0.23.3/32l",
        &[(0x0a00_1702, 32, Interface)],
        NoRoute,
    ),
    // marks stay
    (
        &[TWO],
        (ONE, FOUR),
        b"",
        &[(9, 32, Router)],
        Route(4, BY_THREE),
    ),
    (&[THREE], (ONE, FOUR), b"", &[(TWO, 32, Router)], NoRoute),
];

// Exclusions of these parts.
fn exclusions(alloc: Global, parts: &[Part]) -> Result<Option<Exclusions>, Fail> {
    let mut list = Vec::new(alloc);
    for (address, length, kind) in parts {
        let prefix = Prefix::new(Addr::new(*address), *length)?;
        list.push(Exclusion {
            prefix,
            kind: *kind,
        })?;
    }
    if list.is_empty() || list.len() > 64 {
        return Ok(None);
    }
    Ok(Some(Exclusions::new(list)))
}

#[test]
fn requests_that_exclude_links(rt: HostRuntime) -> Result<(), Fail> {
    let alloc = rt.alloc();
    for case in CASES {
        let (marks, ends, hops, parts, wanted) = *case;
        let mut square = table(alloc, SQUARE)?;
        mark(alloc, &mut square, marks)?;
        let asked = request(ends, 0, (0, 0, 0), hops)?;
        let excluded = exclusions(alloc, parts)?.ok_or("no exclusions")?;
        let found = best_except(alloc, &square, &asked, &excluded)?;
        assert!(rt; is_wanted(&found, wanted), "{case:?}: {found:?}");
    }
    Ok(())
}

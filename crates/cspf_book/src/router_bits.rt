//! The bits of routers. Each router has four bits, one in each quarter of 128 bits, and a placement
//! has the bits of all routers on its route. If no change affects a router whose four bits the
//! placement has, the placement keeps its route.

ghost use Rattle.std.specs.Prelude.{◌≡◌, ◌<◌, ◌^◌};
ghost use Rattle.cspf_book.specs.RouterBits.{slot_of, one_of_32, four_bits, bits_of, has_quarters};

use crate::placement::Placement;
use cspf_addr::Addr;

/// 2 ^ 32: the size of a quarter of 128 bits.
const QUARTER: u128 = 4_294_967_296;

/// One of 32 bits, chosen by `number`.
fn one_of_32(number: u64) -> u128
    ensures bit { result ≡ one_of_32 number }
    ensures small { result < 2 ^ 32 }
{
    1u128 << (number % 32)
}

/// The four bits of a router, one in each quarter. Other routers may have the same bits. Even
/// addresses that differ in only a few bits mostly have different `four_bits`.
#[tactic(auto, unfolding(crate::specs::RouterBits::four_bits))]
pub(crate) fn four_bits(router: Addr) -> u128
    ensures { result ≡ four_bits router }
{
    let product = u64::from(router.number()) * 2_654_435_769;
    let low = one_of_32(product / 134_217_728) + one_of_32(product / 4_194_304) * QUARTER;
    let high = one_of_32(product / 131_072) + one_of_32(product / 4_096) * QUARTER;
    low + high * (QUARTER * QUARTER)
}

/// The bits of all routers on the placement's route.
pub(crate) fn bits_of(placement: &Placement) -> u128
    ensures { result ≡ bits_of placement.now }
{
    let mut bits = four_bits(placement.request.from);
    for link in placement.route.links() {
        bits |= four_bits(link.to);
    }
    bits
}

/// Whether at least one bit is set in each quarter of the 128 bits.
pub(crate) fn has_quarters(bits: u128) -> bool
    ensures { result ≡ has_quarters bits }
{
    bits % QUARTER != 0
        && bits / QUARTER % QUARTER != 0
        && bits / (QUARTER * QUARTER) % QUARTER != 0
        && bits / (QUARTER * QUARTER * QUARTER) % QUARTER != 0
}

/// One of 65,536 slots for the key of a change. Other keys may have the same slot.
#[tactic(auto, unfolding(crate::specs::RouterBits::slot_of))]
pub(crate) fn slot_of(router: Addr, local: Option<Addr>) -> usize
    ensures slot { result ≡ slot_of (router, local) }
    ensures small { result < 65536 }
{
    let second = match local {
        Some(local) => u64::from(local.number()),
        None => 0,
    };
    let sum = u64::from(router.number()) * 1_640_531_527 + second * 1_367_130_551;
    (sum / 65_536 % 65_536) as usize
}

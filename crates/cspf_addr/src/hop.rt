//! A hop of an explicit route: a prefix, and whether the hop is strict or loose.

ghost use Rattle.std.specs.Prelude.{◌≡◌, IfOk};
ghost use Rattle.std.specs.String.{string_bytes};
ghost use Rattle.cspf_addr.specs.HopText.{hop_of, loose_of, AreHopTextsRead, AreHopsReadBack};

use crate::prefix::Prefix;
use std::alloc::{AllocError, Global};

/// A hop of an explicit route. A route reaches the hop at any router with an address that the hop's
/// prefix covers. On the way to a strict hop, the route may visit only routers of this hop, and
/// routers of the preceding hop or the head-end. On the way to a loose hop, the route may visit any
/// router (RFC 3209 4.3.3.1).
#[derive(Clone, Copy, Debug, PartialEq, Eq)]
pub struct Hop {
    /// The route reaches the hop at any router with an address that this prefix covers.
    pub prefix: Prefix,
    /// True for a loose hop, and false for a strict hop.
    pub loose: bool,
}

impl Hop {
    ghost use Rattle.cspf_addr.specs.HopText.{hop_of, hop_text};

    /// The text of the hop: its prefix, and then `s` if it is strict or `l` if it is loose.
    #[tactic(auto, unfolding(crate::specs::HopText::hop_text))]
    pub fn text(self, alloc: Global) -> Result<String, AllocError>
        ensures value { IfOk result (λ text. string_bytes text ≡ hop_text self) }
        ensures read { IfOk result (λ text. hop_of (string_bytes text) ≡ Some self) }
    {
        let mut text = self.prefix.text(alloc)?;
        text.push(if self.loose { 'l' } else { 's' })?;
        Ok(text)
    }
}

/// The hop that a text spells.
#[tactic(auto, unfolding(crate::specs::HopText::hop_of))]
pub(crate) fn read_hop(text: &[u8]) -> Option<Hop>
    ensures { result ≡ hop_of text.now }
{
    let (letter, front) = text.split_last()?;
    let prefix = Prefix::parse(front).ok()?;
    let loose = read_loose(*letter)?;
    Some(Hop { prefix, loose })
}

/// Whether a letter is `l`, the letter of a loose hop. `None` if it is neither `s` nor `l`.
#[tactic(auto, unfolding(crate::specs::HopText::loose_of))]
fn read_loose(letter: u8) -> Option<bool>
    ensures { result ≡ loose_of letter }
{
    match letter {
        b'l' => Some(true),
        b's' => Some(false),
        _ => None,
    }
}

/// Law: a text is read as a hop exactly if it consists of a text of the hop's prefix and the hop's
/// letter. A hop is read back from its text.
pub fn hops_are_spelled()
    ensures read { AreHopTextsRead }
    ensures back { AreHopsReadBack }
{}

//! What a request excludes: prefixes, each of which names interfaces or routers.

ghost use Rattle.std.specs.Prelude.{◌≡◌, ◌<◌, ◌≤◌, length, vec_len};

use cspf_addr::Prefix;
use std::marker::Model;

/// The greatest number of exclusions of a request.
pub const MOST_EXCLUSIONS: usize = 64;

/// What the prefix of an exclusion names.
#[derive(Clone, Copy, Debug, PartialEq, Eq)]
pub enum ExclusionKind {
    /// The links at one of whose ends the prefix covers the address of the link's interface.
    Interface,
    /// The links that begin or end at a router which owns the prefix: the prefix covers the Router ID,
    /// or the address of an interface at which a link begins.
    Router,
}

/// A prefix that excludes links.
#[derive(Clone, Copy, Debug, PartialEq, Eq)]
pub struct Exclusion {
    /// The prefix.
    pub prefix: Prefix,
    /// What the prefix names.
    pub kind: ExclusionKind,
}

/// The exclusions of a request, 1 to `MOST_EXCLUSIONS`. A link is excluded if one of them names it.
#[derive(Debug, Drop)]
pub struct Exclusions {
    parts: Vec<Exclusion>,
}

impl Model for Exclusions {
    ghost use Rattle.std.specs.Prelude.{◌<◌, ◌≤◌, List, length};
    ghost use Rattle.std.specs.Coded.{coded_list};
    ghost use Rattle.cspf_exclusions.specs.declared.exclusion.Exclusion.{Exclusion};
    ghost use Rattle.cspf_exclusions.specs.contracts.exclusion.Exclusion.{the_row};
    ghost use Rattle.cspf_exclusions.specs.declared.exclusion.TheConstants.{MOST_EXCLUSIONS};

    ghost Value = { List Exclusion };

    ghost coded = { coded_list the_row.coded };

    ghost view = { λ x. x.parts.items };

    ghost invariant = { λ x. (0 < length x.parts.items) × (length x.parts.items ≤ MOST_EXCLUSIONS) };
}

impl Exclusions {
    /// The request excludes what each of these parts names.
    pub fn new(parts: Vec<Exclusion>) -> Exclusions
        requires { (0 < vec_len parts) × (vec_len parts ≤ MOST_EXCLUSIONS) }
        ensures { result ≡ parts.items }
    {
        Exclusions { parts }
    }

    /// The exclusions, in order.
    pub fn as_slice(&self) -> &[Exclusion]
        ensures value { result.now ≡ self.now }
        ensures some { 0 < length self.now }
        ensures most { length self.now ≤ MOST_EXCLUSIONS }
    {
        self.parts.as_slice()
    }
}

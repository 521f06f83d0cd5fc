//! Laws that follow from the definitions in `specs/`. Each function here has an empty body, and its
//! contract states the law.
ghost use Rattle.std.specs.Prelude.{◌≡◌};
ghost use Rattle.std.specs.Cmp.{IsTotalOrder};
ghost use Rattle.cspf_model.specs.declared.limits.TheConstants.{MOST_LINKS, MOST_ROUTERS, MOST_MARKS, MOST_CHANGES, MOST_VERSIONS, MOST_ROUTE_LINKS};
ghost use Rattle.cspf_model.specs.Walks.{walk_cmp};
ghost use Rattle.cspf_model.specs.Fields.{AreFieldsOfLinks, AreFieldsOfRequests};
ghost use Rattle.cspf_model.specs.Laws.{WalksAreTold, RoutesAreRanked, OneBestAnswer, LastChangeDecides, OneDatabase, OneMoreBatch, LawfulByOneMore, FirstBatchesAreLawful, RoutersAreCounted, NoRouterIsLeftOut, LinksAreAtTheirKeys, OneRefusal, RefusedIsUnfit, AddressesCompareAsNumbers, FewerLinksComeFirst, CheaperLinksComeFirst, LastPutStands, LastRemovalStands, ExactBandwidthIsEnough, LessBandwidthIsNot, FirstAddressDecides, NextAddressDecides, AreAdmittedWith, AreRefusedWith};

mod hop_laws;
mod network_laws;

pub use hop_laws::{route_without_hops, worked_routes};
pub use network_laws::{worked_ends, worked_marks, worked_reverses, worked_unknown_ends};

/// The order of walks is total. Two different walks of one request have different local addresses.
/// So two different routes of one request never compare as equal.
pub fn order_of_walks()
    ensures total { IsTotalOrder walk_cmp }
    ensures told { WalksAreTold }
    ensures ranked { RoutesAreRanked }
{}

/// A request has at most one best answer.
pub fn one_best_answer()
    ensures { OneBestAnswer }
{}

/// After a list of batches, the last change with a key decides which link the database has at this
/// key, or that it has none. The last change of a router's transit decides whether the router is
/// marked as without transit. A list of batches makes only one database.
pub fn last_change_decides()
    ensures decides { LastChangeDecides }
    ensures one { OneDatabase }
{}

/// If a batch is appended to a list of batches, the batch's changes act in order on the database
/// that the list makes.
pub fn absorbing()
    ensures { OneMoreBatch }
{}

/// A list of batches is lawful if each batch fits the database that the preceding batches make. If
/// a batch is appended to a list, the longer list is lawful exactly if the list is lawful and the
/// batch fits the database that the list makes. Each prefix of a lawful list is lawful.
pub fn lawful_batches()
    ensures more { LawfulByOneMore }
    ensures first { FirstBatchesAreLawful }
{}

/// If each link of a database is stored at the link's own key, `router_count` counts the routers of
/// the database. In the database after any list of batches, each link is stored at its own key. The
/// length of a list of different routers of any database is at most `router_count`.
pub fn counted_routers()
    ensures counted { RoutersAreCounted }
    ensures distinct { NoRouterIsLeftOut }
    ensures at_their_keys { LinksAreAtTheirKeys }
{}

/// A link consists of its attributes alone, and a request of its fields alone.
pub fn fields_of_links_and_requests()
    ensures links { AreFieldsOfLinks }
    ensures requests { AreFieldsOfRequests }
{}

/// A batch is refused for at most one reason. A batch that is refused doesn't fit the database.
pub fn one_refusal()
    ensures one { OneRefusal }
    ensures unfit { RefusedIsUnfit }
{}

/// Three examples of the order of walks. Addresses compare as numbers. The number of links takes
/// precedence over addresses, and the cost over the number of links.
pub fn worked_orders()
    ensures numbers { AddressesCompareAsNumbers }
    ensures fewer { FewerLinksComeFirst }
    ensures cheaper { CheaperLinksComeFirst }
{}

/// If three changes have the same key, the last of them decides which link the database has at this
/// key.
pub fn worked_changes()
    ensures put { LastPutStands }
    ensures removed { LastRemovalStands }
{}

/// A link with 1,000 bytes per second unreserved is admitted for a request of 1,000 bytes per
/// second, and not for a request of 1,001.
pub fn worked_admission()
    ensures enough { ExactBandwidthIsEnough }
    ensures too_little { LessBandwidthIsNot }
{}

/// Two walks of the same cost and number of links are ordered by their first local addresses that
/// differ. The later addresses don't matter.
pub fn worked_ties()
    ensures first { FirstAddressDecides }
    ensures next { NextAddressDecides }
{}

/// Examples of affinities. A link of the groups 1 and 2 (mask 6) is admitted with one mask and
/// refused with another mask, which differs in one bit. There is such a pair for exclude-any, for
/// include-any and for include-all. A link without groups is admitted if all three affinities are
/// 0.
pub fn worked_affinities()
    ensures exclude_any { AreAdmittedWith 6 9 0 0 }
    ensures excluded { AreRefusedWith 6 13 0 0 }
    ensures include_any { AreAdmittedWith 6 0 13 0 }
    ensures none_included { AreRefusedWith 6 0 9 0 }
    ensures include_all { AreAdmittedWith 6 0 0 6 }
    ensures not_all_included { AreRefusedWith 6 0 0 7 }
    ensures no_groups { AreAdmittedWith 0 0 0 0 }
{}

/// The limits of this crate, as numbers. `docs/run/FORMATS.md` states the same numbers.
pub fn limits_of_formats()
    ensures links { MOST_LINKS ≡ 16384 }
    ensures routers { MOST_ROUTERS ≡ 1024 }
    ensures marks { MOST_MARKS ≡ 1024 }
    ensures changes { MOST_CHANGES ≡ 4096 }
    ensures versions { MOST_VERSIONS ≡ 1000000 }
    ensures route_links { MOST_ROUTE_LINKS ≡ 8184 }
{}

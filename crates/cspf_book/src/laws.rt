//! Laws that follow from the definitions of `specs/` alone. Each function here does nothing: its
//! contract is the law.
ghost use Rattle.cspf_book.specs.Laws.{FiguresNeverRise, HasEffectiveLinks, NothingHeldIsBase, ChangesAreEffective, PlacingKeepsCovered, ReleasingKeepsCovered, AbsorbingKeepsCovered, RestoringKeepsCovered, CompactIsTheBook, HaveOneLostList};

/// The effective bandwidths of a link never rise from priority 0 to priority 7. So a request that
/// fits at priority 7 also fits at each priority at which its placement is counted.
pub fn figures_never_rise()
    ensures { FiguresNeverRise }
{}

/// At each key, the effective database has the base's link with its effective bandwidths, which are
/// what the placements leave. Without placements, the effective bandwidth at a priority is the
/// least of the link's bandwidths in the base from priority 0 to this priority.
pub fn effective_databases()
    ensures links { HasEffectiveLinks }
    ensures none { NothingHeldIsBase }
{}

/// Changes of the base make the same changes of the effective database, in which each link that is
/// put has its effective bandwidths.
pub fn changes_of_effective_databases()
    ensures { ChangesAreEffective }
{}

/// A link is *covered* if the placements count at most its unreserved bandwidth in the base, at
/// each priority. A link that is covered stays covered when a request is placed or a placement is
/// released. When the base changes, a link that isn't covered afterwards was not covered before, or
/// is in the list `over`. A link that was covered before a placement is restored, and isn't
/// afterwards, is in the list `made_over`.
pub fn covered_links()
    ensures placing { PlacingKeepsCovered }
    ensures releasing { ReleasingKeepsCovered }
    ensures absorbing { AbsorbingKeepsCovered }
    ensures restoring { RestoringKeepsCovered }
{}

/// If each placement of a book is restored, in their order, in a book that has the same base and no
/// placements, no placement is refused by the book, and the placements are the same. The path of
/// each placement is made again from its head-end and the steps of its links.
pub fn compact_is_the_book()
    ensures { CompactIsTheBook }
{}

/// For two databases there is only one list of the ids of placements that lose their routes. Such a
/// route is admitted by the first database, and not by the second.
pub fn one_lost_list()
    ensures { HaveOneLostList }
{}

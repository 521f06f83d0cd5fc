//! Laws of excluded links. Each function here has an empty body, and its contract states the law.

ghost use Rattle.cspf_exclusions.specs.Laws.{AreWalksWithout, IsExcludedWithReverse, IsWholeWithoutNone, OneDatabaseWithout};

/// A link is excluded exactly if its reverse is.
pub fn excluded_with_reverse()
    ensures { IsExcludedWithReverse }
{}

/// The walks in the database without the excluded links are exactly the walks in the whole database
/// that have no excluded link. Without hops, the routes are the walks to the tail-end.
pub fn walks_without_excluded_links()
    ensures { AreWalksWithout }
{}

/// If nothing is excluded, the database without the excluded links is the whole database.
pub fn no_exclusion_no_difference()
    ensures { IsWholeWithoutNone }
{}

/// There is only one database without the excluded links.
pub fn one_database_without()
    ensures { OneDatabaseWithout }
{}

//! The largest numbers of trees and rows, and how much memory they need.

ghost use Rattle.std.specs.Prelude.{◌*◌, ◌+◌, ◌<◌, ◌≤◌};

/// The number of rows for classes of requests. Each row has at most one tree.
pub const MOST_TREES: usize = 4096;

/// The number of bytes that the bounds of a tree need.
pub const TREE_BYTES: usize = 8192;

/// The limit for the bounds of trees, in megabytes, if a run is given no other limit.
pub const TREE_MEGABYTES: u16 = 64;

/// The greatest limit for the bounds of trees, in megabytes, that a run can be given.
pub const MOST_TREE_MEGABYTES: u16 = 1024;

/// The number of consecutive rows among which the row of a class may be. A class is all requests
/// with one tail-end and the same affinities.
pub(crate) const WAYS: usize = 32;

/// The number of requests of a class that must be counted before a budget pays for its tree. A
/// class is all requests with one tail-end and the same affinities.
pub(crate) const ASKS_FOR_A_TREE: u32 = 6;

/// The greatest number of requests that a row counts for its class. Further requests don't change
/// this number. A class is all requests with one tail-end and the same affinities.
pub(crate) const MOST_ASKS: u32 = 64;

/// The cost of a search from both ends. It is the unit of the other costs: they are hundredths of
/// such a search.
pub(crate) const SEARCH_COST: u64 = 100;

/// The cost of a walk by a tree, in hundredths of a search. On a drawn network of 1,024 routers and
/// 16,384 links, a walk takes 2 to 10 hundredths of the instructions of a search.
pub(crate) const WALK_COST: u64 = 10;

/// The cost of a search that a tree guides, in hundredths of a search. It follows where a walk by
/// the tree meets a router without a link of the request's bandwidth. On such a network of 1,024
/// routers and 16,384 links both take about 60 hundredths of the instructions of a search, also if
/// all metrics are 1.
pub(crate) const GUIDED_COST: u64 = 60;

/// The cost of growing a tree, in hundredths of a search. On a drawn network of 1,024 routers and
/// 16,384 links, growing a tree takes 1,030,000 instructions. A search takes 71,000 instructions, or
/// 44,000 if all metrics are 1.
pub(crate) const TREE_COST: u64 = 2_400;

/// What each request without hops adds to a budget, in hundredths of a search. Looking up the row of
/// a class takes up to 2 hundredths of a search. So a run with trees takes at most 5 in 100 longer
/// than a run without them.
pub(crate) const ASK_SHARE: u64 = 3;

/// The number of rows for prefixes that have only one owner.
pub(crate) const OWNER_ROWS: usize = 2048;

/// The number of trees whose bounds fit into `megabytes` megabytes. A megabyte is 2^20 bytes.
pub fn trees_in(megabytes: u16) -> usize
    ensures room { result * TREE_BYTES ≤ megabytes * 1048576 }
    ensures most { megabytes * 1048576 < (result + 1) * TREE_BYTES }
{
    megabytes as usize * 1_048_576 / TREE_BYTES
}

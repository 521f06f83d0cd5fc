//! The options of a run: how many trees of lower bounds it may keep.

ghost use Rattle.std.specs.Prelude.{◌*◌, ◌+◌, ◌<◌, ◌≤◌};
ghost use Rattle.cspf_trees.specs.declared.limits.TheConstants.{TREE_BYTES, TREE_MEGABYTES};

use cspf_trees::{TREE_BYTES, TREE_MEGABYTES, trees_in};

/// How many trees a run may keep, which limits the memory of the trees. A tree has lower bounds of
/// the costs to one tail-end. The lines of the run don't depend on the number of trees.
#[derive(Clone, Copy, Debug, PartialEq, Eq)]
pub struct RunOptions {
    /// The greatest number of trees that all threads of the run keep together. If it is 0, no trees
    /// are kept.
    pub trees: usize,
}

impl RunOptions {
    /// Options with the greatest number of trees whose lower bounds fit into `TREE_MEGABYTES`
    /// megabytes of 2^20 bytes.
    pub fn new() -> RunOptions
        ensures room { result.trees * TREE_BYTES ≤ TREE_MEGABYTES * 1048576 }
        ensures most { TREE_MEGABYTES * 1048576 < (result.trees + 1) * TREE_BYTES }
    {
        RunOptions {
            trees: trees_in(TREE_MEGABYTES),
        }
    }
}

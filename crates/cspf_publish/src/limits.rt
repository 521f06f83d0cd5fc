//! The most askers (which answer requests) of a publisher, and the most trees of lower bounds of
//! each asker.
ghost use Rattle.std.specs.Prelude.{◌*◌, ◌≤◌};

/// The most askers (which answer requests) that a publisher may have.
pub const MOST_ASKERS: usize = 64;

/// The most trees of lower bounds that each of `askers` askers may keep. Together they keep at most
/// `trees` trees.
pub(crate) fn trees_of_each(trees: usize, askers: usize) -> usize
    ensures { askers * result ≤ trees }
{
    trees / askers.max(1)
}

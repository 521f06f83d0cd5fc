//! Law of the definitions in `specs/`. The function does nothing: its contract is the law.
ghost use Rattle.cspf_snapshot.specs.SnapshotLaws.{OneSnapshot};

/// Law: a database has at most one snapshot.
pub fn one_snapshot()
    ensures { OneSnapshot }
{}

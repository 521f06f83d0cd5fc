use cspf_addr::Addr;

/// What the search takes for the answer.
#[derive(Clone, Copy, Debug)]
pub enum Verdict {
    /// The two ways are the least pair.
    Pair,
    /// There is no way.
    NoWay,
    /// Each way has the link at this index of `Table::links`.
    EachBy(usize),
    /// Each way passes through this router.
    EachThrough(Addr),
}

/// What the search has found. None of it is trusted.
#[derive(Drop)]
pub struct Found {
    /// The answer.
    pub verdict: Verdict,
    /// The links of a way, as indexes in `Table::links`.
    pub one: Vec<usize>,
    /// The links of the second way of a pair, as indexes in `Table::links`.
    pub other: Vec<usize>,
    /// For each router the potential where links arrive.
    pub arriving: Vec<u64>,
    /// For each router the potential where links leave.
    pub leaving: Vec<u64>,
}

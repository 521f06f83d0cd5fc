//! Laws of requests with exclusions. Each function here has an empty body, and its contract states the law.

ghost use Rattle.cspf_except.specs.ExceptLaws.{MoreCostNoLess, OneBestExcept};

/// A request with exclusions has at most one best answer.
pub fn one_best_except()
    ensures { OneBestExcept }
{}

/// Let two requests without hops differ only in what they exclude, and let one exclude all that the
/// other excludes. Then the cost of its best route isn't lower.
pub fn more_exclusions_cost_no_less()
    ensures { MoreCostNoLess }
{}

/// The weight of 1 unit of cost, where a way is weighed by its size. Each link adds 1 to the weight, so
/// the number of links decides between ways of equal cost.
pub const COST_WEIGHT: u64 = 32_768;

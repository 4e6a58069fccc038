// What the analysis of some rows answers.

use boc_plans::chain::Chain;

/// The earliest plan of some rows with a chain that costs as much, and their work. All numbers are ticks.
#[derive(Drop, Debug)]
pub struct Profile {
    /// The ticks of all rows together.
    pub work: u64,
    /// The end of the earliest plan. No plan that keeps ends sooner.
    pub span: u64,
    /// The tick at which each row starts in the earliest plan.
    pub starts: Vec<u64>,
    /// The tick at which each row ends in the earliest plan.
    pub ends: Vec<u64>,
    /// A chain whose weights add up to the span.
    pub chain: Chain,
}

// What is known of a def, or of a family of cowns.

/// What is known of a def of one run, or of a family of cowns. All times are ticks.
#[derive(Clone, Copy, PartialEq, Eq, Debug)]
pub struct Totals {
    /// The number of the def, or of the family.
    pub key: u32,
    /// How many rows the def has, or how many cowns the family.
    pub count: u64,
    /// What the def's rows took together, or how long that cown of the family is held that is held longest.
    pub ticks: u64,
    /// The typical ticks of the def, or how long rows wait for cowns of the family.
    pub more: u64,
    /// The ticks of the chain's rows that are of the def, or that hand on a cown of the family.
    pub chain: u64,
}

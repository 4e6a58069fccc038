//! Rows in which each behaviour takes the typical ticks of its def, so that no single one that took long decides, and whether some took very long.
#![tactic(auto)]

pub mod laws;
mod medians;
mod outliers;
mod typical;

pub use medians::typical_ticks;
pub use outliers::{OUTLIER_PART, OUTLIER_TIMES, Outliers, find_outliers};
pub use typical::typical_rows;

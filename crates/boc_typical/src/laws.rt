// Laws of typical ticks.

ghost use Rattle.std.specs.Prelude.{◌≡◌, ◌<◌, ◌-◌, ◌/◌, ℕ, List, Option, Some, length, slice_get};
ghost use Rattle.std.specs.List.Sorted.{IsNonDecreasing, IsPermutation};
ghost use Rattle.boc_runs.specs.declared.rows.Row.{Row};
ghost use Rattle.boc_runs.specs.Rows.{IsRows};
ghost use Rattle.boc_typical.specs.declared.outliers.Outliers.{Outliers};
ghost use Rattle.boc_typical.specs.Medians.{AreAllApart, IsMedian};
ghost use Rattle.boc_typical.specs.Outliers.{AreOutliers};
ghost use Rattle.boc_typical.specs.Typical.{IsTypical};

/// Proves that the median of some numbers is the one in the middle of them in rising order, and of two in the middle the first. So there is one at most.
pub fn median_stands_in_the_middle()
    ensures middle { (numbers rising : List ℕ) (median : ℕ) → IsPermutation numbers rising → IsNonDecreasing rising → IsMedian numbers median
        → slice_get rising ((length numbers - 1) / 2) ≡ Some median }
    ensures one { (numbers : List ℕ) (median other : ℕ) → IsMedian numbers median → IsMedian numbers other → median ≡ other }
{}

/// Proves that rows with typical ticks are the rows of a record: offsets rise and are within ticks, and ticks within limits.
pub fn typical_rows_are_rows()
    ensures { (rows : List Row) (defs : List ℕ) (after : List Row) → IsRows rows → length defs ≡ length rows → IsTypical rows defs after → IsRows after }
{}

/// Proves that there is one list of rows with typical ticks at most.
pub fn typical_rows_are_one()
    ensures { (rows : List Row) (defs : List ℕ) (after other : List Row) → IsRows rows → length defs ≡ length rows → IsTypical rows defs after
        → IsTypical rows defs other → after ≡ other }
{}

/// Proves that rows of which each is a def of its own, as those without names are, stay as they are.
pub fn rows_of_own_defs_stay()
    ensures { (rows : List Row) (defs : List ℕ) (after : List Row) → IsRows rows → length defs ≡ length rows → AreAllApart defs → IsTypical rows defs after
        → after ≡ rows }
{}

/// Proves that of some rows at most one thing is reported of those that take very long.
pub fn outliers_are_one()
    ensures { (rows : List Row) (defs : List ℕ) (found other : Option Outliers) → length defs ≡ length rows → AreOutliers rows defs found
        → AreOutliers rows defs other → found ≡ other }
{}

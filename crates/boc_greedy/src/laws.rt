// Laws of greedy plans: of some rows there is one, and no plan ends before the low bound.

ghost use Rattle.std.specs.Prelude.{◌≡◌, ◌<◌, ◌≤◌, ℕ, List};
ghost use Rattle.boc_runs.specs.declared.rows.Row.{Row};
ghost use Rattle.boc_runs.specs.Rows.{IsRows};
ghost use Rattle.boc_plans.specs.Plans.{IsEnd, Keeps};
ghost use Rattle.boc_plans.specs.Greedy.{IsForWorkers, IsGreedy};
ghost use Rattle.boc_plans.specs.Sweeps.{IsGreedyCownSweep, IsGreedySweep};
ghost use Rattle.boc_greedy.specs.declared.points.CurvePoint.{CurvePoint};
ghost use Rattle.boc_greedy.specs.Curves.{IsCurve, IsCurvePoint, IsLowBound};

/// Proves that rows have one greedy plan at most for each number of workers: one list of starts, and one list of the workers that rows are on.
pub fn rows_have_one_greedy_plan()
    ensures { (rows : List Row) (p : ℕ) (plan workers other others : List ℕ) → IsRows rows → IsGreedy rows p plan workers → IsGreedy rows p other others
        → (plan ≡ other) × (workers ≡ others) }
{}

/// Proves that rows have one greedy sweep at most for each number of workers, one over this many cowns, and one curve up to each number.
pub fn rows_have_one_curve()
    ensures sweep { (rows : List Row) (p : ℕ) (ends others : List ℕ) → IsRows rows → IsGreedySweep rows p ends → IsGreedySweep rows p others
        → ends ≡ others }
    ensures cowns { (rows : List Row) (p count : ℕ) (ends others : List ℕ) → IsRows rows → IsGreedyCownSweep rows p count ends
        → IsGreedyCownSweep rows p count others → ends ≡ others }
    ensures curve { (rows : List Row) (most : ℕ) (points others : List CurvePoint) → IsRows rows → IsCurve rows most points → IsCurve rows most others
        → points ≡ others }
{}

/// Proves that no plan for p workers in which no row starts before its spawn, nor before the end of a row that is ordered before it, ends before the
/// low bound. The greedy plan ends there or later, and by its bound.
pub fn plans_end_between()
    ensures none_before { (rows : List Row) (p low last : ℕ) (plan workers : List ℕ) → 0 < p → IsLowBound rows p low → Keeps rows plan
        → IsForWorkers rows p plan workers → IsEnd rows plan last → low ≤ last }
    ensures between { (rows : List Row) (p : ℕ) (point : CurvePoint) → IsRows rows → 0 < p → IsCurvePoint rows p point
        → (point.low ≤ point.end) × (point.end ≤ point.bound) }
{}

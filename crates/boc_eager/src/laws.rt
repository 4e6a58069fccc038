// Laws of the eager plan: there is one, and it keeps rows that conflict apart; where it ends before the span, some row goes ahead of one with a lower number.

ghost use Rattle.std.specs.Prelude.{◌≡◌, ℕ, ◌<◌, ◌≤◌, List, None};
ghost use Rattle.boc_runs.specs.declared.rows.Row.{Row};
ghost use Rattle.boc_runs.specs.Rows.{IsRows};
ghost use Rattle.boc_plans.specs.Plans.{IsEnd};
ghost use Rattle.boc_plans.specs.Greedy.{IsSpan};
ghost use Rattle.boc_order.specs.Least.{IsLeast, KeepsApart, KeepsSpawns, tick_of};
ghost use Rattle.boc_order.specs.declared.least.Least.{Least};
ghost use Rattle.boc_eager.specs.Eager.{IsEager};
ghost use Rattle.boc_eager.specs.Swaps.{IsFirstSwap};

/// Proves that some rows have one eager plan at most.
pub fn eager_is_one()
    ensures { (rows : List Row) (plan other : List ℕ) → IsRows rows → IsEager rows plan → IsEager rows other → plan ≡ other }
{}

/// Proves that the eager plan keeps the spawns of the rows, and keeps rows that conflict apart, in whatever order.
pub fn another_order_keeps_apart()
    ensures spawns { (rows : List Row) (plan : List ℕ) → IsRows rows → IsEager rows plan → KeepsSpawns rows plan }
    ensures apart { (rows : List Row) (plan : List ℕ) → IsRows rows → IsEager rows plan → KeepsApart rows plan }
{}

/// Proves that the eager plan ends no sooner than any order can: the lower bound for the end of the rows holds for it too.
pub fn another_order_ends_no_sooner()
    ensures { (rows : List Row) (count : ℕ) (least : Least) (plan : List ℕ) (end : ℕ) → IsRows rows → IsEager rows plan → IsEnd rows plan end
        → IsLeast rows count least → tick_of least ≤ end }
{}

/// Proves that where the eager plan ends before the span, some row goes ahead of one with a lower number.
pub fn sooner_order_differs()
    ensures { (rows : List Row) (plan : List ℕ) (span end : ℕ) → IsRows rows → IsEager rows plan → IsEnd rows plan end → IsSpan rows span → end < span
        → IsFirstSwap rows plan None → ⊥ }
{}

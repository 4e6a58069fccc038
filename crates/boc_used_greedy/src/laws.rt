// Laws of the greedy end with turns.

ghost use Rattle.std.specs.Prelude.{◌≡◌, ℕ, Bool, List, [], Option};
ghost use Rattle.boc_runs.specs.declared.rows.Row.{Row};
ghost use Rattle.boc_runs.specs.Rows.{IsRows};
ghost use Rattle.boc_plans.specs.Sweeps.{IsGreedyEnd};
ghost use Rattle.boc_uses.specs.declared.uses.Use.{Use};
ghost use Rattle.boc_turns.specs.Turns.{among};
ghost use Rattle.boc_turns.specs.Workers.{IsUsedGreedyEnd};

/// Proves that the greedy end with turns is one.
pub fn used_greedy_end_is_one()
    ensures { (rows : List Row) (uses : List (Option Use)) (relaxed : ℕ → Bool) (p end other : ℕ) → IsRows rows
        → IsUsedGreedyEnd rows uses relaxed p end → IsUsedGreedyEnd rows uses relaxed p other → end ≡ other }
{}

/// Proves that where no cown is relaxed the end is that of the greedy plan of the rows as they are.
pub fn none_relaxed_is_greedy()
    ensures { (rows : List Row) (uses : List (Option Use)) (p end : ℕ) → IsRows rows → IsUsedGreedyEnd rows uses (among []) p end → IsGreedyEnd rows p end }
{}

// The law of runs in which no row runs.

ghost use Rattle.std.specs.Prelude.{ℕ, ◌<◌, List, Option, length};
ghost use Rattle.boc_runs.specs.Lives.{Life, MayStart, AreOver};
ghost use Rattle.boc_runs.specs.Legal.{Entry, life_of, entry_cowns};
ghost use Rattle.boc_stalled.specs.Stalled.{NoneRuns, IsLeastPending, HasStart};

/// Proves that where no row runs, the lowest-numbered pending row may start; and that there is one, unless there is no row or all have ended. So a run that is
/// under way can always go on: a row runs, or one may start.
pub fn some_row_could_start()
    ensures least { (life : ℕ → Option Life) (cowns : ℕ → List ℕ) (row : ℕ) → NoneRuns life → IsLeastPending life row → MayStart life cowns row }
    ensures some { (rows : List Entry) → NoneRuns (life_of rows) → 0 < length rows → (AreOver (length rows) (life_of rows) → ⊥) → HasStart rows }
{}

// Laws of live rows.

ghost use Rattle.std.specs.Prelude.{◌≡◌, ◌<◌, ℕ, List, length, IsPermutation};
ghost use Rattle.boc_runs.specs.Serial.{Behaviour};
ghost use Rattle.boc_fronts.specs.Steps.{IsArranged};
ghost use Rattle.boc_front_rows.specs.declared.row.Front.{Front};
ghost use Rattle.boc_front_rows.specs.Claims.{AreSpawned, rows_after};
ghost use Rattle.boc_front_rows.specs.Orders.{AreMoved, done_of, kept_from, places_of};
ghost use Rattle.boc_front_rows.specs.Rows.{Plain, plains, AreIn};
ghost use Rattle.boc_front_rows.specs.Seen.{front_of};

/// Proves what the rows after a spawn are: the new one is last, those that claim one of its cowns are before it and claim all of them, and nothing else changes
/// but the wishes of its parent.
pub fn rows_are_spawned()
    ensures { (cowns : List ℕ) (place rest wishes : ℕ) (rows : List Plain) → place < length rows
        → AreSpawned cowns place rest wishes rows (rows_after cowns place rest wishes rows) }
{}

/// Proves that a front without the rows that have no wish is the front arranged, for each order of the others.
pub fn kept_rows_are_arranged()
    ensures arranged { (lists : List (List Behaviour)) (front after : Front) (kept : List ℕ) → after.values.items ≡ front.values.items
        → IsPermutation (kept_from 0 (done_of lists (plains front.live.items))) kept
        → AreMoved (places_of (length (plains front.live.items)) kept) kept (plains front.live.items) (plains after.live.items)
        → IsArranged (front_of lists front) kept (front_of lists after) }
    ensures there { (lists : List (List Behaviour)) (front after : Front) (kept : List ℕ) → after.values.items ≡ front.values.items
        → IsPermutation (kept_from 0 (done_of lists (plains front.live.items))) kept
        → AreMoved (places_of (length (plains front.live.items)) kept) kept (plains front.live.items) (plains after.live.items)
        → AreIn lists (plains front.live.items) → AreIn lists (plains after.live.items) }
{}

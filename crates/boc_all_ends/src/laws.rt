// Laws of the search.

ghost use Rattle.std.specs.Prelude.{◌≡◌, ◌+◌, ◌<◌, ◌≤◌, ◌↔◌, ℕ, List};
ghost use Rattle.std.specs.List.{Contains};
ghost use Rattle.boc_program.specs.declared.limits.TheConstants.{MOST_ROWS};
ghost use Rattle.boc_program.specs.declared.program.Program.{Program};
ghost use Rattle.boc_runs.specs.Serial.{Behaviour};
ghost use Rattle.boc_closed_sets.specs.Covers.{Covers};
ghost use Rattle.boc_fronts.specs.Steps.{IsStep};
ghost use Rattle.boc_front_rows.specs.declared.row.Front.{Front};
ghost use Rattle.boc_front_rows.specs.Rows.{Plain};
ghost use Rattle.boc_front_rows.specs.Seen.{front_of};
ghost use Rattle.boc_all_ends.specs.declared.ends.Ends.{Ends};
ghost use Rattle.boc_all_ends.specs.declared.found.End.{End};
ghost use Rattle.boc_all_ends.specs.declared.found.Found.{Found};
ghost use Rattle.boc_all_ends.specs.declared.search.Reach.{Reach};
ghost use Rattle.boc_all_ends.specs.Ends.{AreEndsBelow, IsEndless, IsFound};
ghost use Rattle.boc_all_ends.specs.Gathered.{AreNoted, HasLive, HaveEnds, HoldsEnds};
ghost use Rattle.boc_all_ends.specs.Searching.{HasReached, StandsAt};
ghost use Rattle.boc_all_ends.specs.Spreading.{AreKept, AreSpread, IsReady, seen};
ghost use Rattle.boc_all_ends.specs.Stepping.{Spawning};

/// Proves that a front after a spawn is the front after a step.
pub fn spawns_are_steps()
    ensures { (p : Program) (a b : List (List Behaviour)) (f g : Front) (place rest wishes : ℕ) (wish : Behaviour) (r : Plain)
        → Spawning p a b f g place rest wishes wish r → IsStep p (front_of a f) place (front_of b g) }
{}

/// Proves that each front of a layer can make its steps, and that the fronts to which they lead are the next layer.
pub fn layers_go_on()
    ensures ready { (p : Program) (lists : List (List Behaviour)) (rows : ℕ) (fs : List Front) → StandsAt p lists rows fs
        → (f : Front) → Contains fs f → IsReady p lists rows f }
    ensures next { (p : Program) (a b : List (List Behaviour)) (rows : ℕ) (fs new : List Front) → 0 < rows → StandsAt p a rows fs
        → AreSpread p (seen a fs) b new → AreKept b (rows + 1) new → StandsAt p b (rows + 1) new }
{}

/// Proves that the fronts of a layer have the ends of all whole runs of as many rows. A front of the last layer has a live row only if a run needs more rows
/// than there may be.
pub fn layers_have_ends()
    ensures ends { (p : Program) (lists : List (List Behaviour)) (rows : ℕ) (fs : List Front) → 0 < rows → rows ≤ MOST_ROWS
        → Covers p rows (seen lists fs) → HaveEnds p rows fs }
    ensures endless { (p : Program) (lists : List (List Behaviour)) (fs : List Front) → Covers p MOST_ROWS (seen lists fs) → (HasLive fs ↔ IsEndless p) }
    ensures noted { (p : Program) (below : ℕ) (ends : Ends) (all : List End) → AreNoted p below ends → HoldsEnds ends all → AreEndsBelow p below all }
{}

/// Proves that what a search has found is so, if it has reached so far and holds the ends that it noted.
pub fn searches_find()
    ensures { (p : Program) (most fronts : ℕ) (ends : Ends) (reach : Reach) (found : Found) → HasReached p fronts most ends reach
        → HoldsEnds ends found.all.items → found.below ≡ reach.below → found.whole ≡ reach.whole → found.endless ≡ reach.endless → found.fronts ≡ fronts
        → IsFound p most found }
{}

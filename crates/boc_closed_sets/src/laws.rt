// Laws of closed sets.

ghost use Rattle.boc_closed_sets.specs.Closed.{IsClosedFor, IsClosedSet};
ghost use Rattle.boc_closed_sets.specs.Covers.{Covers, AreNextEnough};
ghost use Rattle.boc_closed_sets.specs.Enough.{AreAllFree, AreFreeOf, IsUnfinished, IsEnough};
ghost use Rattle.boc_closed_sets.specs.Footprints.{AreFootprints, IsFootprint, IsListed};
ghost use Rattle.boc_fronts.specs.Fronts.{Front, HasEnd, IsLayer};
ghost use Rattle.boc_fronts.specs.Orders.{IsWholeOrder};
ghost use Rattle.boc_program.specs.declared.limits.TheConstants.{MOST_ROWS};
ghost use Rattle.boc_program.specs.declared.program.Program.{Program};
ghost use Rattle.boc_runs.specs.Run.{IsWholeRun, config_of};
ghost use Rattle.boc_runs.specs.Serial.{Behaviour, serial_along};
ghost use Rattle.boc_runs.specs.declared.event.Event.{Event};
ghost use Rattle.boc_runs.specs.machine.AlongRows.{parents_of_rows};
ghost use Rattle.std.specs.List.{Contains};
ghost use Rattle.std.specs.Prelude.{◌≡◌, ◌≢◌, ◌↔◌, ℕ, ◌+◌, ◌<◌, ◌≤◌, List, [], length, ℤ};

/// It is enough to go on from a front at the free places of a closed set, where the cowns listed for each behaviour, or for each kind, make footprints.
pub fn closed_sets_are_enough()
    ensures listed { (p : Program) (listed : Behaviour → List ℕ) (f : Front) (inside places : List ℕ) → AreFootprints p (IsListed listed)
        → IsClosedFor (IsListed listed) f inside → AreFreeOf f inside places → IsEnough p f places }
    ensures kinds { (p : Program) (reach : ℕ → List ℕ) (f : Front) (inside places : List ℕ) → IsFootprint p (IsListed reach)
        → IsClosedSet (IsListed reach) f inside → AreFreeOf f inside places → IsEnough p f places }
{}

/// It is enough to go on from a front with a live row at all free places.
pub fn free_places_are_enough()
    ensures { (p : Program) (f : Front) (places : List ℕ) → f.live ≢ [] → AreAllFree f places → IsEnough p f places }
{}

/// The fronts of a layer stand for enough orders.
pub fn layers_cover()
    ensures { (p : Program) (rows : ℕ) (fronts : List Front) → IsLayer p rows fronts → Covers p rows fronts }
{}

/// Where fronts stand for enough orders, those to which one spawn leads from them at enough places stand for enough orders of one row more.
pub fn next_covers()
    ensures { (p : Program) (rows : ℕ) (fronts others : List Front) → 0 < rows → Covers p rows fronts → AreNextEnough p fronts others
        → Covers p (rows + 1) others }
{}

/// Fronts that are enough for the orders of N rows have the ends of all whole runs of N rows and no others. One of them has a live row only if a row has a
/// wish after an order of N rows.
pub fn covers_have_all_ends()
    ensures all { (p : Program) (rows : ℕ) (fronts : List Front) → Covers p rows fronts → (log : List Event) → IsWholeRun p log
        → length (parents_of_rows log) ≡ rows → HasEnd fronts (config_of p log).values }
    ensures orders { (p : Program) (rows : ℕ) (fronts : List Front) → Covers p rows fronts → (parents : List ℕ) → IsWholeOrder p parents
        → length parents ≡ rows → HasEnd fronts (serial_along p parents).values }
    ensures whole { (p : Program) (rows : ℕ) (fronts : List Front) → 0 < rows → rows ≤ MOST_ROWS → Covers p rows fronts
        → (values : List ℤ) → HasEnd fronts values
        → (parents : List ℕ) × IsWholeOrder p parents × (length parents ≡ rows) × ((serial_along p parents).values ≡ values) }
    ensures endless { (p : Program) (rows : ℕ) (fronts : List Front) → Covers p rows fronts
        → (((f : Front) × Contains fronts f × (f.live ≢ [])) ↔ ((parents : List ℕ) × IsUnfinished p parents × (length parents ≡ rows))) }
    ensures none { (p : Program) (rows : ℕ) → Covers p rows [] → (parents : List ℕ) → rows ≤ length parents → IsWholeOrder p parents → ⊥ }
    ensures none_endless { (p : Program) (rows : ℕ) → Covers p rows [] → (parents : List ℕ) → rows ≤ length parents → IsUnfinished p parents → ⊥ }
{}

// Laws of orders.

ghost use Rattle.boc_fronts.specs.Apart.{AreApart, Commute};
ghost use Rattle.boc_fronts.specs.Claims.{Claims, ClaimsOne};
ghost use Rattle.boc_fronts.specs.Fronts.{StandsLoosely, Leads, wishes_left, Front, IsLayer, AreNext, HasEnd};
ghost use Rattle.boc_fronts.specs.Orders.{IsOrder, IsWholeOrder, IsBefore, HasWish, others_of};
ghost use Rattle.boc_fronts.specs.Steps.{IsStep, IsArranged, IsOpening};
ghost use Rattle.boc_program.specs.declared.limits.TheConstants.{MOST_ROWS};
ghost use Rattle.boc_program.specs.declared.program.Program.{Program};
ghost use Rattle.boc_runs.specs.Run.{IsRun, IsWholeRun, config_of};
ghost use Rattle.boc_runs.specs.Serial.{Serial, SerialRow, serial_along, children, after_turn, behaviour_of};
ghost use Rattle.boc_runs.specs.declared.event.Event.{Event};
ghost use Rattle.boc_runs.specs.machine.AlongRows.{parents_of_rows};
ghost use Rattle.boc_runs.specs.machine.Queues.{times};
ghost use Rattle.std.specs.Prelude.{◌≡◌, ℕ, List, ◌⊎◌, ◌↔◌, ◌<◌, ◌++◌, ◌∷◌, [], length, ◌+◌, ◌≤◌, ℤ, ◌≢◌, Some, slice_get, map};

/// Two turns over different cowns, of rows of different parents, may come either way: the rows are the same, and so are the values.
pub fn turns_commute()
    ensures { (p : Program) (s : Serial) (a b : ℕ) → AreApart s a b → Commute p s a b }
{}

/// The rows of a run were spawned in an order, and those of a whole run in a whole one.
pub fn runs_make_orders()
    ensures some { (p : Program) (log : List Event) → IsRun p log → IsOrder p (parents_of_rows log) }
    ensures whole { (p : Program) (log : List Event) → IsWholeRun p log → IsWholeOrder p (parents_of_rows log) }
{}

/// An order of spawns is that of the rows of a run, and a whole one that of a whole run.
pub fn orders_make_runs()
    ensures some { (p : Program) (parents : List ℕ) → IsOrder p parents → length parents ≤ MOST_ROWS
        → (log : List Event) × IsRun p log × (parents_of_rows log ≡ parents) }
    ensures whole { (p : Program) (parents : List ℕ) → IsWholeOrder p parents → (log : List Event) × IsWholeRun p log × (parents_of_rows log ≡ parents) }
{}

/// With one row more, those before it are those that claimed one of its cowns, and no other row comes before a row that was there. Its cowns are claimed
/// by it and by those before it, and by the rows that claimed them; for other cowns all stays.
pub fn claims_go_on()
    ensures old { (rows : List SerialRow) (x : SerialRow) (a b : ℕ) → b < length rows → (IsBefore (rows ++ x ∷ []) a b ↔ IsBefore rows a b) }
    ensures new { (rows : List SerialRow) (x : SerialRow) (a : ℕ)
        → (IsBefore (rows ++ x ∷ []) a (length rows) ↔ ClaimsOne rows x.behaviour.cowns a) }
    ensures claims { (rows : List SerialRow) (x : SerialRow) (c a : ℕ) → (Claims (rows ++ x ∷ []) c a ↔
        (Claims rows c a ⊎ ((0 < times c x.behaviour.cowns) × ((a ≡ length rows) ⊎ ClaimsOne rows x.behaviour.cowns a)))) }
{}

/// The fronts to which one spawn leads from a layer are the next layer. Each whole run of N rows ends as a front of its layer has it, and what a front of a
/// layer ends with is the end of a whole order.
pub fn layers_have_all_ends()
    ensures next { (p : Program) (rows : ℕ) (fronts others : List Front) → 0 < rows → IsLayer p rows fronts → AreNext p fronts others
        → IsLayer p (rows + 1) others }
    ensures all { (p : Program) (rows : ℕ) (fronts : List Front) → IsLayer p rows fronts → (log : List Event) → IsWholeRun p log
        → length (parents_of_rows log) ≡ rows → HasEnd fronts (config_of p log).values }
    ensures whole { (p : Program) (rows : ℕ) (fronts : List Front) → 0 < rows → rows ≤ MOST_ROWS → IsLayer p rows fronts
        → (values : List ℤ) → HasEnd fronts values
        → (parents : List ℕ) × IsWholeOrder p parents × (length parents ≡ rows) × ((serial_along p parents).values ≡ values) }
{}

/// With one row more its parent has one wish less, other rows have those that they had, and the new row has all of its own.
pub fn wishes_go_on()
    ensures other { (rows : List SerialRow) (x : SerialRow) (r : ℕ) → r < length rows → x.parent ≢ r
        → wishes_left (rows ++ x ∷ []) r ≡ wishes_left rows r }
    ensures parent { (rows : List SerialRow) (x : SerialRow) (r : ℕ) → r < length rows → x.parent ≡ r → (h : HasWish rows r)
        → wishes_left rows r ≡ behaviour_of h.wish ∷ wishes_left (rows ++ x ∷ []) r }
    ensures new { (rows : List SerialRow) (x : SerialRow) → children (length rows) (others_of (rows ++ x ∷ [])) ≡ 0
        → wishes_left (rows ++ x ∷ []) (length rows) ≡ map behaviour_of x.means.wishes }
{}

/// Two rows more that have no cown in common: those before each of them are those that claimed one of its cowns before both, and which rows claim a cown
/// then does not depend on their order either. So with the two exchanged the same holds, except for their numbers.
pub fn order_of_apart_rows_is_free()
    ensures first { (rows : List SerialRow) (x y : SerialRow) (a : ℕ)
        → ((d : ℕ) → 0 < times d x.behaviour.cowns → times d y.behaviour.cowns ≡ 0)
        → (IsBefore ((rows ++ x ∷ []) ++ y ∷ []) a (length rows) ↔ ClaimsOne rows x.behaviour.cowns a) }
    ensures second { (rows : List SerialRow) (x y : SerialRow) (a : ℕ)
        → ((d : ℕ) → 0 < times d x.behaviour.cowns → times d y.behaviour.cowns ≡ 0)
        → (IsBefore ((rows ++ x ∷ []) ++ y ∷ []) a (length rows + 1) ↔ ClaimsOne rows y.behaviour.cowns a) }
    ensures claims { (rows : List SerialRow) (x y : SerialRow) (c a : ℕ)
        → ((d : ℕ) → 0 < times d x.behaviour.cowns → times d y.behaviour.cowns ≡ 0)
        → (Claims ((rows ++ x ∷ []) ++ y ∷ []) c a ↔ (Claims rows c a
        ⊎ (((0 < times c x.behaviour.cowns) × ((a ≡ length rows) ⊎ ClaimsOne rows x.behaviour.cowns a))
        ⊎ ((0 < times c y.behaviour.cowns) × ((a ≡ length rows + 1) ⊎ ClaimsOne rows y.behaviour.cowns a))))) }
{}

/// A front that represents a serial run represents, after a step at a place, that run with one turn more of the row at that place.
pub fn steps_go_on()
    ensures { (p : Program) (s : Serial) (names : List ℕ) (f g : Front) (i r : ℕ) → StandsLoosely s names f → slice_get names i ≡ Some r
        → IsStep p f i g → StandsLoosely (after_turn p s r) (names ++ length s.rows ∷ []) g }
{}

/// A step at a place, and then any arrangement that leaves rows without wishes out, leads from front to front.
pub fn steps_lead()
    ensures { (p : Program) (f h g : Front) (i : ℕ) (order : List ℕ) → IsStep p f i h → IsArranged h order g → Leads p f i g }
{}

/// The front of main alone, arranged, is the first layer.
pub fn first_layer()
    ensures { (p : Program) (f g : Front) (order : List ℕ) → IsOpening p f → IsArranged f order g → IsLayer p 1 (g ∷ []) }
{}

// Laws of hot cowns: a cown is handed where rows conflict, there is one answer at most, none is held for longer than the span, and until which tick each
// is busy in every order.

ghost use Rattle.std.specs.Prelude.{◌≡◌, ◌≤◌, ◌↔◌, ℕ, true, All, List};
ghost use Rattle.boc_runs.specs.declared.rows.Row.{Row};
ghost use Rattle.boc_plans.specs.Plans.{ConflictOn, IsEnd};
ghost use Rattle.boc_plans.specs.Seen.{seen};
ghost use Rattle.boc_order.specs.Least.{KeepsApart, KeepsSpawns};
ghost use Rattle.boc_plans.specs.declared.sharing.Sharing.{Sharing};
ghost use Rattle.boc_runs.specs.Rows.{IsRows};
ghost use Rattle.boc_cowns.specs.declared.hot.HotCowns.{HotCowns};
ghost use Rattle.boc_cowns.specs.Hot.{IsHotCowns, busy_until, hands_cown};

/// Proves that a row hands a cown to another exactly where the two conflict on it.
pub fn handed_where_rows_conflict()
    ensures { (rows : List Row) (cown a b : ℕ) → (hands_cown rows cown a b ≡ true) ↔ ConflictOn rows cown a b }
{}

/// Proves that of the given number of cowns of some rows one thing is reported at most.
pub fn hot_cowns_are_one()
    ensures { (list : List Row) (sharing : Sharing) (count : ℕ) (hot other : HotCowns) → IsRows list → IsHotCowns list sharing count hot
        → IsHotCowns list sharing count other
        → (hot.span ≡ other.span) × (hot.least ≡ other.least) × (hot.shared ≡ other.shared) × (hot.cowns.items ≡ other.cowns.items) }
{}

/// Proves that no plan that keeps the spawns of some rows, and keeps rows that conflict over a cown apart in whatever order, ends before the tick until which a
/// cown that is reported is busy: the ticks for which it is held by one row alone, after one before which no row that wrote it starts.
pub fn busy_in_every_order()
    ensures { (list : List Row) (sharing : Sharing) (count : ℕ) (hot : HotCowns) (plan : List ℕ) (last : ℕ) → IsRows list
        → IsHotCowns list sharing count hot → KeepsSpawns (seen sharing list) plan → KeepsApart (seen sharing list) plan
        → IsEnd (seen sharing list) plan last → All (λ own. busy_until own ≤ last) hot.cowns.items }
{}

/// Proves that each cown that is reported is held by one row alone for as long as the rows take, at most.
pub fn held_within_the_span()
    ensures { (list : List Row) (sharing : Sharing) (count : ℕ) (hot : HotCowns) → IsRows list → IsHotCowns list sharing count hot
        → All (λ own. own.held ≤ hot.span) hot.cowns.items }
{}

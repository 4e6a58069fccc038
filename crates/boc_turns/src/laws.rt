// Laws of turns: there is one end at most, no times that keep the rules end sooner, and the end is between that of the rows without the relaxed cowns and the
// span.

ghost use Rattle.std.specs.Prelude.{◌≡◌, ℕ, ◌<◌, ◌≤◌, Bool, List, [], Option, length};
ghost use Rattle.boc_runs.specs.declared.rows.Row.{Row};
ghost use Rattle.boc_runs.specs.Rows.{IsRows, ticks_of};
ghost use Rattle.boc_plans.specs.Greedy.{IsSpan};
ghost use Rattle.boc_uses.specs.declared.uses.Use.{Use};
ghost use Rattle.boc_turns.specs.Splits.{SplitEndsBy, detached};
ghost use Rattle.boc_turns.specs.Turns.{AreEarliest, AreOverBy, AreUses, AreWithin, IsTurn, IsUsedEnd, KeepsTurns, Times, among, without_all};

/// Proves that the earliest times that keep the rules of turns are one at each row and turn, and that they have one end.
pub fn used_plan_is_one()
    ensures ticks { (rows : List Row) (uses : List (Option Use)) (relaxed : ℕ → Bool) (times others : Times) → AreEarliest rows uses relaxed times
        → AreEarliest rows uses relaxed others → (r k : ℕ) → r < length rows → k ≤ ticks_of rows r → times.made r k ≡ others.made r k }
    ensures turns { (rows : List Row) (uses : List (Option Use)) (relaxed : ℕ → Bool) (times others : Times) → AreEarliest rows uses relaxed times
        → AreEarliest rows uses relaxed others → (r c : ℕ) (u : Use) → r < length rows → IsTurn rows uses relaxed r c u → times.begun r c ≡ others.begun r c }
    ensures end { (rows : List Row) (uses : List (Option Use)) (relaxed : ℕ → Bool) (end other : ℕ) → AreUses rows uses
        → IsUsedEnd rows uses relaxed end → IsUsedEnd rows uses relaxed other → end ≡ other }
{}

/// Proves that no times that keep the rules of turns end before the earliest do.
pub fn used_plan_is_least()
    ensures { (rows : List Row) (uses : List (Option Use)) (relaxed : ℕ → Bool) (times : Times) (tick end : ℕ) → AreUses rows uses
        → KeepsTurns rows uses relaxed times → AreOverBy rows uses relaxed times tick → IsUsedEnd rows uses relaxed end → end ≤ tick }
{}

/// Proves that rows of which some cowns are held only while they are used end no sooner than without these cowns, and no later than the rows as they are. If
/// more cowns are relaxed, they end no later; if none is, they end when the rows do.
pub fn used_lies_between()
    ensures low { (rows : List Row) (uses : List (Option Use)) (cowns : List ℕ) (span end : ℕ) → IsRows rows → IsSpan (without_all cowns rows) span
        → IsUsedEnd rows uses (among cowns) end → span ≤ end }
    ensures high { (rows : List Row) (uses : List (Option Use)) (relaxed : ℕ → Bool) (span end : ℕ) → AreUses rows uses → IsSpan rows span
        → IsUsedEnd rows uses relaxed end → end ≤ span }
    ensures more { (rows : List Row) (uses : List (Option Use)) (relaxed others : ℕ → Bool) (end other : ℕ) → AreUses rows uses
        → AreWithin relaxed others → IsUsedEnd rows uses relaxed end → IsUsedEnd rows uses others other → other ≤ end }
    ensures none { (rows : List Row) (uses : List (Option Use)) (span end : ℕ) → IsRows rows → AreUses rows uses → IsSpan rows span
        → IsUsedEnd rows uses (among []) end → end ≡ span }
{}

/// Proves that no split of the relaxed cowns ends sooner than if no body waited for a turn. In a split, rows keep their ticks, their spawns and the order of
/// the other cowns, and their turns are unbroken and follow one another in the order of rows. The earliest times of turns end no sooner either. And rows in
/// which no body waits for a turn end no sooner than without the relaxed cowns.
pub fn no_split_ends_before()
    ensures split { (rows : List Row) (uses : List (Option Use)) (relaxed : ℕ → Bool) (tick end : ℕ) → AreUses rows uses
        → SplitEndsBy rows uses relaxed tick → IsUsedEnd rows (detached uses) relaxed end → end ≤ tick }
    ensures turns { (rows : List Row) (uses : List (Option Use)) (relaxed : ℕ → Bool) (low end : ℕ) → AreUses rows uses
        → IsUsedEnd rows (detached uses) relaxed low → IsUsedEnd rows uses relaxed end → low ≤ end }
    ensures without { (rows : List Row) (uses : List (Option Use)) (cowns : List ℕ) (span end : ℕ) → IsRows rows → IsSpan (without_all cowns rows) span
        → IsUsedEnd rows (detached uses) (among cowns) end → span ≤ end }
{}

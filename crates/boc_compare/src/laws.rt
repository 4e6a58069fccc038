// Laws of two runs: of each one thing is known, changes of the chain add up to that of the span, and a run compared with itself does not change. Two runs in
// the other order have the same changes, turned.

ghost use Rattle.std.specs.Prelude.{◌≡◌, ◌↔◌, All, List, length};
ghost use Rattle.std.specs.List.{Contains};
ghost use Rattle.boc_names.specs.Names.{Text};
ghost use Rattle.boc_remedies.specs.Questions.{Asked};
ghost use Rattle.boc_runs.specs.Rows.{IsRows};
ghost use Rattle.boc_compare.specs.declared.pairs.Pair.{Pair};
ghost use Rattle.boc_compare.specs.declared.side.Side.{Side};
ghost use Rattle.boc_compare.specs.declared.totals.Totals.{Totals};
ghost use Rattle.boc_compare.specs.Changing.{chain_after, chain_before, turned};
ghost use Rattle.boc_compare.specs.Laws.{SayTheSame};
ghost use Rattle.boc_compare.specs.Pairing.{AreChanges, AreNamedApart};
ghost use Rattle.boc_compare.specs.Sides.{IsSide};

/// Proves that of a run one thing is known at most: two sides say the same.
pub fn sides_are_one()
    ensures { (question : Asked) (side other : Side) → IsRows question.rows → length question.defs ≡ length question.rows → IsSide question side
        → IsSide question other → SayTheSame side other }
{}

/// Proves that what the defs have of the chain adds up to the span, before and after, where no two defs of a run have the same name. So the changes by def add
/// up to the change of the span.
pub fn changes_add_up()
    ensures { (first second : Asked) (before after : Side) (before_names after_names : List Text) (pairs : List Pair) → length first.defs ≡ length first.rows
        → length second.defs ≡ length second.rows → IsSide first before → IsSide second after → AreNamedApart before_names before.defs.items
        → AreNamedApart after_names after.defs.items → AreChanges before.defs.items before_names after.defs.items after_names pairs
        → (chain_before pairs ≡ before.times.span) × (chain_after pairs ≡ after.times.span) }
{}

/// Proves that what is known of a run is the same before and after where it is compared with itself, if no two defs or families have the same name.
pub fn same_run_has_no_changes()
    ensures { (list : List Totals) (names : List Text) (pairs : List Pair) → AreNamedApart names list → AreChanges list names list names pairs
        → All (λ pair. pair.before ≡ pair.after) pairs }
{}

/// Proves that two runs in the other order have the same changes, each with before and after exchanged, if no two defs or families of a run have the same name.
pub fn changes_turn()
    ensures { (before after : List Totals) (before_names after_names : List Text) (pairs others : List Pair) → AreNamedApart before_names before
        → AreNamedApart after_names after → AreChanges before before_names after after_names pairs → AreChanges after after_names before before_names others
        → (pair : Pair) → Contains pairs pair ↔ Contains others (turned pair) }
{}

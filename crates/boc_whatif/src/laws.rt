// Laws of rows that change: it is one whether they change before they are seen or after, and before a cown is left out or after.

ghost use Rattle.std.specs.Prelude.{◌≡◌, ℕ, List};
ghost use Rattle.boc_runs.specs.declared.rows.Row.{Row};
ghost use Rattle.boc_runs.specs.Rows.{edited};
ghost use Rattle.boc_runs.specs.Changes.{IsScaled, moved, without};
ghost use Rattle.boc_plans.specs.declared.edit.Change.{Change};
ghost use Rattle.boc_plans.specs.declared.sharing.Sharing.{Sharing};
ghost use Rattle.boc_plans.specs.Edits.{IsChanged};
ghost use Rattle.boc_plans.specs.Seen.{seen};

/// Proves that rows that are changed are seen as the rows that are seen are changed.
pub fn changes_are_seen()
    ensures ticks { (sharing : Sharing) (rows : List Row) (row ticks : ℕ) → seen sharing (edited rows row ticks) ≡ edited (seen sharing rows) row ticks }
    ensures offset { (sharing : Sharing) (rows : List Row) (row offset : ℕ) → seen sharing (moved rows row offset) ≡ moved (seen sharing rows) row offset }
    ensures cown { (sharing : Sharing) (rows : List Row) (cown : ℕ) → seen sharing (without cown rows) ≡ without cown (seen sharing rows) }
    ensures cost { (sharing : Sharing) (rows : List Row) (row over under : ℕ) (after : List Row) → IsScaled rows row over under after
        → IsScaled (seen sharing rows) row over under (seen sharing after) }
{}

/// Proves that a row changes without a cown as it does with it.
pub fn cowns_do_not_matter_to_changes()
    ensures { (rows : List Row) (cown row : ℕ) (change : Change) (after : List Row) → IsChanged rows row change after
        → IsChanged (without cown rows) row change (without cown after) }
{}

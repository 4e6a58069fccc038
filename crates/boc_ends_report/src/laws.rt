// Laws of texts.

ghost use Rattle.std.specs.Prelude.{◌≡◌, ℕ, List};
ghost use Rattle.boc_program.specs.declared.cown.Cown.{Cown};
ghost use Rattle.boc_outcomes.specs.declared.tally.Outcomes.{Outcomes};
ghost use Rattle.boc_outcomes.specs.Tallies.{AreSame};
ghost use Rattle.boc_ends_report.specs.OutcomeTexts.{outcomes_text};

/// Proves that outcomes that are the same have one text.
pub fn outcomes_have_one_text()
    ensures { (cowns : List Cown) (runs : ℕ) (a b : Outcomes) → AreSame a b → outcomes_text cowns runs a ≡ outcomes_text cowns runs b }
{}

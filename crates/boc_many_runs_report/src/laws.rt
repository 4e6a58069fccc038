// Laws of texts.

ghost use Rattle.std.specs.Prelude.{◌≡◌};
ghost use Rattle.boc_names.specs.declared.names.Names.{Names};
ghost use Rattle.boc_names.specs.Names.{CallTheSame, Text};
ghost use Rattle.boc_many_runs.specs.declared.many.ManyRuns.{ManyRuns};
ghost use Rattle.boc_many_runs.specs.Many.{SayTheSame};
ghost use Rattle.boc_many_runs_report.specs.declared.told.ManyTold.{ManyTold};
ghost use Rattle.boc_many_runs_report.specs.ManyTexts.{IsManyText};

/// Proves that what many runs say has one text, in names that call everything the same.
pub fn many_runs_have_one_text()
    ensures { (names other_names : Names) (told : ManyTold) (many other : ManyRuns) (text other_text : Text) → CallTheSame names other_names
        → SayTheSame many other → IsManyText names told many text → IsManyText other_names told other other_text → text ≡ other_text }
{}

// Laws of texts.

ghost use Rattle.std.specs.Prelude.{◌≡◌};
ghost use Rattle.boc_names.specs.Names.{Text};
ghost use Rattle.boc_compare_report.specs.declared.told.Compared.{Compared};
ghost use Rattle.boc_compare_report.specs.Compared.{IsCompareText};
ghost use Rattle.boc_compare_report.specs.Same.{TellTheSame};

/// Proves that what is reported of the same two runs has one text, in names that call everything the same.
pub fn two_runs_have_one_text()
    ensures { (own other : Compared) (text other_text : Text) → TellTheSame own other → IsCompareText own text → IsCompareText other other_text
        → text ≡ other_text }
{}

// The law that what is reported of cowns has one text.

ghost use Rattle.std.specs.Prelude.{◌≡◌, ℕ, Option};
ghost use Rattle.boc_plans.specs.declared.sharing.Sharing.{Sharing};
ghost use Rattle.boc_names.specs.declared.names.Names.{Names};
ghost use Rattle.boc_names.specs.Names.{CallTheSame, Text};
ghost use Rattle.boc_cowns_report.specs.declared.told.CownsTold.{CownsTold};
ghost use Rattle.boc_cowns_report.specs.CownsTexts.{IsCownsText};
ghost use Rattle.boc_cowns_report.specs.Same.{TellTheSame};

/// Proves that what is reported of the same cowns has one text, in names that call everything the same.
pub fn cowns_have_one_text()
    ensures { (names other_names : Names) (sharing : Sharing) (most : Option ℕ) (told other : CownsTold) (text other_text : Text)
        → CallTheSame names other_names → TellTheSame told other → IsCownsText names sharing most told text
        → IsCownsText other_names sharing most other other_text → text ≡ other_text }
{}

// Laws: what is reported has one text.

ghost use Rattle.std.specs.Prelude.{◌≡◌, Bool};
ghost use Rattle.boc_names.specs.declared.names.Names.{Names};
ghost use Rattle.boc_names.specs.Names.{CallTheSame};
ghost use Rattle.boc_why.specs.declared.why.Why.{Why};
ghost use Rattle.boc_why.specs.Why.{SayTheSame};
ghost use Rattle.boc_why_report.specs.declared.short.Outcome.{Outcome};
ghost use Rattle.boc_why_report.specs.declared.told.TimedEnd.{TimedEnd};
ghost use Rattle.boc_why_report.specs.ShortTexts.{ComeToTheSame, short_text};
ghost use Rattle.boc_why_report.specs.WhyTexts.{chain_told};

/// Proves that of whys that say the same the chain has one text, in names that call everything the same.
pub fn chain_has_one_text()
    ensures { (names other_names : Names) (all : Bool) (why other : Why) → CallTheSame names other_names → SayTheSame why other
        → chain_told names all why ≡ chain_told other_names all other }
{}

/// Proves that rows that take the same before and after they change have one short text, in names that call everything the same.
pub fn change_has_one_text()
    ensures { (names other_names : Names) (was now was_too now_too : Outcome) → CallTheSame names other_names → ComeToTheSame was was_too
        → ComeToTheSame now now_too → short_text names was now ≡ short_text other_names was_too now_too }
{}

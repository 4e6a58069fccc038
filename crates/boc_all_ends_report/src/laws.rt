// Laws of texts.

ghost use Rattle.std.specs.Prelude.{◌≡◌, ℕ, List, true};
ghost use Rattle.boc_program.specs.declared.cown.Cown.{Cown};
ghost use Rattle.boc_program.specs.declared.program.Program.{Program};
ghost use Rattle.boc_all_ends.specs.declared.found.Found.{Found};
ghost use Rattle.boc_all_ends.specs.Ends.{IsFound};
ghost use Rattle.boc_all_ends_report.specs.EndTexts.{told_ends};

/// Proves that two searches of a program that went through all fronts, also with other limits, have found the same ends, and that these have one text.
pub fn whole_searches_tell_one_text()
    ensures { (p : Program) (most other : ℕ) (cowns : List Cown) (a b : Found) → IsFound p most a → IsFound p other b → a.whole ≡ true → b.whole ≡ true
        → told_ends cowns a.endless a.all.items ≡ told_ends cowns b.endless b.all.items }
{}

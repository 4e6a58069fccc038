//! That there is one answer of the commands that report on a run by its names.

ghost use Rattle.std.specs.Prelude.{◌≡◌, ℕ, Bool, List, Option, Some, String};
ghost use Rattle.std.specs.Global.{Global};
ghost use Rattle.boc_runs.specs.Records.{Recorded};
ghost use Rattle.boc_plans.specs.declared.sharing.Sharing.{Sharing};
ghost use Rattle.boc_record.specs.RecordTexts.{IsTextOf};
ghost use Rattle.boc_words.specs.declared.asked.AskedChanges.{AskedChanges};
ghost use Rattle.boc_words.specs.declared.asked.AskedCompare.{AskedCompare};
ghost use Rattle.boc_words.specs.declared.asked.AskedCowns.{AskedCowns};
ghost use Rattle.boc_words.specs.declared.asked.AskedCurve.{AskedCurve};
ghost use Rattle.boc_words.specs.declared.asked.AskedPlans.{AskedPlans};
ghost use Rattle.boc_words.specs.declared.asked.AskedProfile.{AskedProfile};
ghost use Rattle.boc_words.specs.declared.asked.AskedSweep.{AskedSweep};
ghost use Rattle.boc_words.specs.declared.asked.AskedWhy.{AskedWhy};
ghost use Rattle.boc_words.specs.declared.asked.CompareFiles.{CompareFiles};
ghost use Rattle.boc_words.specs.declared.asked.WhatIfFile.{WhatIfFile};
ghost use Rattle.boc_words.specs.declared.asked.RunFile.{RunFile};
ghost use Rattle.boc_words.specs.declared.asked.RunFile.TheVariants as run_files;
ghost use Rattle.boc_words.specs.declared.schedule.Schedule.{Schedule};
ghost use Rattle.boc_plan_commands.specs.declared.program_input.Supplied.{Supplied};
ghost use Rattle.boc_plan_commands.specs.declared.program_input.Supplied.TheVariants.{Record};
ghost use Rattle.boc_plan_commands.specs.Tells.{TellsCowns, TellsProfileOf, TellsProgramProfile, TellsWhy};
ghost use Rattle.boc_plan_commands.specs.ProgramInputs.{IsCurveOf, IsProgramCurve};
ghost use Rattle.boc_plan_commands.specs.SweepAnswers.{AnswersSweep, IsProgramSweep};
ghost use Rattle.boc_plan_commands.specs.WhatIfAnswers.{AnswersWhatIf, IsProgramWhatIf, IsWhatIfAnswer};
ghost use Rattle.boc_several_commands.specs.declared.compare.Pair.{Pair};
ghost use Rattle.boc_several_commands.specs.Comparing.{TellsCompare};

/// Proves that of one run there is one answer at most of `why`, with one text of notes, and one of `cowns`. Where a program comes in, the threads decide which
/// run is reported of; its record decides all that is reported.
pub fn run_has_one_answer()
    ensures why { (asked : AskedWhy) (file : Option RunFile) (bytes input notes output others other : List ℕ)
        → (one : TellsWhy asked file bytes notes input output) → (another : TellsWhy asked file bytes others input other)
        → one.answer.recorded ≡ another.answer.recorded → (notes ≡ others) × (output ≡ other) }
    ensures cowns { (asked : AskedCowns) (file : Option RunFile) (bytes input notes output others other : List ℕ)
        → (one : TellsCowns asked file bytes notes input output) → (another : TellsCowns asked file bytes others input other)
        → one.answer.recorded ≡ another.answer.recorded → (notes ≡ others) × (output ≡ other) }
{}

/// Proves that the text of a record has one answer at most of `why`, with one text of notes, and one of `cowns`, with a file of names next to it or without
/// one.
pub fn record_has_one_answer()
    ensures why { (asked : AskedWhy) (file : Option RunFile) (bytes input notes output others other : List ℕ) (recorded : Recorded)
        → IsTextOf input recorded → TellsWhy asked file bytes notes input output → TellsWhy asked file bytes others input other
        → (notes ≡ others) × (output ≡ other) }
    ensures cowns { (asked : AskedCowns) (file : Option RunFile) (bytes input notes output others other : List ℕ) (recorded : Recorded)
        → IsTextOf input recorded → TellsCowns asked file bytes notes input output → TellsCowns asked file bytes others input other
        → (notes ≡ others) × (output ≡ other) }
{}

/// Proves that a program has one answer at most of `why`, with one text of notes, and one of `cowns`, with a file with the record of a run of it.
pub fn run_in_a_file_has_one_answer()
    ensures why { (asked : AskedWhy) (path : String Global) (bytes input notes output others other : List ℕ)
        → TellsWhy asked (Some (run_files.Record path)) bytes notes input output
        → TellsWhy asked (Some (run_files.Record path)) bytes others input other → (notes ≡ others) × (output ≡ other) }
    ensures cowns { (asked : AskedCowns) (path : String Global) (bytes input notes output others other : List ℕ)
        → TellsCowns asked (Some (run_files.Record path)) bytes notes input output
        → TellsCowns asked (Some (run_files.Record path)) bytes others input other → (notes ≡ others) × (output ≡ other) }
{}

/// Proves that of two runs there is one answer at most of `compare`, with one text of notes: their records decide all that is reported. So two texts of records
/// have one, with files of names or without.
pub fn two_runs_have_one_answer()
    ensures runs { (asked : AskedCompare) (files : CompareFiles) (pair : Pair) (input notes output others other : List ℕ)
        → (one : TellsCompare asked files pair notes input output) → (another : TellsCompare asked files pair others input other)
        → one.before_is.recorded ≡ another.before_is.recorded → one.after_is.recorded ≡ another.after_is.recorded → (notes ≡ others) × (output ≡ other) }
    ensures records { (asked : AskedCompare) (files : CompareFiles) (pair : Pair) (input notes output others other : List ℕ) (before after : Recorded)
        → IsTextOf input before → IsTextOf pair.after.items after → TellsCompare asked files pair notes input output
        → TellsCompare asked files pair others input other → (notes ≡ others) × (output ≡ other) }
{}

/// Proves that what is supposed of a record has one answer of `whatif` at most, at length or in short, with a program, with a file of names, or by numbers.
pub fn changed_record_has_one_answer()
    ensures { (file : Option WhatIfFile) (bytes : List ℕ) (changes : AskedChanges) (sharing : Sharing) (plans : AskedPlans)
        (short : Bool) (input output other : List ℕ) → IsWhatIfAnswer file bytes changes sharing plans short input output
        → IsWhatIfAnswer file bytes changes sharing plans short input other → output ≡ other }
{}

/// Proves that of one run of a program there is one answer at most of `profile`, with one text of notes, and one of `curve`, `sweep` and `whatif`. The threads
/// decide which run is reported of; its record decides all that is reported.
pub fn program_run_has_one_answer()
    ensures profile { (asked : AskedProfile) (supplied : Supplied) (bytes input notes output others other : List ℕ)
        → (one : TellsProgramProfile asked supplied bytes notes input output) → (another : TellsProgramProfile asked supplied bytes others input other)
        → one.recorded ≡ another.recorded → (notes ≡ others) × (output ≡ other) }
    ensures curve { (asked : AskedCurve) (supplied : Supplied) (bytes input output other : List ℕ)
        → (one : IsProgramCurve asked supplied bytes input output) → (another : IsProgramCurve asked supplied bytes input other)
        → one.recorded ≡ another.recorded → output ≡ other }
    ensures sweep { (asked : AskedSweep) (supplied : Supplied) (bytes input output other : List ℕ)
        → (one : IsProgramSweep asked supplied bytes input output) → (another : IsProgramSweep asked supplied bytes input other)
        → one.recorded ≡ another.recorded → output ≡ other }
    ensures whatif { (schedule : Schedule) (supplied : Supplied) (bytes : List ℕ) (changes : AskedChanges) (sharing : Sharing)
        (plans : AskedPlans) (short : Bool) (input output other : List ℕ)
        → (one : IsProgramWhatIf schedule supplied bytes changes sharing plans short input output)
        → (another : IsProgramWhatIf schedule supplied bytes changes sharing plans short input other)
        → one.recorded ≡ another.recorded → output ≡ other }
{}

/// Proves that a program has one answer at most of these commands, with a file with the record of a run of it.
pub fn program_run_in_a_file_has_one_answer()
    ensures profile { (asked : AskedProfile) (bytes input notes output others other : List ℕ)
        → TellsProgramProfile asked Record bytes notes input output → TellsProgramProfile asked Record bytes others input other
        → (notes ≡ others) × (output ≡ other) }
    ensures curve { (asked : AskedCurve) (bytes input output other : List ℕ) → IsProgramCurve asked Record bytes input output
        → IsProgramCurve asked Record bytes input other → output ≡ other }
    ensures sweep { (asked : AskedSweep) (bytes input output other : List ℕ) → IsProgramSweep asked Record bytes input output
        → IsProgramSweep asked Record bytes input other → output ≡ other }
    ensures whatif { (schedule : Schedule) (bytes : List ℕ) (changes : AskedChanges) (sharing : Sharing)
        (plans : AskedPlans) (short : Bool) (input output other : List ℕ)
        → IsProgramWhatIf schedule Record bytes changes sharing plans short input output
        → IsProgramWhatIf schedule Record bytes changes sharing plans short input other → output ≡ other }
{}

/// Proves that the text of a record has one answer at most of these commands, whatever file is given with it: it spells no program.
pub fn record_has_one_answer_of_either()
    ensures profile { (asked : AskedProfile) (supplied : Supplied) (bytes input notes output others other : List ℕ) (recorded : Recorded)
        → IsTextOf input recorded → TellsProfileOf asked supplied bytes notes input output → TellsProfileOf asked supplied bytes others input other
        → (notes ≡ others) × (output ≡ other) }
    ensures curve { (asked : AskedCurve) (supplied : Supplied) (bytes input output other : List ℕ) (recorded : Recorded) → IsTextOf input recorded
        → IsCurveOf asked supplied bytes input output → IsCurveOf asked supplied bytes input other → output ≡ other }
    ensures sweep { (asked : AskedSweep) (supplied : Supplied) (bytes input output other : List ℕ) (recorded : Recorded) → IsTextOf input recorded
        → AnswersSweep asked supplied bytes input output → AnswersSweep asked supplied bytes input other → output ≡ other }
    ensures whatif { (schedule : Schedule) (file : Option WhatIfFile) (bytes : List ℕ) (changes : AskedChanges)
        (sharing : Sharing) (plans : AskedPlans) (short : Bool) (input output other : List ℕ) (recorded : Recorded) → IsTextOf input recorded
        → AnswersWhatIf schedule file bytes changes sharing plans short input output
        → AnswersWhatIf schedule file bytes changes sharing plans short input other → output ≡ other }
{}

//! What many runs of programs say is a function of the programs and of what is requested, so that an input has one answer.

ghost use Rattle.std.specs.Prelude.{◌≡◌, ℕ, List};
ghost use Rattle.boc_words.specs.declared.asked.AskedRuns.{AskedRuns};
ghost use Rattle.boc_many_runs.specs.declared.many.ManyRuns.{ManyRuns};
ghost use Rattle.boc_many_runs.specs.Many.{SayTheSame};
ghost use Rattle.boc_several_commands.specs.CompareRuns.{IsCompareRunsAnswer};
ghost use Rattle.boc_several_commands.specs.WhyRuns.{AreRunsIn, IsWhyRunsAnswer};

/// Proves that many runs of the program that an input spells say one thing, in one text, for what was requested. So an input has one answer of `why` at most
/// where it reports on many runs, however many threads share them out.
pub fn runs_have_one_answer()
    ensures said { (asked : AskedRuns) (input : List ℕ) (many other : ManyRuns) (output others : List ℕ) → AreRunsIn asked input many output
        → AreRunsIn asked input other others → SayTheSame many other × (output ≡ others) }
    ensures answered { (asked : AskedRuns) (input output other : List ℕ) → IsWhyRunsAnswer asked input output → IsWhyRunsAnswer asked input other
        → output ≡ other }
{}

/// Proves that two programs have one answer of `compare` at most where it reports on many runs, for what was requested.
pub fn compared_runs_have_one_answer()
    ensures { (asked : AskedRuns) (after_text input output other : List ℕ) → IsCompareRunsAnswer asked after_text input output
        → IsCompareRunsAnswer asked after_text input other → output ≡ other }
{}

// Laws of outcomes.

ghost use Rattle.std.specs.Prelude.{◌≡◌, ℕ, List, length, Some, Ok, Err, slice_get};
ghost use Rattle.boc_program.specs.declared.program.Program.{Program};
ghost use Rattle.boc_draws.specs.declared.fault.DrawFault.TheVariants.{Behaviours};
ghost use Rattle.boc_outcomes.specs.declared.asked.Asked.{Asked};
ghost use Rattle.boc_outcomes.specs.declared.tally.Outcome.{Outcome};
ghost use Rattle.boc_outcomes.specs.declared.tally.Outcomes.{Outcomes};
ghost use Rattle.boc_outcomes.specs.Samples.{Sample, AreSamples, IsSample};
ghost use Rattle.boc_outcomes.specs.Tallies.{AnswersAsked, AreSame, IsTally, all_runs};

/// Proves that samples have one tally at most: the same outcomes in the same order, with the same numbers.
pub fn samples_have_one_tally()
    ensures { (seed : ℕ) (samples : List Sample) (a b : Outcomes) → IsTally seed samples a → IsTally seed samples b → AreSame a b }
{}

/// Proves that the runs of the outcomes of a tally add up to the samples.
pub fn runs_add_up()
    ensures { (seed : ℕ) (samples : List Sample) (a : Outcomes) → IsTally seed samples a → all_runs a.all.items ≡ length samples }
{}

/// Proves that what is answered is a function of the program, the workers, the way, the seed and the number of draws: the draws reach the same, and so
/// the outcomes are the same, whose runs add up to the draws; and where there are outcomes no draw runs out of room.
pub fn draws_have_one_answer()
    ensures samples { (p : Program) (asked : Asked) (count : ℕ) (xs ys : List Sample) → AreSamples p asked count xs → AreSamples p asked count ys → xs ≡ ys }
    ensures outcomes { (p : Program) (asked : Asked) (a b : Outcomes) → AnswersAsked p asked (Ok a) → AnswersAsked p asked (Ok b) → AreSame a b }
    ensures runs { (p : Program) (asked : Asked) (a : Outcomes) → AnswersAsked p asked (Ok a) → all_runs a.all.items ≡ asked.runs }
    ensures either { (p : Program) (asked : Asked) (a : Outcomes) → AnswersAsked p asked (Ok a) → AnswersAsked p asked (Err Behaviours) → ⊥ }
{}

/// Proves that the seed of an outcome repeats it: as many workers, picked in the same way by its words, reach its values.
pub fn seeds_bring_outcomes_back()
    ensures { (p : Program) (asked : Asked) (a : Outcomes) (i : ℕ) (o : Outcome) → AnswersAsked p asked (Ok a) → slice_get a.all.items i ≡ Some o
        → (sample : Sample) × IsSample p asked.workers asked.way o.seed sample × (sample.values ≡ o.values.items) }
{}

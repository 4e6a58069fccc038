//! What is promised of every run and of the plans of its rows, and that an input has one answer.

ghost use Rattle.std.specs.Prelude.{◌≡◌, ℕ, List, Option, None, Some, false, true, slice_get};
ghost use Rattle.boc_words.specs.declared.asked.AskedChanges.{AskedChanges};
ghost use Rattle.boc_words.specs.declared.asked.AskedDraws.{AskedDraws};
ghost use Rattle.boc_words.specs.declared.asked.AskedPlans.{AskedPlans};
ghost use Rattle.boc_program.specs.declared.program.Program.{Program};
ghost use Rattle.boc_runs.specs.declared.rows.Row.{Row};
ghost use Rattle.boc_plans.specs.declared.sharing.Sharing.{Sharing};
ghost use Rattle.boc_plans.specs.declared.sweep.Sweep.{Sweep};
ghost use Rattle.boc_runs.specs.Records.{Recorded};
ghost use Rattle.boc_runs.specs.Rows.{IsRows};
ghost use Rattle.boc_runs.specs.Run.{config_of};
ghost use Rattle.boc_outcomes.specs.declared.tally.Outcome.{Outcome};
ghost use Rattle.boc_words.specs.declared.schedule.Schedule.TheVariants.{Drawn as Draws};
ghost use Rattle.boc_draws.specs.declared.fault.DrawFault.TheVariants.{Behaviours};
ghost use Rattle.boc_workers.specs.Noting.{CanReachLimit};
ghost use Rattle.boc_run_commands.specs.Schedules.{IsDrawFault, IsDrawnBy, IsScheduledText};
ghost use Rattle.boc_plans.specs.Seen.{seen};
ghost use Rattle.boc_reader.specs.Spells.{Spells};
ghost use Rattle.boc_all_ends_report.specs.EndTexts.{told_ends};
ghost use Rattle.boc_all_ends_commands.specs.AllEndsAnswers.{IsAllEndsAnswer};
ghost use Rattle.boc_run_commands.specs.Answers.{IsReport, IsValuesAnswer, IsCheckAnswer, IsProfileAnswer, IsCurveAnswer, IsSweepAnswer};
ghost use Rattle.boc_plan_commands.specs.BestAnswers.{IsBestAnswer};
ghost use Rattle.boc_run_commands.specs.Beside.{IsCheckAgainstAnswer, IsValuesAfterAnswer};
ghost use Rattle.boc_run_commands.specs.OutcomesAnswers.{IsOutcomesAnswer};
ghost use Rattle.boc_plan_commands.specs.WhatIfAnswers.{IsWhatIfAnswer};
ghost use Rattle.boc_order.specs.declared.report.Profile.{Profile};
ghost use Rattle.boc_order.specs.Profiles.{IsProfileOf};
ghost use Rattle.boc_greedy.specs.declared.plan.Greedy.{Greedy};
ghost use Rattle.boc_greedy.specs.Plans.{IsGreedyPlanOf};
ghost use Rattle.boc_run_commands.specs.Promises.{IsBest, IsTrueReport, IsWithinBound};

/// Proves that the plan, the chain and the span that `profile` answers are the best, and the greedy plan that `greedy` answers ends within
/// its bound, for the rows of every run, however they share cowns.
pub fn answers_are_true()
    ensures best { (rows : List Row) (sharing : Sharing) (profile : Profile) → IsProfileOf (seen sharing rows) profile
        → IsBest (seen sharing rows) profile.starts.items profile.chain.steps.items profile.span }
    ensures greedy { (rows : List Row) (sharing : Sharing) (p : ℕ) (plan : Greedy) → IsRows rows → IsGreedyPlanOf (seen sharing rows) p plan
        → IsWithinBound (seen sharing rows) p plan.starts.items plan.workers.items plan.ends_at }
{}

/// Proves that every report on the rows of a record is true, however they share cowns.
pub fn reports_are_true()
    ensures { (rows : List Row) (sharing : Sharing) (asked : AskedPlans) (text : List ℕ) → IsRows rows → IsReport (seen sharing rows) asked text
        → IsTrueReport (seen sharing rows) asked text }
{}

/// Proves that rows have one report at most, whatever plans are asked for.
pub fn rows_have_one_report()
    ensures { (rows : List Row) (asked : AskedPlans) (output other : List ℕ) → IsRows rows → IsReport rows asked output → IsReport rows asked other
        → output ≡ other }
{}

/// Proves that an input has one answer at most, of each command that starts no threads for a run: of a text that spells a program one output of `values`, and
/// for what was asked one of `outcomes`; of the text of a record one of `check`, and for what was asked one of `profile`, `whatif` with no file, `curve` and
/// `sweep`. With one file it has one output of `check` with a program, and of `values` with a record.
pub fn input_has_one_answer()
    ensures values { (input output other : List ℕ) → IsValuesAnswer input output → IsValuesAnswer input other → output ≡ other }
    ensures check { (input output other : List ℕ) → IsCheckAnswer input output → IsCheckAnswer input other → output ≡ other }
    ensures check_against { (beside input output other : List ℕ) → IsCheckAgainstAnswer beside input output → IsCheckAgainstAnswer beside input other
        → output ≡ other }
    ensures values_after { (beside input output other : List ℕ) → IsValuesAfterAnswer beside input output → IsValuesAfterAnswer beside input other
        → output ≡ other }
    ensures profile { (sharing : Sharing) (asked : AskedPlans) (input output other : List ℕ) → IsProfileAnswer sharing asked input output
        → IsProfileAnswer sharing asked input other → output ≡ other }
    ensures whatif { (changes : AskedChanges) (sharing : Sharing) (asked : AskedPlans) (bytes input output other : List ℕ)
        → IsWhatIfAnswer None bytes changes sharing asked false input output → IsWhatIfAnswer None bytes changes sharing asked false input other
        → output ≡ other }
    ensures curve { (sharing : Sharing) (most : ℕ) (input output other : List ℕ) → IsCurveAnswer sharing most input output
        → IsCurveAnswer sharing most input other → output ≡ other }
    ensures sweep { (sharing : Sharing) (over : Sweep) (input output other : List ℕ) → IsSweepAnswer sharing over input output
        → IsSweepAnswer sharing over input other → output ≡ other }
    ensures best { (sharing : Sharing) (over : Sweep) (most : ℕ) (input output other : List ℕ) → IsBestAnswer sharing over most input output
        → IsBestAnswer sharing over most input other → output ≡ other }
    ensures outcomes { (draws : AskedDraws) (input output other : List ℕ) → IsOutcomesAnswer draws input output → IsOutcomesAnswer draws input other
        → output ≡ other }
{}

/// Proves that a text has one answer of `outcomes --all` if the search goes through, whatever its limit, except for how many fronts it looked at. The answer
/// is the ends of one program, with their rows, and whether some run needs more rows than there may be.
pub fn ends_are_one()
    ensures { (most other : ℕ) (input output another : List ℕ) (a : IsAllEndsAnswer most input output) (b : IsAllEndsAnswer other input another)
        → a.found.whole ≡ true → b.found.whole ≡ true
        → told_ends a.program.cowns a.found.endless a.found.all.items ≡ told_ends b.program.cowns b.found.endless b.found.all.items }
{}

/// Proves that the seed of an outcome repeats its run: where the program is run as that seed draws, for as many workers and at the same depth, the run ends
/// with the values of the outcome; and there is such a run.
pub fn seeds_bring_runs_back()
    ensures there { (draws : AskedDraws) (input output : List ℕ) (answer : IsOutcomesAnswer draws input output) (i : ℕ) (o : Outcome)
        → slice_get answer.outcomes.all.items i ≡ Some o → (r : Recorded) × IsDrawnBy answer.program draws.workers o.seed draws.depth r }
    ensures each { (draws : AskedDraws) (input output : List ℕ) (answer : IsOutcomesAnswer draws input output) (i : ℕ) (o : Outcome)
        → slice_get answer.outcomes.all.items i ≡ Some o → (r : Recorded) → IsScheduledText input (Draws draws.workers o.seed draws.depth) r
        → (config_of answer.program r.events).values ≡ o.values.items }
{}

/// Proves that where there is a run that a seed draws, neither that draw nor the one that counts the steps of its depth has too many behaviours; and where one
/// of them has, the program can reach as many as there may be, with one more due.
pub fn draws_are_runs_or_refused()
    ensures either { (p : Program) (workers seed : ℕ) (depth : Option ℕ) (r : Recorded) → IsDrawnBy p workers seed depth r
        → IsDrawFault p workers seed depth Behaviours → ⊥ }
    ensures full { (p : Program) (workers seed : ℕ) (depth : Option ℕ) → IsDrawFault p workers seed depth Behaviours → CanReachLimit p }
{}

/// Proves that a text spells one program at most.
pub fn text_spells_one_program()
    ensures { (text : List ℕ) (p q : Program) → Spells text p → Spells text q → p ≡ q }
{}

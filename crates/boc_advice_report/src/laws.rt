// Laws of what is reported: it has one text; no plan for the workers ends before the lower bound that is reported, and they are busy for the whole of the
// time at most.

ghost use Rattle.std.specs.Prelude.{◌≡◌, ◌<◌, ◌≤◌, ℕ, Bool, List};
ghost use Rattle.boc_runs.specs.declared.rows.Row.{Row};
ghost use Rattle.boc_runs.specs.Rows.{IsRows};
ghost use Rattle.boc_plans.specs.declared.sharing.Sharing.{Sharing};
ghost use Rattle.boc_plans.specs.Plans.{IsEnd, Keeps, work_of};
ghost use Rattle.boc_plans.specs.Greedy.{IsForWorkers, IsSpan};
ghost use Rattle.boc_plans.specs.Sweeps.{IsGreedyEnd};
ghost use Rattle.boc_names.specs.declared.names.Names.{Names};
ghost use Rattle.boc_names.specs.Names.{CallTheSame, Text};
ghost use Rattle.boc_advice_report.specs.declared.steps.StepsTold.{StepsTold};
ghost use Rattle.boc_advice_report.specs.declared.told.WhyTold.{WhyTold};
ghost use Rattle.boc_advice_report.specs.declared.workers.ForWorkers.{ForWorkers};
ghost use Rattle.boc_advice_report.specs.Same.{TellTheSame, TellTheSameSteps};
ghost use Rattle.boc_advice_report.specs.StepsTexts.{IsStepsText};
ghost use Rattle.boc_advice_report.specs.WhyTold.{IsWhyText};
ghost use Rattle.boc_advice_report.specs.WorkersTexts.{busy_of, least_of};

/// Proves that what is reported of why some rows take as long as they do has one text, in names that call everything the same.
pub fn why_has_one_text()
    ensures { (names other_names : Names) (sharing : Sharing) (all : Bool) (told other : WhyTold) (text other_text : Text)
        → CallTheSame names other_names → TellTheSame told other → IsWhyText names sharing all told text
        → IsWhyText other_names sharing all other other_text → text ≡ other_text }
{}

/// Proves that what is reported of one change after another has one text, in names that call everything the same.
pub fn steps_have_one_text()
    ensures { (names other_names : Names) (told other : StepsTold) (text other_text : Text) → CallTheSame names other_names
        → TellTheSameSteps told other → IsStepsText names told text → IsStepsText other_names other other_text → text ≡ other_text }
{}

/// Proves that no plan for p workers that keeps, with one row at a time on each, ends before the lower bound that is reported for them.
pub fn no_plan_ends_before_least()
    ensures { (rows : List Row) (own : ForWorkers) (plan workers : List ℕ) (last : ℕ) → IsRows rows → 0 < own.p → own.work ≡ work_of rows
        → IsSpan rows own.span → Keeps rows plan → IsForWorkers rows own.p plan workers → IsEnd rows plan last → least_of own ≤ last }
{}

/// Proves that workers are busy for the whole of the time at most.
pub fn busy_for_the_time_at_most()
    ensures { (rows : List Row) (own : ForWorkers) → IsRows rows → 0 < own.p → own.work ≡ work_of rows → IsGreedyEnd rows own.p own.end
        → busy_of own ≤ 100 }
{}

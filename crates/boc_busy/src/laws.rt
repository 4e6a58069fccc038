// Laws of plans in which no worker is idle while a row that is ready waits.

ghost use Rattle.std.specs.Prelude.{◌≡◌, ◌<◌, ◌≤◌, ◌+◌, ◌-◌, ◌*◌, ◌/◌, ℕ, List};
ghost use Rattle.boc_runs.specs.declared.rows.Row.{Row};
ghost use Rattle.boc_runs.specs.Rows.{IsRows};
ghost use Rattle.boc_plans.specs.Plans.{work_of, IsEarliest, IsEnd, Keeps};
ghost use Rattle.boc_plans.specs.Greedy.{IsForWorkers, IsGreedy, IsSpan};
ghost use Rattle.boc_busy.specs.Busy.{IsBusy, NoneWaits};

/// Proves when a plan for p workers ends in which none is idle while a ready row waits. It ends no sooner than the span. It ends by the work divided by p,
/// rounded down, plus the span, and no later than all rows one after the other. Its end, times p, is at most the work and p - 1 times the span. It is also at
/// most 2p - 1 times the end of any plan for p workers. For one worker it ends at the work.
pub fn busy_plans_end_within()
    ensures span { (rows : List Row) (p last span : ℕ) (plan workers : List ℕ) → IsRows rows → 0 < p → IsBusy rows p plan workers → IsEnd rows plan last
        → IsSpan rows span → span ≤ last }
    ensures close { (rows : List Row) (p last span : ℕ) (plan workers : List ℕ) → IsRows rows → 0 < p → IsBusy rows p plan workers → IsEnd rows plan last
        → IsSpan rows span → p * last ≤ work_of rows + (p - 1) * span }
    ensures bound { (rows : List Row) (p last span : ℕ) (plan workers : List ℕ) → IsRows rows → 0 < p → IsBusy rows p plan workers → IsEnd rows plan last
        → IsSpan rows span → last ≤ work_of rows / p + span }
    ensures work { (rows : List Row) (p last : ℕ) (plan workers : List ℕ) → IsRows rows → 0 < p → IsBusy rows p plan workers → IsEnd rows plan last
        → last ≤ work_of rows }
    ensures twice { (rows : List Row) (p last other_last : ℕ) (plan workers other others : List ℕ) → IsRows rows → 0 < p → IsBusy rows p plan workers
        → IsEnd rows plan last → Keeps rows other → IsForWorkers rows p other others → IsEnd rows other other_last → p * last ≤ (2 * p - 1) * other_last }
    ensures one { (rows : List Row) (last : ℕ) (plan workers : List ℕ) → IsRows rows → IsBusy rows 1 plan workers → IsEnd rows plan last
        → last ≡ work_of rows }
{}

/// Proves that the greedy plan for some workers is such a plan.
pub fn greedy_plans_are_busy()
    ensures { (rows : List Row) (p : ℕ) (plan workers : List ℕ) → IsRows rows → 0 < p → IsGreedy rows p plan workers → IsBusy rows p plan workers }
{}

/// Proves that a plan that keeps, and in which no row waits once it is ready, is the earliest plan, and ends at the span.
pub fn plans_without_waiting_are_earliest()
    ensures earliest { (rows : List Row) (plan : List ℕ) → IsRows rows → Keeps rows plan → NoneWaits rows plan → IsEarliest rows plan }
    ensures span { (rows : List Row) (plan : List ℕ) (last : ℕ) → IsRows rows → Keeps rows plan → NoneWaits rows plan → IsEnd rows plan last
        → IsSpan rows last }
{}

// When some rows end, as they are and with remedies.

ghost use Rattle.std.specs.Prelude.{◌≡◌, ◌<◌, ◌≤◌, IfOk, Some, length, slice_get};
ghost use Rattle.boc_program.specs.declared.limits.TheConstants.{MOST_COWNS};
ghost use Rattle.boc_plans.specs.Seen.{seen};
ghost use Rattle.boc_remedies.specs.declared.remedy.Remedy.{Remedy};
ghost use Rattle.boc_remedies.specs.Ends.{AreAllEnds, AreEnds, AreEndsAfter, judged};
ghost use Rattle.boc_remedies.specs.Remedies.{AreRowsAfter};
ghost use Rattle.boc_remedies.specs.Questions.{asked};

use crate::question::Question;
use crate::remedy::Remedy;
use boc_greedy::greedy_end;
use boc_order::{Links, followers, waits_and_plan};
use boc_plans::sharing::{SeenRows, Sharing};
use boc_program::count::Workers;
use boc_runs::rows::Rows;
use boc_why::rows_with;
use rayon::prelude::*;
use std::alloc::{AllocError, Global};
use std::thread::Threads;

/// When some rows end. All times are ticks.
#[derive(Clone, Copy, PartialEq, Eq, Debug)]
pub struct Ends {
    /// The span: the end of the earliest plan.
    pub span: u64,
    /// The end of the greedy plan, where a number of workers is given.
    pub greedy: Option<u64>,
}

impl Ends {
    /// Returns the end by which the rows are judged: that of the greedy plan, where there is one, else the span.
    pub fn judged(self) -> u64
        ensures { result ≡ judged self }
    {
        match self.greedy {
            Some(end) => end,
            None => self.span,
        }
    }
}

/// Returns when some rows end: their span, and the end of the greedy plan for the given number of workers, if there is one. `AllocError` says that memory was
/// refused.
pub fn ends_of(
    alloc: Global,
    rows: &Rows,
    sharing: Sharing,
    workers: Option<Workers>,
) -> Result<Ends, AllocError>
    ensures { IfOk result (AreEnds (seen sharing rows.now) workers) }
{
    let seen = SeenRows::new(rows, sharing);
    let (waits, plan) = waits_and_plan(alloc, &seen)?;
    let greedy = match workers {
        Some(workers) => {
            let followers = followers(alloc, &waits)?;
            Some(greedy_end(alloc, &seen, &waits, &followers, workers)?)
        }
        None => None,
    };
    Ok(Ends {
        span: plan.span(),
        greedy,
    })
}

/// Returns the rows of a question with a remedy. `AllocError` says that memory was refused.
pub(crate) fn rows_after(
    alloc: Global,
    question: &Question<'_>,
    remedy: &Remedy,
) -> Result<Rows, AllocError>
    requires defs { length question.now.defs.now ≡ length question.now.rows.now }
    requires few { length question.now.families.now ≤ MOST_COWNS }
    ensures { IfOk result (AreRowsAfter (asked question.now) remedy.now) }
{
    let cause = remedy.cause(alloc, question.families)?;
    rows_with(alloc, question.rows, question.defs, &cause)
}

// Returns when the rows end with a remedy. `AllocError` says that memory was refused.
fn ends_after(alloc: Global, question: &Question<'_>, remedy: &Remedy) -> Result<Ends, AllocError>
    requires defs { length question.now.defs.now ≡ length question.now.rows.now }
    requires few { length question.now.families.now ≤ MOST_COWNS }
    ensures { IfOk result (AreEndsAfter (asked question.now) remedy.now) }
{
    let rows = rows_after(alloc, question, remedy)?;
    ends_of(alloc, &rows, question.sharing, question.workers)
}

/// Returns for each remedy when the rows end with it. `AllocError` says that memory was refused.
///
/// Each remedy takes a copy of the rows, and a plan or two of its own, with memory and time that grow with the number of rows and their cowns. Threads share
/// out the remedies.
pub fn all_ends(
    rt: &(impl Threads + Sync),
    alloc: Global,
    question: &Question<'_>,
    remedies: &[Remedy],
) -> Result<Vec<Ends>, AllocError>
    requires defs { length question.now.defs.now ≡ length question.now.rows.now }
    requires few { length question.now.families.now ≤ MOST_COWNS }
    ensures { IfOk result (λ all. AreAllEnds (asked question.now) remedies.now all.items) }
{
    (0..remedies.len())
        .into_par_iter()
        .with_min_len(1)
        .map(
            |place: usize| -> Result<Ends, AllocError>
                requires { (place < length remedies.now) × (length question.now.defs.now ≡ length question.now.rows.now)
                    × (length question.now.families.now ≤ MOST_COWNS) }
                ensures { IfOk result (λ ends. (remedy : Remedy) → slice_get remedies.entry.now place ≡ Some remedy
                    → AreEndsAfter (asked question.entry.now) remedy ends) }
            { ends_after(alloc, question, &remedies[place]) },
        )
        .collect::<Result<Vec<Ends>, AllocError>>(rt, alloc)?
}

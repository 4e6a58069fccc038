// What a page says of a run: why the rows take as long as they do, and what would help.

ghost use Rattle.std.specs.Prelude.{◌≡◌, ◌≤◌, IfOk};
ghost use Rattle.boc_run_commands.specs.NamedRuns.{AreFew};
ghost use Rattle.boc_view.specs.Materials.{IsFound};

use boc_advice_report::OtherOrder;
use boc_cowns::{HotCowns, hot_cowns};
use boc_cowns_report::JudgedCown;
use boc_names::Names;
use boc_plan_commands::judged;
use boc_plan_commands::order::other_order;
use boc_plans::sharing::Sharing;
use boc_program::count::Workers;
use boc_progress::Progress;
use boc_remedies::{Advised, Question, advise};
use boc_runs::rows::Rows;
use boc_why_report::put_chain;
use std::alloc::{AllocError, Global};
use std::thread::Threads;

/// What a page says of a run: what `boc why` and `boc cowns` find for some workers. All times are ticks.
#[derive(Drop)]
pub(crate) struct Found {
    /// Why the rows take as long as they do, and what would help.
    pub advised: Advised,
    /// The chain, step by step, and its ticks by def and by link, a line each.
    pub chain: Vec<u8>,
    /// An order that ends before the span, if one was found.
    pub order: Option<OtherOrder>,
    /// What the cowns cost.
    pub hot: HotCowns,
    /// The cowns, those first without which the greedy plan ends soonest.
    pub judged: Vec<JudgedCown>,
}

/// Returns what a page says of rows with these names, for this many workers.
pub(crate) fn found_of<R: Threads + Sync>(
    rt: &R,
    alloc: Global,
    rows: &Rows,
    names: &Names,
    sharing: Sharing,
    workers: Workers,
    progress: &mut dyn Progress,
) -> Result<Found, AllocError>
    requires { AreFew rows.now names.now }
    ensures { IfOk result (IsFound rows.now names.now sharing workers) }
{
    let question = Question {
        rows,
        defs: &names.defs,
        families: &names.families,
        sharing,
        workers: Some(workers),
    };
    let advised = advise(rt, alloc, &question)?;
    let mut chain = Vec::new(alloc);
    put_chain(alloc, &mut chain, names, false, &advised.why)?;
    let order = other_order(alloc, &question, advised.why.profile.span)?;
    let hot = hot_cowns(rt, alloc, rows, sharing, names.families.len() as u32)?;
    let (_, judged) = judged(rt, alloc, &question, workers, &hot, progress)?;
    Ok(Found {
        advised,
        chain,
        order,
        hot,
        judged,
    })
}

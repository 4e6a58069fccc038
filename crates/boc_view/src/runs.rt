// The runs of a page's program that seeds draw.

ghost use Rattle.std.specs.Prelude.{◌≡◌, IfOk, MatchResult, map};
ghost use Rattle.boc_several_commands.specs.WhyRuns.{IsOfWhyRuns};
ghost use Rattle.boc_view.specs.Runs.{AreRunsShown, AreRunsShownIn, IsOfRunsShown, shown_bar};

use boc_many_runs::Bin;
use boc_pictures::{DrawnRuns, Histogram, RunsBar};
use boc_progress::Progress;
use boc_run_commands::Fault;
use boc_several_commands::{RunsTold, runs_told};
use boc_words::AskedRuns;
use std::alloc::{AllocError, Global};
use std::thread::Threads;

/// What a page shows of runs that seeds draw.
#[derive(Drop)]
pub(crate) struct RunsShown {
    pub told: RunsTold,
    /// The bars of their histogram.
    pub bars: Vec<RunsBar>,
}

/// Returns what a page shows of runs that seeds draw of the program which a text spells, where some are asked for. A refusal is that of `boc why --runs`, or
/// memory was refused.
pub(crate) fn runs_for<R: Threads + Sync>(
    rt: &R,
    alloc: Global,
    asked: Option<AskedRuns>,
    text: &[u8],
    progress: &mut dyn Progress,
) -> Result<Option<RunsShown>, Fault>
    ensures { MatchResult result (AreRunsShown asked text.now) (IsOfRunsShown asked text.now) }
{
    match asked {
        Some(asked) => Ok(Some(runs_in(rt, alloc, asked, text, progress)?)),
        None => Ok(None),
    }
}

// Returns what is shown of the runs that are asked for.
fn runs_in<R: Threads + Sync>(
    rt: &R,
    alloc: Global,
    asked: AskedRuns,
    text: &[u8],
    progress: &mut dyn Progress,
) -> Result<RunsShown, Fault>
    ensures { MatchResult result (AreRunsShownIn asked text.now) (IsOfWhyRuns asked text.now) }
{
    let told = runs_told(rt, alloc, asked, text, progress)?;
    let bars = bars_of(alloc, &told.many.bins)?;
    Ok(RunsShown { told, bars })
}

// Returns the bars of a histogram as a page draws them.
fn bars_of(alloc: Global, bins: &[Bin]) -> Result<Vec<RunsBar>, AllocError>
    ensures { IfOk result (λ bars. bars.items ≡ map shown_bar bins.now) }
{
    let mut bars = Vec::with_capacity(alloc, bins.len())?;
    for bin in bins {
        bars.push(RunsBar {
            first: bin.first,
            last: bin.last,
            runs: bin.runs,
        })?;
    }
    Ok(bars)
}

/// Returns the runs as a page draws them, where it shows some. Each has its end by this word, and the run that the page is of ends so.
pub(crate) fn drawn_runs<'a>(
    shown: &'a Option<RunsShown>,
    word: &'a [u8],
    own: u64,
) -> Option<DrawnRuns<'a>> {
    let Some(shown) = shown else {
        return None;
    };
    let end = shown.told.many.spreads.end;
    Some(DrawnRuns {
        runs: u64::from(shown.told.many.runs),
        histogram: Histogram {
            word,
            least: end.least,
            median: end.median,
            most: end.most,
            bars: &shown.bars,
            own,
        },
        text: &shown.told.text,
    })
}

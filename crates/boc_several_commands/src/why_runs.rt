// The command `why` where it reports on many runs.

ghost use Rattle.std.specs.Prelude.{◌≡◌, ◌<◌, ◌≤◌, All, length, MatchResult};
ghost use Rattle.boc_program.specs.declared.limits.TheConstants.{MOST_COWNS, MOST_TEXT};
ghost use Rattle.boc_run_commands.specs.Commands.{AnswersInput, Leaves, CountsSource, CountsSink};
ghost use Rattle.boc_several_commands.specs.WhyRuns.{AreRunsIn, AreRunsTold, IsOfRunsTold, IsOfWhyRuns, IsWhyRunsAnswer, RefusesWhyRuns};

use crate::program_names::program_names;
use crate::runs_asked::{drawn_in, number_of, way_asked};
use boc_many_runs::{Judging, ManyRuns, many_runs};
use boc_many_runs_report::{ManyTold, many_text};
use boc_names::Names;
use boc_program::limits::MOST_TEXT;
use boc_program::program::Program;
use boc_progress::Progress;
use boc_reader::read_listed;
use boc_registers::compiled::CompiledProgram;
use boc_run_commands::Fault;
use boc_text::{Sink, Source, put_out, read_all};
use boc_words::AskedRuns;
use std::alloc::Global;
use std::thread::Threads;

/// What runs say that seeds draw of a program.
#[derive(Drop)]
pub struct RunsTold {
    pub many: ManyRuns,
    /// The same as text, as `boc why --runs` prints it.
    pub text: Vec<u8>,
}

/// As much as is taken of a program text: one byte more than it may have.
pub(crate) const MOST_TAKEN: usize = MOST_TEXT + 1;

/// Reads a program, draws the runs of it that are asked for, and writes what they say. First are the least, the median and the most of their numbers, and the
/// span of the run on one worker, if it is outside these. Then come a histogram of the ends by which they are judged, and what each change saves in all of
/// them that is tried in one.
///
/// A program text is refused only where it spells no program, for what is wrong with it and where, and draws only where one of them has too many behaviours.
/// Nothing is written unless the whole answer is ready. After a failing write a beginning of it went out. Threads share out the runs, and `progress` receives
/// how many are done.
pub fn why_runs_cmd<R: Threads + Sync, S: Source, W: Sink>(
    rt: &R,
    alloc: Global,
    asked: AskedRuns,
    progress: &mut dyn Progress,
    source: &mut S,
    sink: &mut W,
) -> Result<(), Fault>
    requires source { S.failures source.old < u64.MAX }
    requires sink { W.failures sink.old < u64.MAX }
    ensures written { Leaves (AnswersInput (IsWhyRunsAnswer asked) (S.remaining source.old) (S.remaining source.new)) result (W.written sink.old)
        (W.written sink.new) }
    ensures refused { RefusesWhyRuns asked result (S.remaining source.old) (S.remaining source.new) }
    ensures source { CountsSource result (S.failures source.old) (S.failures source.new) }
    ensures sink { CountsSink result (W.failures sink.old) (W.failures sink.new) }
{
    let text = read_all(alloc, source, MOST_TAKEN)?;
    let told = runs_told(rt, alloc, asked, &text, progress)?;
    put_out(sink, &told.text)?;
    Ok(())
}

/// Returns what runs say that are drawn of the program which a text spells, and the text of it.
///
/// A text is refused only where it spells no program, for what is wrong with it and where, and draws only where one of them has too many behaviours; else
/// memory was refused. Threads share out the runs, and `progress` receives how many are done.
pub fn runs_told<R: Threads + Sync>(
    rt: &R,
    alloc: Global,
    asked: AskedRuns,
    text: &[u8],
    progress: &mut dyn Progress,
) -> Result<RunsTold, Fault>
    ensures { MatchResult result (λ told. AreRunsIn asked text.now told.many told.text.items × (length text.now ≤ MOST_TEXT)) (IsOfWhyRuns asked text.now) }
{
    let (program, defs) = read_listed(alloc, text)?;
    let names = program_names(alloc, &program, defs)?;
    runs_named(rt, alloc, &program, &names, asked, progress)
}

// Returns what runs say that are drawn of a program with these names.
fn runs_named<R: Threads + Sync>(
    rt: &R,
    alloc: Global,
    program: &Program,
    names: &Names,
    asked: AskedRuns,
    progress: &mut dyn Progress,
) -> Result<RunsTold, Fault>
    requires few { length names.now.families.items ≤ MOST_COWNS }
    requires few_families { All (λ f. f < MOST_COWNS) names.now.families.items }
    ensures { MatchResult result (λ told. AreRunsTold program.now names.now asked told.many told.text.items) (IsOfRunsTold program.now names.now asked) }
{
    let compiled = CompiledProgram::new(alloc, program)?;
    let way = way_asked(alloc, &compiled, asked.draws, progress)?;
    let draws = drawn_in(asked.draws, way);
    let judging = Judging {
        families: &names.families,
        sharing: asked.sharing,
        workers: asked.workers,
    };
    let many = many_runs(rt, alloc, &compiled, &draws, &judging, progress)?;
    let told = ManyTold {
        asked: draws,
        plan_workers: number_of(asked.workers),
    };
    let text = many_text(alloc, names, &told, &many)?;
    Ok(RunsTold { many, text })
}

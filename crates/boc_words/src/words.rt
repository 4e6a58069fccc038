// The words of the command line.

ghost use Rattle.boc_words.specs.Commands.{IsNumberOf, best_option, depth_option, names_file, program_file, record_file, runners_option, top_option};
ghost use Rattle.boc_words.specs.Commands.{end_option, then_option, workers_option};
ghost use Rattle.boc_words.specs.EditWords.{is_edit};
ghost use Rattle.boc_words.specs.Tables.{option_of};
ghost use Rattle.boc_words.specs.declared.commands.Kind.TheVariants as called;
ghost use Rattle.boc_words.specs.Words.{AreCowns, AreEdits, IsWhatIfFile, AreRunners, AreShared, AreTaken, AreUpTo, AreWorkers, Asks};
ghost use Rattle.boc_words.specs.Words.{GivesFile, GivesNumber, IsAsked, IsCownText, IsGiven, IsMisnamed, IsNamed, IsOfEditWords, IsOfError};
ghost use Rattle.boc_words.specs.Words.{IsOfFiles, IsOfKind, IsOfNoText, IsOfNumber, IsOfSweep, IsOver, IsRefused, IsRunFile, IsTextOfKind, IsUnread};
ghost use Rattle.boc_words.specs.Words.{AreDraws, AreEditsOf, GivesOr, IsOfDraws, IsOfInput, IsOfPaths, IsOfSchedule, IsOfWords, IsPathOf, IsSchedule};
ghost use Rattle.boc_words.specs.Words.{AreTimedWorkers, IsOfTimedWorkers, IsOfUntimed, IsUntimed};
ghost use Rattle.boc_words.specs.Words.{AreNames, AreRuns, HasNames, HasNoNames, HasSome, IsAfter, IsOfAfter, IsOfMany, IsOfNames, IsOfOne, IsOfRuns};
ghost use Rattle.boc_words.specs.Words.{AreChanges, AreEarlyDefs, ArePlans, ReadsFrom};
ghost use Rattle.boc_words.specs.Words.{AreCutNames, AreTiles, HasNoWindow, HasWindow, IsOfCutNames, IsOfTiles};
ghost use Rattle.boc_words.specs.Words.{AreMostFronts, HasDraws, HasNoDraws, HasNoSearch, HasSearch, IsOfSearch, IsSet, IsUnset};
ghost use Rattle.boc_words.specs.Words.{command_line, values_at};
ghost use Rattle.std.specs.List.{filter};
ghost use Rattle.clap.specs.Kinds.{HasKind};
ghost use Rattle.clap.specs.declared.error.kind.ErrorKind.TheVariants.{ArgumentConflict, ValueValidation};
ghost use Rattle.clap.specs.Words.{fault_of, found_of, kind_of, rows_of, subcommand_of, subcommand_rows_of};
ghost use Rattle.std.specs.Prelude.{◌≡◌, ◌∷◌, ◌<◌, ◌^◌, ◌↔◌, if◌then◌else◌, [], ℕ, IfErr, IfNone, IfOk, IfSome, IsTrue, codes, map, not, string_bytes};

use crate::arguments::{
    AFTER, AFTER_NAMES, ALL, BEFORE, BEFORE_NAMES, BEST, DEPTH, EARLY, EDITS, END, FROM, INPUT,
    MOST, NAMES, NO_PLAN, NumberOption, Numbers, OUT_NAMES, PROGRAM, QUIET, RECORD, RUNNERS, RUNS,
    RepeatedOption, SEED, SHARING, SHORT, SWEEP_COWNS, SWEEP_SPAWNS, THEN, TILES, TIMED, TOP,
    TYPICAL, WINDOW_ROWS, WITHOUT, WORKERS,
};
use crate::asked::{
    AskedChanges, AskedCompare, AskedCown, AskedCowns, AskedCurve, AskedCut, AskedDraws, AskedEdit,
    AskedPlans, AskedProfile, AskedRuns, AskedSweep, AskedWhy, CompareFiles, CutNames, EndNumber,
    MostFronts, RunFile, WhatIfFile,
};
use crate::commands::{Kind, kind_of, parser};
use crate::edit_word::{edit_of, is_edit};
use crate::fault::WordsFault;
use crate::schedule::Schedule;
use boc_plans::sharing::Sharing;
use boc_plans::sweep::Sweep;
use boc_program::count::{Depth, Runners, Runs, Workers};
use boc_program::limits::{MOST_RUNNERS, MOST_WORKERS};
use boc_program::short::CownNo;
use clap::ArgMatches;
use clap::error::ErrorKind;
use std::alloc::{AllocError, Global};

/// What a command line asks for.
#[derive(Debug, Drop)]
pub struct CommandLine {
    pub command: Command,
    /// The path of the file that its input is read from; of standard input where there is none.
    pub input: Option<String>,
}

/// What a command must do. A text after a file is its path. Notes on behaviours that ended by a fault are left out where `quiet` is so.
#[derive(Debug, Drop)]
pub enum Command {
    /// The values after the serial run of a program, or after the run that a record is of.
    Values {
        record: Option<String>,
        quiet: bool,
    },
    /// Whether the input is the text of a record, and of how many rows; and, where a program is given, whether it is of a run of that.
    Check {
        program: Option<String>,
    },
    /// The record of a window of a stream.
    Cut {
        asked: AskedCut,
        names: Option<CutNames>,
    },
    /// The ranks at which a stream is best cut into this many windows.
    Tiles(u32),
    /// The record of a run of a program.
    Run {
        schedule: Schedule,
        quiet: bool,
    },
    /// The report on the rows of a run of a program, or of a record, with these plans.
    Profile {
        asked: AskedProfile,
        record: Option<String>,
    },
    /// The report on the rows of a run, as for `Run`, with these plans.
    Time {
        schedule: Schedule,
        plans: AskedPlans,
        sharing: Sharing,
        quiet: bool,
    },
    /// The report on such rows after these changes, with these plans; or, where that is requested, what they change in short.
    WhatIf {
        schedule: Schedule,
        changes: AskedChanges,
        plans: AskedPlans,
        sharing: Sharing,
        file: Option<WhatIfFile>,
        short: bool,
    },
    /// The ends of the greedy plans for 1 worker up to this many, for such rows.
    Curve {
        asked: AskedCurve,
        record: Option<String>,
    },
    /// For each of such rows, their cowns or their spawns, the span without what it costs; or the end of the greedy plan for the given number of
    /// workers, where a number is given. Where this many best ones are asked for, these alone, with what each saves.
    Sweep {
        asked: AskedSweep,
        file: Option<RunFile>,
    },
    /// Why the rows of a run of a program or of a record take as long as they do.
    Why {
        asked: AskedWhy,
        file: Option<RunFile>,
    },
    /// What seeds draw of a program, and what changes gain in these runs.
    WhyRuns(AskedRuns),
    /// What has changed from one run to another.
    Compare {
        asked: AskedCompare,
        files: CompareFiles,
    },
    /// What has changed from runs of one program to those of another, which has this path.
    CompareRuns {
        asked: AskedRuns,
        after: String,
    },
    /// Which cowns of such a run are held and waited for.
    Cowns {
        asked: AskedCowns,
        file: Option<RunFile>,
    },
    /// The ends that drawn runs of a program reach, and how often.
    Outcomes(AskedDraws),
    /// All ends of a program, by a search that looks at this many fronts at most.
    AllEnds(MostFronts),
    /// The record of a run that reaches the end with this number among those that such a search finds.
    EndRun {
        most: MostFronts,
        number: EndNumber,
    },
    /// The parser's own text, for standard output.
    Help(String),
    /// The version of the program, which is [`VERSION`](crate::VERSION).
    Version,
}

/// Returns what the words of a command line ask for, the program's own name first.
///
/// Words that the parser refuses are a fault with its text, and so are more files to read the input from than one, options of `sweep` that exclude
/// each other, and more than one file given with the input. Of words that should be edits and are none the fault names the first, where there is
/// nothing else against the words.
pub fn read_words(alloc: Global, words: &[String]) -> Result<CommandLine, WordsFault>
    ensures asked { IfOk result (IsAsked (map string_bytes words.now)) }
    ensures refused { IfErr result (IsRefused (map string_bytes words.now)) }
{
    match found(alloc, words) {
        Ok(matches) => line_of(alloc, &matches),
        Err(error) => Ok(CommandLine {
            command: refused(alloc, error)?,
            input: None,
        }),
    }
}

/// Returns the fault of words that are no text.
pub fn not_text(alloc: Global) -> WordsFault
    ensures { IsOfNoText result }
{
    fault_of_words(alloc, ErrorKind::ValueValidation, "a word is no text")
}

// Returns the fault of words, with a text of the program's own.
fn fault_of_words(alloc: Global, kind: ErrorKind, text: &str) -> WordsFault
    ensures { IsOfKind kind result }
{
    match error_of_words(alloc, kind, text) {
        Ok(error) => WordsFault::Parser(error),
        Err(_) => WordsFault::Memory,
    }
}

// Returns an error of the words with a text of the program's own.
fn error_of_words(alloc: Global, kind: ErrorKind, text: &str) -> Result<clap::Error, AllocError>
    ensures { IfOk result (λ error. kind_of error ≡ kind) }
{
    let mut parser = parser(alloc)?;
    parser.error(kind, text)
}

// Returns what the parser finds in the words.
fn found<'a>(alloc: Global, words: &'a [String]) -> Result<ArgMatches<'a>, clap::Error>
    ensures taken { IfOk result (λ matches. AreTaken (map string_bytes words.now)) }
    ensures named { IfOk result (λ matches. subcommand_rows_of matches ≡ subcommand_of command_line (map string_bytes words.now)) }
    ensures refused { IfErr result (HasKind (fault_of command_line (map string_bytes words.now))) }
{
    let mut parser = parser(alloc)?;
    parser.try_get_matches_from_mut(words)
}

// Returns the command that the parser has found, and its input. What the parser takes names one, with no numbers but those that its options
// take: the faults of words here and below are for other matches.
fn line_of(alloc: Global, matches: &ArgMatches) -> Result<CommandLine, WordsFault>
    ensures named { IfOk result (IsNamed (subcommand_rows_of matches.now)) }
    ensures misnamed { IfErr result (IsMisnamed (subcommand_rows_of matches.now)) }
{
    if let Some((name, matches)) = matches.subcommand()
        && let Some(kind) = kind_of(name)
    {
        let input = input_asked(alloc, kind, matches)?;
        let command = asked(alloc, kind, matches)?;
        return Ok(CommandLine { command, input });
    }
    Err(WordsFault::Parser(error_of_words(
        alloc,
        ErrorKind::MissingSubcommand,
        "no command is named",
    )?))
}

// Returns what a command has to do, by what was found for it.
fn asked(alloc: Global, kind: Kind, matches: &ArgMatches) -> Result<Command, WordsFault>
    ensures asked { IfOk result (Asks kind (rows_of (found_of matches.now))) }
    ensures refused { IfErr result (IsUnread kind (rows_of (found_of matches.now))) }
{
    match kind {
        Kind::Values => asked_values(alloc, matches),
        Kind::Check => asked_check(alloc, matches),
        Kind::Cut => asked_cut(alloc, matches),
        Kind::Run => asked_run(alloc, matches),
        Kind::Profile => asked_profile(alloc, matches),
        Kind::Time => asked_time(alloc, matches),
        Kind::WhatIf => asked_whatif(alloc, matches),
        Kind::Curve => asked_curve(alloc, matches),
        Kind::Sweep => asked_sweep(alloc, matches),
        Kind::Why => asked_why(alloc, matches),
        Kind::Cowns => asked_cowns(alloc, matches),
        Kind::Compare => asked_compare(alloc, matches),
        Kind::Outcomes => asked_outcomes(alloc, matches),
    }
}

// Returns what `values` has to do, by what was found for it.
fn asked_values(alloc: Global, matches: &ArgMatches) -> Result<Command, WordsFault>
    ensures asked { IfOk result (Asks called.Values (rows_of (found_of matches.now))) }
    ensures refused { IfErr result (IsUnread called.Values (rows_of (found_of matches.now))) }
{
    Ok(Command::Values {
        record: file_asked(alloc, matches, &RECORD)?,
        quiet: is_set(texts_at(matches, QUIET.id)),
    })
}

// Returns what `check` has to do, by what was found for it.
fn asked_check(alloc: Global, matches: &ArgMatches) -> Result<Command, WordsFault>
    ensures asked { IfOk result (Asks called.Check (rows_of (found_of matches.now))) }
    ensures refused { IfErr result (IsUnread called.Check (rows_of (found_of matches.now))) }
{
    Ok(Command::Check {
        program: file_asked(alloc, matches, &PROGRAM)?,
    })
}

// Returns what `cut` has to do, by what was found for it.
fn asked_cut(alloc: Global, matches: &ArgMatches) -> Result<Command, WordsFault>
    ensures asked { IfOk result (Asks called.Cut (rows_of (found_of matches.now))) }
    ensures refused { IfErr result (IsUnread called.Cut (rows_of (found_of matches.now))) }
{
    if let Some(count) = tiles_asked(alloc, matches)? {
        return Ok(Command::Tiles(count));
    }
    Ok(Command::Cut {
        asked: AskedCut {
            from: number_or(alloc, matches, &FROM, 0)?,
            rows: small_number_asked(alloc, matches, &WINDOW_ROWS)?,
            quiet: is_set(texts_at(matches, QUIET.id)),
        },
        names: cut_names_asked(alloc, matches)?,
    })
}

// Returns the number of windows that a stream is cut into, if it is given. It is a fault to give an option of one window too.
fn tiles_asked(alloc: Global, matches: &ArgMatches) -> Result<Option<u32>, WordsFault>
    ensures asked { IfOk result (AreTiles (rows_of (found_of matches.now))) }
    ensures refused { IfErr result (IsOfTiles (rows_of (found_of matches.now))) }
{
    let tiles = small_number_asked(alloc, matches, &TILES)?;
    match (tiles, of_one_window(matches)) {
        (Some(_), Some(text)) => Err(at_odds(alloc, text)),
        (tiles, _) => Ok(tiles),
    }
}

// Returns what is wrong with an option that is of one window, where there is such an option next to `--tiles`.
fn of_one_window(matches: &ArgMatches) -> Option<&'static str>
    ensures none { IfNone result (HasNoWindow (rows_of (found_of matches.now))) }
    ensures some { IfSome result (λ text. HasWindow (rows_of (found_of matches.now))) }
{
    if is_given(matches, FROM.id) {
        Some("the argument '--tiles <K>' cannot be used with '--from <RANK>'")
    } else if is_given(matches, WINDOW_ROWS.id) {
        Some("the argument '--tiles <K>' cannot be used with '--rows <N>'")
    } else if is_given(matches, NAMES.id) {
        Some("the argument '--tiles <K>' cannot be used with '--names <FILE>'")
    } else if is_given(matches, OUT_NAMES.id) {
        Some("the argument '--tiles <K>' cannot be used with '--out-names <FILE>'")
    } else {
        None
    }
}

// Returns the files of names of a stream and of its window, if they are given. One of them alone is a fault, and so are two of either.
fn cut_names_asked(alloc: Global, matches: &ArgMatches) -> Result<Option<CutNames>, WordsFault>
    ensures asked { IfOk result (AreCutNames (rows_of (found_of matches.now))) }
    ensures refused { IfErr result (IsOfCutNames (rows_of (found_of matches.now))) }
{
    let names = file_asked(alloc, matches, &NAMES)?;
    match (names, file_asked(alloc, matches, &OUT_NAMES)?) {
        (None, None) => Ok(None),
        (Some(names), Some(out_names)) => Ok(Some(CutNames { names, out_names })),
        (Some(_), None) => Err(at_odds(
            alloc,
            "the argument '--names <FILE>' cannot be used without '--out-names <FILE>'",
        )),
        (None, Some(_)) => Err(at_odds(
            alloc,
            "the argument '--out-names <FILE>' cannot be used without '--names <FILE>'",
        )),
    }
}

// Returns what `run` has to do, by what was found for it.
fn asked_run(alloc: Global, matches: &ArgMatches) -> Result<Command, WordsFault>
    ensures asked { IfOk result (Asks called.Run (rows_of (found_of matches.now))) }
    ensures refused { IfErr result (IsUnread called.Run (rows_of (found_of matches.now))) }
{
    Ok(Command::Run {
        schedule: schedule_asked(alloc, matches)?,
        quiet: is_set(texts_at(matches, QUIET.id)),
    })
}

// Returns what `profile` has to do, by what was found for it.
fn asked_profile(alloc: Global, matches: &ArgMatches) -> Result<Command, WordsFault>
    ensures asked { IfOk result (Asks called.Profile (rows_of (found_of matches.now))) }
    ensures refused { IfErr result (IsUnread called.Profile (rows_of (found_of matches.now))) }
{
    Ok(Command::Profile {
        asked: AskedProfile {
            schedule: schedule_asked(alloc, matches)?,
            plans: plans_asked(alloc, matches)?,
            sharing: sharing_asked(matches),
            typical: is_set(texts_at(matches, TYPICAL.id)),
            quiet: is_set(texts_at(matches, QUIET.id)),
        },
        record: file_asked(alloc, matches, &RECORD)?,
    })
}

// Returns what `time` has to do, by what was found for it.
fn asked_time(alloc: Global, matches: &ArgMatches) -> Result<Command, WordsFault>
    ensures asked { IfOk result (Asks called.Time (rows_of (found_of matches.now))) }
    ensures refused { IfErr result (IsUnread called.Time (rows_of (found_of matches.now))) }
{
    Ok(Command::Time {
        schedule: schedule_asked(alloc, matches)?,
        plans: plans_asked(alloc, matches)?,
        sharing: sharing_asked(matches),
        quiet: is_set(texts_at(matches, QUIET.id)),
    })
}

// Returns what `whatif` has to do, by what was found for it.
fn asked_whatif(alloc: Global, matches: &ArgMatches) -> Result<Command, WordsFault>
    ensures asked { IfOk result (Asks called.WhatIf (rows_of (found_of matches.now))) }
    ensures refused { IfErr result (IsUnread called.WhatIf (rows_of (found_of matches.now))) }
{
    Ok(Command::WhatIf {
        file: whatif_file_asked(alloc, matches)?,
        schedule: schedule_asked(alloc, matches)?,
        changes: changes_asked(alloc, matches)?,
        plans: plans_asked(alloc, matches)?,
        sharing: sharing_asked(matches),
        short: is_set(texts_at(matches, SHORT.id)),
    })
}

// Returns what `curve` has to do, by what was found for it.
fn asked_curve(alloc: Global, matches: &ArgMatches) -> Result<Command, WordsFault>
    ensures asked { IfOk result (Asks called.Curve (rows_of (found_of matches.now))) }
    ensures refused { IfErr result (IsUnread called.Curve (rows_of (found_of matches.now))) }
{
    Ok(Command::Curve {
        asked: AskedCurve {
            schedule: schedule_asked(alloc, matches)?,
            most: most_asked(alloc, matches)?,
            sharing: sharing_asked(matches),
            typical: is_set(texts_at(matches, TYPICAL.id)),
        },
        record: file_asked(alloc, matches, &RECORD)?,
    })
}

// Returns what `sweep` has to do, by what was found for it.
fn asked_sweep(alloc: Global, matches: &ArgMatches) -> Result<Command, WordsFault>
    ensures asked { IfOk result (Asks called.Sweep (rows_of (found_of matches.now))) }
    ensures refused { IfErr result (IsUnread called.Sweep (rows_of (found_of matches.now))) }
{
    Ok(Command::Sweep {
        asked: AskedSweep {
            over: over_asked(alloc, matches)?,
            schedule: schedule_asked(alloc, matches)?,
            sharing: sharing_asked(matches),
            typical: is_set(texts_at(matches, TYPICAL.id)),
            best: small_number_asked(alloc, matches, &BEST)?,
        },
        file: run_file_asked(alloc, matches)?,
    })
}

// Returns what `why` has to do, by what was found for it.
fn asked_why(alloc: Global, matches: &ArgMatches) -> Result<Command, WordsFault>
    ensures asked { IfOk result (Asks called.Why (rows_of (found_of matches.now))) }
    ensures refused { IfErr result (IsUnread called.Why (rows_of (found_of matches.now))) }
{
    if is_given(matches, RUNS.id) {
        return Ok(Command::WhyRuns(runs_asked(alloc, matches)?));
    }
    Ok(Command::Why {
        asked: AskedWhy {
            schedule: schedule_asked(alloc, matches)?,
            workers: workers_asked(alloc, matches)?,
            sharing: sharing_asked(matches),
            typical: is_set(texts_at(matches, TYPICAL.id)),
            all: is_set(texts_at(matches, ALL.id)),
            then: small_number_asked(alloc, matches, &THEN)?,
            quiet: is_set(texts_at(matches, QUIET.id)),
        },
        file: run_file_asked(alloc, matches)?,
    })
}

// Returns what `cowns` has to do, by what was found for it.
fn asked_cowns(alloc: Global, matches: &ArgMatches) -> Result<Command, WordsFault>
    ensures asked { IfOk result (Asks called.Cowns (rows_of (found_of matches.now))) }
    ensures refused { IfErr result (IsUnread called.Cowns (rows_of (found_of matches.now))) }
{
    Ok(Command::Cowns {
        asked: AskedCowns {
            schedule: schedule_asked(alloc, matches)?,
            workers: workers_asked(alloc, matches)?,
            sharing: sharing_asked(matches),
            typical: is_set(texts_at(matches, TYPICAL.id)),
            top: small_number_asked(alloc, matches, &TOP)?,
            quiet: is_set(texts_at(matches, QUIET.id)),
        },
        file: run_file_asked(alloc, matches)?,
    })
}

// Returns what `compare` has to do, by what was found for it.
fn asked_compare(alloc: Global, matches: &ArgMatches) -> Result<Command, WordsFault>
    ensures asked { IfOk result (Asks called.Compare (rows_of (found_of matches.now))) }
    ensures refused { IfErr result (IsUnread called.Compare (rows_of (found_of matches.now))) }
{
    let after = after_asked(alloc, matches)?;
    if is_given(matches, RUNS.id) {
        let asked = runs_asked(alloc, matches)?;
        return Ok(Command::CompareRuns { asked, after });
    }
    Ok(Command::Compare {
        asked: AskedCompare {
            schedule: schedule_asked(alloc, matches)?,
            workers: workers_asked(alloc, matches)?,
            sharing: sharing_asked(matches),
            typical: is_set(texts_at(matches, TYPICAL.id)),
            quiet: is_set(texts_at(matches, QUIET.id)),
        },
        files: CompareFiles {
            after,
            before_names: names_asked(alloc, matches, &BEFORE_NAMES)?,
            after_names: names_asked(alloc, matches, &AFTER_NAMES)?,
        },
    })
}

// Returns the path of the second of two inputs. It is a fault if there is none, and if both are standard input.
fn after_asked(alloc: Global, matches: &ArgMatches) -> Result<String, WordsFault>
    ensures asked { IfOk result (IsAfter (rows_of (found_of matches.now))) }
    ensures refused { IfErr result (IsOfAfter (rows_of (found_of matches.now))) }
{
    let [after] = texts_at(matches, AFTER.id) else {
        return Err(at_odds(alloc, "the command compares two inputs, BEFORE and AFTER"));
    };
    if *after == "-" && is_standard_input(texts_at(matches, BEFORE.id)) {
        return Err(at_odds(alloc, "BEFORE and AFTER cannot both be `-`, standard input"));
    }
    Ok(String::from_str(alloc, after)?)
}

// Returns whether this is the one word that stands for standard input.
fn is_standard_input(texts: &[&str]) -> bool
    ensures { IsTrue result ↔ (map (λ text. text.now) texts.now ≡ codes "-" ∷ []) }
{
    let [text] = texts else {
        return false;
    };
    *text == "-"
}

// Returns the file of names of one of two inputs: its own, or else the one for both. Two of either are a fault.
fn names_asked(
    alloc: Global,
    matches: &ArgMatches,
    own: &RepeatedOption,
) -> Result<Option<RunFile>, WordsFault>
    ensures asked { IfOk result (AreNames own.now.id.now (rows_of (found_of matches.now))) }
    ensures refused { IfErr result (IsOfNames own.now.id.now (rows_of (found_of matches.now))) }
{
    let both = file_asked(alloc, matches, &NAMES)?;
    match (file_asked(alloc, matches, own)?, both) {
        (Some(own), _) => Ok(Some(RunFile::Names(own))),
        (None, Some(both)) => Ok(Some(RunFile::Names(both))),
        (None, None) => Ok(None),
    }
}

// Returns the runs that are asked for instead of one. It is a fault to ask for what is of one run alone too.
fn runs_asked(alloc: Global, matches: &ArgMatches) -> Result<AskedRuns, WordsFault>
    ensures asked { IfOk result (AreRuns (rows_of (found_of matches.now))) }
    ensures refused { IfErr result (IsOfRuns (rows_of (found_of matches.now))) }
{
    if let Some(text) = of_one_run(matches) {
        return Err(at_odds(alloc, text));
    }
    Ok(AskedRuns {
        draws: draws_asked(alloc, matches)?,
        workers: workers_asked(alloc, matches)?,
        sharing: sharing_asked(matches),
        quiet: is_set(texts_at(matches, QUIET.id)),
    })
}

// Returns what is wrong with an option that is of one run alone, where many are asked for and there is such an option.
fn of_one_run(matches: &ArgMatches) -> Option<&'static str>
    ensures none { IfNone result (IsOfMany (rows_of (found_of matches.now))) }
    ensures some { IfSome result (λ text. IsOfOne (rows_of (found_of matches.now))) }
{
    if is_set(texts_at(matches, TIMED.id)) {
        Some("the argument '--runs <K>' cannot be used with '--timed'")
    } else if is_set(texts_at(matches, TYPICAL.id)) {
        Some("the argument '--runs <K>' cannot be used with '--typical'")
    } else if is_set(texts_at(matches, ALL.id)) {
        Some("the argument '--runs <K>' cannot be used with '--all'")
    } else if is_given(matches, THEN.id) {
        Some("the argument '--runs <K>' cannot be used with '--then <K>'")
    } else if is_given(matches, RECORD.id) {
        Some("the argument '--runs <K>' cannot be used with '--record <FILE>'")
    } else {
        names_of_one_run(matches)
    }
}

// Returns the same of the options with a file of names.
fn names_of_one_run(matches: &ArgMatches) -> Option<&'static str>
    ensures none { IfNone result (HasNoNames (rows_of (found_of matches.now))) }
    ensures some { IfSome result (λ text. HasNames (rows_of (found_of matches.now))) }
{
    if is_given(matches, NAMES.id) {
        Some("the argument '--runs <K>' cannot be used with '--names <FILE>'")
    } else if is_given(matches, BEFORE_NAMES.id) {
        Some("the argument '--runs <K>' cannot be used with '--names-a <FILE>'")
    } else if is_given(matches, AFTER_NAMES.id) {
        Some("the argument '--runs <K>' cannot be used with '--names-b <FILE>'")
    } else {
        None
    }
}

// Returns whether an option with a value was given.
fn is_given(matches: &ArgMatches, id: &str) -> bool
    ensures { HasSome (values_at (rows_of (found_of matches.now)) id.now) result }
{
    !texts_at(matches, id).is_empty()
}

// Returns what `outcomes` has to do, by what was found for it.
fn asked_outcomes(alloc: Global, matches: &ArgMatches) -> Result<Command, WordsFault>
    ensures asked { IfOk result (Asks called.Outcomes (rows_of (found_of matches.now))) }
    ensures refused { IfErr result (IsUnread called.Outcomes (rows_of (found_of matches.now))) }
{
    if is_set(texts_at(matches, ALL.id)) {
        asked_search(alloc, matches)
    } else {
        asked_drawing(alloc, matches)
    }
}

// Returns what `outcomes` has to do where all ends are searched for. It is a fault to ask for what is of draws too.
fn asked_search(alloc: Global, matches: &ArgMatches) -> Result<Command, WordsFault>
    requires { IsSet (rows_of (found_of matches.now)) (codes "all") }
    ensures asked { IfOk result (Asks called.Outcomes (rows_of (found_of matches.now))) }
    ensures refused { IfErr result (IsUnread called.Outcomes (rows_of (found_of matches.now))) }
{
    if let Some(text) = of_draws(matches) {
        return Err(at_odds(alloc, text));
    }
    let most = most_fronts_asked(alloc, matches)?;
    match end_asked(alloc, matches)? {
        Some(number) => Ok(Command::EndRun { most, number }),
        None => Ok(Command::AllEnds(most)),
    }
}

// Returns what `outcomes` has to do where runs are drawn. It is a fault to ask for what is of a search of all ends too.
fn asked_drawing(alloc: Global, matches: &ArgMatches) -> Result<Command, WordsFault>
    requires { IsUnset (rows_of (found_of matches.now)) (codes "all") }
    ensures asked { IfOk result (Asks called.Outcomes (rows_of (found_of matches.now))) }
    ensures refused { IfErr result (IsUnread called.Outcomes (rows_of (found_of matches.now))) }
{
    if let Some(text) = of_search(matches) {
        return Err(at_odds(alloc, text));
    }
    Ok(Command::Outcomes(draws_asked(alloc, matches)?))
}

// Returns what is wrong with an option that is of draws, where there is such an option next to `--all`.
fn of_draws(matches: &ArgMatches) -> Option<&'static str>
    ensures none { IfNone result (HasNoDraws (rows_of (found_of matches.now))) }
    ensures some { IfSome result (λ text. HasDraws (rows_of (found_of matches.now))) }
{
    if is_given(matches, RUNS.id) {
        Some("the argument '--all' cannot be used with '--runs <K>'")
    } else if is_given(matches, SEED.id) {
        Some("the argument '--all' cannot be used with '--seed <S>'")
    } else if is_given(matches, RUNNERS.id) {
        Some("the argument '--all' cannot be used with '--workers <N>'")
    } else if is_given(matches, DEPTH.id) {
        Some("the argument '--all' cannot be used with '--depth <D>'")
    } else {
        None
    }
}

// Returns what is wrong with an option that is of a search of all ends, where there is such an option without `--all`.
fn of_search(matches: &ArgMatches) -> Option<&'static str>
    ensures none { IfNone result (HasNoSearch (rows_of (found_of matches.now))) }
    ensures some { IfSome result (λ text. HasSearch (rows_of (found_of matches.now))) }
{
    if is_given(matches, MOST.id) {
        Some("the argument '--most <FRONTS>' cannot be used without '--all'")
    } else if is_given(matches, END.id) {
        Some("the argument '--end <K>' cannot be used without '--all'")
    } else {
        None
    }
}

// How many fronts a search of all ends looks at where the words have no `--most`.
const USUAL_FRONTS: u64 = 1_000_000;

// Returns how many fronts the words have a search of all ends look at, at most.
fn most_fronts_asked(alloc: Global, matches: &ArgMatches) -> Result<MostFronts, WordsFault>
    ensures asked { IfOk result (AreMostFronts (rows_of (found_of matches.now))) }
    ensures refused { IfErr result (IsOfSearch (rows_of (found_of matches.now))) }
{
    let most = number_or(alloc, matches, &MOST, USUAL_FRONTS)?;
    Ok(MostFronts::new(most as u32).unwrap())
}

// Returns the number of the end of which the words have a run recorded, if they name one.
fn end_asked(alloc: Global, matches: &ArgMatches) -> Result<Option<EndNumber>, WordsFault>
    ensures asked { IfOk result (GivesNumber end_option (rows_of (found_of matches.now))) }
    ensures refused { IfErr result (IsOfSearch (rows_of (found_of matches.now))) }
{
    match number_asked(alloc, matches, &END)? {
        Some(number) => Ok(EndNumber::new(number as u32)),
        None => Ok(None),
    }
}

// Returns the texts that were found for an argument, none where it was not given.
fn texts_at<'m, 'a>(matches: &'m ArgMatches<'a>, id: &str) -> &'m [&'a str]
    ensures { map (λ text. text.now) result.now ≡ values_at (rows_of (found_of matches.now)) id.now }
{
    matches.get_strs(id).unwrap_or_default()
}

// Returns what the words have a sweep change. With `--spawns` any `--cowns` or `--p` is a fault.
fn over_asked(alloc: Global, matches: &ArgMatches) -> Result<Sweep, WordsFault>
    ensures asked { IfOk result (IsOver (rows_of (found_of matches.now))) }
    ensures refused { IfErr result (IsOfSweep (rows_of (found_of matches.now))) }
{
    let workers = workers_asked(alloc, matches)?;
    let over_cowns = is_set(texts_at(matches, SWEEP_COWNS.id));
    let over_spawns = is_set(texts_at(matches, SWEEP_SPAWNS.id));
    if !over_spawns && over_cowns {
        Ok(Sweep::Cowns(workers))
    } else if !over_spawns {
        Ok(Sweep::Ticks(workers))
    } else if over_cowns {
        Err(at_odds(
            alloc,
            "the argument '--spawns' cannot be used with '--cowns'",
        ))
    } else if workers.is_some() {
        Err(at_odds(
            alloc,
            "the argument '--spawns' cannot be used with '--p <P>'",
        ))
    } else {
        Ok(Sweep::Spawns)
    }
}

// Returns the fault of options that exclude each other.
fn at_odds(alloc: Global, text: &str) -> WordsFault
    ensures { IsOfKind ArgumentConflict result }
{
    fault_of_words(alloc, ErrorKind::ArgumentConflict, text)
}

// Returns the path that the words give for a file. Two of them are a fault.
fn file_asked(
    alloc: Global,
    matches: &ArgMatches,
    option: &RepeatedOption,
) -> Result<Option<String>, WordsFault>
    ensures asked { IfOk result (GivesFile (rows_of (found_of matches.now)) option.now.id.now) }
    ensures refused { IfErr result (IsOfFiles (option.now.id.now ∷ []) (rows_of (found_of matches.now))) }
{
    match texts_at(matches, option.id) {
        [] => Ok(None),
        [path] => Ok(Some(String::from_str(alloc, path)?)),
        _ => Err(at_odds(alloc, "an option with a file cannot be used multiple times")),
    }
}

// Returns the path of the file that the words have the input read from. Two of them are a fault.
fn input_asked(
    alloc: Global,
    kind: Kind,
    matches: &ArgMatches,
) -> Result<Option<String>, WordsFault>
    ensures asked { IfOk result (ReadsFrom kind (rows_of (found_of matches.now))) }
    ensures refused { IfErr result (IsOfInput kind (rows_of (found_of matches.now))) }
{
    match kind {
        Kind::WhatIf => {
            let paths = words_that(alloc, texts_at(matches, EDITS.id), false)?;
            one_input(alloc, &paths)
        }
        Kind::Compare => one_input(alloc, texts_at(matches, BEFORE.id)),
        _ => one_input(alloc, texts_at(matches, INPUT.id)),
    }
}

// Returns the path that is given, if there is one. Two of them are a fault.
fn one_input(alloc: Global, paths: &[&str]) -> Result<Option<String>, WordsFault>
    ensures asked { IfOk result (IsPathOf (map (λ text. text.now) paths.now)) }
    ensures refused { IfErr result (IsOfPaths (map (λ text. text.now) paths.now)) }
{
    match paths {
        [] => Ok(None),
        [path] => Ok(Some(String::from_str(alloc, path)?)),
        _ => Err(at_odds(alloc, "the input cannot be read from more than one FILE")),
    }
}

// Returns those of the words that look like edits, or those that don't.
fn words_that<'w>(alloc: Global, words: &[&'w str], edits: bool) -> Result<Vec<&'w str>, AllocError>
    ensures { IfOk result (λ some. map (λ text. text.now) some.items
        ≡ filter (λ word. if edits then is_edit word else not (is_edit word)) (map (λ text. text.now) words.now)) }
{
    let mut some = Vec::new(alloc);
    for word in words {
        let is_wanted = if edits { is_edit(word) } else { !is_edit(word) };
        if is_wanted {
            some.push(*word)?;
        }
    }
    Ok(some)
}

// Returns the file given with a program or a record that the words name. Two of them are a fault.
fn run_file_asked(alloc: Global, matches: &ArgMatches) -> Result<Option<RunFile>, WordsFault>
    ensures asked { IfOk result (IsRunFile (rows_of (found_of matches.now))) }
    ensures refused { IfErr result (IsOfFiles (record_file ∷ names_file ∷ []) (rows_of (found_of matches.now))) }
{
    let record = file_asked(alloc, matches, &RECORD)?;
    match (record, file_asked(alloc, matches, &NAMES)?) {
        (None, None) => Ok(None),
        (Some(path), None) => Ok(Some(RunFile::Record(path))),
        (None, Some(path)) => Ok(Some(RunFile::Names(path))),
        (Some(_), Some(_)) => Err(at_odds(
            alloc,
            "the argument '--record <FILE>' cannot be used with '--names <FILE>'",
        )),
    }
}

// Returns the file given with the input of `whatif` that the words name. Two of them are a fault.
fn whatif_file_asked(alloc: Global, matches: &ArgMatches) -> Result<Option<WhatIfFile>, WordsFault>
    ensures asked { IfOk result (IsWhatIfFile (rows_of (found_of matches.now))) }
    ensures refused { IfErr result (IsOfFiles (program_file ∷ record_file ∷ names_file ∷ []) (rows_of (found_of matches.now))) }
{
    let program = file_asked(alloc, matches, &PROGRAM)?;
    let other = run_file_asked(alloc, matches)?;
    match (program, other) {
        (None, None) => Ok(None),
        (Some(path), None) => Ok(Some(WhatIfFile::Program(path))),
        (None, Some(RunFile::Record(path))) => Ok(Some(WhatIfFile::Record(path))),
        (None, Some(RunFile::Names(path))) => Ok(Some(WhatIfFile::Names(path))),
        (Some(_), Some(RunFile::Record(_))) => Err(at_odds(
            alloc,
            "the argument '--program <FILE>' cannot be used with '--record <FILE>'",
        )),
        (Some(_), Some(RunFile::Names(_))) => Err(at_odds(
            alloc,
            "the argument '--program <FILE>' cannot be used with '--names <FILE>'",
        )),
    }
}

// Returns what the words have `whatif` change. The first word that looks like an edit and is none is a fault.
fn changes_asked(alloc: Global, matches: &ArgMatches) -> Result<AskedChanges, WordsFault>
    ensures asked { IfOk result (AreChanges (rows_of (found_of matches.now))) }
    ensures refused { IfErr result (IsOfEditWords (rows_of (found_of matches.now))) }
{
    Ok(AskedChanges {
        typical: is_set(texts_at(matches, TYPICAL.id)),
        cowns: cowns_asked(alloc, matches)?,
        early: early_asked(alloc, matches)?,
        edits: edits_asked(alloc, matches)?,
    })
}

// Returns the cowns that the words leave out, in their order.
fn cowns_asked(alloc: Global, matches: &ArgMatches) -> Result<Vec<AskedCown>, AllocError>
    ensures { IfOk result (λ cowns. AreCowns (rows_of (found_of matches.now)) cowns.items) }
{
    let texts = texts_at(matches, WITHOUT.id);
    let mut cowns = Vec::new(alloc);
    for text in texts {
        let cown = cown_of(alloc, text)?;
        cowns.push(cown)?;
    }
    Ok(cowns)
}

// Returns the cown that a text names: by its number, in decimal digits, where that has 32 bits.
fn cown_of(alloc: Global, text: &str) -> Result<AskedCown, AllocError>
    ensures { IfOk result (IsCownText text.now) }
{
    match text.parse::<CownNo>() {
        Ok(number) => Ok(AskedCown::Number(number)),
        Err(_) => Ok(AskedCown::Name(String::from_str(alloc, text)?)),
    }
}

// Returns the names of the defs that the words have spawn early, in their order.
fn early_asked(alloc: Global, matches: &ArgMatches) -> Result<Vec<String>, AllocError>
    ensures { IfOk result (λ defs. AreEarlyDefs (rows_of (found_of matches.now)) defs.items) }
{
    let texts = texts_at(matches, EARLY.id);
    let mut defs = Vec::new(alloc);
    for text in texts {
        let def = String::from_str(alloc, text)?;
        defs.push(def)?;
    }
    Ok(defs)
}

// Returns the edits that the words of `whatif` name. The first word that looks like one and is none is a fault.
fn edits_asked(alloc: Global, matches: &ArgMatches) -> Result<Vec<AskedEdit>, WordsFault>
    ensures asked { IfOk result (λ edits. AreEdits (rows_of (found_of matches.now)) edits.items) }
    ensures refused { IfErr result (IsOfEditWords (rows_of (found_of matches.now))) }
{
    let words = words_that(alloc, texts_at(matches, EDITS.id), true)?;
    edits_in(alloc, &words)
}

// Returns the edits that these words are. The first one that is none is a fault.
fn edits_in(alloc: Global, words: &[&str]) -> Result<Vec<AskedEdit>, WordsFault>
    ensures asked { IfOk result (λ edits. AreEditsOf (map (λ text. text.now) words.now) edits.items) }
    ensures refused { IfErr result (IsOfWords (map (λ text. text.now) words.now)) }
{
    let mut edits = Vec::new(alloc);
    for (index, word) in words.iter().enumerate() {
        let found = edit_of(alloc, word)?;
        let Some(edit) = found else {
            let number = index + 1;
            return Err(WordsFault::EditWord { number });
        };
        edits.push(edit)?;
    }
    Ok(edits)
}

// Returns the threads that the words ask for, one where they have no `--workers`.
fn runners_asked(alloc: Global, matches: &ArgMatches) -> Result<Runners, WordsFault>
    ensures asked { IfOk result (λ runners. AreRunners (rows_of (found_of matches.now)) runners) }
    ensures refused { IfErr result (IsOfNumber runners_option (rows_of (found_of matches.now))) }
{
    match number_asked(alloc, matches, &RUNNERS)? {
        Some(number) => Ok(Runners::new(number as u32).unwrap()),
        None => Ok(Runners::new(1).unwrap()),
    }
}

// Returns how the words have a program run: by threads, as a seed draws, or by workers that take ticks as time. A depth without a seed is a fault, and so is a
// seed for workers that take ticks as time.
fn schedule_asked(alloc: Global, matches: &ArgMatches) -> Result<Schedule, WordsFault>
    ensures asked { IfOk result (IsSchedule (rows_of (found_of matches.now))) }
    ensures refused { IfErr result (IsOfSchedule (rows_of (found_of matches.now))) }
{
    let schedule = untimed_asked(alloc, matches)?;
    if !is_set(texts_at(matches, TIMED.id)) {
        return Ok(schedule);
    }
    match schedule {
        Schedule::Drawn { .. } => Err(at_odds(
            alloc,
            "the argument '--timed' cannot be used with '--seed <S>'",
        )),
        _ => Ok(Schedule::Timed(timed_workers_asked(alloc, matches)?)),
    }
}

// Returns for how many workers the words have ticks be time: as many as `--workers` says; else as many as `--p` says, where there may be as many; else as many
// as there may be.
fn timed_workers_asked(alloc: Global, matches: &ArgMatches) -> Result<Runners, WordsFault>
    ensures asked { IfOk result (AreTimedWorkers (rows_of (found_of matches.now))) }
    ensures refused { IfErr result (IsOfTimedWorkers (rows_of (found_of matches.now))) }
{
    let workers = workers_asked(alloc, matches)?;
    let usual = match workers {
        Some(workers) => u64::from(workers.number().min(MOST_RUNNERS as u32)),
        None => MOST_RUNNERS as u64,
    };
    let number = number_or(alloc, matches, &RUNNERS, usual)?;
    Ok(Runners::new(number as u32).unwrap())
}

// Returns how the words have a program run without `--timed`: by threads, or as a seed draws. A depth without a seed is a fault.
fn untimed_asked(alloc: Global, matches: &ArgMatches) -> Result<Schedule, WordsFault>
    ensures asked { IfOk result (IsUntimed (rows_of (found_of matches.now))) }
    ensures refused { IfErr result (IsOfUntimed (rows_of (found_of matches.now))) }
{
    let workers = runners_asked(alloc, matches)?;
    let seed = number_asked(alloc, matches, &SEED)?;
    match (seed, depth_asked(alloc, matches)?) {
        (Some(seed), depth) => Ok(Schedule::Drawn {
            workers,
            seed,
            depth,
        }),
        (None, None) => Ok(Schedule::Threads(workers)),
        (None, Some(_)) => Err(at_odds(
            alloc,
            "the argument '--depth <D>' cannot be used without '--seed <S>'",
        )),
    }
}

// Returns the depth that the words ask for, none where they have no `--depth`.
fn depth_asked(alloc: Global, matches: &ArgMatches) -> Result<Option<Depth>, WordsFault>
    ensures asked { IfOk result (GivesNumber depth_option (rows_of (found_of matches.now))) }
    ensures refused { IfErr result (IsOfNumber depth_option (rows_of (found_of matches.now))) }
{
    match number_asked(alloc, matches, &DEPTH)? {
        Some(number) => Ok(Depth::new(number as u32)),
        None => Ok(None),
    }
}

// How many runs are drawn where the words have no `--runs`.
const USUAL_RUNS: u64 = 1_000;

// How many workers runs are drawn for where the words have no `--workers`.
const USUAL_WORKERS: u64 = 4;

// Returns the runs that the words have drawn.
fn draws_asked(alloc: Global, matches: &ArgMatches) -> Result<AskedDraws, WordsFault>
    ensures asked { IfOk result (AreDraws (rows_of (found_of matches.now))) }
    ensures refused { IfErr result (IsOfDraws (rows_of (found_of matches.now))) }
{
    let runs = number_or(alloc, matches, &RUNS, USUAL_RUNS)?;
    let seed = number_or(alloc, matches, &SEED, 0)?;
    let workers = number_or(alloc, matches, &RUNNERS, USUAL_WORKERS)?;
    Ok(AskedDraws {
        runs: Runs::new(runs as u32).unwrap(),
        seed,
        workers: Runners::new(workers as u32).unwrap(),
        depth: depth_asked(alloc, matches)?,
    })
}

// Returns the number that the words give for an option, and this one where they don't have the option.
fn number_or(
    alloc: Global,
    matches: &ArgMatches,
    option: &NumberOption,
    usual: u64,
) -> Result<u64, WordsFault>
    requires { IsNumberOf option.now.numbers usual }
    ensures asked { IfOk result (GivesOr usual (option_of option.now) (rows_of (found_of matches.now))) }
    ensures taken { IfOk result (IsNumberOf option.now.numbers) }
    ensures refused { IfErr result (IsOfNumber (option_of option.now) (rows_of (found_of matches.now))) }
{
    match number_asked(alloc, matches, option)? {
        Some(number) => Ok(number),
        None => Ok(usual),
    }
}

// Returns the workers that the words ask for, none where they have no `--p`.
fn workers_asked(alloc: Global, matches: &ArgMatches) -> Result<Option<Workers>, WordsFault>
    ensures asked { IfOk result (AreWorkers (rows_of (found_of matches.now))) }
    ensures refused { IfErr result (IsOfNumber workers_option (rows_of (found_of matches.now))) }
{
    match number_asked(alloc, matches, &WORKERS)? {
        Some(number) => Ok(Workers::new(number as u32)),
        None => Ok(None),
    }
}

// Returns the plans that the words ask for in a report.
fn plans_asked(alloc: Global, matches: &ArgMatches) -> Result<AskedPlans, WordsFault>
    ensures asked { IfOk result (ArePlans (rows_of (found_of matches.now))) }
    ensures refused { IfErr result (IsOfNumber workers_option (rows_of (found_of matches.now))) }
{
    Ok(AskedPlans {
        workers: workers_asked(alloc, matches)?,
        unplanned: is_set(texts_at(matches, NO_PLAN.id)),
    })
}

// Up to how many workers the words ask for plans, the most that may be where they have no `--p`.
fn most_asked(alloc: Global, matches: &ArgMatches) -> Result<Workers, WordsFault>
    ensures asked { IfOk result (AreUpTo (rows_of (found_of matches.now))) }
    ensures refused { IfErr result (IsOfNumber workers_option (rows_of (found_of matches.now))) }
{
    match workers_asked(alloc, matches)? {
        Some(workers) => Ok(workers),
        None => Ok(Workers::new(MOST_WORKERS).unwrap()),
    }
}

// Returns how many lines the words ask for at most, where they have this option, whose numbers have 32 bits.
fn small_number_asked(
    alloc: Global,
    matches: &ArgMatches,
    option: &NumberOption,
) -> Result<Option<u32>, WordsFault>
    requires { (number : ℕ) → IsNumberOf option.now.numbers number → number < 2 ^ 32 }
    ensures asked { IfOk result (GivesNumber (option_of option.now) (rows_of (found_of matches.now))) }
    ensures refused { IfErr result (IsOfNumber (option_of option.now) (rows_of (found_of matches.now))) }
{
    match number_asked(alloc, matches, option)? {
        Some(number) => Ok(Some(number as u32)),
        None => Ok(None),
    }
}

// Returns the number that the words give for an option, none where they don't have the option.
fn number_asked(
    alloc: Global,
    matches: &ArgMatches,
    option: &NumberOption,
) -> Result<Option<u64>, WordsFault>
    ensures asked { IfOk result (GivesNumber (option_of option.now) (rows_of (found_of matches.now))) }
    ensures taken { IfOk result (λ number. IfSome number (IsNumberOf option.now.numbers)) }
    ensures refused { IfErr result (IsOfNumber (option_of option.now) (rows_of (found_of matches.now))) }
{
    let texts = texts_at(matches, option.id);
    if texts.is_empty() {
        return Ok(None);
    }
    match number_of(texts, option.numbers) {
        Some(number) => Ok(Some(number)),
        None => Err(WordsFault::Parser(error_of_words(
            alloc,
            ErrorKind::ValueValidation,
            "an option has no number that it takes",
        )?)),
    }
}

// Returns how the words have plans share cowns: with `--shared-reads` what was only read is shared.
fn sharing_asked(matches: &ArgMatches) -> Sharing
    ensures { AreShared (rows_of (found_of matches.now)) result }
{
    if is_set(texts_at(matches, SHARING.id)) {
        Sharing::SharedReads
    } else {
        Sharing::Exclusive
    }
}

// These are the texts that are found for a flag that was given.
fn is_set(texts: &[&str]) -> bool
    ensures { IsTrue result ↔ (map (λ text. text.now) texts.now ≡ codes "true" ∷ []) }
{
    let [text] = texts else {
        return false;
    };
    *text == "true"
}

// Returns the one of these numbers that one text is, in decimal digits.
fn number_of(texts: &[&str], numbers: Numbers) -> Option<u64>
    ensures none { IfNone result
        ((number : ℕ) → IsNumberOf numbers number → IsGiven (map (λ text. text.now) texts.now) number → ⊥) }
    ensures given { IfSome result (IsGiven (map (λ text. text.now) texts.now)) }
    ensures taken { IfSome result (IsNumberOf numbers) }
{
    let [text] = texts else {
        return None;
    };
    let number = text.parse::<u64>().ok()?;
    numbers.contains(number).then_some(number)
}

// Returns what becomes of words that have no matches: a call for help or for the version is answered.
fn refused(alloc: Global, error: clap::Error) -> Result<Command, WordsFault>
    ensures told { IfOk result (IsTextOfKind (kind_of error)) }
    ensures refused { IfErr result (IsOfError error) }
{
    match error.kind() {
        ErrorKind::OutOfMemory => Err(WordsFault::Memory),
        ErrorKind::DisplayHelp => Ok(Command::Help(error.to_string(alloc)?)),
        ErrorKind::DisplayVersion => Ok(Command::Version),
        _ => Err(WordsFault::Parser(error)),
    }
}

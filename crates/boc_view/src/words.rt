// The words of the command line.

use crate::runs_words::{MOST_RUNS, RUNS, is_asked, of_one_run, runs_asked, workers_of_run};
use crate::wanted::{Picture, Wanted};
use boc_commands::{Fault, RunFile, Runners, Schedule, VERSION, WordsFault};
use boc_front::Given;
use boc_plans::sharing::Sharing;
use boc_program::count::{Depth, Workers};
use boc_program::limits::{MOST_DEPTH, MOST_RUNNERS, MOST_WORKERS};
use clap::error::ErrorKind;
use clap::{Arg, ArgAction, ArgMatches, Command, value_parser};
use std::alloc::{AllocError, Global};

// The fewest columns of a text, and the most.
pub(crate) const LEAST_COLUMNS: i64 = 40;

pub(crate) const MOST_COLUMNS: i64 = 1_000;

// What holds of every picture.
const COMMON: &str =
    "Input that begins with `boc` is the record of a run. Anything else is a program,
which is run first, on one thread unless --workers, --seed or --timed says
otherwise. A run with --seed is that of `boc run --seed`: the same each time;
give it -w 2 or more. A run with --timed is that of `boc run --timed`. Input is
read from FILE, or from standard input if FILE is missing or `-`. The picture
goes to standard output.

What is drawn is the earliest plan of the run: each behaviour (task) starts as
soon as it is spawned and has its cowns. The chain is the critical path: its
ticks add up to the span.
  text   Has a line for each of up to 60 behaviours. With --cowns, --p or
         --curve, prints what these show instead; with --curve not what --p
         does. --curve shows the ends of greedy plans for 1, 2, 4 .. workers,
         up to P.
  plan   Has a lane for each of up to 60 behaviours, else for each def. For
         more than 200, a note on standard error says to take `page`.
  page   Says what holds the run back with P workers, 4 if --p is missing, and
         what would help, as boc why and boc cowns do. Shows the plans, to zoom
         into, search and edit, with tables, the curve and the program.
With --runs K a page also has what boc why --runs K -p P prints of K runs of a
program, and a histogram of their ends for P. Their seeds are S, S + 1 .. (0, 1
.. if not given), and they have N workers (4 if not given). The rest of the page
is of one run: with --seed of the first of these, else of that of N threads (1
if not given). Input that is a record is refused then, as are --record, --names,
--timed and --typical; --depth needs no --seed.
With --timed, text, plan, page and trace add which worker runs what, and when;
`text --curve` doesn't. If --p shows a plan, without -w above 1, --seed, --timed
and --record, a note on standard error says if the timed run on P workers, at
most 16, has another span.
With --typical each row has the typical ticks of its def, as in boc help why. No
row ran in these ticks, so the picture leaves out when a timed run ran it, and
no note compares a timed run.

Exit statuses, as those of boc:
  0  Success
  2  Invalid command-line arguments
  3  Invalid input, or an invalid file given with it
  4  Too many behaviours, or a thread could not be started
  5  Out of memory, a file that cannot be read, or an I/O error

Examples:
  boc-view text program.boc
  boc-view plan -p 4 program.boc > plan.svg
  boc run program.boc | boc-view trace > trace.json

See also: boc --help, boc help run, boc help why.";

/// What the words ask for.
#[derive(Drop)]
pub(crate) enum Asked {
    Picture(Wanted),
    /// The parser's own text, or the version.
    Told(String),
}

/// Returns what the words of a command line ask for, the program's own name first.
pub(crate) fn read_words(alloc: Global, words: &[String]) -> Result<Asked, Fault> {
    let mut parser = parser(alloc)?;
    match parser.try_get_matches_from_mut(words) {
        Ok(matches) => asked_of(alloc, &matches),
        Err(error) => match error.kind() {
            ErrorKind::OutOfMemory => Err(Fault::from(AllocError)),
            ErrorKind::DisplayHelp => Ok(Asked::Told(error.to_string(alloc)?)),
            ErrorKind::DisplayVersion => Ok(Asked::Told(String::from_str(alloc, VERSION)?)),
            _ => Err(Fault::from(WordsFault::Parser(error))),
        },
    }
}

// Returns what the parser accepts.
fn parser<'a>(alloc: Global) -> Result<Command<'a>, AllocError> {
    let mut parser = Command::new(alloc, "boc-view")
        .about("Draw the plans of programs under behaviour-oriented concurrency")
        .after_help(COMMON)
        .version(VERSION)
        .subcommand_required(true)
        .arg_required_else_help(true)
        .bin_name("boc-view")?;
    let curve = Command::new(alloc, "curve").about("Draw the speedup by number of workers as SVG");
    let trace = Command::new(alloc, "trace").about(
        "Write the plans as a JSON trace, for trace viewers",
    );
    parser = parser
        .subcommand(text_command(alloc)?)?
        .subcommand(plan_command(alloc)?)?
        .subcommand(with_common(alloc, curve)?)?
        .subcommand(page_command(alloc)?)?
        .subcommand(with_common(alloc, trace)?)?;
    Ok(parser)
}

// Returns the command that writes text.
fn text_command<'a>(alloc: Global) -> Result<Command<'a>, AllocError> {
    let command = Command::new(alloc, "text")
        .about("Print the earliest plan as text")
        .arg(flag(
            alloc,
            "cowns",
            "Show instead which behaviours hold which cown",
        ))?
        .arg(flag(
            alloc,
            "curve",
            "Show instead when plans for 1, 2, 4 .. workers end",
        ))?
        .arg(
            Arg::new(alloc, "width")
                .long("width")
                .value_name("COLUMNS")
                .value_parser(value_parser!(u32).range(LEAST_COLUMNS..=MOST_COLUMNS))
                .help("Use 40 to 1000 columns [default: the terminal's or 100]"),
        )?;
    with_common(alloc, command)
}

// Returns the command that draws plans.
fn plan_command<'a>(alloc: Global) -> Result<Command<'a>, AllocError> {
    let command = Command::new(alloc, "plan")
        .about("Draw the earliest plan as SVG")
        .arg(flag(
            alloc,
            "cowns",
            "Also draw which rows hold each cown, and how many wait",
        ))?;
    with_common(alloc, command)
}

// Returns the command that writes a page.
fn page_command<'a>(alloc: Global) -> Result<Command<'a>, AllocError> {
    let command = Command::new(alloc, "page")
        .about("Write a page with plan, curve, chain, costs and program")
        .arg(number(
            alloc,
            RUNS,
            "K",
            MOST_RUNS,
            "Also show K drawn runs of a program, 1 to 1,000,000",
        ))?;
    with_common(alloc, command)
}

// Returns a flag.
fn flag<'a>(alloc: Global, name: &'static str, help: &'static str) -> Arg<'a> {
    Arg::new(alloc, name)
        .long(name)
        .action(ArgAction::SetTrue)
        .help(help)
}

// Returns an option with a number up to some.
fn number<'a>(
    alloc: Global,
    name: &'static str,
    value_name: &'static str,
    most: u32,
    help: &'static str,
) -> Arg<'a> {
    Arg::new(alloc, name)
        .long(name)
        .value_name(value_name)
        .value_parser(value_parser!(u32).range(1..=i64::from(most)))
        .help(help)
}

// Returns an option with a file.
fn file<'a>(alloc: Global, name: &'static str, help: &'static str) -> Arg<'a> {
    Arg::new(alloc, name)
        .long(name)
        .value_name("FILE")
        .help(help)
}

// Returns a command with the operand and the options that all have.
fn with_common<'a>(alloc: Global, command: Command<'a>) -> Result<Command<'a>, AllocError> {
    command
        .arg(
            Arg::new(alloc, "input")
                .value_name("FILE")
                .help("Program or record; `-` or nothing means standard input"),
        )?
        .arg(number(
            alloc,
            "workers",
            "N",
            MOST_RUNNERS as u32,
            "Run the program on N threads, 1 to 16 [default: 1]",
        )
        .short('w'))?
        .arg(
            Arg::new(alloc, "seed")
                .long("seed")
                .value_name("S")
                .value_parser(value_parser!(u64))
                .help("Draw a random run from seed S; give -w of 2 or more"),
        )?
        .arg(number(
            alloc,
            "depth",
            "D",
            MOST_DEPTH,
            "With --seed, use random priorities of depth D, 1 to 16",
        ))?
        .arg(flag(
            alloc,
            "timed",
            "Simulate workers by ticks: -w, else P up to 16, else 16",
        ))?
        .arg(number(
            alloc,
            "p",
            "P",
            MOST_WORKERS,
            "Show greedy plans for P workers, or up to P, 1 to 64",
        )
        .short('p'))?
        .arg(flag(
            alloc,
            "shared-reads",
            "Plan as if rows that only read a cown shared it",
        ))?
        .arg(flag(
            alloc,
            "typical",
            "Give each row the median ticks of its def",
        ))?
        .arg(file(
            alloc,
            "record",
            "Take the run that FILE records; run nothing",
        ))?
        .arg(file(alloc, "names", "Read the names of rows and cowns from FILE"))
}

// Returns what was found in the words.
fn asked_of(alloc: Global, matches: &ArgMatches) -> Result<Asked, Fault> {
    let Some((name, matches)) = matches.subcommand() else {
        return refused(alloc, ErrorKind::MissingSubcommand, "no picture is named");
    };
    let picture = match name {
        "plan" => Picture::Plan {
            cowns: is_set(matches, "cowns"),
        },
        "curve" => Picture::Curve,
        "page" => Picture::Page,
        "trace" => Picture::Trace,
        _ => Picture::Text {
            cowns: is_set(matches, "cowns"),
            curve: is_set(matches, "curve"),
        },
    };
    if let Some(text) = of_one_run(matches) {
        return refused(alloc, ErrorKind::ArgumentConflict, text);
    }
    let runners = workers_of_run(matches);
    let seed = seed_at(matches);
    let depth = number_at(matches, "depth");
    let workers = number_at(matches, "p").and_then(|number| Workers::new(number));
    let is_timed = is_set(matches, "timed");
    if depth.is_some() && seed.is_none() && !is_asked(matches) {
        return refused(
            alloc,
            ErrorKind::ArgumentConflict,
            "the argument '--depth <D>' cannot be used without '--seed <S>'",
        );
    }
    if is_timed && seed.is_some() {
        return refused(
            alloc,
            ErrorKind::ArgumentConflict,
            "the argument '--timed' cannot be used with '--seed <S>'",
        );
    }
    let record = text_at(alloc, matches, "record")?;
    let names = text_at(alloc, matches, "names")?;
    let file = match (record, names) {
        (None, None) => None,
        (Some(path), None) => Some(RunFile::Record(path)),
        (None, Some(path)) => Some(RunFile::Names(path)),
        (Some(_), Some(_)) => {
            return refused(
                alloc,
                ErrorKind::ArgumentConflict,
                "the argument '--record <FILE>' cannot be used with '--names <FILE>'",
            );
        }
    };
    Ok(Asked::Picture(Wanted {
        picture,
        schedule: if is_timed {
            Schedule::Timed(timed_workers(runners, workers))
        } else {
            schedule_of(runners, seed, depth)
        },
        given: Given {
            workers: number_at(matches, "workers").is_some(),
            seed: seed.is_some(),
            depth: depth.is_some(),
        },
        workers,
        sharing: if is_set(matches, "shared-reads") {
            Sharing::SharedReads
        } else {
            Sharing::Exclusive
        },
        typical: is_set(matches, "typical"),
        runs: runs_asked(matches),
        file,
        input: input_at(alloc, matches)?,
        width: number_at(matches, "width"),
    }))
}

// Returns a fault of the words with a text of our own.
fn refused(alloc: Global, kind: ErrorKind, text: &str) -> Result<Asked, Fault> {
    let mut parser = parser(alloc)?;
    match parser.error(kind, text) {
        Ok(error) => Err(Fault::from(WordsFault::Parser(error))),
        Err(error) => Err(Fault::from(error)),
    }
}

// Returns on how many workers a timed run is: as many as are given; else as many as there is a greedy plan for, but no more than there may be; else those.
fn timed_workers(runners: Option<u32>, workers: Option<Workers>) -> Runners {
    let most = MOST_RUNNERS as u32;
    let number = match (runners, workers) {
        (Some(number), _) => number,
        (None, Some(workers)) => workers.number().min(most),
        (None, None) => most,
    };
    Runners::new(number).unwrap_or(Runners::new(1).unwrap())
}

// Returns how a program is run: by threads, or as a seed has it.
fn schedule_of(workers: Option<u32>, seed: Option<u64>, depth: Option<u32>) -> Schedule {
    let workers = workers
        .and_then(|number| Runners::new(number))
        .unwrap_or(Runners::new(1).unwrap());
    match seed {
        None => Schedule::Threads(workers),
        Some(seed) => Schedule::Drawn {
            workers,
            seed,
            depth: depth.and_then(|number| Depth::new(number)),
        },
    }
}

/// Returns whether a flag is given.
pub(crate) fn is_set(matches: &ArgMatches, id: &str) -> bool {
    matches.get_str(id) == Some("true")
}

/// Returns the number that is given for an option.
pub(crate) fn number_at(matches: &ArgMatches, id: &str) -> Option<u32> {
    matches.get_str(id)?.parse::<u32>().ok()
}

/// Returns the seed that is given.
pub(crate) fn seed_at(matches: &ArgMatches) -> Option<u64> {
    matches.get_str("seed")?.parse::<u64>().ok()
}

// Returns the text that is given for an option.
fn text_at(alloc: Global, matches: &ArgMatches, id: &str) -> Result<Option<String>, AllocError> {
    match matches.get_str(id) {
        Some(text) => Ok(Some(String::from_str(alloc, text)?)),
        None => Ok(None),
    }
}

// Returns the path of the file that is read instead of standard input.
fn input_at(alloc: Global, matches: &ArgMatches) -> Result<Option<String>, AllocError> {
    if matches.get_str("input") == Some("-") {
        return Ok(None);
    }
    text_at(alloc, matches, "input")
}

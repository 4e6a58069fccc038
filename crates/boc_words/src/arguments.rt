// The arguments that commands take.

ghost use Rattle.std.specs.Prelude.{◌≡◌, ◌↔◌, IsTrue, false};
ghost use Rattle.clap.specs.Words.{rule_of};
ghost use Rattle.boc_words.specs.Commands.{IsNumberOf, parser_of, rule_at};
ghost use Rattle.boc_words.specs.Tables.{argument_of};

use boc_program::limits::{
    MOST_COWNS, MOST_DEPTH, MOST_ROWS, MOST_RUNNERS, MOST_RUNS, MOST_WORKERS,
};
use clap::builder::ValueParser;
use clap::{Arg, ArgAction, value_parser};
use std::alloc::Global;

/// The numbers that an option takes.
#[derive(Clone, Copy)]
pub(crate) enum Numbers {
    /// From 1 up to this.
    UpTo(u32),
    /// Any of 64 bits.
    Every,
}

/// An option with a number: its name, the letter that stands for it, if any, what help calls the number, the numbers that it takes, and what
/// help says of it.
///
/// One more is a constant here and an entry of `number_options`; `number_asked` reads its number.
#[derive(Clone, Copy)]
pub(crate) struct NumberOption {
    pub(crate) id: &'static str,
    pub(crate) letter: Option<char>,
    pub(crate) value_name: &'static str,
    pub(crate) numbers: Numbers,
    pub(crate) help: &'static str,
}

/// A flag, which is an option by itself: its name, and what help says of it.
#[derive(Clone, Copy)]
pub(crate) struct FlagOption {
    pub(crate) id: &'static str,
    pub(crate) help: &'static str,
}

/// An option with a text, which may be given many times: its name, what help calls the text, and what help says of it.
#[derive(Clone, Copy)]
pub(crate) struct RepeatedOption {
    pub(crate) id: &'static str,
    pub(crate) value_name: &'static str,
    pub(crate) help: &'static str,
}

/// Operands: their id, what help calls one, and what help says of them.
#[derive(Clone, Copy)]
pub(crate) struct Operands {
    pub(crate) id: &'static str,
    pub(crate) value_name: &'static str,
    pub(crate) help: &'static str,
}

/// An argument of a command.
#[derive(Clone, Copy)]
pub(crate) enum Argument {
    Number(NumberOption),
    Flag(FlagOption),
    Repeated(RepeatedOption),
    /// One word that has to be there.
    Needed(Operands),
    /// One word.
    Word(Operands),
    /// Any number of words.
    Words(Operands),
}

/// How many threads run a program.
pub(crate) const RUNNERS: NumberOption = NumberOption {
    id: "workers",
    letter: Some('w'),
    value_name: "N",
    numbers: Numbers::UpTo(MOST_RUNNERS as u32),
    help: "Run the program on N threads, 1 to 16 [default: 1]",
};

/// How many threads run a program, for commands without `--p`.
pub(crate) const RUNNERS_ALONE: NumberOption = NumberOption {
    help: "Run the program on N threads, 1 to 16 [default: 1]",
    ..RUNNERS
};

/// By which seed the worker that moves next is picked.
pub(crate) const SEED: NumberOption = NumberOption {
    id: "seed",
    letter: None,
    value_name: "S",
    numbers: Numbers::Every,
    help: "Draw a random run from seed S; give -w of 2 or more",
};

/// By priorities with how many points the worker that moves next is picked.
pub(crate) const DEPTH: NumberOption = NumberOption {
    id: "depth",
    letter: None,
    value_name: "D",
    numbers: Numbers::UpTo(MOST_DEPTH),
    help: "With --seed, use random priorities of depth D, 1 to 16",
};

/// Whether ticks are time for the workers.
pub(crate) const TIMED: FlagOption = FlagOption {
    id: "timed",
    help: "Simulate workers by ticks: -w, else P up to 16, else 16",
};

/// How many runs are drawn.
pub(crate) const RUNS: NumberOption = NumberOption {
    id: "runs",
    letter: None,
    value_name: "K",
    numbers: Numbers::UpTo(MOST_RUNS),
    help: "Draw K runs, 1 to 1,000,000 [default: 1000]",
};

/// How many runs are drawn, where commands that report on one run may report on many.
pub(crate) const MANY_RUNS: NumberOption = NumberOption {
    help: "Draw K runs of a program instead of one, 1 to 1,000,000",
    ..RUNS
};

/// The seed of the first run that is drawn.
pub(crate) const FIRST_SEED: NumberOption = NumberOption {
    help: "Draw the first run with S, the next with S + 1 [default: 0]",
    ..SEED
};

/// How many workers runs are drawn for.
pub(crate) const DRAWN_WORKERS: NumberOption = NumberOption {
    help: "Draw runs of N workers, 1 to 16 [default: 4]",
    ..RUNNERS
};

/// By priorities with how many points each run is drawn.
pub(crate) const DRAWN_DEPTH: NumberOption = NumberOption {
    help: "Use random priorities of depth D, 1 to 16",
    ..DEPTH
};

/// How many workers carry out a greedy plan.
pub(crate) const WORKERS: NumberOption = NumberOption {
    id: "p",
    letter: Some('p'),
    value_name: "P",
    numbers: Numbers::UpTo(MOST_WORKERS),
    help: "Also print the greedy plan for P workers, 1 to 64",
};

/// Up to how many workers a curve goes.
pub(crate) const CURVE_WORKERS: NumberOption = NumberOption {
    help: "Go up to P workers, 1 to 64 [default: 64]",
    ..WORKERS
};

/// For how many workers a sweep plans, where not for as many as there are rows.
pub(crate) const SWEEP_WORKERS: NumberOption = NumberOption {
    help: "Print ends of greedy plans for P workers, 1 to 64",
    ..WORKERS
};

/// For how many workers `why` and `cowns` judge.
pub(crate) const WHY_WORKERS: NumberOption = NumberOption {
    help: "Judge by the greedy plan for P workers, 1 to 64",
    ..WORKERS
};

/// For how many workers `compare` compares ends.
pub(crate) const COMPARE_WORKERS: NumberOption = NumberOption {
    help: "Also compare the greedy plans for P workers, 1 to 64",
    ..WORKERS
};

/// This many changes are made at most, one on top of the other.
pub(crate) const MOST_CHANGES: u32 = 5;

/// How many changes `why` makes, one on top of the other.
pub(crate) const THEN: NumberOption = NumberOption {
    id: "then",
    letter: None,
    value_name: "K",
    numbers: Numbers::UpTo(MOST_CHANGES),
    help: "Make the best change, the best on top, .. K times, 1 to 5",
};

/// Whether a sweep goes over the cowns.
pub(crate) const SWEEP_COWNS: FlagOption = FlagOption {
    id: "cowns",
    help: "Leave out each cown in turn; do not lower rows",
};

/// Whether a sweep goes over the spawns.
pub(crate) const SWEEP_SPAWNS: FlagOption = FlagOption {
    id: "spawns",
    help: "Spawn each row as early as it can be; do not lower it",
};

/// Whether all rows of a chain are printed.
pub(crate) const ALL: FlagOption = FlagOption {
    id: "all",
    help: "Print every row of the chain; do not fold rows",
};

/// Whether all ends of a program are searched for.
pub(crate) const ALL_ENDS: FlagOption = FlagOption {
    help: "Draw nothing: search for all final states",
    ..ALL
};

/// A search of all ends looks at this many fronts at most.
pub(crate) const MOST_FRONTS: u32 = 100_000_000;

/// How many fronts a search of all ends looks at.
pub(crate) const MOST: NumberOption = NumberOption {
    id: "most",
    letter: None,
    value_name: "FRONTS",
    numbers: Numbers::UpTo(MOST_FRONTS),
    help: "With --all, look at 1 to 100,000,000 [default: 1000000]",
};

/// Of which end a run is recorded.
pub(crate) const END: NumberOption = NumberOption {
    id: "end",
    letter: None,
    value_name: "K",
    numbers: Numbers::UpTo(MOST_FRONTS),
    help: "With --all, print the record of a run to end K",
};

/// Whether plans share what was only read.
pub(crate) const SHARING: FlagOption = FlagOption {
    id: "shared-reads",
    help: "Plan as if rows that only read a cown shared it",
};

/// Whether each row takes the median ticks of its def.
pub(crate) const TYPICAL: FlagOption = FlagOption {
    id: "typical",
    help: "Give each row the median ticks of its def",
};

/// Whether the numbers before and after are printed instead of the report.
pub(crate) const SHORT: FlagOption = FlagOption {
    id: "short",
    help: "Print only work, span and chain, before and after",
};

/// Whether the rows of plans are left out.
pub(crate) const NO_PLAN: FlagOption = FlagOption {
    id: "no-plan",
    help: "Do not print the rows of plans, nor of a timed run",
};

/// How many lines of a sweep are printed.
pub(crate) const BEST: NumberOption = NumberOption {
    id: "best",
    letter: None,
    value_name: "K",
    numbers: Numbers::UpTo(MOST_ROWS as u32),
    help: "Print the K best lines, 1 to 65,535, with their gain",
};

/// Whether notes are left out.
pub(crate) const QUIET: FlagOption = FlagOption {
    id: "quiet",
    help: "Print no notes, such as on rows ended by a fault",
};

/// At which of the rows that a stream spawns a window begins.
pub(crate) const FROM: NumberOption = NumberOption {
    id: "from",
    letter: None,
    value_name: "RANK",
    numbers: Numbers::Every,
    help: "Begin at spawn RANK, counted from 0 [default: 0]",
};

/// How many rows that are spawned in a window it has.
pub(crate) const WINDOW_ROWS: NumberOption = NumberOption {
    id: "rows",
    letter: None,
    value_name: "N",
    numbers: Numbers::UpTo(MOST_ROWS as u32),
    help: "Take at most N spawned rows, 1 to 65,535",
};

/// Into how many windows a stream is best cut.
pub(crate) const TILES: NumberOption = NumberOption {
    id: "tiles",
    letter: None,
    value_name: "K",
    numbers: Numbers::UpTo(MOST_ROWS as u32),
    help: "Print where to cut into K windows, 1 to 65,535",
};

/// How many cowns are printed.
pub(crate) const TOP: NumberOption = NumberOption {
    id: "top",
    letter: None,
    value_name: "K",
    numbers: Numbers::UpTo(MOST_COWNS as u32),
    help: "Print only the first K cowns, 1 to 256",
};

/// Whether notes on what is left out of a window are left out.
pub(crate) const WINDOW_QUIET: FlagOption = FlagOption {
    help: "Print no notes on what was left out",
    ..QUIET
};

/// The cowns that `whatif` leaves out.
pub(crate) const WITHOUT: RepeatedOption = RepeatedOption {
    id: "without",
    value_name: "COWN",
    help: "Leave out a cown, or an array; may be given repeatedly",
};

/// The defs that `whatif` has spawn early.
pub(crate) const EARLY: RepeatedOption = RepeatedOption {
    id: "early",
    value_name: "DEF",
    help: "Have a def spawn early; may be given repeatedly",
};

/// The file with the program that a record is of.
pub(crate) const PROGRAM: RepeatedOption = RepeatedOption {
    id: "program",
    value_name: "FILE",
    help: "Read the program of the recorded run from FILE",
};

/// The file with the record of the run of a program.
pub(crate) const RECORD: RepeatedOption = RepeatedOption {
    id: "record",
    value_name: "FILE",
    help: "Take the run that FILE records; run nothing",
};

/// The file with the names of rows and cowns.
pub(crate) const NAMES: RepeatedOption = RepeatedOption {
    id: "names",
    value_name: "FILE",
    help: "Read the names of rows and cowns from FILE",
};

/// The file with the names of rows and cowns of a stream.
pub(crate) const STREAM_NAMES: RepeatedOption = RepeatedOption {
    help: "Read names for the stream from FILE",
    ..NAMES
};

/// The file that the names of rows and cowns of a window are written to.
pub(crate) const OUT_NAMES: RepeatedOption = RepeatedOption {
    id: "out-names",
    value_name: "FILE",
    help: "Write names for the window to FILE",
};

/// The file with the names of rows and cowns of both inputs.
pub(crate) const BOTH_NAMES: RepeatedOption = RepeatedOption {
    help: "Read the names of rows and cowns of both from FILE",
    ..NAMES
};

/// The file with the names of rows and cowns of the first input.
pub(crate) const BEFORE_NAMES: RepeatedOption = RepeatedOption {
    id: "names-a",
    value_name: "FILE",
    help: "Read those of BEFORE from FILE",
};

/// The file with the names of rows and cowns of the second input.
pub(crate) const AFTER_NAMES: RepeatedOption = RepeatedOption {
    id: "names-b",
    value_name: "FILE",
    help: "Read those of AFTER from FILE",
};

/// The file that the first of two inputs is read from.
pub(crate) const BEFORE: Operands = Operands {
    id: "before",
    value_name: "BEFORE",
    help: "Program or record to compare with; `-` is standard input",
};

/// The file that the second of two inputs is read from.
pub(crate) const AFTER: Operands = Operands {
    id: "after",
    value_name: "AFTER",
    help: "Program or record to compare; `-` is standard input",
};

/// The file that the input is read from.
pub(crate) const INPUT: Operands = Operands {
    id: "file",
    value_name: "FILE",
    help: "File to read; `-` or nothing means standard input",
};

/// The file that a stream is read from.
pub(crate) const STREAM: Operands = Operands {
    value_name: "STREAM",
    help: "Stream to read; `-` or nothing means standard input",
    ..INPUT
};

/// The edits of `whatif`, and among them the file that the input is read from.
pub(crate) const EDITS: Operands = Operands {
    id: "edits",
    value_name: "FILE|EDIT",
    help: "Input; edits ROW=TICKS, ROW=K/D, DEF=K/D, ROW@OFFSET",
};

// The limit that the help of `--workers` names.
const _: () = prove!(MOST_RUNNERS == 16);

// The limit that the help of `--p` names.
const _: () = prove!(MOST_WORKERS == 64);

// The limit that the help of `--top` names, and that of `boc` itself.
const _: () = prove!(MOST_COWNS == 256);

// The limit that the help of `--depth` names.
const _: () = prove!(MOST_DEPTH == 16);

// The limit that the help of `--best`, `--rows` and `--tiles` names.
const _: () = prove!(MOST_ROWS == 65_535);

// The limit that the help of `--then` names.
const _: () = prove!(MOST_CHANGES == 5);

// The limit that the help of `--most` and `--end` names.
const _: () = prove!(MOST_FRONTS == 100_000_000);

// The limit that the help of `--runs` names.
const _: () = prove!(MOST_RUNS == 1_000_000);

impl Numbers {
    /// Returns whether a number is one of these.
    pub(crate) fn contains(self, number: u64) -> bool
        ensures { IsTrue result ↔ IsNumberOf self number }
    {
        match self {
            Numbers::UpTo(most) => (1..=u64::from(most)).contains(&number),
            Numbers::Every => true,
        }
    }

    // Returns the parser of these numbers.
    fn parser<'a>(self) -> ValueParser<'a>
        ensures { result ≡ parser_of self }
    {
        match self {
            Numbers::UpTo(most) => value_parser!(u32).range(1..=i64::from(most)),
            Numbers::Every => value_parser!(u64),
        }
    }
}

impl Argument {
    /// Returns the argument as the parser takes it.
    pub(crate) fn arg<'a>(&self, alloc: Global) -> Arg<'a>
        ensures rule { rule_of result ≡ rule_at (argument_of self.now) }
        ensures local { result.global ≡ false }
    {
        match *self {
            Argument::Number(option) => {
                let arg = Arg::new(alloc, option.id)
                    .long(option.id)
                    .value_name(option.value_name)
                    .value_parser(option.numbers.parser())
                    .help(option.help);
                match option.letter {
                    Some(letter) => arg.short(letter),
                    None => arg,
                }
            }
            Argument::Flag(option) => Arg::new(alloc, option.id)
                .long(option.id)
                .action(ArgAction::SetTrue)
                .help(option.help),
            Argument::Repeated(option) => Arg::new(alloc, option.id)
                .long(option.id)
                .value_name(option.value_name)
                .action(ArgAction::Append)
                .help(option.help),
            Argument::Needed(operand) => Arg::new(alloc, operand.id)
                .value_name(operand.value_name)
                .required(true)
                .help(operand.help),
            Argument::Word(operand) => Arg::new(alloc, operand.id)
                .value_name(operand.value_name)
                .help(operand.help),
            Argument::Words(operands) => Arg::new(alloc, operands.id)
                .value_name(operands.value_name)
                .num_args(0..)
                .help(operands.help),
        }
    }
}

// Why a command did not do what it was asked for.

ghost use Rattle.std.specs.Prelude.{◌≡◌, ◌+◌, ◌≤◌, ◌++◌, IfOk, codes, decimal, length, string_bytes};
ghost use Rattle.std.specs.Option.{option_map};
ghost use Rattle.boc_text.specs.declared.decimal.TheConstants.{MOST_DIGITS};
ghost use Rattle.boc_run_commands.specs.declared.fault.TheConstants.{MOST_FAULT_LINE};
ghost use Rattle.boc_run_commands.specs.Faults.{edit_line, end_line, file_line, input_line, missed_line, run_line, want_line, window_line};

use arrayvec::ArrayString;
use boc_draws::DrawFault;
use boc_eval::SerialFault;
use boc_follow::{StrayFault, StrayFaultKind};
use boc_names::NamesFault;
use boc_plans::edit::EditFault;
use boc_reader::{ReadFault, ReadFaultKind};
use boc_record::{RecordFault, RecordFaultKind, WriteFault};
use boc_stream::{LabelFault, LabelFaultKind, StreamFault, StreamFaultKind};
use boc_text::{Stopped, TextFault};
use boc_timed::TimedFault;
use boc_words::WordsFault;
use boc_workers::RunFault;
use itoa::Buffer;
use std::alloc::{AllocError, Global};
use thiserror::Error;

/// The most bytes of what the program says of a fault in its own words.
pub const MOST_FAULT_LINE: usize = 128;

/// What the program says of a fault in its own words, without the last line feed. It is one line, or two for a word that is no edit,
/// a def that no row is of, or an end that there is not.
pub type Line = ArrayString<MOST_FAULT_LINE>;

/// Why a command was refused or failed. Its text is the line for standard error.
#[derive(Debug, Drop, Error)]
#[error("{}", self.own_line().unwrap_or_default())]
pub enum Fault {
    /// The words of the command line were refused.
    #[error("{0}")]
    Words(WordsFault),
    /// The input was refused.
    Input(InputFault),
    /// The run was given up; where memory was refused, that is reported as such.
    Run(RunFault),
    /// When the rows of a timed run ran is no schedule of its workers that ends in time. That is a fault of the program's own.
    Unscheduled,
    /// No window was cut out of a stream.
    Window(WindowFault),
    /// There is no end of the number whose run was asked for.
    End(EndFault),
    /// Memory was refused, or a device failed.
    Means(Want),
}

/// Why an input was refused.
#[derive(Clone, Copy, PartialEq, Eq, Debug)]
pub enum InputFault {
    /// The program text.
    Program(ReadFault),
    /// The text of a record.
    Record(RecordFault),
    /// A cown that must be left out, counted from 1, and that the record doesn't have.
    Cown { number: usize },
    /// A def that must spawn early, counted from 1, and that no row is of.
    Early { number: usize },
    /// An edit that the rows can't take, counted from 1.
    Edit { number: usize, fault: EditFault },
    /// An edit of a def that no row is of, counted from 1.
    Def { number: usize },
    /// The record diverges from its program.
    Stray(StrayFault),
    /// A file given with the input.
    Beside(FileFault),
}

/// Why a file given with an input was refused.
#[derive(Clone, Copy, PartialEq, Eq, Debug)]
pub enum FileFault {
    /// It should be a program text.
    Program(ReadFault),
    /// It should be the text of a record.
    Record(RecordFault),
    /// Its record diverges from the program.
    Stray(StrayFault),
    /// It should be the names of rows and cowns.
    Names(NamesFault),
}

/// Why no window was cut out of a stream.
#[derive(Clone, Copy, PartialEq, Eq, Debug)]
pub enum WindowFault {
    /// The stream was refused.
    Stream(StreamFault),
    /// The file with names for the stream was refused.
    Names(LabelFault),
    /// What was made is no record of the stream's rows. That is a fault of the program's own.
    Unmade,
}

/// Why there is no run to an end: a search of all ends found none of this number.
#[derive(Clone, Copy, PartialEq, Eq, Debug)]
pub struct EndFault {
    /// The number of the end that was asked for, counted from 1.
    pub number: u32,
    /// How many ends were found.
    pub found: usize,
    /// Whether the search was whole. Otherwise it stopped at its limit.
    pub whole: bool,
    /// Whether some run needs more rows than there may be. Meant only of a whole search.
    pub endless: bool,
}

/// What was wanting.
#[derive(Clone, Copy, PartialEq, Eq, Debug)]
pub enum Want {
    /// Memory was refused.
    Memory,
    /// The source failed.
    Source,
    /// The sink failed, after the first `gone` bytes of the output.
    Sink { gone: usize },
}

impl Fault {
    ghost use Rattle.boc_run_commands.specs.Faults.{status_of, gone_of, fault_line, IsLineOf};

    /// Returns the status of the program: 2 where the words were refused, 3 where the input was, 4 where the
    /// run was or the program itself is at fault, 5 where memory was or a device failed.
    pub fn status(&self) -> u8
        ensures { result ≡ status_of self.now }
    {
        match self {
            Fault::Words(_) => 2,
            Fault::Input(_) | Fault::Window(WindowFault::Stream(_) | WindowFault::Names(_)) => 3,
            Fault::Run(_) | Fault::Unscheduled | Fault::Window(WindowFault::Unmade) => 4,
            Fault::End(_) => 4,
            Fault::Means(_) => 5,
        }
    }

    /// Returns how many bytes of the output went out before the sink failed, where it failed.
    pub fn gone(&self) -> Option<usize>
        ensures { result ≡ gone_of self.now }
    {
        match self {
            Fault::Means(Want::Sink { gone }) => Some(*gone),
            _ => None,
        }
    }

    /// Returns the line for standard error where it is the program's own, without its line feed; none where the parser refuses
    /// the words, which has a text of its own. It takes no memory.
    pub fn own_line(&self) -> Option<Line>
        ensures { option_map (λ line. line.bytes) result ≡ fault_line self.now }
    {
        match self {
            Fault::Words(WordsFault::Parser(_)) => None,
            Fault::Words(WordsFault::EditWord { number }) => Some(numbered(
                "boc: edit ",
                *number as u64,
                "not ROW=TICKS\n     an edit is ROW=TICKS, ROW@OFFSET, ROW=K/D or DEF=K/D",
            )),
            Fault::Words(WordsFault::Memory) => Some(want_text(Want::Memory)),
            Fault::Input(fault) => Some(input_text(fault)),
            Fault::Run(fault) => Some(joined("boc: run: ", run_text(*fault))),
            Fault::Unscheduled => Some(joined("boc: run: ", "7 Unscheduled")),
            Fault::Window(fault) => Some(window_text(fault)),
            Fault::End(fault) => Some(end_text(fault)),
            Fault::Means(want) => Some(want_text(*want)),
        }
    }

    /// Returns the text for standard error: the program's own line without its line feed, or the parser's text.
    pub fn line(&self, alloc: Global) -> Result<String, AllocError>
        ensures { IfOk result (λ text. IsLineOf self.now (string_bytes text)) }
    {
        match self.own_line() {
            Some(line) => String::from_str(alloc, line.as_str()),
            None => self.to_string(alloc),
        }
    }
}

// What is said of a def that no row is of.
const NO_DEF: &str =
    "7 NoDef\n     no row is of this def; names are those of --program FILE or --names FILE";

// Returns the line of a refused input.
fn input_text(fault: &InputFault) -> Line
    ensures { result.bytes ≡ input_line fault.now }
{
    match fault {
        InputFault::Program(fault) => {
            numbered("boc: line ", u64::from(fault.line), fault.kind.text())
        }
        InputFault::Record(fault) => numbered("boc: line ", fault.line, fault.kind_text()),
        InputFault::Cown { number } => numbered("boc: without ", *number as u64, "6 NoCown"),
        InputFault::Early { number } => numbered("boc: early ", *number as u64, NO_DEF),
        InputFault::Edit { number, fault } => {
            numbered("boc: edit ", *number as u64, edit_text(*fault))
        }
        InputFault::Def { number } => numbered("boc: edit ", *number as u64, NO_DEF),
        InputFault::Stray(fault) => numbered("boc: line ", fault.line, fault.kind_text()),
        InputFault::Beside(fault) => file_text(fault),
    }
}

// Returns the line of a stream that no window was cut out of.
fn window_text(fault: &WindowFault) -> Line
    ensures { result.bytes ≡ window_line fault.now }
{
    match fault {
        WindowFault::Stream(fault) => numbered("boc: line ", fault.line, fault.kind.text()),
        WindowFault::Names(fault) => numbered("boc: names: line ", fault.line, fault.kind.text()),
        WindowFault::Unmade => joined("boc: window: ", "1 Unmade"),
    }
}

// Returns the lines of an end that there is not.
fn end_text(fault: &EndFault) -> Line
    ensures { result.bytes ≡ end_line fault.now }
{
    let mut line = Line::new();
    line.push_str("boc: end ");
    line.push_str(Buffer::new().format(fault.number));
    line.push_str(": 1 NoEnd\n     ends found: ");
    line.push_str(Buffer::new().format(fault.found));
    line.push_str(missed_text(fault.whole, fault.endless));
    line
}

// Returns the line that says what a search did not look at.
fn missed_text(whole: bool, endless: bool) -> &'static str
    ensures said { result.now ≡ missed_line whole endless }
    ensures short { length result.now ≤ 56 }
{
    if !whole {
        "\n     the search stopped: a greater --most looks farther"
    } else if endless {
        "\n     runs that need more than 65,535 rows have no end"
    } else {
        ""
    }
}

// Returns the line of a refused file given with an input.
fn file_text(fault: &FileFault) -> Line
    ensures { result.bytes ≡ file_line fault.now }
{
    match fault {
        FileFault::Program(fault) => {
            numbered(
                "boc: program: line ",
                u64::from(fault.line),
                fault.kind.text(),
            )
        }
        FileFault::Record(fault) => numbered("boc: record: line ", fault.line, fault.kind_text()),
        FileFault::Stray(fault) => numbered("boc: record: line ", fault.line, fault.kind_text()),
        FileFault::Names(fault) => numbered("boc: names: line ", fault.line, fault.kind.text()),
    }
}

// Returns the line of what was wanting.
fn want_text(want: Want) -> Line
    ensures { result.bytes ≡ want_line want }
{
    match want {
        Want::Memory => joined("boc: ", "memory"),
        Want::Source | Want::Sink { .. } => joined("boc: ", "device"),
    }
}

// Returns a line without a number.
fn joined(front: &str, said: &str) -> Line
    requires { length front.now + length said.now ≤ MOST_FAULT_LINE }
    ensures { result.bytes ≡ front.now ++ said.now }
{
    let mut line = Line::new();
    line.push_str(front);
    line.push_str(said);
    line
}

// Returns a line that reports a number, and what is said of it.
fn numbered(front: &str, number: u64, said: &str) -> Line
    requires { length front.now + MOST_DIGITS + 2 + length said.now ≤ MOST_FAULT_LINE }
    ensures { result.bytes ≡ front.now ++ decimal number ++ codes ": " ++ said.now }
{
    let mut line = Line::new();
    line.push_str(front);
    line.push_str(Buffer::new().format(number));
    line.push_str(": ");
    line.push_str(said);
    line
}

// Returns the number and the name of what is wrong with an edit.
fn edit_text(fault: EditFault) -> &'static str
    ensures { result.now ≡ edit_line fault }
{
    match fault {
        EditFault::NoRow => "1 NoRow",
        EditFault::BelowSpawn => "2 BelowSpawn",
        EditFault::TooManyTicks => "3 TooManyTicks",
        EditFault::NoParent => "4 NoParent",
        EditFault::NotBetween => "5 NotBetween",
    }
}

// Returns the number and the name of what became of a run.
fn run_text(fault: RunFault) -> &'static str
    ensures { result.now ≡ run_line fault }
{
    match fault {
        RunFault::Memory => "1 Memory",
        RunFault::Behaviours => "2 Behaviours",
        RunFault::Held => "3 Held",
        RunFault::NoThread => "4 NoThread",
        RunFault::Stranger => "5 Stranger",
        RunFault::Unfinished => "6 Unfinished",
    }
}

impl From<WordsFault> for Fault {
    ghost use Rattle.boc_run_commands.specs.Faults.{of_words};

    ghost from_gives = { λ w f. f ≡ of_words w };

    fn from(fault: WordsFault) -> Fault {
        match fault {
            WordsFault::Memory => Fault::Means(Want::Memory),
            other => Fault::Words(other),
        }
    }
}

impl From<TextFault> for Fault {
    ghost use Rattle.boc_run_commands.specs.Faults.{of_text};

    ghost from_gives = { λ t f. f ≡ of_text t };

    fn from(fault: TextFault) -> Fault {
        match fault {
            TextFault::Memory => Fault::Means(Want::Memory),
            TextFault::Device => Fault::Means(Want::Source),
        }
    }
}

impl From<ReadFault> for Fault {
    ghost use Rattle.boc_run_commands.specs.Faults.{of_read};

    ghost from_gives = { λ r f. f ≡ of_read r r.kind };

    fn from(fault: ReadFault) -> Fault {
        match fault.kind {
            ReadFaultKind::Memory => Fault::Means(Want::Memory),
            _ => Fault::Input(InputFault::Program(fault)),
        }
    }
}

impl From<RecordFault> for Fault {
    ghost use Rattle.boc_run_commands.specs.Faults.{of_record};

    ghost from_gives = { λ r f. f ≡ of_record r r.kind };

    fn from(fault: RecordFault) -> Fault {
        match fault.kind {
            RecordFaultKind::Memory => Fault::Means(Want::Memory),
            RecordFaultKind::Device => Fault::Means(Want::Source),
            _ => Fault::Input(InputFault::Record(fault)),
        }
    }
}

impl From<StrayFault> for Fault {
    ghost use Rattle.boc_run_commands.specs.Faults.{of_stray};

    ghost from_gives = { λ s f. f ≡ of_stray s s.kind };

    fn from(fault: StrayFault) -> Fault {
        match fault.kind {
            StrayFaultKind::Memory => Fault::Means(Want::Memory),
            _ => Fault::Input(InputFault::Stray(fault)),
        }
    }
}

impl From<StreamFault> for Fault {
    ghost use Rattle.boc_run_commands.specs.Faults.{of_stream};

    ghost from_gives = { λ s f. f ≡ of_stream s s.kind };

    fn from(fault: StreamFault) -> Fault {
        match fault.kind {
            StreamFaultKind::Memory => Fault::Means(Want::Memory),
            StreamFaultKind::Device => Fault::Means(Want::Source),
            _ => Fault::Window(WindowFault::Stream(fault)),
        }
    }
}

impl From<LabelFault> for Fault {
    ghost use Rattle.boc_run_commands.specs.Faults.{of_labels};

    ghost from_gives = { λ l f. f ≡ of_labels l l.kind };

    fn from(fault: LabelFault) -> Fault {
        match fault.kind {
            LabelFaultKind::Memory | LabelFaultKind::Device => Fault::Means(Want::Memory),
            _ => Fault::Window(WindowFault::Names(fault)),
        }
    }
}

impl From<SerialFault> for Fault {
    ghost use Rattle.boc_run_commands.specs.Faults.{of_serial};

    ghost from_gives = { λ s f. f ≡ of_serial s };

    fn from(fault: SerialFault) -> Fault {
        match fault {
            SerialFault::Memory => Fault::Means(Want::Memory),
            SerialFault::Behaviours => Fault::Run(RunFault::Behaviours),
        }
    }
}

impl From<DrawFault> for Fault {
    ghost use Rattle.boc_run_commands.specs.Faults.{of_draw};

    ghost from_gives = { λ d f. f ≡ of_draw d };

    fn from(fault: DrawFault) -> Fault {
        match fault {
            DrawFault::Memory => Fault::Means(Want::Memory),
            DrawFault::Behaviours => Fault::Run(RunFault::Behaviours),
        }
    }
}

impl From<TimedFault> for Fault {
    ghost use Rattle.boc_run_commands.specs.Faults.{of_timed};

    ghost from_gives = { λ t f. f ≡ of_timed t };

    fn from(fault: TimedFault) -> Fault {
        match fault {
            TimedFault::Memory => Fault::Means(Want::Memory),
            TimedFault::Behaviours => Fault::Run(RunFault::Behaviours),
        }
    }
}

impl From<RunFault> for Fault {
    ghost use Rattle.boc_run_commands.specs.Faults.{of_run};

    ghost from_gives = { λ r f. f ≡ of_run r };

    fn from(fault: RunFault) -> Fault {
        match fault {
            RunFault::Memory => Fault::Means(Want::Memory),
            other => Fault::Run(other),
        }
    }
}

impl From<WriteFault> for Fault {
    ghost use Rattle.boc_run_commands.specs.Faults.{of_write};

    ghost from_gives = { λ w f. f ≡ of_write w };

    fn from(fault: WriteFault) -> Fault {
        match fault {
            WriteFault::Memory => Fault::Means(Want::Memory),
            WriteFault::Device { gone } => Fault::Means(Want::Sink { gone }),
        }
    }
}

impl From<Stopped> for Fault {
    ghost use Rattle.boc_run_commands.specs.declared.fault.Fault.TheVariants.{Means};
    ghost use Rattle.boc_run_commands.specs.declared.fault.Want.TheVariants.{Sink};

    ghost from_gives = { λ s f. f ≡ Means (Sink s.gone) };

    fn from(stopped: Stopped) -> Fault {
        Fault::Means(Want::Sink { gone: stopped.gone })
    }
}

impl From<AllocError> for Fault {
    ghost use Rattle.boc_run_commands.specs.declared.fault.Fault.TheVariants.{Means};
    ghost use Rattle.boc_run_commands.specs.declared.fault.Want.TheVariants.{Memory};

    ghost from_gives = { λ _ f. f ≡ Means Memory };

    fn from(_error: AllocError) -> Fault {
        Fault::Means(Want::Memory)
    }
}

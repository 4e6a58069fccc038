// A stream, followed line by line.

ghost use Rattle.std.specs.Prelude.{◌≡◌, ◌<◌, ◌≤◌, [], false, length, IfErr, IfOk, OnOk};
ghost use Rattle.std.specs.Bool.{OnTrue};
ghost use Rattle.boc_stream.specs.LongLines.{to_come};
ghost use Rattle.boc_stream.specs.declared.lines.TheConstants.{CAPACITY};
ghost use Rattle.boc_cut.specs.Counting.{CountsFault, CountsPart, SparesSource};
ghost use Rattle.boc_cut.specs.Reading.{FindsLine, FindsEnd, GoesOn, TakesTold};
ghost use Rattle.boc_cut.specs.Spawned.{LineSpawns};

use crate::table::Table;
use boc_progress::Progress;
use boc_stream::{Found, LongLines, StreamFault, StreamFaultKind, Told, header_of, told_of};
use boc_text::Source;
use std::alloc::Global;

// How many lines are read between two reports of progress.
const BETWEEN: u64 = 65_536;

/// The lines of a stream, and how many were read.
#[derive(Drop)]
pub struct Stream {
    pub lines: LongLines,
    /// The number of the line that is read next or was read last, counted from 1.
    pub line: u64,
    pub cowns: Vec<u64>,
}

/// What a line of a stream was.
#[derive(Clone, Copy, PartialEq, Eq, Debug)]
pub enum Step {
    /// A line that others may follow.
    Line,
    /// The last line.
    Last,
    /// The stream has no more bytes.
    End,
}

impl Stream {
    /// Makes a stream of which nothing was read yet.
    pub fn new(alloc: Global) -> Stream
        ensures buffered { result.lines.buffered ≡ [] }
        ensures is_over { result.lines.is_over ≡ false }
    {
        Stream {
            lines: LongLines::new(),
            line: 1,
            cowns: Vec::new(alloc),
        }
    }

    /// Goes on to the next line.
    pub fn step(&mut self)
        ensures { self.new.lines ≡ self.old.lines }
    {
        self.line = self.line.saturating_add(1);
    }

    /// Finds the next line. `false` says that there is none.
    pub fn next_line<S: Source>(&mut self, source: &mut S) -> Result<bool, StreamFaultKind>
        requires { S.failures source.old < u64.MAX }
        ensures found { FindsLine self.old.lines.is_over result self.new.lines.line (to_come self.old.lines (S.remaining source.old))
            (to_come self.new.lines (S.remaining source.new)) }
        ensures open { IfOk result (λ found. OnTrue found (self.new.lines.is_over ≡ false)) }
        ensures failures { CountsPart result (S.failures source.old) (S.failures source.new) }
    {
        match self.lines.advance(source) {
            Found::Line => Ok(true),
            Found::End => Ok(false),
            Found::Cut => Err(StreamFaultKind::Truncated),
            Found::TooLong => Err(StreamFaultKind::LongLine),
            Found::Device => Err(StreamFaultKind::Device),
        }
    }

    /// Takes the line that was found last into a table.
    pub fn take_line(&mut self, table: &mut Table) -> Result<Step, StreamFaultKind>
        ensures lines { self.new.lines ≡ self.old.lines }
        ensures table { OnOk result (LineSpawns self.old.lines.line table.old.rows.items table.old.uses.items table.new.rows.items table.new.uses.items) }
        ensures unread { IfErr result SparesSource }
    {
        let line = self.lines.line();
        if self.line == 1 {
            if let Some(header) = header_of(line) {
                table.begin(header);
                return Ok(Step::Line);
            }
        }
        let Ok(told) = told_of(line, table.version, &mut self.cowns) else {
            return Err(StreamFaultKind::Memory);
        };
        match told {
            None => Err(StreamFaultKind::Form),
            Some(told) => match take_told(table, told, &self.cowns) {
                Ok(step) => Ok(step),
                Err(kind) => Err(unread(kind)),
            },
        }
    }

    // Takes the next line, if there is one.
    fn advance<S: Source>(
        &mut self,
        source: &mut S,
        table: &mut Table,
    ) -> Result<Step, StreamFaultKind>
        requires { S.failures source.old < u64.MAX }
        ensures table { OnOk result (GoesOn (to_come self.old.lines (S.remaining source.old)) (to_come self.new.lines (S.remaining source.new))
            table.old.rows.items table.old.uses.items table.new.rows.items table.new.uses.items) }
        ensures failures { CountsPart result (S.failures source.old) (S.failures source.new) }
    {
        if self.next_line(source)? {
            self.take_line(table)
        } else {
            Ok(Step::End)
        }
    }

    /// Sees that nothing follows the last line.
    pub fn finish<S: Source>(&mut self, source: &mut S) -> Result<(), StreamFaultKind>
        requires { S.failures source.old < u64.MAX }
        ensures end { FindsEnd self.old.lines.is_over result (to_come self.old.lines (S.remaining source.old))
            (to_come self.new.lines (S.remaining source.new)) }
        ensures failures { CountsPart result (S.failures source.old) (S.failures source.new) }
    {
        match self.lines.advance(source) {
            Found::End => Ok(()),
            Found::Device => Err(StreamFaultKind::Device),
            Found::Line | Found::Cut | Found::TooLong => Err(StreamFaultKind::After),
        }
    }

    /// Takes the next line, and says whether there was one that others may follow.
    pub fn advance_over<S: Source>(
        &mut self,
        source: &mut S,
        table: &mut Table,
        progress: &mut dyn Progress,
    ) -> Result<bool, StreamFaultKind>
        requires { S.failures source.old < u64.MAX }
        ensures table { OnOk result (GoesOn (to_come self.old.lines (S.remaining source.old)) (to_come self.new.lines (S.remaining source.new))
            table.old.rows.items table.old.uses.items table.new.rows.items table.new.uses.items) }
        ensures failures { CountsPart result (S.failures source.old) (S.failures source.new) }
    {
        match self.advance(source, table)? {
            Step::Line => {
                self.step();
                if self.line % BETWEEN == 0 {
                    progress.done(table.rank as usize, 0);
                }
                Ok(true)
            }
            Step::Last => {
                self.step();
                self.finish(source)?;
                Ok(false)
            }
            Step::End => Ok(false),
        }
    }

    // Reads until the window is whole, or the stream ends.
    fn read<S: Source>(
        &mut self,
        source: &mut S,
        table: &mut Table,
        progress: &mut dyn Progress,
    ) -> Result<(), StreamFaultKind>
        requires { S.failures source.old < u64.MAX }
        ensures table { OnOk result (GoesOn (to_come self.old.lines (S.remaining source.old)) (to_come self.new.lines (S.remaining source.new))
            table.old.rows.items table.old.uses.items table.new.rows.items table.new.uses.items) }
        ensures failures { CountsPart result (S.failures source.old) (S.failures source.new) }
    {
        for _ in 0..u64::MAX {
            if table.is_over() {
                return Ok(());
            }
            if !self.advance_over(source, table, progress)? {
                return Ok(());
            }
        }
        Ok(())
    }

    /// Follows a stream until the window of a table is whole, or the stream ends.
    pub fn follow<S: Source>(
        &mut self,
        source: &mut S,
        table: &mut Table,
        progress: &mut dyn Progress,
    ) -> Result<(), StreamFault>
        requires { S.failures source.old < u64.MAX }
        ensures table { OnOk result (GoesOn (to_come self.old.lines (S.remaining source.old)) (to_come self.new.lines (S.remaining source.new))
            table.old.rows.items table.old.uses.items table.new.rows.items table.new.uses.items) }
        ensures failures { CountsFault result (S.failures source.old) (S.failures source.new) }
    {
        match self.read(source, table, progress) {
            Ok(()) => Ok(()),
            Err(kind) => Err(self.fault(kind)),
        }
    }

    /// Returns how many bytes are taken in and not read yet.
    pub fn ahead(&self) -> usize
        ensures value { result ≡ length self.now.lines.buffered }
        ensures few { result ≤ CAPACITY }
    {
        self.lines.buffered().len()
    }

    /// Returns a fault at the line that was read last.
    pub fn fault(&self, kind: StreamFaultKind) -> StreamFault
        ensures { result.kind ≡ kind }
    {
        StreamFault {
            line: self.line,
            kind,
        }
    }
}

/// Returns a kind of fault for a call that reads nothing: one that isn't a failure of the source.
pub fn unread(kind: StreamFaultKind) -> StreamFaultKind
    ensures { SparesSource result }
{
    match kind {
        StreamFaultKind::Device => StreamFaultKind::Memory,
        kind => kind,
    }
}

// Takes what a line reports. The line `.` is the last one, whether or not rows are alive.
fn take_told(table: &mut Table, told: Told, cowns: &[u64]) -> Result<Step, StreamFaultKind>
    ensures { OnOk result (TakesTold told cowns.now table.old.rows.items table.old.uses.items table.new.rows.items table.new.uses.items) }
{
    match told {
        Told::Spawn {
            row,
            parent,
            offset,
        } => {
            table.spawn(row, parent, offset, cowns)?;
            Ok(Step::Line)
        }
        Told::Start { row } => {
            table.start(row)?;
            Ok(Step::Line)
        }
        Told::End { row, ticks, status } => {
            table.end(row, ticks, status, cowns)?;
            Ok(Step::Line)
        }
        Told::Last if table.rank > 0 => Ok(Step::Last),
        Told::Last => Err(StreamFaultKind::Unended),
    }
}

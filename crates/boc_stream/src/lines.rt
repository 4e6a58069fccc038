//! Lines of a source that may be long, one at a time.

ghost use Rattle.std.specs.Prelude.{◌≡◌, ◌+◌, ◌-◌, ◌<◌, ◌≤◌, [], false, length, take, drop, slice_range, IfOk, OnErr};
ghost use Rattle.std.specs.Bool.{OnTrue, OnFalse};
ghost use Rattle.std.specs.Io.KnownBytes.{Keeps, IsAtEnd};
ghost use Rattle.boc_text.specs.Streams.{CountsFailure};
ghost use Rattle.boc_stream.specs.LongLines.{to_come, TellsFront, Finds, Exhausts, LeavesOpen, CountsFound, ends_lines};

use boc_text::{Failed, Source};
use memchr::memchr;
use std::marker::Model;

/// The most bytes that a line may have, without its line feed.
pub const MOST_LINE: usize = 4096;

/// The most bytes that are taken in ahead.
pub const CAPACITY: usize = 65_536;

/// What comes next of the lines of a source: `LongLines::line` has a line.
#[derive(Clone, Copy, PartialEq, Eq, Debug)]
pub enum Found {
    /// A line.
    Line,
    /// No more bytes come.
    End,
    /// The bytes end within a line: some come after the last line feed.
    Cut,
    /// More than 4,096 bytes come before the next line feed.
    TooLong,
    /// The source failed.
    Device,
}

/// What is at the front of bytes.
enum Front {
    /// A line of the given number of bytes, and its line feed.
    Line(usize),
    /// A line that may go on.
    Open,
    /// More bytes than a line may have.
    TooLong,
}

fn front_of(bytes: &[u8]) -> Front
    ensures { TellsFront result bytes.now }
{
    let most = bytes.len().min(MOST_LINE + 1);
    match memchr(b'\n', &bytes[..most]) {
        Some(len) => Front::Line(len),
        None if most > MOST_LINE => Front::TooLong,
        None => Front::Open,
    }
}

// Moves at most 4,096 bytes to the front.
fn move_to_front(buffer: &mut [u8], start: usize, end: usize)
    requires ordered { start ≤ end }
    requires within { end ≤ length buffer.old }
    requires few { end - start ≤ MOST_LINE }
    ensures front { take (end - start) buffer.new ≡ slice_range buffer.old start end }
{
    let len = end - start;
    let mut moved = [0; MOST_LINE];
    moved[..len].copy_from_slice(&buffer[start..end]);
    buffer[..len].copy_from_slice(&moved[..len]);
}

/// The lines of a source. Bytes are taken in ahead, and no memory is allocated.
///
/// The source is passed at each call, and must be the same at all of them. Contracts see the line that
/// was found last, the bytes that are taken in and not given yet, and whether the lines have ended.
#[derive(Drop)]
pub struct LongLines {
    buffer: [u8; CAPACITY],
    line: usize,
    line_end: usize,
    start: usize,
    end: usize,
    is_over: bool,
}

impl Model for LongLines {
    ghost use Rattle.std.specs.Prelude.{◌≡◌, ◌≤◌, slice_range};
    ghost use Rattle.std.specs.Bool.{OnTrue};
    ghost use Rattle.boc_stream.specs.declared.lines.TheConstants.{CAPACITY};
    ghost use Rattle.boc_stream.specs.LongLines.{LinesState};

    ghost Value = { LinesState };

    ghost view = { λ l. record { line = slice_range l.buffer l.line l.line_end; buffered = slice_range l.buffer l.start l.end; is_over = l.is_over } };

    ghost invariant = { λ l. (l.line ≤ l.line_end) × (l.line_end ≤ CAPACITY) × (l.start ≤ l.end) × (l.end ≤ CAPACITY)
        × OnTrue l.is_over (l.line ≡ l.line_end) };
}

impl LongLines {
    /// Returns the lines of a source of which nothing is taken in yet.
    pub fn new() -> LongLines
        ensures line { result.line ≡ [] }
        ensures buffered { result.buffered ≡ [] }
        ensures is_over { result.is_over ≡ false }
    {
        LongLines {
            buffer: [0; CAPACITY],
            line: 0,
            line_end: 0,
            start: 0,
            end: 0,
            is_over: false,
        }
    }

    /// Returns the bytes that are taken in and not given yet.
    pub fn buffered(&self) -> &[u8]
        ensures bytes { result.now ≡ self.now.buffered }
        ensures few { length result.now ≤ CAPACITY }
    {
        &self.buffer[self.start..self.end]
    }

    /// Goes past the line of the given number of bytes and its line feed, which are at the front of those taken in. `line` then gives
    /// it.
    pub fn take_line(&mut self, len: usize)
        requires open { self.old.is_over ≡ false }
        requires within { len < length self.old.buffered }
        ensures line { self.new.line ≡ take len self.old.buffered }
        ensures rest { self.new.buffered ≡ drop (len + 1) self.old.buffered }
        ensures is_over { self.new.is_over ≡ self.old.is_over }
    {
        self.line = self.start;
        self.line_end = self.start + len;
        self.start += len + 1;
    }

    // Takes in more bytes, and says how many.
    fn refill<S: Source>(&mut self, source: &mut S) -> Result<usize, Failed>
        requires can_fail { S.failures source.old < u64.MAX }
        requires few { length self.old.buffered ≤ MOST_LINE }
        ensures bytes { Keeps (to_come self.old (S.remaining source.old)) (to_come self.new (S.remaining source.new)) }
        ensures count { IfOk result (λ n. length self.new.buffered ≡ length self.old.buffered + n) }
        ensures end { IfOk result (λ n. n ≡ 0 → IsAtEnd (S.remaining source.new)) }
        ensures is_over { self.new.is_over ≡ self.old.is_over }
        ensures kept { OnErr result (self.new.buffered ≡ self.old.buffered) }
        ensures failures { CountsFailure result (S.failures source.old) (S.failures source.new) }
    {
        let len = self.end - self.start;
        move_to_front(&mut self.buffer, self.start, self.end);
        self.start = 0;
        self.end = len;
        let count = source.read(&mut self.buffer[len..])?;
        self.end += count;
        Ok(count)
    }

    // Finds what comes next of lines that are not over.
    fn find<S: Source>(&mut self, source: &mut S) -> Found
        requires open { self.old.is_over ≡ false }
        requires can_fail { S.failures source.old < u64.MAX }
        ensures found { Finds result self.new.line (to_come self.old (S.remaining source.old)) (to_come self.new (S.remaining source.new)) }
        ensures exhausts { Exhausts result (S.remaining source.new) }
        ensures open { LeavesOpen result self.new.buffered }
        ensures failures { CountsFound result (S.failures source.old) (S.failures source.new) }
        ensures is_over { self.new.is_over ≡ self.old.is_over }
    {
        loop {
            match front_of(self.buffered()) {
                Front::Line(len) => {
                    self.take_line(len);
                    return Found::Line;
                }
                Front::TooLong => return Found::TooLong,
                Front::Open => match self.refill(source) {
                    Ok(0) if self.buffered().is_empty() => return Found::End,
                    Ok(0) => return Found::Cut,
                    Ok(_) => {}
                    Err(Failed) => return Found::Device,
                },
            }
        }
    }

    /// Finds the next line, which `line` then gives, without its line feed. Each answer but a line ends the
    /// lines: from then on the answer is `End`, nothing is read, and `line` is empty.
    pub fn advance<S: Source>(&mut self, source: &mut S) -> Found
        requires { S.failures source.old < u64.MAX }
        ensures over { OnTrue self.old.is_over ((result ≡ Found.End) × (self.new ≡ self.old) × (source.new ≡ source.old)) }
        ensures found { OnFalse self.old.is_over (Finds result self.new.line (to_come self.old (S.remaining source.old))
            (to_come self.new (S.remaining source.new))) }
        ensures exhausts { OnFalse self.old.is_over (Exhausts result (S.remaining source.new)) }
        ensures open { OnFalse self.old.is_over (LeavesOpen result self.new.buffered) }
        ensures ahead { length self.new.buffered ≤ CAPACITY }
        ensures line { OnTrue (ends_lines result) (self.new.line ≡ []) }
        ensures is_over { self.new.is_over ≡ ends_lines result }
        ensures failures { CountsFound result (S.failures source.old) (S.failures source.new) }
    {
        if self.is_over {
            return Found::End;
        }
        let found = self.find(source);
        if found != Found::Line {
            self.line_end = self.line;
            self.is_over = true;
        }
        found
    }

    /// Returns the line that was found last, without its line feed; empty where none was found yet, and where the lines
    /// have ended.
    pub fn line(&self) -> &[u8]
        ensures { result.now ≡ self.now.line }
    {
        &self.buffer[self.line..self.line_end]
    }
}

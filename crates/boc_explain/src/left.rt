// What the run of a record leaves undone: the rows that have not ended, those that could start, and how to continue with what is there.

use crate::formed::number;
use crate::run::{Life, life_of, row_count, run_before};
use boc_rules::Judge;
use boc_said::place::Text;
use boc_said::said::Part::{Bytes, Many, Number, Words};
use boc_said::said::{Said, Told};
use boc_stalled::{is_pending, none_runs, rows_that_could_start, rows_that_wait_for};

// How many rows that could start are reported one by one.
const MOST_STARTS: usize = 3;

// The most bytes of a file's name in a command that is shown.
const MOST_NAME: usize = 80;

/// Reports what the run of the lines before this one, which is `.`, has left undone. Where no row runs it says which rows could start.
pub(crate) fn put_unended(said: &mut Said, text: Text<'_>, line: u64) -> Told {
    let run = run_before(said.alloc, text.bytes, line)?;
    put_left(said, &run)?;
    put_stalled(said, &run)?;
    put_cut(said, &run, text.name, None)
}

/// Reports what the run of the lines before this one has left undone, where a record ends before the line, or within it.
pub(crate) fn put_truncated(said: &mut Said, text: Text<'_>, line: u64, within: bool) -> Told {
    let run = run_before(said.alloc, text.bytes, line)?;
    put_left(said, &run)?;
    let whole = if within {
        Some(line.saturating_sub(1))
    } else {
        None
    };
    put_cut(said, &run, text.name, whole)
}

// Reports which rows have not started, and which have not ended.
fn put_left(said: &mut Said, run: &Judge) -> Told {
    if run.count() == 0 {
        return said.words("no row was spawned yet");
    }
    put_rows(said, run, Life::Pending, "not started")?;
    put_rows(said, run, Life::Running, "started and not ended")
}

// Reports how many rows have come so far, as these words say, and which is the first of them.
fn put_rows(said: &mut Said, run: &Judge, life: Life, come: &str) -> Told {
    let mut rows = (0..row_count(run)).filter(|row| life_of(run, *row) == Some(life));
    let Some(first) = rows.next() else {
        return Ok(());
    };
    let count = (rows.count() as u64).saturating_add(1);
    let parts = [Many(count, "row"), Words(come), number(first)];
    said.tell("{} {}, the first is row ", &parts)
}

// Reports the first rows that could start where none runs, and how many more there are.
fn put_stalled(said: &mut Said, run: &Judge) -> Told {
    if !none_runs(run) {
        return Ok(());
    }
    let rows = rows_that_could_start(said.alloc, run)?;
    for (place, row) in rows.iter().take(MOST_STARTS).enumerate() {
        put_start(said, run, *row, place > 0)?;
    }
    match rows.len().saturating_sub(MOST_STARTS) {
        0 => Ok(()),
        1 => said.words("1 more row could start: its wake-up was lost"),
        more => {
            let more = [Number(more as u64)];
            said.tell("{} more rows could start: their wake-ups were lost", &more)
        }
    }
}

// Reports that a row could start, after another one or as the first, and how many rows wait for it.
fn put_start(said: &mut Said, run: &Judge, row: u32, is_next: bool) -> Told {
    let waiting = rows_that_wait_for(said.alloc, run, row)?.len() as u64;
    let (count, wait) = match waiting {
        0 => (Words("no row"), " waits for it"),
        1 => (Many(waiting, "row"), " waits for it"),
        _ => (Many(waiting, "row"), " wait for it"),
    };
    let how = if is_next { " too" } else { " and nothing runs" };
    let parts = [number(row), Words(how), count, Words(wait)];
    said.tell("row {} could start{}: its wake-up was lost; ", &parts)
}

// Reports which commands continue with what is there, if a row has started. Where the record ends within a line, they leave out that line, and `whole` lines are before it.
fn put_cut(said: &mut Said, run: &Judge, name: Option<&str>, whole: Option<u64>) -> Told {
    if run.count() == 0 || is_pending(run, 0) {
        return Ok(());
    }
    let (quote, file) = match name {
        Some(name) => shown_name(name),
        None => ("", ""),
    };
    let (blank, of) = if name.is_some() {
        (" ", "")
    } else {
        ("", " of the same input")
    };
    let (blank, quote, file, of) = (
        Words(blank),
        Words(quote),
        Bytes(file.as_bytes()),
        Words(of),
    );
    match whole {
        None => {
            let words = "`boc cut{}{}{}{} | boc why`{} continues with what is there";
            said.tell(words, &[blank, quote, file, quote, of])
        }
        Some(lines) => {
            let words = "`head -n {}{}{}{}{} | boc cut | boc why`{} continues with what is there";
            said.tell(words, &[Number(lines), blank, quote, file, quote, of])
        }
    }
}

// Returns a file's name as a word of a command, and the quotes round it; `FILE` where the name is long, or can't be such a word as it is printed.
fn shown_name(name: &str) -> (&'static str, &str) {
    let bytes = name.as_bytes();
    let is_word = bytes.len() <= MOST_NAME && !bytes.starts_with(b"-");
    if is_word && bytes.iter().all(is_plain) {
        ("", name)
    } else if is_word && !bytes.contains(&b'\'') && !bytes.contains(&b'?') {
        ("'", name)
    } else {
        ("", "FILE")
    }
}

// Returns whether a byte of a word means itself to a shell.
fn is_plain(byte: &u8) -> bool {
    byte.is_ascii_alphanumeric() || b"._-/+,:@%=".contains(byte)
}

// What is noted of a window: what was left out, and what that may cost.

use boc_cut::Notes;
use boc_program::limits::{MOST_HELD, MOST_ROWS, MOST_TICKS};
use boc_text::put_number;
use boc_words::AskedCut;
use std::alloc::{AllocError, Global};

// A part of a note.
#[derive(Clone, Copy)]
enum Part<'a> {
    Words(&'a str),
    Number(u64),
}

use Part::{Number, Words};

// Puts a note, with its line feed.
fn put(text: &mut Vec<u8>, parts: &[Part]) -> Result<(), AllocError> {
    text.extend_from_slice(b"boc: note: ")?;
    for part in parts {
        match part {
            Words(words) => text.extend_from_slice(words.as_bytes())?,
            Number(number) => put_number(text, *number)?,
        }
    }
    text.push(b'\n')?;
    Ok(())
}

/// Returns the notes on a window, each a line for standard error; none on a record that is its own window.
pub(crate) fn notes_on_window(
    alloc: Global,
    asked: AskedCut,
    notes: &Notes,
) -> Result<Vec<u8>, AllocError> {
    let mut text = Vec::new(alloc);
    if *notes != Notes::whole(notes.rows, notes.used) {
        put_place(&mut text, asked, notes)?;
        put_carried(&mut text, asked, notes)?;
        put_added(&mut text, notes)?;
        put_unended(&mut text, notes)?;
        put_wide(&mut text, notes)?;
        put_cowns(&mut text, notes)?;
        put_divisor(&mut text, notes)?;
    }
    Ok(text)
}

// Puts which rows of the stream the window has, where it hasn't all of them.
fn put_place(text: &mut Vec<u8>, asked: AskedCut, notes: &Notes) -> Result<(), AllocError> {
    let most = match asked.rows {
        Some(rows) => u64::from(rows).min(MOST_ROWS as u64),
        None => MOST_ROWS as u64,
    };
    if asked.from == 0 && notes.end != most {
        return Ok(());
    }
    if notes.end > asked.from {
        return put(
            text,
            &[
                Words("the window is ranks "),
                Number(asked.from),
                Words(" to "),
                Number(notes.end - 1),
                Words(" of the stream"),
            ],
        );
    }
    put(
        text,
        &[
            Words("no row of rank "),
            Number(asked.from),
            Words(" or above fits: "),
            Number(notes.carried as u64),
            Words(" were alive before it"),
        ],
    )
}

// Puts how many rows were alive where the window begins, and how late they are spawned.
fn put_carried(text: &mut Vec<u8>, asked: AskedCut, notes: &Notes) -> Result<(), AllocError> {
    let has_main = asked.from > 0 && !notes.has_stand_in;
    let others = notes.carried.saturating_sub(if has_main { 1 } else { 0 });
    let said = match others {
        0 => return Ok(()),
        1 => " row was alive before it, and is spawned up to ",
        _ => " rows were alive before it, and are spawned up to ",
    };
    put(
        text,
        &[
            Number(others as u64),
            Words(said),
            Number(notes.late as u64),
            Words(" ticks late"),
        ],
    )
}

// Puts which rows of the record are none of the stream.
fn put_added(text: &mut Vec<u8>, notes: &Notes) -> Result<(), AllocError> {
    let front = match (notes.has_stand_in, notes.helpers) {
        (true, 0) => {
            return put(
                text,
                &[Words("row 0 is added: it stands in for that of the run")],
            );
        }
        (false, 0) => return Ok(()),
        (true, _) => "rows 0 to ",
        (false, _) => "rows 1 to ",
    };
    put(
        text,
        &[
            Words(front),
            Number(notes.helpers as u64),
            Words(" are added: they spawn these"),
        ],
    )
}

// Puts how many rows were left out or ended where the stream ends.
fn put_unended(text: &mut Vec<u8>, notes: &Notes) -> Result<(), AllocError> {
    let pending = match notes.pending {
        0 => "",
        1 => " row that had not started is left out",
        _ => " rows that had not started are left out",
    };
    if notes.pending > 0 {
        put(text, &[Number(notes.pending as u64), Words(pending)])?;
    }
    let unended = match notes.unended {
        0 => return Ok(()),
        1 => " row that had not ended ends at its last spawn",
        _ => " rows that had not ended end at their last spawn",
    };
    put(text, &[Number(notes.unended as u64), Words(unended)])
}

// Puts how many rows have more cowns than a row of a record.
fn put_wide(text: &mut Vec<u8>, notes: &Notes) -> Result<(), AllocError> {
    let keep = match notes.wide {
        0 => return Ok(()),
        1 => " row keeps ",
        _ => " rows keep ",
    };
    let of = match (notes.wide, notes.lost) {
        (1, 1) => " of its cowns; 1 is left out",
        (1, _) => " of its cowns; ",
        _ => " of their cowns; ",
    };
    let wide = [
        Number(notes.wide as u64),
        Words(keep),
        Number(MOST_HELD as u64),
        Words(of),
    ];
    put_wide_end(text, &wide, notes)
}

// Puts the same with how many cowns that leaves out.
fn put_wide_end(text: &mut Vec<u8>, wide: &[Part; 4], notes: &Notes) -> Result<(), AllocError> {
    let end = match (notes.wide, notes.lost) {
        (1, 1) => return put(text, wide),
        (1, _) => " are left out",
        _ => " in all are left out",
    };
    put(
        text,
        &[
            wide[0],
            wide[1],
            wide[2],
            wide[3],
            Number(notes.lost as u64),
            Words(end),
        ],
    )
}

// Puts how many cowns were kept, and whether the span is that with all cowns.
fn put_cowns(text: &mut Vec<u8>, notes: &Notes) -> Result<(), AllocError> {
    let is_lost = notes.left_out > 0 || notes.lost > 0;
    if notes.kept >= notes.used && !is_lost {
        return Ok(());
    }
    let (kept, used) = (Number(notes.kept as u64), Number(notes.used as u64));
    let said = match (is_lost, notes.span == notes.whole_span) {
        (false, _) => " cowns; no order is lost",
        (true, true) => " cowns; the span is exact",
        (true, false) => " cowns; the span is ",
    };
    if !is_lost || notes.span == notes.whole_span {
        return put(
            text,
            &[Words("kept "), kept, Words(" of "), used, Words(said)],
        );
    }
    put(
        text,
        &[
            Words("kept "),
            kept,
            Words(" of "),
            used,
            Words(said),
            Number(notes.span),
            Words(", with all cowns "),
            Number(notes.whole_span),
        ],
    )
}

// Puts by what ticks were divided.
fn put_divisor(text: &mut Vec<u8>, notes: &Notes) -> Result<(), AllocError> {
    if notes.divisor <= 1 {
        return Ok(());
    }
    put(
        text,
        &[
            Words("ticks are divided by "),
            Number(notes.divisor),
            Words(", so that each is at most "),
            Number(u64::from(MOST_TICKS)),
        ],
    )
}

/// Returns the note on how many of all windows have more rows than a record can have; no text if each fits.
pub(crate) fn note_on_tiles(
    alloc: Global,
    large: usize,
    all: usize,
) -> Result<Vec<u8>, AllocError> {
    let mut text = Vec::new(alloc);
    let said = match (large, all) {
        (0, _) => return Ok(text),
        (1, 1) => " window is too large for a record: give a larger K",
        (1, _) => " windows is too large for a record: give a larger K",
        _ => " windows are too large for a record: give a larger K",
    };
    put(
        &mut text,
        &[
            Number(large as u64),
            Words(" of "),
            Number(all as u64),
            Words(said),
        ],
    )?;
    Ok(text)
}

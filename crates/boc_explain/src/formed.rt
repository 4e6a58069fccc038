// Lines of a record that have none of its forms, and what is said of any line.

use boc_program::limits::{MOST_COWNS, MOST_HELD};
use boc_said::place::looks_like_names;
use boc_said::said::Part::{Hex, Many, Number, Quote, Words};
use boc_said::said::{Part, Said, Told, first_case};
use boc_text::{MOST_LINE, read_number};
use std::alloc::AllocError;

/// What can be done about a record with too many rows.
pub(crate) const FEWER_ROWS: &str =
    "`boc cut` makes a record of a part of the run; docs/RECORDING.md, \"A long run\", says how";

/// What can be done where it, or one of its rows, has too many cowns.
pub(crate) const FEWER_COWNS: &str =
    "`boc cut` keeps the cowns that limit the run; docs/RECORDING.md, \"A long run\", says how";

/// What can be done where a row takes too many ticks, or spawns too late.
pub(crate) const COARSER_TICKS: &str =
    "`boc cut` divides all ticks; or count larger units, such as milliseconds; docs/RECORDING.md, \"Ticks\", has the rules";

// What is printable ASCII in a record.
const OF_RECORDS: &str = "records are";

/// Returns a number as a part of a line.
pub(crate) fn number<'a>(number: u32) -> Part<'a> {
    Number(u64::from(number))
}

/// Reports at which tick a row spawned its last child, and the lower limit that follows from that.
pub(crate) fn put_last_child(
    said: &mut Said,
    words: &str,
    row: u32,
    (child, tick): (u64, u32),
    least: Part<'_>,
) -> Told {
    said.about(words, &[number(row), Number(child), number(tick), least])
}

/// Reports what is wrong with a line whatever it is for, and answers whether anything is. Such lines are printable ASCII.
#[rattlefmt::skip]
pub(crate) fn put_common(said: &mut Said, line: &[u8], such: &str) -> Result<bool, AllocError> {
    let is_long = line.len() > MOST_LINE;
    let reason = first_case(&[
        (is_long && line.contains(&b'\r'), "a line ends with a line feed, not a carriage return, and has at most 80 bytes"),
        (is_long, "a line has at most 80 bytes"),
        (line.ends_with(b"\r"), "it ends with a carriage return; lines end with only a line feed"),
        (line.ends_with(b" "), "it ends with a space"),
    ]);
    let Some(reason) = reason else {
        return put_unprintable(said, line, such);
    };
    said.about(reason, &[])?;
    Ok(true)
}

// Reports which byte of a line can't be printed, and answers whether there is one.
fn put_unprintable(said: &mut Said, line: &[u8], such: &str) -> Result<bool, AllocError> {
    for (at, byte) in line.iter().enumerate() {
        if *byte != b' ' && !byte.is_ascii_graphic() {
            said.set_column(at.saturating_add(1));
            let parts = [Hex(*byte), Words(such)];
            said.about("the byte {} is not printable ASCII; ", &parts)?;
            return Ok(true);
        }
    }
    Ok(false)
}

/// Returns the column at which a field of a line begins. The first field has the number 0.
pub(crate) fn column_of(line: &[u8], field: usize) -> usize {
    let mut column: usize = 1;
    for before in line.split(is_space).take(field) {
        column = column.saturating_add(before.len()).saturating_add(1);
    }
    column
}

/// Reports what is wrong with a first line.
pub(crate) fn put_header(said: &mut Said, line: &[u8]) -> Told {
    if put_common(said, line, OF_RECORDS)? {
        return Ok(());
    }
    if line.starts_with(b"#") {
        let reason = "a record has no comments; its first line is `boc 2 COWNS`";
        return said.about(reason, &[]);
    }
    let mut fields = line.split(is_space);
    if fields.next() != Some(b"boc".as_slice()) {
        return said.about("the first line of a record is `boc 2 COWNS`", &[]);
    }
    let version = fields.next().and_then(read_number);
    let cowns = fields.next().and_then(read_number);
    if let (Some(version), Some(cowns)) = (version, cowns) {
        if version != 1 && version != 2 {
            let words = "version {} is not known; boc reads 1 and 2";
            return said.about(words, &[number(version)]);
        }
        if cowns as usize > MOST_COWNS {
            said.about("{} cowns, but at most 256 are allowed", &[number(cowns)])?;
            return said.words(FEWER_COWNS);
        }
    }
    let reason = "the first line of a record is `boc 2 COWNS`, in plain decimals";
    said.about(reason, &[])
}

/// Reports what is wrong with another line; in the first version of records an end has no cowns.
pub(crate) fn put_form(said: &mut Said, line: &[u8], is_first: bool) -> Told {
    if put_many_cowns(said, line, is_first)? || put_common(said, line, OF_RECORDS)? {
        return Ok(());
    }
    if line.is_empty() {
        return said.words("a record has no empty lines");
    }
    if let [sign @ (b'+' | b'>' | b'<'), b' ', fields @ ..] = line {
        return put_fields(said, line, *sign, fields, is_first);
    }
    said.about(form_words(line), &[])
}

// Returns what is wrong with a line that has no fields after a sign.
#[rattlefmt::skip]
fn form_words(line: &[u8]) -> &'static str {
    let is_signed = matches!(line, [b'+' | b'>' | b'<', ..]);
    let words = first_case(&[
        (line.starts_with(b"boc "), "another record begins here, before the last line `.` of this one"),
        (looks_like_names(line), "names go in a file of their own, for --names"),
        (line.starts_with(b"#"), "a record has no comments"),
        (line.starts_with(b"."), "the last line is only `.`"),
        (line.starts_with(b" "), "it begins with a space"),
        (is_signed && line.len() == 1, "no numbers after the sign"),
        (is_signed, "no space after the sign"),
    ]);
    words.unwrap_or("a line begins with `+`, `>` or `<`, and the last one is `.`")
}

// How many numbers of a spawn or of an end are no cowns.
const NOT_COWNS: usize = 3;

// Returns the numbers before the first field that is none: how many there are, and the third of them; and that field.
fn numbers_of(fields: &[u8]) -> (usize, u32, Option<&[u8]>) {
    let mut count: usize = 0;
    let mut third = 0;
    for field in fields.split(is_space) {
        let Some(number) = read_number(field) else {
            return (count, third, Some(field));
        };
        if count == 2 {
            third = number;
        }
        count = count.saturating_add(1);
    }
    (count, third, None)
}

// Reports of a line that it has too many cowns, and answers whether that is so. A line that is too long was not read to its end, and may have more.
fn put_many_cowns(said: &mut Said, line: &[u8], is_first: bool) -> Result<bool, AllocError> {
    let [sign @ (b'+' | b'<'), b' ', fields @ ..] = line else {
        return Ok(false);
    };
    let (count, _, wrong) = numbers_of(fields);
    let cowns = count.saturating_sub(NOT_COWNS);
    if *sign == b'<' && is_first || wrong.is_some() || cowns <= MOST_HELD {
        return Ok(false);
    }
    let told = if line.len() > MOST_LINE {
        Words("more than 8 cowns")
    } else {
        Many(cowns as u64, "cown")
    };
    said.about("{}, but a row has at most 8", &[told])?;
    said.words(FEWER_COWNS)?;
    Ok(true)
}

// Reports what is wrong with the fields of a line: one that is no number, how many there are, or the status of an end.
fn put_fields(said: &mut Said, line: &[u8], sign: u8, fields: &[u8], is_first: bool) -> Told {
    let (count, third, wrong) = numbers_of(fields);
    if let Some(field) = wrong {
        let is_of_ticks = sign == b'+' && count == 2 || sign == b'<' && count == 1;
        said.set_column(column_of(line, count.saturating_add(1)));
        return put_field(said, field, is_of_ticks);
    }
    let (form, least, most) = if sign == b'+' {
        ("`+ ROW PARENT OFFSET COWN ..`, with at most 8 cowns", 3, 11)
    } else if sign == b'>' {
        ("`> ROW`", 1, 1)
    } else if is_first {
        ("`< ROW TICKS STATUS`, in version 1 without cowns", 3, 3)
    } else {
        ("`< ROW TICKS STATUS COWN ..`, with at most 8 cowns", 3, 11)
    };
    if count < least || count > most {
        let parts = [Many(count as u64, "number"), Words(form)];
        return said.about("{}; the form is ", &parts);
    }
    if sign == b'<' && third > 6 {
        return said.about("a status is 0 to 6", &[]);
    }
    Ok(())
}

// Reports what is wrong with a field that is no number.
fn put_field(said: &mut Said, field: &[u8], is_of_ticks: bool) -> Told {
    if field.is_empty() {
        return said.about("two spaces; fields are separated by one", &[]);
    }
    put_no_number(said, field)?;
    if is_of_ticks && is_too_large(field) {
        said.words(COARSER_TICKS)?;
    }
    Ok(())
}

// Returns whether a word has only digits, at least one, and doesn't begin with 0: if it is no number, it is too large.
fn is_too_large(word: &[u8]) -> bool {
    are_digits(word) && !word.is_empty() && !word.starts_with(b"0")
}

/// Reports why a word of a line is no number.
pub(crate) fn put_no_number(said: &mut Said, word: &[u8]) -> Told {
    let is_negative = word.strip_prefix(b"-").is_some_and(is_too_large);
    let reason = first_case(&[
        (is_negative, " is negative; numbers are plain decimals"),
        (is_too_large(word), " is above 4294967295"),
        (!word.is_empty() && are_digits(word), " begins with a 0"),
    ]);
    let reason = Words(reason.unwrap_or(" is not a plain decimal"));
    said.about("{}", &[Quote(word), reason])
}

/// Returns whether a byte separates the fields of a line.
pub(crate) fn is_space(byte: &u8) -> bool {
    *byte == b' '
}

/// Returns whether a byte separates lines.
pub(crate) fn is_feed(byte: &u8) -> bool {
    *byte == b'\n'
}

/// Returns whether a text has digits alone.
pub(crate) fn are_digits(text: &[u8]) -> bool {
    text.iter().all(u8::is_ascii_digit)
}

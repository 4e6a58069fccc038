// Parts of HTML. What comes from a run is escaped.

use crate::columns::percent;
use crate::written::Written;

/// The head of a column of a table.
#[derive(Clone, Copy)]
pub(crate) struct Head {
    pub(crate) text: &'static str,
    /// What a pointer over it shows.
    pub(crate) title: &'static str,
    pub(crate) is_number: bool,
}

impl Head {
    /// Returns the head of a column of words.
    pub(crate) fn word(text: &'static str) -> Head {
        Head {
            text,
            title: "",
            is_number: false,
        }
    }

    /// Returns the head of a column of numbers, with what it means.
    pub(crate) fn number(text: &'static str, title: &'static str) -> Head {
        Head {
            text,
            title,
            is_number: true,
        }
    }
}

/// A colour of a meter.
#[derive(Clone, Copy, PartialEq, Eq, Debug)]
pub(crate) enum Meter {
    Plain,
    Chain,
}

// Returns what a byte is written as, if not as itself.
fn spelled(byte: u8) -> Option<&'static str> {
    match byte {
        b'<' => Some("&lt;"),
        b'>' => Some("&gt;"),
        b'&' => Some("&amp;"),
        b'"' => Some("&quot;"),
        b'\'' => Some("&#39;"),
        b'\t' => Some(" "),
        0..=31 | 127 => Some("?"),
        _ => None,
    }
}

/// Appends a byte that comes from a run: what has a meaning in HTML is written by its name, and `?` is written for what is not printed.
pub(crate) fn put_byte(text: &mut Written, byte: u8) {
    match spelled(byte) {
        Some(words) => text.put(words),
        None => text.push(byte),
    }
}

/// Appends a text that comes from a run, byte by byte.
pub(crate) fn put_html(text: &mut Written, bytes: &[u8]) {
    for byte in bytes {
        put_byte(text, *byte);
    }
}

/// Appends lines that come from a run.
pub(crate) fn put_lines(text: &mut Written, lines: &[u8]) {
    for line in lines.split(|byte| *byte == b'\n') {
        put_html(text, line);
        text.push(b'\n');
    }
}

/// Appends a number with commas between its thousands to a text.
pub(crate) fn put_grouped(text: &mut Written, number: u64) {
    let mut unit: u64 = 1;
    for _ in 0..6 {
        if number / unit.max(1) < 1_000 {
            break;
        }
        unit = unit.saturating_mul(1_000);
    }
    text.put_number(number / unit.max(1));
    for _ in 0..6 {
        if unit < 1_000 {
            break;
        }
        let rest = number % unit;
        unit /= 1_000;
        let part = rest / unit.max(1);
        text.push(b',');
        put_padded(text, part, 100);
    }
}

/// Appends a number with zeros before it, as many digits as a unit has.
pub(crate) fn put_padded(text: &mut Written, number: u64, unit: u64) {
    let mut unit = unit;
    for _ in 0..6 {
        if unit <= 1 || number >= unit {
            break;
        }
        text.push(b'0');
        unit /= 10;
    }
    text.put_number(number);
}

/// Appends hundredths to a text, as a number with two decimals.
pub(crate) fn put_hundredths(text: &mut Written, hundredths: u64) {
    put_grouped(text, hundredths / 100);
    text.push(b'.');
    put_padded(text, hundredths % 100, 10);
}

/// Appends a number and the word for as many things to a text.
pub(crate) fn put_many(text: &mut Written, number: u64, word: &str) {
    put_grouped(text, number);
    text.push(b' ');
    text.put(word);
    if number != 1 {
        text.push(b's');
    }
}

/// Appends a part of a whole in percents to a text.
pub(crate) fn put_percent(text: &mut Written, part: u64, whole: u64) {
    text.put_number(percent(part, whole));
    text.put(" %");
}

/// Appends a cell with a number to a text.
pub(crate) fn put_cell(text: &mut Written, number: u64) {
    text.put("<td class=\"n\">");
    put_grouped(text, number);
    text.put("</td>");
}

/// Appends a cell with by how much a number is less than it was to a text, with a sign where it is more.
pub(crate) fn put_saved(text: &mut Written, was: u64, now: u64) {
    text.put("<td class=\"n\">");
    if now > was {
        text.push(b'-');
    }
    put_grouped(text, was.abs_diff(now));
    text.put("</td>");
}

/// Appends a cell with a part of a whole to a text, as a bar and in percents.
pub(crate) fn put_part(text: &mut Written, part: u64, whole: u64, meter: Meter) {
    text.put("<td class=\"n\"><span class=\"meter");
    if meter == Meter::Chain {
        text.put(" chain");
    }
    text.put("\" aria-hidden=\"true\"><i style=\"width:");
    text.put_number(percent(part, whole).min(100));
    text.put("%\"></i></span><span class=\"beside\">");
    put_percent(text, part, whole);
    text.put("</span></td>");
}

/// Appends the begin of a cell with a name to a text; `key` says to the script what it is the name of, by a number.
pub(crate) fn open_named(text: &mut Written, key: &str, number: u64) {
    text.put("<td data-");
    text.put(key);
    text.put("=\"");
    text.put_number(number);
    text.put("\">");
}

/// Appends a cell with a name to a text.
pub(crate) fn put_named(text: &mut Written, key: &str, number: u64, name: &[u8]) {
    open_named(text, key, number);
    put_html(text, name);
    text.put("</td>");
}

// Appends the head of a column to a text.
fn put_head(text: &mut Written, head: &Head) {
    text.put("<th scope=\"col\"");
    if head.is_number {
        text.put(" class=\"n\"");
    }
    if !head.title.is_empty() {
        text.put(" title=\"");
        text.put(head.title);
        text.push(b'"');
    }
    text.push(b'>');
    text.put(head.text);
    text.put("</th>");
}

/// Appends the begin of a table to a text, with a caption of our own.
pub(crate) fn open_table(text: &mut Written, caption: &str, heads: &[Head]) {
    text.put(
        "<div class=\"table\"><div class=\"wide\" tabindex=\"0\" role=\"region\" aria-label=\"",
    );
    text.put(caption);
    text.put("\">\n<table class=\"sort\"><caption>");
    text.put(caption);
    text.put("</caption>\n<thead><tr>");
    for head in heads {
        put_head(text, head);
    }
    text.put("</tr></thead>\n<tbody>\n");
}

/// Appends the end of a table to a text.
pub(crate) fn close_table(text: &mut Written) {
    text.put("</tbody></table></div></div>\n");
}

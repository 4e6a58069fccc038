// The text of the program on a page, with what the rows of each def take.

use crate::def_costs::{DefCosts, put_costs};
use crate::html::{put_grouped, put_html, put_percent};
use crate::page::Page;
use crate::written::Written;
use boc_page::LineTicks;

// The most bytes of a line of the program.
const MOST_BYTES: usize = 400;

// Returns the word after `def`, where a line begins so, or `main`.
fn def_named(line: &[u8]) -> &[u8] {
    let line = line.trim_ascii_start();
    let (word, rest) = match line.strip_prefix(b"def ") {
        Some(rest) => (rest.trim_ascii_start(), true),
        None => (line, false),
    };
    let end = word
        .iter()
        .position(|byte| !byte.is_ascii_alphanumeric() && *byte != b'_')
        .unwrap_or(word.len());
    let name = &word[..end.min(word.len())];
    if rest || name == b"main".as_slice() {
        name
    } else {
        &[]
    }
}

// Returns the ticks of a line, if it takes any.
fn ticks_at(lines: &[LineTicks], line: usize) -> Option<LineTicks> {
    for own in lines {
        if own.line as usize == line {
            return Some(*own);
        }
    }
    None
}

// Appends the cells of the ticks of a line to a text.
fn put_ticks(text: &mut Written, page: &Page<'_>, ticks: Option<LineTicks>) {
    text.put("<td class=\"n\">");
    if let Some(own) = ticks {
        put_grouped(text, own.ticks);
    }
    text.put("</td><td class=\"n chain\">");
    if let Some(own) = ticks {
        put_percent(text, own.chain, page.subject.span);
    }
    text.put("</td>");
}

// Appends a line of the program to a text.
fn put_line(text: &mut Written, page: &Page<'_>, costs: &[DefCosts], number: usize, line: &[u8]) {
    text.put("<tr><td class=\"n\">");
    text.put_number(number as u64);
    text.put("</td>");
    if !page.lines.is_empty() {
        put_ticks(text, page, ticks_at(page.lines, number));
    }
    text.put("<td class=\"code\">");
    put_html(text, &line[..line.len().min(MOST_BYTES)]);
    text.push(b' ');
    let name = def_named(line);
    if let Some(place) = page.place_of(name) {
        put_def(text, page, costs, place);
    }
    text.put("</td></tr>\n");
}

// Appends what the rows of a def take to a text, where it has any.
fn put_def(text: &mut Written, page: &Page<'_>, costs: &[DefCosts], place: usize) {
    let own = match costs.get(place) {
        Some(own) if own.rows > 0 => *own,
        _ => return,
    };
    text.put("<small data-head=\"");
    text.put_number(place as u64);
    text.put("\">");
    put_costs(text, page, own);
    text.put("</small>");
}

/// Appends the program to a text, where the run is of one.
pub(crate) fn put_program(text: &mut Written, page: &Page<'_>, costs: &[DefCosts]) {
    if page.program.is_empty() {
        return;
    }
    text.put("<h2>The program</h2>\n");
    text.put(
        "<div class=\"wide source\" tabindex=\"0\" role=\"region\" aria-label=\"The program\"><table>\n<tbody>\n",
    );
    let program = page.program.trim_ascii_end();
    for (place, line) in program.split(|byte| *byte == b'\n').enumerate() {
        put_line(text, page, costs, place.saturating_add(1), line);
    }
    text.put("</tbody></table></div>\n");
}

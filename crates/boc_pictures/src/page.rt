// A page with all pictures of a run.

use crate::def_costs::costs_of;
use crate::html::{put_html, put_lines};
use crate::page_answer::{Sentences, put_answer};
use crate::page_curve::put_curve;
use crate::page_frame::{
    AFTER_DATA, BEFORE_ANSWER, BEFORE_CURVE, BEFORE_DATA, BEFORE_HEAD, BEFORE_PLAN, BEFORE_PROGRAM,
    BEFORE_RUNS, BEFORE_TABLES, BEFORE_TITLE,
};
use crate::page_program::put_program;
use crate::page_runs::{DrawnRuns, put_runs};
use crate::page_tables::put_tables;
use crate::subject::Subject;
use crate::written::Written;
use boc_cowns_report::JudgedCown;
use boc_greedy::{CurvePoint, Greedy};
use boc_page::{Defs, LineTicks};
use boc_plans::sharing::Sharing;
use boc_remedies::Advised;
use std::alloc::{AllocError, Global};

/// What a page shows. What is text has been formed before.
#[derive(Clone, Copy)]
pub struct Page<'a> {
    pub subject: &'a Subject,
    /// The name of the file.
    pub title: &'a [u8],
    /// How the program was run; nothing where one thread ran it, or where the run is a record's.
    pub run: &'a [u8],
    pub defs: &'a Defs,
    /// Why the rows take as long as they do, and what would help.
    pub found: &'a Advised,
    pub greedy: &'a Greedy,
    pub points: &'a [CurvePoint],
    /// The cowns, those first without which the greedy plan ends soonest.
    pub judged: &'a [JudgedCown],
    pub sentences: &'a Sentences,
    /// The chain in text.
    pub chain: &'a [u8],
    /// The plan in text.
    pub plan: &'a [u8],
    /// The text of the program; nothing where the run is a record's.
    pub program: &'a [u8],
    pub lines: &'a [LineTicks],
    /// The runs that seeds draw, where the page shows some.
    pub runs: Option<DrawnRuns<'a>>,
    /// The data block.
    pub data: &'a [u8],
}

impl Page<'_> {
    /// Returns the place of the def with this name among those that are listed. An empty one is none.
    pub(crate) fn place_of(&self, name: &[u8]) -> Option<usize> {
        if name.is_empty() {
            return None;
        }
        self.defs
            .names
            .iter()
            .position(|own| own.as_slice() == name)
    }
}

// Appends the title of the window to a text.
fn put_title(text: &mut Written, page: &Page<'_>) {
    put_html(text, page.title);
    if !page.run.is_empty() {
        text.put(" · ");
        put_html(text, page.run);
    }
    text.put(" · boc");
}

// Appends the heading to a text: the file, how it was run, and what times are.
fn put_heading(text: &mut Written, page: &Page<'_>) {
    text.put("<div><h1>");
    put_html(text, page.title);
    text.put("</h1><p>");
    if !page.run.is_empty() {
        text.put("<bdi>");
        put_html(text, page.run);
        text.put("</bdi>");
    } else if page.program.is_empty() {
        text.put("the record of a run");
    } else {
        text.put("run on one thread");
    }
    if page.subject.sharing == Sharing::SharedReads {
        text.put(" · rows that only read share cowns");
    }
    text.put(" · times are ticks, which are counted and not measured</p></div>");
}

/// Returns a page that is self-contained, in HTML: the answer, tables and the curve, and the data block with the script that draws the plans.
pub fn page_text(alloc: Global, page: &Page<'_>) -> Result<Vec<u8>, AllocError> {
    let costs = costs_of(alloc, page.subject, page.defs)?;
    let mut text = Written::new(alloc);
    text.put(BEFORE_TITLE);
    put_title(&mut text, page);
    text.put(BEFORE_HEAD);
    put_heading(&mut text, page);
    text.put(BEFORE_ANSWER);
    put_answer(alloc, &mut text, page)?;
    text.put(BEFORE_RUNS);
    put_runs(&mut text, page);
    text.put(BEFORE_PLAN);
    put_lines(&mut text, page.plan);
    text.put(BEFORE_TABLES);
    put_tables(alloc, &mut text, page, &costs)?;
    text.put(BEFORE_CURVE);
    put_curve(&mut text, page);
    text.put(BEFORE_PROGRAM);
    put_program(&mut text, page, &costs);
    text.put(BEFORE_DATA);
    text.put_bytes(page.data);
    text.put(AFTER_DATA);
    text.into_text()
}

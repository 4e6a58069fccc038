// What drawings have in common.

use crate::axis::put_length;
use crate::fitting::{letters_in, put_fit};
use crate::written::Written;
use std::alloc::{AllocError, Global};

// The colours of drawings: a text has a contrast of 4.5 to 1, and a bar of 3 to 1, on white and on dark paper. A drawing that is shown narrow has larger
// letters, and leaves out what doesn't fit then.
const STYLE: &str = "<style>
svg{height:auto;background:#fff;font:13px ui-monospace,Menlo,Consolas,'DejaVu Sans Mono',monospace}
text{fill:#1c2024}
.t{font-size:17px;font-weight:600}
.h{font-size:14px;font-weight:600}
.s,.axis text{font-size:12px;fill:#5a6470}
.axis text{text-anchor:middle}
.r{font-size:12px;fill:#5a6470;text-anchor:end}
.narrow{display:none}
.axis path{stroke:#e3e7ec}
.b{font-size:12px;pointer-events:none}
.b.k{fill:#000}
.b.w{fill:#fff}
.c0{fill:#7f8a99}.c1{fill:#4c78a8}.c2{fill:#4a9641}.c3{fill:#a8699a}.c4{fill:#bb8500}.c5{fill:#2a948e}.c6{fill:#9d755d}.c7{fill:#7b6cc4}
.c8{fill:#d0658a}.c9{fill:#7a9040}.c10{fill:#4a8fbf}.c11{fill:#a761ae}.c12{fill:#7a8745}.c13{fill:#577fa8}.c14{fill:#af6473}.c15{fill:#478a4d}
.c16{fill:#886eb4}.c17{fill:#8d7749}.c18{fill:#458784}.c19{fill:#ae619a}.c20{fill:#648745}.c21{fill:#6b77b3}.c22{fill:#ac685d}.c23{fill:#458761}
.c24{fill:#9b68b1}.c25{fill:#878745}.c26{fill:#4e8197}
.rest{fill:#838d98}
.queue{fill:#838d98}
.chain{fill:#c8410c;pointer-events:none}
.cuts{stroke:#fff;stroke-width:.7;pointer-events:none}
.links path{fill:none;stroke:#c8410c;stroke-width:1.5}
.links text{font-size:12px;fill:#a33408;stroke:#fff;stroke-width:3px;paint-order:stroke}
.waits{fill:none;stroke:#6f7985;stroke-dasharray:2 2}
.spawns{fill:none;stroke:#1c2024;stroke-width:1.2;pointer-events:none}
.end{fill:none;stroke:#1c2024;stroke-width:1.2}
.frame{fill:none;stroke:#838d98}
.linear{fill:none;stroke:#838d98;stroke-dasharray:2 4}
.roof{fill:none;stroke:#c8410c;stroke-width:1.5}
.bound{fill:none;stroke:#6f7985;stroke-width:1.2;stroke-dasharray:6 4}
.greedy{fill:none;stroke:#3b6fa8;stroke-width:2}
.dots circle{fill:#3b6fa8}
.least{fill:none;stroke:#c8410c;stroke-width:5;opacity:.4}
.m{text-anchor:middle}
.e{text-anchor:end}
@media (max-width:600px){
svg{font-size:20px}
.t{font-size:24px}
.h{font-size:21px}
.s,.axis text,.m,.e{font-size:19px}
.wide,.b,.r,.links text{display:none}
.narrow{display:inline}
}
@media screen and (prefers-color-scheme:dark){
svg{background:#14171a}
text{fill:#e8ebee}
.s,.axis text,.r{fill:#a3adb8}
.axis path{stroke:#2a3037}
.chain{fill:#ff7a3d}
.cuts{stroke:#14171a}
.links path,.roof,.least{stroke:#ff7a3d}
.links text{fill:#ff9a66;stroke:#14171a}
.spawns,.end{stroke:#e8ebee}
.greedy{stroke:#7fb0e6}
.dots circle{fill:#7fb0e6}
}
</style>
";

/// How many letters a label has at most, and how many where a drawing is shown narrow.
pub(crate) const LABEL_LETTERS: usize = 25;

pub(crate) const NARROW_LETTERS: usize = 16;

// How many letters the title of a drawing has at most.
const TITLE_LETTERS: usize = 60;

/// What a drawing is of: the name of a file, and how its program was run, which may be no words.
#[derive(Clone, Copy)]
pub struct Heading<'a> {
    pub title: &'a [u8],
    pub run: &'a [u8],
}

/// Where a text is, in hundredths of a pixel.
#[derive(Clone, Copy)]
pub(crate) struct Point {
    pub(crate) x: u64,
    pub(crate) y: u64,
}

/// Appends the begin of a text of a class at a place to another one.
pub(crate) fn open_words(text: &mut Written, class: &str, at: Point) {
    text.put("<text class=\"");
    text.put(class);
    text.put("\" x=\"");
    put_length(text, at.x);
    text.put("\" y=\"");
    put_length(text, at.y);
    text.put("\">");
}

/// Appends a text of a class at a place to another one, at most this many letters of it.
pub(crate) fn put_words(text: &mut Written, class: &str, at: Point, words: &[u8], most: usize) {
    open_words(text, class, at);
    put_fit(text, words, most);
    text.put("</text>\n");
}

/// Appends the label of a lane to a text: where it is long, a shorter one for a narrow drawing too.
pub(crate) fn put_label(text: &mut Written, at: Point, words: &[u8]) {
    if letters_in(words) <= NARROW_LETTERS {
        put_words(text, "n", at, words, NARROW_LETTERS);
    } else {
        put_words(text, "n wide", at, words, LABEL_LETTERS);
        put_words(text, "n narrow", at, words, NARROW_LETTERS);
    }
}

// Appends a width and a height to a text, with a blank between them.
fn put_size(text: &mut Written, width: u64, height: u64) {
    put_length(text, width);
    text.push(b' ');
    put_length(text, height);
}

// Appends the begin of a drawing to a text.
fn open(text: &mut Written, heading: Heading<'_>, what: &str, width: u64, height: u64) {
    text.put("<svg xmlns=\"http://www.w3.org/2000/svg\" width=\"100%\" viewBox=\"0 0 ");
    put_size(text, width, height);
    text.put("\" role=\"img\" aria-label=\"");
    text.put(what);
    put_fit(text, heading.title, TITLE_LETTERS);
    if !heading.run.is_empty() {
        text.put(", ");
        put_fit(text, heading.run, TITLE_LETTERS);
    }
    text.put("\">\n");
    text.put(STYLE);
}

/// Returns a drawing of this width and height, which has these parts.
pub(crate) fn whole(
    alloc: Global,
    heading: Heading<'_>,
    what: &str,
    width: u64,
    height: u64,
    parts: &Written,
) -> Result<Vec<u8>, AllocError> {
    let mut text = Written::new(alloc);
    open(&mut text, heading, what, width, height);
    text.put_all(parts);
    text.put("</svg>\n");
    text.into_text()
}

/// Appends the title of a drawing to a text, and returns where it ends.
pub(crate) fn put_heading(text: &mut Written, heading: Heading<'_>) -> u64 {
    let x = 1_000;
    put_words(
        text,
        "t",
        Point { x, y: 2_600 },
        heading.title,
        TITLE_LETTERS,
    );
    if heading.run.is_empty() {
        return 3_400;
    }
    put_words(text, "s", Point { x, y: 5_000 }, heading.run, TITLE_LETTERS);
    5_800
}

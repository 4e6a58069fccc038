// The text of a page around what is put into it. bin/page writes this file from the files in crates/boc_pictures/page.

/// What is before the title.
pub(crate) const BEFORE_TITLE: &str = r#"<!DOCTYPE html>
<html lang="en">
<head>
<meta charset="utf-8"/>
<meta http-equiv="Content-Security-Policy" content="default-src 'none'; style-src 'unsafe-inline'; script-src 'unsafe-inline'; base-uri 'none'; form-action 'none'"/>
<meta name="viewport" content="width=device-width, initial-scale=1"/>
<meta name="color-scheme" content="light dark"/>
<title>"#;

/// What is before the head.
pub(crate) const BEFORE_HEAD: &str = r#"</title>
<style>
/* Colours: light, dark by the system's setting or by the page's own, and paper. Text has a contrast of 4.5 to 1, a bar of 3 to 1. */
:root {
  --paper: #fff; --card: #fff; --band: #f1f4f7; --line: #e3e7ec; --muted: #d9dee4;
  --ink: #1c2024; --soft: #5a6470; --focus: #0b5fff; --good: #1d7a3a; --bad: #b42318;
  --chain: #c8410c; --plain: #6b93bb; --waits: #838d98; --blue: #3b6fa8;
}
@media (prefers-color-scheme: dark) {
  :root:not([data-theme=light]) {
    --paper: #14171a; --card: #191d21; --band: #1d2227; --line: #2a3037; --muted: #39414a;
    --ink: #e8ebee; --soft: #a3adb8; --focus: #6ea8ff; --good: #6fd08c; --bad: #ff8a7a;
    --chain: #ff7a3d; --plain: #5f87ab; --waits: #76808b; --blue: #7fb0e6;
  }
}
:root[data-theme=dark] {
  --paper: #14171a; --card: #191d21; --band: #1d2227; --line: #2a3037; --muted: #39414a;
  --ink: #e8ebee; --soft: #a3adb8; --focus: #6ea8ff; --good: #6fd08c; --bad: #ff8a7a;
  --chain: #ff7a3d; --plain: #5f87ab; --waits: #76808b; --blue: #7fb0e6;
}
* { box-sizing: border-box; }
[hidden] { display: none !important; }

/* Words */
body {
  margin: 0 auto; max-width: 1500px; padding: 18px 22px 60px; background: var(--paper); color: var(--ink);
  font: 14px/1.5 system-ui, -apple-system, "Segoe UI", sans-serif;
}
h1 { margin: 0; font-size: 22px; line-height: 1.25; overflow-wrap: anywhere; unicode-bidi: isolate; }
h2 { margin: 34px 0 10px; font-size: 17px; }
h3 { margin: 0 24px 8px 0; font-size: 14px; overflow-wrap: anywhere; }
p { margin: 4px 0 8px; }
pre { margin: 6px 0; font: 12px/1.45 ui-monospace, "DejaVu Sans Mono", monospace; }
header { display: flex; justify-content: space-between; align-items: start; gap: 12px; }
header p { color: var(--soft); margin: 2px 0 0; overflow-wrap: anywhere; }
header > div { min-width: 0; }
#warning { color: var(--bad); font-weight: 600; }
#warning:empty { display: none; }
.lead { max-width: 110ch; }

/* Controls */
button, select, input[type=search], input[type=number] {
  font: inherit; color: inherit; background: var(--card); border: 1px solid var(--waits); border-radius: 6px; padding: 3px 9px; min-height: 30px;
}
::placeholder { color: var(--soft); opacity: 1; }
button { cursor: pointer; white-space: nowrap; }
button:hover { border-color: var(--focus); }
button:disabled { opacity: .45; cursor: default; }
:focus-visible { outline: 2px solid var(--focus); outline-offset: 2px; }
button.link {
  border: 0; background: none; padding: 0; min-height: 0; color: var(--focus); text-align: left; white-space: normal; overflow-wrap: anywhere;
}
button.link:hover { text-decoration: underline; }
a { color: var(--focus); }

/* The answer */
.verdict { margin: 16px 0 0; padding: 12px 16px; border-left: 5px solid var(--chain); background: var(--band); border-radius: 6px; }
.verdict h2 { margin: 0 0 6px; }
.verdict p { display: flex; gap: 10px; align-items: baseline; margin: 4px 0; overflow-wrap: anywhere; }
.verdict .more { color: var(--soft); display: block; }
.badge { flex: none; background: var(--chain); color: var(--paper); border-radius: 5px; padding: 0 9px; min-width: 62px; text-align: center; }
.tiles { display: grid; grid-template-columns: repeat(4, 1fr); gap: 10px; margin: 12px 0; }
.tile { border: 1px solid var(--line); border-radius: 8px; padding: 9px 13px; display: flex; flex-direction: column; background: var(--card); }
.tile span, .tile small { color: var(--soft); }
.tile b { font-size: 23px; line-height: 1.25; font-variant-numeric: tabular-nums; }
.columns { display: grid; grid-template-columns: 1.25fr 1fr 1fr; gap: 14px 24px; align-items: start; }
.columns.two { grid-template-columns: 1fr 1fr; }
#tables .columns { display: flex; flex-wrap: wrap; }
#tables .columns > * { flex: 1 1 auto; max-width: 100%; }
.columns > * { min-width: 0; }
.wide { overflow-x: auto; }

/* Tables */
table { border-collapse: collapse; width: 100%; font-variant-numeric: tabular-nums; }
caption { text-align: left; font-weight: 600; padding: 6px 0 4px; }
th, td { padding: 3px 9px 3px 0; text-align: left; vertical-align: top; border-bottom: 1px solid var(--line); }
td { overflow-wrap: anywhere; }
td:first-child { min-width: 10ch; }
td.n:first-child { min-width: 0; }
th { font-weight: 400; color: var(--soft); vertical-align: bottom; white-space: nowrap; }
th button { border: 0; background: none; padding: 0; min-height: 24px; color: inherit; }
th[aria-sort=descending] button::after { content: " ▾"; }
th[aria-sort=ascending] button::after { content: " ▴"; }
.n { text-align: right; white-space: nowrap; }
td.n { overflow-wrap: normal; }
.n + :not(.n) { padding-left: 10px; }
.pages { padding: 6px 0; color: var(--soft); }
.meter {
  display: inline-block; width: 52px; height: 8px; margin-right: 4px; background: var(--muted); border-radius: 2px; vertical-align: 1px; overflow: hidden;
}
.beside { display: inline-block; min-width: 3.4em; text-align: right; }
.meter i { display: block; height: 100%; background: var(--blue); }
.meter.chain i { background: var(--chain); }
.swatch { display: inline-block; width: 11px; height: 11px; border-radius: 2px; margin-right: 6px; vertical-align: -1px; }
#curve .table .wide { max-height: 330px; overflow-y: auto; }
#tables .columns .wide { max-height: 600px; overflow-y: auto; }
.wide thead th { position: sticky; top: 0; background: var(--paper); }
details { margin: 10px 0; }
summary { cursor: pointer; font-weight: 600; padding: 4px 0; }

/* The plan */
#bar { display: flex; flex-wrap: wrap; gap: 8px; align-items: center; }
#bar input[type=number] { width: 58px; }
#bar input[type=search] { width: 170px; }
#bar .zoom { margin-left: auto; display: flex; gap: 4px; }
#legend { display: flex; flex-wrap: wrap; gap: 6px 8px; align-items: center; margin: 9px 0; max-height: 74px; overflow-y: auto; padding: 1px; }
.chip { border-radius: 15px; padding: 1px 11px; max-width: 100%; overflow: hidden; text-overflow: ellipsis; }
.chip small, label small { color: var(--soft); margin-left: 6px; }
.chip[aria-pressed=true] { border-color: var(--focus); box-shadow: inset 0 0 0 1px var(--focus); }
.key, .found { color: var(--soft); margin-left: 6px; }
#frame { display: grid; grid-template-columns: minmax(0, 1fr); border: 1px solid var(--line); border-radius: 8px; overflow: hidden; }
#frame.with { grid-template-columns: minmax(0, 1fr) 300px; }
#left { min-width: 0; }
#map { display: block; width: 100%; height: 46px; border-bottom: 1px solid var(--line); cursor: col-resize; touch-action: none; }
#scroll { height: min(62vh, 640px); min-height: 330px; overflow-y: auto; position: relative; }
#scroll:focus-visible { outline-offset: -2px; }
#canvas { display: block; position: sticky; top: 0; width: 100%; touch-action: pan-y; }
#details {
  border-left: 1px solid var(--line); padding: 12px 14px; position: relative; overflow-y: auto; background: var(--card);
  max-height: calc(max(min(62vh, 640px), 330px) + 46px);
}
#details:empty { display: none; }
#details .close { position: absolute; right: 8px; top: 8px; }
dl { display: grid; grid-template-columns: auto 1fr; gap: 3px 12px; margin: 0; }
dt { color: var(--soft); }
dd { margin: 0; min-width: 0; overflow-wrap: anywhere; }
.cown + .cown { margin-top: 5px; }
#viewer-title { display: flex; flex-wrap: wrap; gap: 4px 12px; align-items: center; }
.edited {
  font-size: 13px; font-weight: 400; padding: 3px 4px 3px 10px; border: 1px solid var(--chain); border-radius: 6px; overflow-wrap: anywhere; min-width: 0;
}
.edited button { margin-left: 8px; min-height: 24px; padding: 0 8px; }
#keys { color: var(--soft); font-size: 12.5px; margin: 8px 0 0; }
#said { position: absolute; width: 1px; height: 1px; overflow: hidden; clip-path: inset(50%); }
#tip {
  position: fixed; z-index: 9; pointer-events: none; max-width: min(420px, 90vw); padding: 7px 10px; border-radius: 6px;
  background: var(--ink); color: var(--paper); font-size: 12.5px; overflow-wrap: anywhere; box-shadow: 0 3px 12px #0004;
}

/* What if */
fieldset { border: 1px solid var(--line); border-radius: 8px; padding: 8px 14px 12px; min-width: 0; }
fieldset legend { color: var(--soft); padding: 0 6px; }
.slider { display: grid; grid-template-columns: minmax(80px, 1fr) 2fr 52px auto; gap: 10px; align-items: center; padding: 2px 0; }
.slider span { overflow: hidden; text-overflow: ellipsis; white-space: nowrap; }
.slider output { text-align: right; font-variant-numeric: tabular-nums; }
.slider label { color: var(--soft); white-space: nowrap; }
input[type=range] { width: 100%; accent-color: var(--focus); margin: 0; min-height: 26px; }
.boxes { display: grid; grid-template-columns: repeat(auto-fill, minmax(170px, 1fr)); gap: 2px 14px; max-height: 260px; overflow-y: auto; }
.boxes label { min-height: 25px; overflow-wrap: anywhere; }
.families { display: flex; flex-wrap: wrap; gap: 6px; margin-bottom: 6px; }
.families:empty { display: none; }
#result {
  display: flex; flex-wrap: wrap; gap: 6px 20px; align-items: center; min-height: 62px; padding: 10px 14px; background: var(--band); border-radius: 6px;
  overflow-wrap: anywhere;
}
#result code { flex-basis: 100%; color: var(--soft); user-select: all; }
#result bdi { display: inline-block; }
#result em { font-style: normal; }
.good { color: var(--good); }
.bad { color: var(--bad); }

/* The curve */
figure { margin: 0; }
figure svg { width: 100%; height: auto; display: block; }
figcaption { color: var(--soft); display: flex; flex-wrap: wrap; gap: 2px 16px; }
#curve svg text { fill: var(--soft); font: 12px system-ui, sans-serif; }
#curve .grid { stroke: var(--line); }
#curve .roof, #curve .linear { stroke: var(--soft); stroke-width: 1.5; fill: none; }
#curve .roof { stroke-dasharray: 2 3; }
#curve .floor { stroke: var(--waits); stroke-width: 1.5; stroke-dasharray: 6 4; fill: none; }
#curve .greedy { stroke: var(--blue); stroke-width: 2.5; fill: none; stroke-linejoin: round; }
#curve .dot { fill: var(--blue); }
#curve .here { fill: var(--chain); stroke: var(--paper); stroke-width: 2; }
.swatch.greedy { background: var(--blue); }
.swatch.greedy, .swatch.linear, .swatch.floor { width: 22px; height: 3px; vertical-align: 3px; border-radius: 0; }
.swatch.linear { background: var(--soft); }
.swatch.floor { height: 0; border-top: 2px dashed var(--waits); }

/* The program */
.source table { font: 12.5px/1.45 ui-monospace, "DejaVu Sans Mono", monospace; }
.source td { border: 0; padding: 0 14px 0 0; overflow-wrap: normal; }
.source td:first-child { color: var(--soft); width: 1%; }
.source .code { white-space: pre; }
.source .code small { font: 12px system-ui, sans-serif; color: var(--soft); margin-left: 18px; white-space: nowrap; }
.source .chain { color: var(--chain); }

@media (max-width: 1000px) { .columns, .columns.two { grid-template-columns: minmax(0, 1fr); } }
@media (max-width: 720px) {
  body { padding: 12px 12px 40px; }
  #legend { max-height: 130px; }
  .tiles { grid-template-columns: 1fr 1fr; }
  .tile b { font-size: 20px; }
  .verdict p { flex-direction: column; gap: 2px; }
  #frame.with { grid-template-columns: minmax(0, 1fr); }
  #details { border-left: 0; border-top: 1px solid var(--line); max-height: 260px; }
  #bar select { flex: 1 1 auto; }
  #bar input[type=search] { flex: 1 1 150px; min-width: 0; }
  #bar .zoom { margin-left: 0; flex-wrap: wrap; }
  button, select, input[type=search], input[type=number], input[type=range] { min-height: 36px; }
  input[type=checkbox] { width: 18px; height: 18px; vertical-align: -4px; }
  .boxes label, .slider label { min-height: 30px; }
  button.link, th button { min-height: 24px; }
  .meter { width: 30px; }
  .slider { grid-template-columns: 1fr 52px; gap: 0 10px; padding: 6px 0; }
  .slider span, .slider label { grid-column: 1 / -1; }
}
@media (pointer: coarse) { #keys span { display: none; } }
@media (prefers-reduced-motion: no-preference) { button { transition: border-color .12s; } }
[data-edited=true] > h2::after { content: ' of the run without edits'; color: var(--soft); font-weight: normal; }

@media print {
  @page { size: A4; margin: 12mm; }
  :root, :root[data-theme=dark], :root:not([data-theme=light]) {
    --paper: #fff; --card: #fff; --band: #f1f4f7; --line: #ddd; --muted: #d9dee4; --ink: #000; --soft: #444; --focus: #0b5fff;
    --chain: #c8410c; --plain: #6b93bb; --waits: #888; --blue: #3b6fa8;
  }
  * { print-color-adjust: exact; -webkit-print-color-adjust: exact; }
  body { padding: 0; font-size: 11px; max-width: none; }
  header button, #bar, #keys, #details, #whatif, #tip, .pages, #rows, #map { display: none !important; }
  .columns { grid-template-columns: 1.4fr 1fr 1fr; gap: 8px 14px; }
  .columns.two { grid-template-columns: 1fr 1fr; }
  #tables .columns { display: block; }
  .tiles { grid-template-columns: repeat(4, 1fr); }
  button.link, th button { color: inherit; }
  th button::after { display: none; }
  td, th { padding-right: 6px; }
  #viewer { break-before: page; }
  .tile b { font-size: 16px; }
  #frame, #frame.with { grid-template-columns: 1fr; overflow: visible; }
  #scroll { height: auto; min-height: 0; overflow: visible; }
  #spacer { display: none; }
  #canvas { position: static; width: 100%; height: auto !important; }
  h2 { margin-top: 16px; break-after: avoid; }
  caption, thead { break-after: avoid; }
  .source table { font-size: 10px; }
  details:not([open]) { display: none; }
  figure, #frame, .verdict, tr { break-inside: avoid; }
  .wide, #curve .table .wide, #tables .columns .wide { overflow: visible; max-height: none; }
  .wide thead th { position: static; }
  .meter { width: 30px; }
  #answer .meter { display: none; }
  pre, .source .code { white-space: pre-wrap; }
}
</style>
</head>
<body>
<header id="head">"#;

/// What is before the answer.
pub(crate) const BEFORE_ANSWER: &str = r#"</header>
<p id="warning" role="alert"></p>
<main>
<section id="answer" aria-label="What holds this run back">
"#;

/// What is before the runs.
pub(crate) const BEFORE_RUNS: &str = r#"</section>"#;

/// What is before the plan.
pub(crate) const BEFORE_PLAN: &str = r#"
<section id="viewer" aria-labelledby="viewer-title" hidden="">
<h2 id="viewer-title">The plan</h2>
<div id="bar" role="toolbar" aria-label="Of the plan"></div>
<div id="legend" role="group" aria-label="Behaviours by def: click one to highlight it"></div>
<div id="frame">
<div id="left">
<canvas id="map" aria-hidden="true"></canvas>
<div id="scroll" tabindex="0" role="group" aria-roledescription="timeline" aria-describedby="keys"
 aria-label="The plan as a picture. The tables below have all that it shows.">
<canvas id="canvas" aria-hidden="true"></canvas>
<div id="spacer"></div>
</div>
</div>
<aside id="details" aria-label="The selected behaviour"></aside>
</div>
<p id="keys">Drag to pan; ctrl and wheel, or two fingers, zoom; drag along the axis to zoom to a part; click on a bar to select it.
<span>Keys: W S zoom, A D pan, 0 all, / search, N P next and previous found, [ ] along the chain, F to the selected, 1 to 5 close a part, O the lanes
of a def, Esc ends.</span></p>
<p id="said" role="status" aria-live="polite"></p>
</section>
<noscript>
<section>
<h2>The plan</h2>
<p>The script of this page is off. This is the plan in text, as <code>boc-view text</code> draws it.</p>
<pre class="wide">"#;

/// What is before the tables.
pub(crate) const BEFORE_TABLES: &str = r#"</pre>
</section>
</noscript>
<section id="whatif" aria-labelledby="whatif-title" hidden="">
<h2 id="whatif-title">What if</h2>
<div id="edits"></div>
</section>
<section id="tables" aria-labelledby="tables-title">
<h2 id="tables-title">Cowns, defs and behaviours</h2>
"#;

/// What is before the curve.
pub(crate) const BEFORE_CURVE: &str = r#"<div id="rows"></div>
</section>
<section id="curve" aria-labelledby="curve-title">
<h2 id="curve-title">More workers</h2>
"#;

/// What is before the program.
pub(crate) const BEFORE_PROGRAM: &str = r#"</section>
<section id="program">
"#;

/// What is before the data.
pub(crate) const BEFORE_DATA: &str = r#"</section>
</main>
<div id="tip" role="tooltip" hidden=""></div>
<script type="application/json" id="data">"#;

/// What is after the data.
pub(crate) const AFTER_DATA: &str = r#"</script>
<script>
'use strict';
// The data block as typed arrays, and the names of rows, defs and cowns. A name is data: it only becomes a text node or text on a canvas.

const told = JSON.parse(document.getElementById('data').textContent);
const N = told.def.length, C = told.cowns.length, DEFS = told.defs.length;

// The cowns of row r are hold[first[r]] .. hold[first[r + 1] - 1], rising; `wrote` says of each whether the row wrote it.
const rows = (() => {
  const first = new Uint32Array(N + 1);
  told.holds.forEach((held, row) => { first[row + 1] = first[row] + held.length; });
  const hold = new Uint16Array(first[N]), wrote = new Uint8Array(first[N]);
  told.holds.forEach((held, row) => held.forEach((cown, k) => {
    hold[first[row] + k] = cown;
    wrote[first[row] + k] = told.wrote[row] >> k & 1;
  }));
  const [def, parent, offset, ticks] = ['def', 'parent', 'offset', 'ticks'].map(key => Uint32Array.from(told[key]));
  return {def, parent, offset, ticks, first, hold, wrote};
})();

// The children of row r are child[childFirst[r]] .. , in the order of their spawns.
const [childFirst, child] = grouped(N, N - 1, k => rows.parent[k + 1], k => k + 1);

// Groups `count` things: those of group g are list[first[g]] .. list[first[g + 1] - 1], in their order.
function grouped(groups, count, groupOf, thing) {
  const first = new Uint32Array(groups + 1), list = new Uint32Array(Math.max(count, 0));
  for (let k = 0; k < count; k++) first[groupOf(k) + 1]++;
  for (let g = 0; g < groups; g++) first[g + 1] += first[g];
  const at = first.slice();
  for (let k = 0; k < count; k++) list[at[groupOf(k)]++] = thing(k);
  return [first, list];
}

const cownsOf = row => Array.from(rows.hold.subarray(rows.first[row], rows.first[row + 1]));
const defName = def => told.defs[def] || '(no name)';

// The array that a cown is a member of, if it is one.
function familyOf(cown) {
  const name = told.cowns[cown], at = name.indexOf('[', 1);
  return at > 0 && name.endsWith(']') ? name.slice(0, at) : null;
}
const cownText = cowns => cowns.map(cown => told.cowns[cown]).join(' and ');

// A row is called by its def and what follows that: its arguments and cowns.
function rowName(row) {
  const name = told.defs[rows.def[row]];
  return name ? name + told.args[row] : `row ${row}`;
}

const plain = new Intl.NumberFormat('en', {maximumFractionDigits: 0});
const num = n => plain.format(n), percent = (part, of) => `${of ? Math.floor(100 * part / of) : 0} %`;
const ratio = n => (Math.floor(100 * n + 1e-9) / 100).toFixed(2);
const many = (n, one, more = one + 's') => `${num(n)} ${n === 1 ? one : more}`;

// Plans: edits, the order that cowns impose, the earliest plan, its chain, and greedy plans, by the rules of docs/RECORDS.md.

// A heap of numbers, the smallest one first. A tick and a row are kept in one number: 65,535,000,000 ticks by 131,072 codes stay below 2 ** 53.
class Heap {
  constructor(most) { this.items = new Float64Array(most + 1); this.size = 0; }
  get top() { return this.items[0]; }
  push(item) {
    const a = this.items;
    let at = this.size++;
    for (; at > 0; at = at - 1 >> 1) {
      const up = a[at - 1 >> 1];
      if (up <= item) break;
      a[at] = up;
    }
    a[at] = item;
  }
  pop() {
    const a = this.items, top = a[0], item = a[--this.size];
    let at = 0;
    for (let down = 1; down < this.size; down = 2 * at + 1) {
      if (down + 1 < this.size && a[down + 1] < a[down]) down++;
      if (a[down] >= item) break;
      a[at] = a[down];
      at = down;
    }
    a[at] = item;
    return top;
  }
}

const MOST_TICKS = 1e6, CODES = 131072;
const noEdits = () => ({scale: new Map(), early: new Set(), without: new Set()});
const isEdited = edits => edits.scale.size + edits.early.size + edits.without.size > 0;

// The rows with edits: without some cowns, then with the children of some defs spawned as early as possible, then with the ticks of defs scaled by [k, d].
function editedRows(edits) {
  let {first, hold, wrote, offset, ticks} = rows;
  if (edits.without.size) {
    const keep = [];
    first = new Uint32Array(N + 1);
    for (let row = 0; row < N; row++) {
      for (let k = rows.first[row]; k < rows.first[row + 1]; k++) if (!edits.without.has(rows.hold[k])) keep.push(k);
      first[row + 1] = keep.length;
    }
    hold = Uint16Array.from(keep, k => rows.hold[k]);
    wrote = Uint8Array.from(keep, k => rows.wrote[k]);
  }
  if (edits.scale.size || edits.early.size) { offset = offset.slice(); ticks = ticks.slice(); }
  for (let row = 0; row < N && offset !== rows.offset; row++) {
    const [k, d] = edits.scale.get(rows.def[row]) ?? [1, 1], early = edits.early.has(rows.def[row]);
    if (k === d && !early) continue;
    let last = 0;
    for (let i = childFirst[row]; i < childFirst[row + 1]; i++)
      offset[child[i]] = last = Math.max(Math.ceil((early ? i + 1 - childFirst[row] : rows.offset[child[i]]) * k / d), last + 1);
    ticks[row] = Math.max(1, Math.ceil(rows.ticks[row] * k / d), last);
    if (ticks[row] > MOST_TICKS) return {refused: `row ${row} would take more than ${num(MOST_TICKS)} ticks`};
  }
  return {def: rows.def, parent: rows.parent, offset, ticks, first, hold, wrote};
}

// The order on cowns: row before[k] ends before a row starts, over cown over[k], for k from edge[row] to edge[row + 1] - 1. Only the latest such
// rows are listed.
function orderOf(r) {
  const edge = new Uint32Array(N + 1), before = [], over = [], writer = new Int32Array(C).fill(-1), readers = Array.from({length: C}, () => []);
  for (let row = 0; row < N; row++) {
    for (let k = r.first[row]; k < r.first[row + 1]; k++) {
      const cown = r.hold[k], shares = told.shared && !r.wrote[k];
      if (!shares && readers[cown].length) for (const other of readers[cown]) { before.push(other); over.push(cown); }
      else if (writer[cown] >= 0) { before.push(writer[cown]); over.push(cown); }
      if (shares) readers[cown].push(row); else { writer[cown] = row; readers[cown].length = 0; }
    }
    edge[row + 1] = before.length;
  }
  return {edge, before: Uint32Array.from(before), over: Uint16Array.from(over)};
}

// Each row as early as possible; `by` is the lowest row whose end it starts at, or -1 if it starts as it is spawned.
function earliestPlan(r, order) {
  const start = new Float64Array(N), by = new Int32Array(N).fill(-1);
  let span = 0, last = 0;
  for (let row = 0; row < N; row++) {
    let at = row ? start[r.parent[row]] + r.offset[row] : 0, who = -1;
    for (let k = order.edge[row]; k < order.edge[row + 1]; k++) {
      const other = order.before[k], end = start[other] + r.ticks[other];
      if (end > at) { at = end; who = other; } else if (end === at && who > other) who = other;
    }
    start[row] = at;
    by[row] = who;
    if (at + r.ticks[row] > span) { span = at + r.ticks[row]; last = row; }
  }
  return {start, by, span, last};
}
function chainOf(r, plan) {
  const chain = [plan.last];
  for (let row = plan.last; row !== 0;) chain.push(row = plan.by[row] < 0 ? r.parent[row] : plan.by[row]);
  return chain.reverse();
}
function greedyPlan(r, order, workers) {
  const start = new Float64Array(N), worker = new Uint8Array(N), left = new Uint32Array(N);
  const events = new Heap(2 * N + 2), ready = new Heap(N), free = new Heap(workers);
  const [afterFirst, after] = grouped(N, order.before.length, k => order.before[k], k => k), rowOf = new Uint32Array(order.before.length);
  for (let row = 0; row < N; row++) {
    left[row] = 1 + order.edge[row + 1] - order.edge[row];
    for (let k = order.edge[row]; k < order.edge[row + 1]; k++) rowOf[k] = row;
  }
  for (let w = 0; w < workers; w++) free.push(w);
  const seen = row => { if (--left[row] === 0) ready.push(row); };
  const place = new Uint32Array(N);
  for (let i = 0; i < child.length; i++) place[child[i]] = i;
  const spawnAt = i => events.push((start[rows.parent[child[i]]] + r.offset[child[i]]) * CODES + 2 * child[i] + 1);
  let end = 0;
  seen(0);
  for (let tick = 0; ;) {
    while (free.size && ready.size) {
      const row = ready.pop();
      start[row] = tick;
      worker[row] = free.pop();
      end = Math.max(end, tick + r.ticks[row]);
      events.push((tick + r.ticks[row]) * CODES + 2 * row);
      if (childFirst[row] < childFirst[row + 1]) spawnAt(childFirst[row]);
    }
    if (!events.size) return {start, worker, end, workers};
    tick = Math.floor(events.top / CODES);
    while (events.size && Math.floor(events.top / CODES) === tick) {
      const code = events.pop() % CODES, row = code >> 1;
      if (code & 1) {
        const next = place[row] + 1;
        if (next < childFirst[rows.parent[row] + 1]) spawnAt(next);
        seen(row);
      } else {
        free.push(worker[row]);
        for (let i = afterFirst[row]; i < afterFirst[row + 1]; i++) seen(rowOf[after[i]]);
      }
    }
  }
}

// The rows of `list` in the order of their starts; and lanes for them, in none of which two overlap.
function byStart(list, start) {
  const keys = new Float64Array(list.length), sorted = new Uint32Array(list.length);
  let inOrder = true;
  for (let k = 0; k < keys.length; k++) { keys[k] = start[list[k]] * 65536 + list[k]; inOrder &&= k === 0 || keys[k - 1] < keys[k]; }
  if (!inOrder) keys.sort();
  for (let k = 0; k < keys.length; k++) sorted[k] = keys[k] % 65536;
  return sorted;
}
function lanesOf(sorted, start, ticks) {
  const lanes = [], busy = new Heap(sorted.length), free = new Heap(sorted.length);
  for (const row of sorted) {
    while (busy.size && Math.floor(busy.top / 65536) <= start[row]) free.push(busy.pop() % 65536);
    const lane = free.size ? free.pop() : lanes.push([]) - 1;
    lanes[lane].push(row);
    busy.push((start[row] + ticks[row]) * 65536 + lane);
  }
  return lanes;
}

// How many there are at each tick, as steps: count[k] from tick at[k] on. `spans` calls its function with the begin and the end of each.
function stepsOf(count, spans) {
  const keys = new Float64Array(2 * count);
  let n = 0;
  spans((from, to) => { if (to > from) { keys[n++] = from * 2 + 1; keys[n++] = to * 2; } });
  const sorted = keys.subarray(0, n).sort(), at = new Float64Array(n), counts = new Uint32Array(n);
  let level = 0, most = 0, k = -1;
  for (const key of sorted) {
    const tick = Math.floor(key / 2);
    level += key % 2 ? 1 : -1;
    if (k < 0 || at[k] !== tick) at[++k] = tick;
    counts[k] = level;
  }
  for (let i = 0; i <= k; i++) most = Math.max(most, counts[i]);
  return {at: at.subarray(0, k + 1), count: counts.subarray(0, k + 1), most};
}

// What is shown of some edits: rows, order, plan, chain, the ticks of each row that the chain goes through, and greedy plans on request.
function reckon(edits) {
  const r = isEdited(edits) ? editedRows(edits) : rows;
  if (r.refused) return r;
  const order = orderOf(r), plan = earliestPlan(r, order), chain = chainOf(r, plan), through = new Uint32Array(N);
  chain.forEach((row, k) => { through[row] = (k + 1 < chain.length ? plan.start[chain[k + 1]] : plan.span) - plan.start[row]; });
  const steps = stepsOf(N, f => r.ticks.forEach((ticks, row) => f(plan.start[row], plan.start[row] + ticks)));
  const work = r.ticks.reduce((sum, ticks) => sum + ticks, 0);
  const greedy = new Map(), greedyFor = workers => {
    if (!greedy.has(workers)) greedy.set(workers, greedyPlan(r, order, workers));
    return greedy.get(workers);
  };
  return {edits, r, order, plan, chain, chainList: Uint32Array.from(chain), through, work, steps, span: plan.span, greedy: greedyFor};
}

// The cowns that a row hands to another one.
function handed(now, row, next) {
  const found = [];
  for (let k = now.order.edge[next]; k < now.order.edge[next + 1]; k++) if (now.order.before[k] === row) found.push(now.order.over[k]);
  return found.sort((a, b) => a - b);
}
const spawnedAt = (now, row) => row ? now.plan.start[now.r.parent[row]] + now.r.offset[row] : 0;

// The link of the chain at place k: whether the row spawns the next one, and in words what it does for it.
function linkOf(now, k) {
  const row = now.chain[k], next = now.chain[k + 1];
  if (next === undefined) return {spawns: false, text: 'end'};
  if (now.plan.by[next] < 0) return {spawns: true, text: `spawn by ${defName(rows.def[row])}`};
  return {spawns: false, text: cownText(handed(now, row, next))};
}

// The chain's ticks by def and by link, the heaviest first.
function chainSums(now) {
  if (now.sums) return now.sums;
  const defs = new Map(), links = new Map();
  now.chain.forEach((row, k) => {
    for (const [map, key] of [[defs, rows.def[row]], [links, linkOf(now, k).text]]) {
      const sum = map.get(key) ?? {key, ticks: 0, count: 0};
      sum.ticks += now.through[row];
      sum.count++;
      map.set(key, sum);
    }
  });
  const [byDef, byLink] = [defs, links].map(map => Array.from(map.values()).sort((a, b) => b.ticks - a.ticks));
  return now.sums = {defs: byDef, links: byLink};
}

// Tracks, one below the other, from y on and h high. They show bars (rows sorted by start), steps (how many at each tick), or a head.
const state = {base: null, now: null, edits: noEdits(), workers: told.p, mode: 'defs', cownsOf: 'earliest', closed: new Set(),
  highlight: null, hit: null, hits: 0, selected: -1, view: {from: 0, to: 1}, tracks: [], rowTrack: null, height: 0};
const BAR = 18, GAP = 4, HEAD = 26, STEPS = 34, QUEUE = 12, MOST_LANES = DEFS > 12 ? 2 : 12;

// Adds tracks one below the other. A head closes the group below it.
class Tracks {
  constructor() { this.list = []; this.y = 0; }
  add(h, track) {
    this.list.push({...track, y: this.y, h});
    this.y += h + (track.kind === 'head' ? 0 : track.gap ?? GAP);
  }
  bars(plan, list, more) { this.add(more.h ?? BAR, {kind: 'bars', start: plan.start, ticks: state.now.r.ticks, list, ...more}); }
  steps(h, steps, more) { this.add(h, {kind: 'steps', steps, ...more}); }
  group(id, text, note, fill) {
    const closed = state.closed.has(id);
    this.add(HEAD, {kind: 'head', id, text, note, closed});
    if (closed) return;
    fill();
    this.y += 8;
  }
}
function layOut() {
  const {now} = state, tracks = new Tracks();
  copies = new WeakMap();
  tracks.group('chain', 'The chain', `${many(now.chain.length, 'behaviour')} in a row that take all of the span: ${num(now.span)} ticks`,
    () => tracks.bars(now.plan, now.chainList, {name: 'chain', ticks: now.through, isChain: true}));
  const most = `at most ${num(now.steps.most)}, ${ratio(now.work / now.span)} on average`;
  tracks.group('once', 'At once', `how many run at each tick of the earliest plan: ${most}`, () => {
    const sub = state.workers < now.steps.most ? `line: ${many(state.workers, 'worker')}` : '';
    tracks.steps(STEPS, now.steps, {name: `0 to ${num(now.steps.most)}`, sub, colour: PLAIN, line: state.workers});
  });
  tracks.group('plan', 'The earliest plan', 'each behaviour starts as soon as it is spawned and has its cowns', () => addPlan(tracks));
  const greedy = state.closed.has('greedy') && state.cownsOf !== 'greedy' ? null : greedyNow();
  const ends = greedy ? `it ends at ${num(greedy.end)}, ${ratio(now.work / greedy.end)} times faster than one worker` : '';
  tracks.group('greedy', `The greedy plan for ${many(state.workers, 'worker')}`, ends, () => addGreedy(tracks, greedy));
  const inGreedy = state.cownsOf === 'greedy' && greedy;
  tracks.group('cowns', 'The cowns', `which row holds what in the ${inGreedy ? 'greedy plan' : 'earliest plan, and below how many wait for it'}`,
    () => addCowns(tracks, inGreedy));
  state.tracks = tracks.list;
  state.height = tracks.y;
  state.rowTrack = new Int32Array(N).fill(-1);
  tracks.list.forEach((track, k) => { if (track.plan) for (const row of track.list) state.rowTrack[row] = k; });
  size();
}

// The earliest plan: a lane for each row, as few lanes as possible, or lanes by def. A def with many lanes is drawn as how many run at once.
function addPlan(tracks) {
  const {now} = state, {plan} = now;
  if (state.mode === 'rows') return allRows().forEach(row => tracks.bars(plan, [row], {h: BAR - 2, row, plan: true, gap: 3}));
  if (state.mode === 'lanes') {
    now.lanes ??= lanesOf(byStart(allRows(), plan.start), plan.start, now.r.ticks);
    return now.lanes.forEach((list, k) => tracks.bars(plan, list, {name: k ? '' : many(now.lanes.length, 'lane'), plan: true, gap: 1}));
  }
  now.byDef ??= defOrder.map(def => {
    const sorted = byStart(rowsOfDef(def), plan.start);
    const steps = stepsOf(sorted.length, f => sorted.forEach(row => f(plan.start[row], plan.start[row] + now.r.ticks[row])));
    return {def, lanes: lanesOf(sorted, plan.start, now.r.ticks), steps};
  });
  for (const {def, lanes, steps} of now.byDef) {
    const name = defName(def), id = `def ${def}`, opens = lanes.length > MOST_LANES ? id : null;
    if (opens && !state.closed.has(id)) tracks.steps(STEPS, steps, {name, sub: `${num(lanes.length)} at once`, colour: def + FIRST_DEF, def, opens});
    else lanes.forEach((list, k) => tracks.bars(plan, list, {name: k ? '' : name, def, plan: true, opens, gap: k + 1 < lanes.length ? 1 : GAP + 2}));
  }
}
function addGreedy(tracks, greedy) {
  const {ticks} = state.now.r;
  greedy.byWorker ??= Array.from({length: state.workers}, (_, w) => byStart(allRows().filter(row => greedy.worker[row] === w), greedy.start));
  greedy.byWorker.forEach((list, w) => tracks.bars(greedy, list, {name: `worker ${w}`, gap: 2,
    sub: `${percent(list.reduce((sum, row) => sum + ticks[row], 0), greedy.end)} busy`}));
}
function addCowns(tracks, greedy) {
  const {now} = state, plan = greedy || now.plan;
  for (const {cown, holders, held, queue} of cownLanes(now, plan, Boolean(greedy))) {
    const sub = `${percent(held, greedy ? greedy.end : now.span)} held`;
    tracks.bars(plan, holders, {name: told.cowns[cown], sub, cown, overlap: told.shared, gap: greedy ? GAP : 0});
    if (!greedy) tracks.steps(QUEUE, queue, {name: '', sub: queue.most ? `up to ${num(queue.most)} waiting` : '', colour: WAITS, cown, gap: GAP + 1});
  }
}

let everyRow = null;
const allRows = () => everyRow ??= new Uint32Array(N).map((_, row) => row);
const [defFirst, defRows] = grouped(DEFS, N, row => rows.def[row], row => row);
const rowsOfDef = def => defRows.subarray(defFirst[def], defFirst[def + 1]);
const defWork = Array.from({length: DEFS}, (_, def) => rowsOfDef(def).reduce((sum, row) => sum + rows.ticks[row], 0));
const defOrder = Array.from({length: DEFS}, (_, def) => def).filter(def => defFirst[def] < defFirst[def + 1])
  .sort((a, b) => (rows.def[0] === b) - (rows.def[0] === a) || defWork[b] - defWork[a]);

// For each cown that a row has: its rows in this plan, for how many ticks it is held, and how many wait for it. A row waits for the cowns that the
// lowest row hands it whose end it starts at, as in `boc cowns`.
function cownLanes(now, plan, isGreedy) {
  const key = isGreedy ? plan : now;
  if (key.cownLanes) return key.cownLanes;
  const {r} = now, rowOf = new Uint32Array(r.hold.length);
  for (let row = 0; row < N; row++) for (let k = r.first[row]; k < r.first[row + 1]; k++) rowOf[k] = row;
  const [first, list] = grouped(C, r.hold.length, k => r.hold[k], k => rowOf[k]), waits = Array.from({length: C}, () => []);
  for (let row = 1; row < N && !isGreedy; row++) {
    if (plan.by[row] < 0) continue;
    for (const cown of handed(now, plan.by[row], row)) waits[cown].push(spawnedAt(now, row), plan.start[row]);
  }
  const lanes = [];
  for (let cown = 0; cown < C; cown++) {
    if (first[cown] === first[cown + 1]) continue;
    const holders = byStart(list.subarray(first[cown], first[cown + 1]), plan.start), w = waits[cown];
    const queue = stepsOf(w.length / 2, f => { for (let k = 0; k < w.length; k += 2) f(w[k], w[k + 1]); });
    let waited = 0;
    for (let k = 0; k < w.length; k += 2) waited += w[k + 1] - w[k];
    lanes.push({cown, holders, held: heldTicks(r, holders, cown), queue, waited});
  }
  return key.cownLanes = lanes.sort((a, b) => b.held - a.held || a.cown - b.cown);
}
// For how many ticks one row alone has the cown.
const heldTicks = (r, holders, cown) => holders.reduce((sum, row) => sum + (told.shared && !writes(r, row, cown) ? 0 : r.ticks[row]), 0);
function writes(r, row, cown) {
  for (let k = r.first[row]; k < r.first[row + 1]; k++) if (r.hold[k] === cown) return r.wrote[k] === 1;
  return false;
}

// Drawing. Bars narrower than two pixels are added up in columns of two pixels. A column is filled as high as the part of it that bars take, in the
// colours of their defs, and the chain's part is drawn at its foot in the same way. So the area of a colour is what its behaviours take at every
// zoom, and nothing is drawn over anything else.

const MUTED = 0, CHAIN = 1, PLAIN = 2, WAITS = 3, FIRST_DEF = 4;
const WIDE = 2, PAPER = 920, AXIS = 26, MAP = 46, SMALL = '11px system-ui, sans-serif', NORMAL = '12px system-ui, sans-serif';
const HUES = ['#4c78a8', '#4a9641', '#a8699a', '#bb8500', '#2a948e', '#9d755d', '#7b6cc4', '#d0658a', '#7a9040', '#4a8fbf'];
const canvas = document.getElementById('canvas'), scroll = document.getElementById('scroll'), map = document.getElementById('map');
const pen = canvas.getContext('2d', {alpha: false}), mapPen = map.getContext('2d', {alpha: false}), frames = [];
let colours = [], inks = [], batches = [], theme = {}, width = 0, height = 0, gutter = 0, dots = 1, mapStale = true;

function readTheme() {
  const style = getComputedStyle(document.documentElement);
  for (const name of ['paper', 'ink', 'soft', 'line', 'band', 'muted', 'chain', 'plain', 'waits', 'focus'])
    theme[name] = style.getPropertyValue(`--${name}`).trim();
  colours = [theme.muted, theme.chain, theme.plain, theme.waits];
  const others = defOrder.filter(def => def !== rows.def[0] || told.source === null);
  for (let def = 0; def < DEFS; def++) {
    const place = others.indexOf(def);
    colours.push(place < 0 ? '#7f8a99' : HUES[place] ?? `oklch(61% 0.06 ${Math.round(place * 137.5) % 360})`);
  }
  inks = colours.map(colour => isDark(colour) ? '#fff' : '#000');
  batches = colours.map(() => []);
  mapStale = true;
}

// Whether white is easier to read than black on a colour, by its luminance.
function isDark(colour) {
  const part = at => ((parseInt(colour.slice(at, at + 2), 16) / 255 + 0.055) / 1.055) ** 2.4;
  return /^#.{6}$/.test(colour) && 0.2126 * part(1) + 0.7152 * part(3) + 0.0722 * part(5) < 0.179;
}

const colourOf = row => state.hit && !state.hit[row] ? MUTED : rows.def[row] + FIRST_DEF;
const scaleNow = () => (width - gutter) / (state.view.to - state.view.from);
const xOf = tick => gutter + (tick - state.view.from) * (width - gutter) / (state.view.to - state.view.from);
const tickAt = x => state.view.from + (x - gutter) / scaleNow();
const fill = (colour, x, y, w, h, on = pen) => { on.fillStyle = colour; on.fillRect(x, y, w, h); };
function say(text, x, y, colour, font = SMALL, align = 'left', on = pen) {
  Object.assign(on, {fillStyle: colour, font, textAlign: align, textBaseline: 'middle'});
  on.fillText(text, x, y);
}
function size() {
  dots = state.printing ? 2 : Math.min(window.devicePixelRatio || 1, 2);
  width = state.printing ? 700 : scroll.clientWidth;
  height = state.printing ? Math.min(state.height + AXIS, PAPER) : scroll.clientHeight;
  gutter = width < 620 ? 82 : WIDE * Math.round(Math.min(110, width * 0.085));
  for (const [it, h] of [[canvas, height], [map, MAP]])
    Object.assign(it, {width: Math.round(width * dots), height: Math.round(h * dots)}).style.height = `${h}px`;
  document.getElementById('spacer').style.height = `${Math.max(0, state.height + AXIS - height)}px`;
  mapStale = true;
}

let asked = false;
function redraw() {
  if (asked) return;
  asked = true;
  requestAnimationFrame(() => { asked = false; draw(); });
}
function draw() {
  const from = performance.now(), {tracks} = state, top = state.printing ? 0 : scroll.scrollTop, yOf = track => track.y - top + AXIS;
  const first = lowerBound(tracks.length, k => tracks[k].y + tracks[k].h < top);
  const shown = tracks.slice(first, lowerBound(tracks.length, k => tracks[k].y < top + height));
  pen.setTransform(dots, 0, 0, dots, 0, 0);
  fill(theme.paper, 0, 0, width, height);
  each((tick, x) => fill(theme.line, x, AXIS, 1, height));
  for (const track of shown) if (track.kind === 'bars') bars(track, yOf(track)); else if (track.kind === 'steps') steps(track, yOf(track));
  flush(pen);
  for (const track of shown) if (track.kind === 'bars') words(track, yOf(track));
  links(yOf);
  if (state.selected >= 0) chosen(shown, yOf);
  fill(theme.paper, 0, 0, gutter, height);
  for (const track of shown) label(track, yOf(track));
  axis();
  const below = state.printing ? tracks.length - lowerBound(tracks.length, k => yOf(tracks[k]) + tracks[k].h <= height) : 0;
  if (below) {
    fill(theme.paper, 0, height - 18, width, 18);
    say(`${many(below, 'lane')} more than fit on this sheet`, gutter, height - 8, theme.soft);
  }
  drawMap();
  frames.push(performance.now() - from);
  if (frames.length > 240) frames.shift();
}

// Calls its function at ticks that are 1, 2 or 5 times a power of ten apart, and at least 86 pixels.
function each(what) {
  const raw = Math.max(86 / scaleNow(), 1), power = 10 ** Math.floor(Math.log10(raw));
  const step = [1, 2, 5, 10].map(k => k * power).find(step => step >= raw * 0.999);
  for (let tick = Math.ceil(state.view.from / step) * step; tick <= state.view.to; tick += step) what(tick, Math.round(xOf(tick)));
}
function axis() {
  fill(theme.paper, 0, 0, width, AXIS - 1);
  each((tick, x) => {
    const half = pen.measureText(num(tick)).width / 2;
    if (x > gutter - 1) say(num(tick), Math.min(Math.max(x, gutter + 4), width - half - 4), 12, theme.soft, SMALL, 'center');
  });
  say('ticks', 8, 12, theme.soft);
  fill(theme.line, 0, AXIS - 1, width, 1);
  const end = Math.round(xOf(state.now.span));
  if (end > gutter && end < width) { fill(theme.chain, end - 1, 18, 2, 8); say('span', end - 5, 22, theme.chain, SMALL, 'right'); }
  if (drag?.axis && drag.end) fill(`${theme.focus}40`, drag.x, 0, drag.end - drag.x, height);
}
function lowerBound(count, isBefore) {
  let at = 0;
  for (let left = count; left > 0;) {
    const half = left >> 1;
    if (isBefore(at + half)) { at += half + 1; left -= half + 1; } else left = half;
  }
  return at;
}
// Which part of a list, sorted by start, is in view: the first row is one before the first that starts there, unless rows overlap as they share a cown.
function seen(list, start, overlap) {
  const {from, to} = state.view;
  return [overlap ? 0 : Math.max(0, lowerBound(list.length, i => start[list[i]] < from) - 1), lowerBound(list.length, i => start[list[i]] < to)];
}
// Rectangles are kept by colour, so that the pen changes it once for each.
const rect = (colour, x, y, w, h) => batches[colour].push(x, y, w, h), feet = [], rules = [];
function flush(on) {
  batches.forEach((batch, colour) => {
    on.fillStyle = colours[colour];
    for (let k = 0; k < batch.length; k += 4) on.fillRect(batch[k], batch[k + 1], batch[k + 2], batch[k + 3]);
    batch.length = 0;
  });
}

// The column that is added up: which part of it each colour takes, and the chain, and up to where the most reaches. Columns that are filled alike, to
// half a pixel, become one rectangle.
const share = new Float64Array(FIRST_DEF + DEFS), used = [], last = {end: -1, stack: []};
let column = -1, chainShare = 0, peak = 0;
function addTo(at, colour, part, y, h) {
  if (at !== column) { closeColumn(y, h); column = at; }
  if (share[colour] === 0) used.push(colour);
  share[colour] += part;
}
function closeColumn(y, h) {
  if (column < 0) return;
  if (peak > 0) { const rest = peak - used.reduce((sum, colour) => sum + share[colour], 0); if (rest > 0.01) { used.push(MUTED); share[MUTED] = rest; } }
  if (used.length > 1) used.sort((a, b) => b - a);
  const strip = Math.round(chainShare * 40) / 10, {stack} = last;
  let same = last.end === column && last.y === y && last.strip === strip && stack.length === 2 * used.length;
  for (let k = 0; k < used.length; k++) {
    share[used[k]] = Math.round(2 * Math.min(share[used[k]], 1) * h) / 2;
    same &&= stack[2 * k] === used[k] && stack[2 * k + 1] === share[used[k]];
  }
  if (!same) {
    closeRun();
    Object.assign(last, {from: column, y, h, strip});
    stack.length = 0;
    for (const colour of used) stack.push(colour, share[colour]);
  }
  for (const colour of used) share[colour] = 0;
  last.end = column + WIDE;
  used.length = chainShare = peak = 0;
  column = -1;
}
function closeRun() {
  const {from, end, y, h, strip, stack} = last;
  if (end < 0) return;
  for (let k = 0, foot = y + h; k < stack.length; k += 2) rect(stack[k], from, foot -= stack[k + 1], end - from, stack[k + 1]);
  if (strip) feet.push(from, y + h - strip, end - from, strip);
  last.end = -1;
}
// Calls its function with the columns between two places, and the part of each that is between them.
function columnsOf(left, right, what) {
  if (left >= right) return;
  for (let at = Math.floor(Math.max(left, gutter) / WIDE) * WIDE, end = Math.min(right, width); at < end; at += WIDE)
    what(at, (Math.min(right, at + WIDE) - Math.max(left, at)) / WIDE);
}

// A list with many rows in view is drawn from a coarser copy, made once for each doubling of the scale: what each part of the time holds.
let copies = new WeakMap();
function coarse(list, make) {
  const parts = 2 ** Math.ceil(Math.log2(scaleNow() * whole())), per = whole() / parts;
  if (!copies.has(list)) copies.set(list, new Map());
  const own = copies.get(list);
  if (!own.has(parts)) own.set(parts, {per, ...make(per)});
  return own.get(parts);
}
function coarseBars(list, start, ticks, through, per) {
  const part = [], colour = [], amount = [], sums = new Float64Array(share.length), some = [];
  let now = -1;
  const close = () => { for (const key of some) { part.push(now); colour.push(key); amount.push(sums[key] / per); sums[key] = 0; } some.length = 0; };
  const add = (key, ticks) => { if (sums[key] === 0) some.push(key); sums[key] += ticks; };
  for (const row of list) {
    const key = colourOf(row), begin = start[row], end = begin + ticks[row], middle = through ? begin + through[row] : begin;
    for (let at = Math.floor(begin / per); at * per < end; at++) {
      if (at !== now) { close(); now = at; }
      const from = Math.max(begin, at * per), to = (at + 1) * per;
      add(key, Math.min(end, to) - from);
      if (middle > from) add(CHAIN, Math.min(middle, to) - from);
    }
  }
  close();
  return {part, colour, amount};
}
function coarseSteps({at, count}, per) {
  const mean = new Float64Array(Math.ceil(whole() / per) + 1), most = new Uint32Array(mean.length);
  for (let k = 0; k < at.length - 1; k++) for (let p = Math.floor(at[k] / per); p * per < at[k + 1]; p++) {
    mean[p] += count[k] * (Math.min(at[k + 1], (p + 1) * per) - Math.max(at[k], p * per)) / per;
    most[p] = Math.max(most[p], count[k]);
  }
  return {mean, most};
}
function bars({list, start, ticks, row: alone, h, isChain, overlap}, y) {
  const {view, now} = state, scale = scaleNow(), through = isChain ? null : now.through, [first, end] = seen(list, start, overlap);
  if (alone !== undefined) {                            // from its spawn to its start a row waits: a thin line
    const from = Math.max(xOf(spawnedAt(now, alone)), gutter), to = Math.min(xOf(now.plan.start[alone]), width);
    if (to - from > 1) rect(WAITS, from, y + h / 2 - 0.5, to - from, 1);
  }
  if (end - first > 2 * (width - gutter)) {
    const {per, part, colour, amount} = coarse(list, per => coarseBars(list, start, ticks, through, per));
    for (let k = lowerBound(part.length, i => (part[i] + 1) * per < view.from), next = k; k < part.length && part[k] * per < view.to; k = next) {
      while (next < part.length && part[next] === part[k]) next++;
      const left = xOf(part[k] * per);
      columnsOf(left, left + per * scale, (at, wide) => {
        for (let i = k; i < next; i++) if (colour[i] === CHAIN) chainShare += amount[i] * wide; else addTo(at, colour[i], amount[i] * wide, y, h);
      });
    }
  } else for (let k = first; k < end; k++) {
    const row = list[k], left = xOf(start[row]), right = left + ticks[row] * scale, middle = left + (through ? through[row] * scale : 0);
    if (right <= gutter) continue;
    if (right - left < 2) {
      columnsOf(left, right, (at, wide) => {
        addTo(at, colourOf(row), wide, y, h);
        chainShare += Math.max(0, Math.min(middle, at + WIDE) - Math.max(left, at)) / WIDE;
      });
      continue;
    }
    closeColumn(y, h);
    const x = Math.max(left, gutter - 2), w = Math.min(right, width + 2) - x;
    rect(colourOf(row), x, y, right - left > 5 ? w - 0.7 : w, h);
    if (middle > x) feet.push(x, y + h - 4, Math.min(middle, width + 2) - x, 4);
  }
  closeColumn(y, h);
  closeRun();
}

// How many there are at each tick: as high as they are on average in a column, and paler up to the most.
function steps({steps: shape, h, colour: own, line}, y) {
  const colour = state.hit && own >= FIRST_DEF && !state.hitDefs.has(own - FIRST_DEF) ? MUTED : own;
  const {view} = state, {at, count} = shape, tall = Math.max(shape.most, 1);
  const first = Math.max(0, lowerBound(at.length, i => at[i] <= view.from) - 1), end = lowerBound(at.length, i => at[i] < view.to);
  const add = (left, right, mean, most) => columnsOf(left, right, (p, part) => {
    addTo(p, colour, mean / tall * part, y, h);
    peak = Math.max(peak, most / tall);
  });
  if (end - first > 2 * (width - gutter)) {
    const {per, mean, most} = coarse(at, per => coarseSteps(shape, per));
    for (let k = Math.max(0, Math.floor(view.from / per)); k < mean.length && k * per < view.to; k++)
      if (most[k]) add(xOf(k * per), xOf((k + 1) * per), mean[k], most[k]);
  } else for (let k = first; k < end && k < at.length - 1; k++) {
    const left = xOf(at[k]), right = xOf(at[k + 1]);
    if (right <= gutter || !count[k]) continue;
    if (right - left < 2 * WIDE) { add(left, right, count[k], count[k]); continue; }
    // What is wide is one rectangle, except in the columns at its ends that it shares with what is narrow.
    const narrow = i => i < at.length - 1 && xOf(at[i + 1]) - xOf(at[i]) < 2 * WIDE;
    const snap = x => Math.round(Math.min(Math.max(x, gutter), width) * dots) / dots, high = count[k] / tall * h;
    const from = k > first && narrow(k - 1) ? Math.ceil(left / WIDE) * WIDE : left, to = narrow(k + 1) ? Math.floor(right / WIDE) * WIDE : right;
    add(left, from, count[k], count[k]);
    closeColumn(y, h);
    closeRun();
    rect(colour, snap(from), y + h - high, snap(to) - snap(from), high);
    add(to, right, count[k], count[k]);
  }
  closeColumn(y, h);
  closeRun();
  if (line && line < tall) rules.push(y + h - line / tall * h);
}

// Names in bars that are wide enough, and in a lane of one row marks where it spawns.
function words({list, start, ticks, row: alone, h, overlap}, y) {
  const [first, end] = seen(list, start, overlap);
  if (end - first > width) return;
  pen.font = SMALL;
  for (let k = first; k < end; k++) {
    const row = list[k], left = Math.max(xOf(start[row]), gutter), room = Math.min(xOf(start[row] + ticks[row]), width) - left - 8;
    const fits = text => text.length * 5.9 <= room || pen.measureText(text).width <= room;
    if (room > 14 && alone === undefined) say([rowName(row), defName(rows.def[row])].find(fits) ?? '', left + 4, y + h / 2 - 0.5, inks[colourOf(row)]);
    if (alone === undefined || scaleNow() < 0.2) continue;
    for (let i = childFirst[row]; i < childFirst[row + 1]; i++) {
      const x = xOf(start[row] + state.now.r.offset[child[i]]);
      if (x > gutter && x < width) fill(theme.ink, x - 1, y, 1.2, 5);
    }
  }
}
function stroke(colour, wide, places, dash = []) {
  Object.assign(pen, {strokeStyle: colour, lineWidth: wide});
  pen.setLineDash(dash);
  pen.beginPath();
  for (const line of places) line.forEach(([x, y], k) => k ? pen.lineTo(x, y) : pen.moveTo(x, y));
  pen.stroke();
  pen.setLineDash([]);
}

// The chain's strips, above the bars, and its links from row to row if they are far enough apart.
function links(yOf) {
  const {now, tracks} = state, {start} = now.plan, [first, end] = seen(now.chainList, start);
  for (let k = 0; k < feet.length; k += 4) {
    if (feet[k + 3] === 4) fill(theme.paper, feet[k], feet[k + 1] - 1, feet[k + 2], 1);
    fill(theme.chain, feet[k], feet[k + 1], feet[k + 2], feet[k + 3]);
  }
  for (const y of rules) fill(theme.ink, gutter, y - 0.5, width - gutter, 1);
  feet.length = rules.length = 0;
  if ((end - first) * 5 > width - gutter) return;
  const lines = [];
  for (let k = first; k < end && k + 1 < now.chain.length; k++) {
    const a = tracks[state.rowTrack[now.chain[k]]], b = tracks[state.rowTrack[now.chain[k + 1]]], x = xOf(start[now.chain[k + 1]]);
    if (!a || !b || a === b || x < gutter || x > width) continue;
    lines.push(a.y < b.y ? [[x, yOf(a) + a.h], [x, yOf(b)]] : [[x, yOf(a)], [x, yOf(b) + b.h]]);
  }
  stroke(theme.chain, 1.5, lines);
}

// Frames the selected row in each plan, with lines to its parent and to the row that it waits for.
function chosen(shown, yOf) {
  const row = state.selected, {now, tracks} = state, here = tracks[state.rowTrack[row]];
  const isIn = ({list, start}) => {
    let k = lowerBound(list.length, i => start[list[i]] < start[row]);
    while (k < list.length && start[list[k]] === start[row] && list[k] !== row) k++;
    return list[k] === row;
  };
  for (const track of shown.filter(track => track.kind === 'bars' && isIn(track))) {
    const x = xOf(track.start[row]) - 2.5, w = Math.max(track.ticks[row] * scaleNow(), 2) + 5, y = yOf(track) - 2.5;
    for (const [strokeStyle, lineWidth] of [[theme.paper, 4.5], [theme.focus, 2]]) {
      Object.assign(pen, {strokeStyle, lineWidth});
      pen.strokeRect(x, y, w, track.h + 5);
    }
  }
  for (const [other, tick, dash] of [[row ? now.r.parent[row] : -1, spawnedAt(now, row), [4, 3]], [now.plan.by[row], now.plan.start[row], []]]) {
    const there = other < 0 ? null : tracks[state.rowTrack[other]];
    if (!here || !there || here === there) continue;
    const foot = yOf(here) + here.h / 2;
    stroke(theme.focus, 1.5, [[[xOf(tick), yOf(there) + there.h / 2], [xOf(tick), foot], [xOf(now.plan.start[row]), foot]]], dash);
  }
}
function label(track, y) {
  if (track.kind === 'head') {
    fill(theme.band, 0, y, width, HEAD - 4);
    say(`${track.closed ? '▸' : '▾'} ${track.text}`, 8, y + 11, theme.ink, `600 ${NORMAL}`);
    const from = 20 + pen.measureText(`▾ ${track.text}`).width;
    pen.font = NORMAL;
    return say(clipped(track.note, width - from - 8), from, y + 11, theme.soft, NORMAL);
  }
  const {highlight: lit} = state, sub = track.sub && gutter > 140 ? track.sub : '', number = track.row === undefined ? '' : `${track.row} `;
  const isLit = lit && (track.cown !== undefined && lit.cown === track.cown || track.def !== undefined && lit.def === track.def);
  const sign = track.opens ? track.kind === 'steps' ? '▸ ' : '▾ ' : number;
  say(sub, gutter - 8, y + track.h / 2, theme.soft, SMALL, 'right');
  const room = gutter - 16 - (sub ? pen.measureText(sub).width + 6 : 0);
  pen.font = NORMAL;
  const name = track.row === undefined ? track.name : gutter > 100 ? rowName(track.row) : defName(rows.def[track.row]);
  say(clipped(sign + name, room), 8, y + track.h / 2, isLit ? theme.focus : theme.ink, NORMAL);
}
function clipped(text, room) {
  if (pen.measureText(text).width <= room) return text;
  const least = lowerBound(text.length, k => pen.measureText(text.slice(0, k + 1) + '…').width <= room);
  return least > 0 ? text.slice(0, least) + '…' : '';
}

// All of the run, with the chain by def and how many run at once, and a window over what is shown.
const still = document.createElement('canvas'), stillPen = still.getContext('2d', {alpha: false});
function drawMap() {
  const {view, now} = state;
  if (mapStale) {
    mapStale = false;
    Object.assign(still, {width: map.width, height: map.height});
    stillPen.setTransform(dots, 0, 0, dots, 0, 0);
    fill(theme.paper, 0, 0, width, MAP, stillPen);
    state.view = {from: 0, to: whole()};
    steps({steps: now.steps, h: 32, colour: PLAIN}, 12);
    bars({list: now.chainList, start: now.plan.start, ticks: now.through, h: 9, isChain: true}, 1);
    flush(stillPen);
    state.view = view;
  }
  mapPen.setTransform(1, 0, 0, 1, 0, 0);
  mapPen.drawImage(still, 0, 0);
  mapPen.setTransform(dots, 0, 0, dots, 0, 0);
  const per = (width - gutter) / whole(), from = gutter + view.from * per, to = gutter + view.to * per;
  fill(theme.paper, 0, 0, gutter, MAP, mapPen);
  mapPen.globalAlpha = 0.65;
  fill(theme.paper, gutter, 0, Math.max(0, from - gutter), MAP, mapPen);
  fill(theme.paper, to, 0, Math.max(0, width - to), MAP, mapPen);
  Object.assign(mapPen, {globalAlpha: 1, strokeStyle: theme.focus, lineWidth: 1.5});
  mapPen.strokeRect(from + 0.75, 0.75, Math.max(to - from - 1.5, 2), MAP - 1.5);
  say('all of it', 8, MAP / 2, theme.soft, SMALL, 'left', mapPen);
}

// How many ticks there are to show: all that a plan in the picture takes, and some room at its end.
const greedyNow = () => state.now === state.base && state.workers === told.p ? toldGreedy : state.now.greedy(state.workers);
const whole = () => 1.02 * Math.max(state.now.span, state.closed.has('greedy') ? 0 : greedyNow().end);

// Mouse, fingers and keys: they pan, zoom, select and highlight.

const tip = document.getElementById('tip'), said = document.getElementById('said');
const calm = matchMedia('(prefers-reduced-motion: reduce)');
function show(from, to) {
  const most = whole(), least = Math.min(12, most);
  let wide = Math.min(Math.max(to - from, least), most), middle = (from + to) / 2;
  from = Math.min(Math.max(middle - wide / 2, 0), most - wide);
  state.view = {from, to: from + wide};
  tip.hidden = true;
  redraw();
}
const showRow = (begin, ticks) => show(begin - 2 * ticks, begin + 3 * ticks);
const reset = () => show(0, whole()), toSpan = () => show(0, state.now.span * 1.04);
function zoom(factor, x = (gutter + width) / 2) {
  const {from, to} = state.view, at = Math.min(Math.max(tickAt(x), from), to), wide = Math.min(Math.max((to - from) * factor, Math.min(12, whole())), whole());
  const part = (at - from) / (to - from);
  show(at - part * wide, at - part * wide + wide);
}
const pan = pixels => { const by = pixels * (state.view.to - state.view.from) / (width - gutter); show(state.view.from + by, state.view.to + by); };

// What is at a place of the canvas: a track, a tick, and a row where it is wide enough to be one, or else all the rows of that column.
function at(x, y) {
  const top = y - AXIS + scroll.scrollTop, track = state.tracks.find(track => top >= track.y - 1 && top <= track.y + track.h + 1);
  if (y < AXIS) return {axis: true};
  if (!track) return {};
  if (track.kind !== 'bars' || x < gutter) return {track, tick: tickAt(x)};
  const {list, start, ticks} = track, tick = tickAt(x), px = (state.view.to - state.view.from) / (width - gutter);
  const from = tickAt(Math.floor(x / WIDE) * WIDE), to = from + WIDE * px, found = [];
  for (let k = Math.max(0, lowerBound(list.length, i => start[list[i]] < from) - 40); k < list.length && start[list[k]] < to; k++) {
    const row = list[k];
    if (start[row] + ticks[row] > from) found.push(row);
  }
  const wide = found.filter(row => ticks[row] >= 2 * px);
  const under = wide.find(row => start[row] <= tick && tick < start[row] + ticks[row]) ?? wide[0];
  return {track, tick, row: under ?? (found.length === 1 ? found[0] : undefined), rows: found};
}
function hover(event) {
  const what = at(...placeOf(event)), lines = wordsOn(what);
  canvas.style.cursor = what.row !== undefined || what.track?.kind === 'head' || what.track?.opens ? 'pointer' : what.axis ? 'col-resize' : 'grab';
  tip.replaceChildren(...lines.map((line, k) => el(k ? 'div' : 'b', {}, line)));
  tip.hidden = lines.length === 0;
  if (tip.hidden) return;
  const {width: w, height: h} = tip.getBoundingClientRect();
  tip.style.left = `${Math.max(4, Math.min(event.clientX + 14, innerWidth - w - 6))}px`;
  tip.style.top = `${event.clientY + h + 24 > innerHeight ? event.clientY - h - 12 : event.clientY + 16}px`;
}

// What there is to say of what is at a place, line by line.
function wordsOn({track, tick, row, rows: found}) {
  const {now} = state;
  if (!track || track.kind === 'head' || tick < state.view.from) return [];
  if (track.kind === 'steps') {
    const {at: ticks, count} = track.steps, k = lowerBound(ticks.length, i => ticks[i] <= tick) - 1, n = k < 0 ? 0 : count[k];
    const waiting = track.cown !== undefined && `${many(n, 'behaviour waits', 'behaviours wait')} for ${told.cowns[track.cown]}`;
    return [waiting || `${many(n, 'behaviour')} at once`, `at tick ${num(Math.floor(tick))}`];
  }
  if (row !== undefined) {
    const begin = track.start[row], ticks = now.r.ticks[row], by = now.plan.by[row];
    const lines = [`${row}  ${rowName(row)}`, `${many(ticks, 'tick')}, from ${num(begin)} to ${num(begin + ticks)}`];
    if (by >= 0) lines.push(`waits ${num(now.plan.start[row] - spawnedAt(now, row))} for row ${by}: ${cownText(handed(now, by, row))}`);
    if (now.through[row]) lines.push(`the chain goes through ${num(now.through[row])} of its ticks`);
    return lines;
  }
  if (!found || !found.length) return [];
  const sums = new Map();
  for (const row of found) sums.set(rows.def[row], (sums.get(rows.def[row]) ?? 0) + 1);
  return [`${many(found.length, 'behaviour')} in this column`, ...Array.from(sums, ([def, n]) => `${num(n)} ${defName(def)}`), 'zoom in to see each'];
}
function select(row, isShown = true) {
  state.selected = row;
  if (row >= 0 && isShown) {
    const {now} = state, begin = now.plan.start[row], end = begin + now.r.ticks[row], {from, to} = state.view, wide = to - from;
    if (end < from || begin > to || (end - begin) < wide / 400) {
      const zoomed = Math.min(wide, Math.max((end - begin) * 24, 12));
      show((begin + end - zoomed) / 2, (begin + end + zoomed) / 2);
    }
    const track = state.tracks[state.rowTrack[row]];
    if (track && (track.y < scroll.scrollTop || track.y + track.h + 40 > scroll.scrollTop + height)) {
      const far = Math.abs(track.y - scroll.scrollTop) > 3 * height;
      scroll.scrollTo({top: Math.max(0, track.y - height / 2), behavior: calm.matches || far ? 'auto' : 'smooth'});
    }
    said.textContent = `row ${row}, ${rowName(row)}, ticks ${begin} to ${end}${now.through[row] ? ', on the chain' : ''}`;
  }
  tellDetails();
  redraw();
}

// Highlights the rows of a def, or those that have a cown, or those whose name has some letters; the same again ends it.
function highlight(what) {
  const same = what && state.highlight && what.def === state.highlight.def && what.cown === state.highlight.cown && what.text === state.highlight.text;
  state.highlight = !what || same && what.text === undefined ? null : what;
  Object.assign(state, {hit: null, hits: 0, hitDefs: new Set()});
  if (state.highlight) {
    const {def, cown, text} = state.highlight, wanted = text?.toLowerCase(), byNumber = wanted && /^#?\d+$/.test(wanted) ? Number(wanted.replace('#', '')) : -1;
    state.hit = new Uint8Array(N);
    for (let row = 0; row < N; row++) {
      const is = def !== undefined ? rows.def[row] === def : cown !== undefined ? cownsOf(row).includes(cown)
        : row === byNumber || rowName(row).toLowerCase().includes(wanted);
      if (is) { state.hit[row] = 1; state.hits++; state.hitDefs.add(rows.def[row]); }
    }
    const of = def !== undefined ? defName(def) : cown !== undefined ? told.cowns[cown] : `“${text}”`;
    said.textContent = `${of}: ${many(state.hits, 'behaviour')}`;
  } else said.textContent = '';
  copies = new WeakMap();
  mapStale = true;
  tellLegend();
  redraw();
}
function nextHit(by) {
  if (!state.hits) return;
  const sorted = byStart(allRows().filter(row => state.hit[row]), state.now.plan.start), place = sorted.indexOf(state.selected);
  select(sorted[place < 0 ? 0 : (place + by + sorted.length) % sorted.length]);
}
function alongChain(by) {
  const {chain, plan} = state.now, place = chain.indexOf(state.selected);
  if (place >= 0) return select(chain[Math.min(Math.max(place + by, 0), chain.length - 1)]);
  select(chain[Math.max(0, lowerBound(chain.length, k => plan.start[chain[k]] <= (state.view.from + state.view.to) / 2) - 1)]);
}
// Closes a part, or opens it; the lanes of a def likewise.
function fold(id) {
  if (!state.closed.delete(id)) state.closed.add(id);
  said.textContent = `${id}: ${state.closed.has(id) === id.startsWith('def ') ? 'open' : 'closed'}`;
  relay();
}

const fingers = new Map();
let drag = null;
const placeOf = ({clientX, clientY}) => { const {left, top} = canvas.getBoundingClientRect(); return [clientX - left, clientY - top]; };
function pointerDown(event) {
  const [x, y] = placeOf(event);
  fingers.set(event.pointerId, x);
  if (event.button) return;
  drag = {x, y, from: state.view.from, to: state.view.to, moved: false, axis: y < AXIS, spread: 0};
  if (fingers.size === 2) {
    const [a, b] = fingers.values();
    Object.assign(drag, {spread: Math.abs(a - b), x: (a + b) / 2});
  }
  canvas.setPointerCapture(event.pointerId);
  tip.hidden = true;
}
function pointerMove(event) {
  if (!drag) return hover(event);
  const [x] = placeOf(event);
  if (fingers.has(event.pointerId)) fingers.set(event.pointerId, x);
  if (Math.abs(x - drag.x) > 4) drag.moved = true;
  if (!drag.moved) return;
  const per = (drag.to - drag.from) / (width - gutter);
  if (fingers.size === 2 && drag.spread > 8) {
    const [a, b] = fingers.values(), factor = drag.spread / Math.max(Math.abs(a - b), 8);
    const middle = drag.from + (drag.x - gutter) * per, to = ((a + b) / 2 - gutter) * per * factor;
    show(middle - to, middle - to + (drag.to - drag.from) * factor);
  } else if (!drag.axis) show(drag.from - (x - drag.x) * per, drag.to - (x - drag.x) * per);
  else {
    drag.end = x;
    redraw();
  }
}
function pointerUp(event) {
  fingers.delete(event.pointerId);
  const was = drag;
  drag = null;
  if (!was || event.type === 'pointercancel') return;
  if (was.axis && was.moved) return show(Math.min(tickAt(was.x), tickAt(was.end)), Math.max(tickAt(was.x), tickAt(was.end)));
  if (was.moved) return;
  const {track, row, rows: found} = at(was.x, was.y);
  if (track && was.x < gutter && track.cown !== undefined) return highlight({cown: track.cown});
  if (track && was.x < gutter && track.def !== undefined && !track.opens) return highlight({def: track.def});
  if (row === undefined && found?.length > 1) return zoom(0.25, was.x);
  const id = track?.id ?? (track?.kind === 'steps' || was.x < gutter ? track?.opens : null);
  if (id) fold(id); else select(row ?? -1, false);
}
const doubleClick = event => { const {row, track} = at(...placeOf(event)); if (row !== undefined) showRow(track.start[row], track.ticks[row]); };
function wheel(event) {
  const sideways = event.shiftKey ? event.deltaY || event.deltaX : event.deltaX, isZoom = event.ctrlKey || event.metaKey;
  if (!isZoom && Math.abs(sideways) <= Math.abs(event.shiftKey ? 0 : event.deltaY)) return;
  event.preventDefault();
  if (isZoom) zoom(1.002 ** event.deltaY, placeOf(event)[0]); else pan(sideways);
}
function listen() {
  const hide = () => { tip.hidden = true; };
  const listenTo = (it, listeners) => { for (const [name, what] of Object.entries(listeners)) it.addEventListener(name, what); };
  const mapAt = event => (event.clientX - map.getBoundingClientRect().left - gutter) / (width - gutter) * whole();
  listenTo(canvas, {
    pointerdown: pointerDown, pointermove: pointerMove, pointerup: pointerUp, pointercancel: pointerUp, pointerleave: hide, dblclick: doubleClick,
  });
  listenTo(map, {
    pointerdown: event => { map.setPointerCapture(event.pointerId); centre(mapAt(event)); },
    pointermove: event => { if (event.buttons) centre(mapAt(event)); },
  });
  listenTo(window, {
    scroll: hide, blur: () => { hide(); held.clear(); }, keydown: keyDown, keyup: event => held.delete(event.key.toLowerCase()),
    beforeprint: () => printing(true), afterprint: () => printing(false), hashchange: fromHash,
  });
  scroll.addEventListener('wheel', wheel, {passive: false});
  scroll.addEventListener('scroll', () => { hide(); redraw(); });
  new ResizeObserver(() => { if (!state.printing) { size(); draw(); } }).observe(scroll);
  matchMedia('(prefers-color-scheme: dark)').addEventListener('change', recolour);
}
const centre = tick => { const half = (state.view.to - state.view.from) / 2; show(tick - half, tick + half); };
function printing(is) {
  const {dataset} = document.documentElement;
  if (is) state.before = {mode: state.mode, theme: dataset.theme};
  const {mode, theme} = state.before, asPrinted = is ? 'light' : theme;
  Object.assign(state, {printing: is, mode: is && state.height > PAPER && mode === 'rows' ? 'defs' : mode});
  if (asPrinted) dataset.theme = asPrinted; else delete dataset.theme;
  recolour();
  layOut();
  draw();
}
// `#r42` in the address selects row 42, and `#edit=..` makes these edits.
function fromHash() {
  const row = /^#r(\d+)$/.exec(location.hash), edits = /^#edit=(.*)$/.exec(location.hash);
  if (edits) applyEdits(editsFrom(edits[1]));
  if (!row || Number(row[1]) >= N) return;
  document.getElementById('viewer').scrollIntoView();
  select(Number(row[1]));
}

// Keys that are held go on, as fast as frames come; with reduced motion each stroke is one step.
const held = new Set(), MOVES = {w: [0, -1], s: [0, 1], a: [-1, 0], d: [1, 0], arrowleft: [-1, 0], arrowright: [1, 0], '+': [0, -1], '=': [0, -1], '-': [0, 1]};
function keyDown(event) {
  const key = event.key.toLowerCase(), row = state.selected;
  const inside = scroll.contains(document.activeElement) || document.activeElement === document.body;
  if (key === 'escape') {
    tip.hidden = true;
    if (document.activeElement === search()) search().blur();
    if (state.highlight) { search().value = ''; highlight(null); } else select(-1);
    return;
  }
  if (!inside || event.ctrlKey || event.metaKey || event.altKey) return;
  if (MOVES[key]) {
    event.preventDefault();
    if (calm.matches) return move(MOVES[key], 0.15);
    const idle = held.size === 0;
    if (!held.has(key)) move(MOVES[key], 0.06);
    held.add(key);
    if (idle) goOn(performance.now());
  } else if (key === '0') reset();
  else if (key === '/') { event.preventDefault(); search().focus(); search().select(); }
  else if (key === 'n' || key === 'p') nextHit(key === 'n' ? 1 : -1);
  else if (key === ']' || key === '[') alongChain(key === ']' ? 1 : -1);
  else if (key === 'f' && row >= 0) showRow(state.now.plan.start[row], state.now.r.ticks[row]);
  else if (key >= '1' && key <= '5') fold(['chain', 'once', 'plan', 'greedy', 'cowns'][key - 1]);
  else if (key === 'o' && (row >= 0 || state.highlight?.def !== undefined)) fold(`def ${state.highlight?.def ?? rows.def[row]}`);
  else if (key === 'arrowdown' || key === 'arrowup') { event.preventDefault(); scroll.scrollBy(0, key === 'arrowdown' ? 60 : -60); }
}
const move = ([sideways, out], part) => { if (sideways) pan(sideways * part * (width - gutter)); if (out) zoom((1 + part * 1.6) ** out); };
function goOn(before) {
  requestAnimationFrame(now => {
    for (const key of held) move(MOVES[key], Math.min((now - before) / 1000, 0.05) * 0.9);
    if (held.size) goOn(now);
  });
}

// Words: elements, tables, the toolbar, the legend and the details of a row. What comes from the run only becomes text nodes.

function el(name, props = {}, ...children) {
  const it = document.createElement(name);
  for (const [key, value] of Object.entries(props)) {
    if (key.startsWith('on')) it.addEventListener(key.slice(2), value);
    else if (key === 'style') for (const [what, to] of Object.entries(value)) it.style.setProperty(what, to);
    else if (value === true) it.setAttribute(key, '');
    else if (value !== false && value !== null && value !== undefined) it.setAttribute(key, value);
  }
  it.append(...children.filter(it => it !== null && it !== undefined));
  return it;
}
const byId = id => document.getElementById(id), put = (id, ...children) => byId(id).replaceChildren(...children);
const swatch = colour => el('i', {class: 'swatch', style: {background: colour}, 'aria-hidden': 'true'});
const button = (text, what, props = {}) => el('button', {type: 'button', onclick: what, ...props}, text);
const link = (text, what, title) => button(text, what, {class: 'link', title});
const toPlan = () => byId('viewer').scrollIntoView();
const jump = row => link(`${row} ${rowName(row)}`, () => { select(row); toPlan(); });
// What sorts a list by a value: numbers as numbers, texts with the numbers in them.
const compare = (x, y) => typeof x === 'string' ? x.localeCompare(y, 'en', {numeric: true}) : x - y;
// Makes the heads of a table buttons. `sort` gets the number of the column, and whether the greatest comes first.
function sortable(heads, isText, sort, sorted = -1) {
  let by = sorted, down = true;
  const mark = () => heads.forEach((head, k) => head.setAttribute('aria-sort', k !== by ? 'none' : down ? 'descending' : 'ascending'));
  heads.forEach((head, k) => {
    const text = head.textContent;
    head.replaceChildren(button(text, () => {
      down = by === k ? !down : !isText(k);
      by = k;
      sort(k, down);
      mark();
    }, {title: head.title || null, 'aria-label': head.title ? `${text}: ${head.title}` : text}));
  });
  mark();
}

// A table of many lines, some at a time. A column is {head, value, cell?, text?, title?}.
function table(caption, columns, lines, size = 25) {
  const body = el('tbody'), foot = el('div', {class: 'pages'});
  let list = lines, at = 0;
  const cellOf = (column, line) => column.cell ? column.cell(line) : column.text ? column.value(line) : num(column.value(line));
  const fill = () => {
    const cells = line => columns.map(column => el('td', {class: column.text ? '' : 'n'}, cellOf(column, line)));
    body.replaceChildren(...Array.from(list.slice(at, at + size), line => el('tr', {}, ...cells(line))));
    if (list.length <= size) return;
    foot.replaceChildren(button('‹ back', () => { at = Math.max(0, at - size); fill(); }, {disabled: at === 0}),
      ` ${num(at + 1)} to ${num(Math.min(at + size, list.length))} of ${num(list.length)} `,
      button('on ›', () => { at += size; fill(); }, {disabled: at + size >= list.length}));
  };
  const heads = columns.map(({head, text, title}) => el('th', {scope: 'col', class: text ? '' : 'n', title}, head));
  sortable(heads, k => columns[k].text, (k, down) => {
    list = Array.from(lines).sort((a, b) => (down ? -1 : 1) * compare(columns[k].value(a), columns[k].value(b)));
    at = 0;
    fill();
  });
  fill();
  const inner = el('table', {}, el('caption', {}, caption), el('thead', {}, el('tr', {}, ...heads)), body);
  return el('div', {class: 'table'}, el('div', {class: 'wide', tabindex: '0', role: 'region', 'aria-label': caption}, inner), foot);
}

// The tables that are there without a script get heads that sort, colours of defs, and buttons.
function enhanceTables() {
  for (const it of document.querySelectorAll('table.sort')) {
    const body = it.tBodies[0], heads = Array.from(it.tHead.rows[0].cells);
    const valueOf = (row, k) => {
      const text = row.cells[k].textContent.trim(), number = parseFloat(text.replace(/,/g, ''));
      return heads[k].classList.contains('n') ? Number.isNaN(number) ? -Infinity : number : text;
    };
    sortable(heads, k => !heads[k].classList.contains('n'), (k, down) =>
      body.append(...Array.from(body.rows).sort((a, b) => (down ? -1 : 1) * compare(valueOf(a, k), valueOf(b, k)))));
  }
  const linked = (selector, what) => {
    for (const cell of document.querySelectorAll(selector)) cell.replaceChildren(...what(cell, cell.textContent.trim()));
  };
  const lit = what => () => { highlight(what); toPlan(); }, title = 'highlight it in the plan';
  linked('[data-cown]', (cell, text) => [link(text, lit({cown: Number(cell.dataset.cown)}), title)]);
  linked('[data-def]', ({dataset: {def}}, text) => [swatch(colours[Number(def) + FIRST_DEF]), link(text, lit({def: Number(def)}), title)]);
  linked('[data-head]', ({dataset: {head}}, text) => [swatch(colours[Number(head) + FIRST_DEF]), text]);
  const kinds = {half: 'each of its behaviours takes half the ticks', without: 'it imposes no order', early: 'each behaviour of it spawns its children first'};
  linked('[data-try]', (cell, text) => {
    const own = told.candidates[Number(cell.dataset.try)], edits = editsOf(own);
    return [edits ? link(text, () => { applyEdits(edits); toPlan(); }, `${kinds[own[0]]}; click to try it in the plan`) : text];
  });
  linked('[data-set]', (cell, text) => [link(text, () => { applyEdits(withoutCowns(text)); toPlan(); }, 'try it in the plan')]);
}
function tellHead() {
  const themes = ['auto', 'light', 'dark'], root = document.documentElement, pick = button('theme: auto', () => {
    const next = themes[(themes.indexOf(root.dataset.theme ?? 'auto') + 1) % 3];
    if (next === 'auto') delete root.dataset.theme; else root.dataset.theme = next;
    pick.textContent = `theme: ${next}`;
    recolour();
  });
  byId('head').append(pick);
}
const recolour = () => { readTheme(); tellLegend(); redraw(); };
function tellLegend() {
  const chips = defOrder.slice(0, 80).map(def => {
    const title = `${many(defFirst[def + 1] - defFirst[def], 'behaviour')}, ${many(defWork[def], 'tick')}`;
    return el('button', {type: 'button', class: 'chip', 'aria-pressed': String(state.highlight?.def === def), title, onclick: () => highlight({def})},
      swatch(colours[def + FIRST_DEF]), defName(def), el('small', {}, percent(defWork[def], told.work)));
  });
  const end = () => { search().value = ''; highlight(null); };
  const found = state.highlight && el('span', {class: 'found'}, `${num(state.hits)} highlighted `, button('end', end));
  const key = (colour, text) => el('span', {class: 'key'}, swatch(colour), text);
  put('legend', ...chips, key(theme.chain, 'the chain'), key(theme.waits, 'waits for a cown'), ...(found ? [found] : []));
}
const relay = () => { layOut(); redraw(); };
function tellBar() {
  const choice = (label, value, options, chosen) => {
    const all = options.map(([value, text]) => el('option', {value}, text));
    const it = el('select', {'aria-label': label, onchange: () => { chosen(it.value); relay(); }}, ...all);
    it.value = value;
    return it;
  };
  const modes = [['rows', 'a lane for each behaviour'], ['defs', 'lanes by def'], ['lanes', 'as few lanes as possible']];
  const plans = [['earliest', 'cowns in the earliest plan'], ['greedy', 'cowns in the greedy plan']];
  const mode = choice('Rows of the earliest plan', state.mode, modes, value => { state.mode = value; });
  const cowns = choice('The plan in which cowns are shown', state.cownsOf, plans, value => { state.cownsOf = value; });
  const workers = el('input', {type: 'number', min: 1, max: 64, value: state.workers, 'aria-label': 'Workers of the greedy plan', onchange: () => {
    workers.value = state.workers = Math.min(Math.max(Math.round(Number(workers.value)) || 1, 1), 64);
    relay();
    tellResult();
  }});
  put('bar', mode, el('label', {}, workers, ' workers'), cowns, searchBox(), el('span', {class: 'zoom'},
    button('−', () => zoom(1.5), {'aria-label': 'zoom out'}), button('+', () => zoom(1 / 1.5), {'aria-label': 'zoom in'}),
    button('all', reset, {'aria-label': 'show all of both plans', title: '0'}), button('span', toSpan, {'aria-label': 'show the earliest plan'}),
    button('chain ›', () => alongChain(1), {title: '] and [: along the chain'})));
}
function searchBox() {
  let later = 0;
  const find = el('input', {type: 'search', id: 'search', placeholder: 'search  /', 'aria-label': 'Highlight behaviours by name, cown or number',
    oninput: () => {
      clearTimeout(later);
      later = setTimeout(() => highlight(find.value.trim() ? {text: find.value.trim()} : null), 120);
    }, onkeydown: event => { if (event.key === 'Enter') nextHit(event.shiftKey ? -1 : 1); }});
  return find;
}
const search = () => byId('search');

// The cowns of a row, each with the rows that have it before and after.
function cownsTold(row) {
  const {now} = state;
  return Array.from(now.r.hold.subarray(now.r.first[row], now.r.first[row + 1])).map(cown => {
    const list = cownLanes(now, now.plan, false).find(lane => lane.cown === cown).holders, at = list.indexOf(row);
    const beside = (word, at) => at >= 0 && at < list.length ? el('div', {}, `${word}: `, jump(list[at])) : null;
    return el('div', {class: 'cown'}, link(told.cowns[cown], () => highlight({cown}), 'highlight the rows that have it'),
      writes(now.r, row, cown) ? '' : ' (reads)', beside('before', at - 1), beside('after', at + 1));
  });
}
function chainTold(row) {
  const {now} = state, place = now.chain.indexOf(row);
  if (place < 0) return ['not on it'];
  const next = now.chain[place + 1], {spawns, text} = linkOf(now, place), part = `${num(now.through[row])} of its ticks, then `;
  return next === undefined ? [`${part}the run ends`] : [part, spawns ? 'spawns ' : `hands ${text} to `, jump(next)];
}
function tellDetails() {
  const row = state.selected, {now} = state, line = (name, ...value) => [el('dt', {}, name), el('dd', {}, ...value)];
  byId('frame').classList.toggle('with', row >= 0);
  if (row < 0) return put('details');
  const begin = now.plan.start[row], ticks = now.r.ticks[row], by = now.plan.by[row], greedy = greedyNow(), waited = begin - spawnedAt(now, row);
  const children = Array.from(child.subarray(childFirst[row], childFirst[row + 1])), fault = told.faults.find(([faulty]) => faulty === row);
  const list = children.slice(0, 12).map(it => el('div', {}, jump(it))), cowns = cownsTold(row);
  const close = button('×', () => select(-1), {class: 'close', 'aria-label': 'end the selection'});
  put('details', close, el('h3', {}, swatch(colours[rows.def[row] + FIRST_DEF]), rowName(row)), el('dl', {},
    ...line('row', String(row)), ...line('ticks', num(ticks)), ...line('earliest', `${num(begin)} to ${num(begin + ticks)}`),
    ...line(many(state.workers, 'worker'), `${num(greedy.start[row])} to ${num(greedy.start[row] + ticks)}, worker ${greedy.worker[row]}`),
    ...(fault ? line('fault', `ended with status ${fault[1]}`) : []),
    ...(row ? line('spawned', `at ${num(spawnedAt(now, row))} by `, jump(now.r.parent[row])) : []),
    ...(by >= 0 ? line('waits', `${many(waited, 'tick')} for ${cownText(handed(now, by, row))}, after `, jump(by)) : line('waits', 'for nothing')),
    ...line('chain', ...chainTold(row)), ...(cowns.length ? line('cowns', ...cowns) : []),
    ...(children.length ? line('children', ...list, children.length > 12 ? `${num(children.length - 12)} more` : '') : [])));
}

// All rows of the chain, and all rows, some at a time.
function tellRows() {
  const {base} = state, {start} = base.plan, end = base.chain.length, waited = row => start[row] - spawnedAt(base, row);
  const then = k => linkOf(base, k).spawns ? 'spawns the next' : k + 1 < end ? `hands on ${linkOf(base, k).text}` : 'ends';
  const folded = (summary, make) => el('details', {ontoggle: ({target}) => { if (target.children.length === 1) target.append(make()); }},
    el('summary', {}, summary));
  put('rows', folded(`The chain, row by row (${num(end)})`, () => table('The chain', [
    {head: 'start', value: k => start[base.chain[k]]}, {head: 'ticks', value: k => base.through[base.chain[k]]},
    {head: 'behaviour', text: true, value: k => rowName(base.chain[k]), cell: k => jump(base.chain[k])}, {head: 'then', text: true, value: then},
  ], base.chain.map((_, k) => k))), folded(`All behaviours (${num(N)})`, () => table('Behaviours', [
    {head: 'row', value: row => row}, {head: 'behaviour', text: true, value: rowName, cell: jump}, {head: 'ticks', value: row => rows.ticks[row]},
    {head: 'spawned', value: row => spawnedAt(base, row)}, {head: 'start', value: row => start[row]}, {head: 'end', value: row => start[row] + rows.ticks[row]},
    {head: 'waited', value: waited}, {head: `start, ${many(told.p, 'worker')}`, value: row => toldGreedy.start[row]},
    {head: 'worker', value: row => toldGreedy.worker[row]}, {head: 'chain', value: row => base.through[row]},
  ], allRows())));
}

// What if: the part of its ticks that each def costs, the defs that spawn early, and the cowns that impose no order.

const cownsNamed = name => told.cowns.flatMap((own, cown) => own === name || name.endsWith('[*]') && familyOf(cown) === name.slice(0, -3) ? [cown] : []);
// The edits that leave out the cowns of a list such as `log and acct[*]`.
function withoutCowns(text) {
  const cowns = text === 'every cown' ? told.cowns.keys() : text.split(' and ').flatMap(cownsNamed);
  return {...noEdits(), without: new Set(cowns)};
}
// The edits of a candidate, if they are of a def or a cown that the page knows.
function editsOf([kind, name]) {
  const edits = noEdits(), def = told.defs.indexOf(name);
  if (kind === 'without') return withoutCowns(name);
  if (def < 0 || !name) return null;
  if (kind === 'half') edits.scale.set(def, [1, 2]); else edits.early.add(def);
  return edits;
}

// Edits as a part of the address, and back: `s3:1/2` scales def 3, `e3` has it spawn early, and `w0` leaves cown 0 out.
const addressOf = ({scale, early, without}) =>
  [...Array.from(scale, ([def, [k, d]]) => `s${def}:${k}/${d}`), ...Array.from(early, def => `e${def}`), ...Array.from(without, cown => `w${cown}`)].join(';');
function editsFrom(text) {
  const edits = noEdits();
  for (const part of text.split(';')) {
    const [, kind, number, k, d] = /^([sew])(\d{1,5})(?::(\d{1,4})\/(\d{1,4}))?$/.exec(part) ?? [], place = Number(number);
    if (kind === 'w' && place < C) edits.without.add(place);
    if (kind === 'e' && place < DEFS) edits.early.add(place);
    if (kind === 's' && place < DEFS && Number(k) > 0 && Number(d) > 0) edits.scale.set(place, [Number(k), Number(d)]);
  }
  return edits;
}
const toggle = (set, thing, is) => { set[is ? 'add' : 'delete'](thing); edited(); };
function sliderOf(def) {
  const out = el('output', {}, '100 %');
  const input = el('input', {type: 'range', min: 5, max: 200, step: 5, value: 100, 'aria-label': `ticks of ${defName(def)} in percent`, oninput: () => {
    const k = Number(input.value);
    out.textContent = `${k} %`;
    if (k === 100) state.edits.scale.delete(def); else state.edits.scale.set(def, [k, 100]);
    edited();
  }});
  const early = el('input', {type: 'checkbox', 'aria-label': `early spawns by ${defName(def)}`,
    onchange: () => toggle(state.edits.early, def, early.checked)});
  const title = 'it spawns its first child at its tick 1, and each further one a tick later';
  return el('div', {class: 'slider', 'data-slider': def}, el('span', {}, swatch(colours[def + FIRST_DEF]), defName(def)), input, out,
    el('label', {title}, early, ' early spawns'));
}
function boxOf({cown, held}) {
  const box = el('input', {type: 'checkbox', 'data-box': cown, onchange: () => toggle(state.edits.without, cown, box.checked)});
  return el('label', {}, box, ` ${told.cowns[cown]} `, el('small', {}, `held ${percent(held, told.span)}`));
}
function familyButton(family, lanes) {
  const own = lanes.map(({cown}) => cown).filter(cown => familyOf(cown) === family);
  return own.length < 2 ? '' : button(`${family}[*]`, () => {
    const {without} = state.edits, all = own.every(cown => without.has(cown));
    own.forEach(cown => all ? without.delete(cown) : without.add(cown));
    applyEdits(state.edits);
  }, {class: 'chip'});
}
function tellWhatIf() {
  const lanes = cownLanes(state.base, state.base.plan, false), families = new Set(lanes.map(({cown}) => familyOf(cown)).filter(Boolean));
  const sliders = defOrder.slice(0, 64).map(sliderOf);
  put('edits', el('p', {id: 'result', role: 'status'}), el('div', {class: 'columns two'},
    el('fieldset', {}, el('legend', {}, 'The ticks of a def, and its spawns'), ...sliders),
    el('fieldset', {}, el('legend', {}, 'Without a cown: it imposes no order'),
      el('div', {class: 'families'}, ...Array.from(families, it => familyButton(it, lanes))), el('div', {class: 'boxes'}, ...lanes.map(boxOf)))));
  byId('whatif').hidden = false;
  tellResult();
}

let due = false;
function edited() {
  if (due) return;
  due = true;
  requestAnimationFrame(() => {
    due = false;
    const now = isEdited(state.edits) ? reckon(state.edits) : state.base;
    state.refused = now.refused ?? null;
    if (!now.refused) use(now);
    tellResult();
    if (state.selected >= 0) tellDetails();
  });
}
function use(now) {
  const all = state.view.to >= whole() * 0.999 && state.view.from === 0;
  state.now = now;
  layOut();
  if (all) reset(); else show(state.view.from, state.view.to);
}
function applyEdits(edits) {
  state.edits = {scale: new Map(edits.scale), early: new Set(edits.early), without: new Set(edits.without)};
  for (const slider of document.querySelectorAll('[data-slider]')) {
    const def = Number(slider.dataset.slider), [k, d] = edits.scale.get(def) ?? [1, 1], [range, early] = slider.querySelectorAll('input');
    range.value = 100 * k / d;
    early.checked = edits.early.has(def);
    slider.querySelector('output').textContent = `${Math.round(100 * k / d)} %`;
  }
  for (const box of document.querySelectorAll('[data-box]')) box.checked = edits.without.has(Number(box.dataset.box));
  edited();
}

// The edits as a reader calls them.
function toldEdits({scale, early, without}) {
  const all = [...Array.from(scale, ([def, [k, d]]) => `${defName(def)} at ${Math.round(100 * k / d)} %`),
    ...Array.from(early, def => `early spawns by ${defName(def)}`), ...Array.from(without, cown => `without ${told.cowns[cown]}`)];
  return all.slice(0, 8).join(', ') + (all.length > 8 ? ` and ${num(all.length - 8)} more` : '');
}

// The command of `boc whatif` that makes the same edits, quoted for a shell. Numbers replace names of cowns and defs that could mean something else.
const quoted = word => /^[\w.=\/-]+$/.test(word) ? word : `'${String(word).replace(/'/g, "'\\''")}'`;
function inputWords() {
  const {title} = told, [, typical, run] = told.run.match(/^(typical ticks(?:, |$))?(.*)$/s), path = name => quoted(name.replace(/^-/, './-'));
  const file = title === 'standard input' ? '-' : /[=@]/.test(title) ? `- < ${path(title)}` : path(title);
  const [, how, names] = run.match(/^(.*?)(?:(?:^|, )names in (.*))?$/s);
  const ran = told.source === null ? '' : how.startsWith('the run in ') ? `--record ${path(how.slice(11))}`
    : how.replace('timed on ', '--timed ').replace(/(\d+) workers?/, '-w $1').replace(/, (seed|depth)/g, ' --$1');
  return [typical ? '--typical' : '', ran, names === undefined ? '' : `--names ${path(names)}`, file].filter(Boolean).join(' ');
}
function commandOf({scale, early, without}) {
  const cownWord = cown => /^[-+\d]/.test(told.cowns[cown]) || cownsNamed(told.cowns[cown]).length > 1 ? cown : told.cowns[cown];
  const names = (def, others, rowWord) => others.test(told.defs[def]) ? Array.from(rowsOfDef(def), rowWord) : [told.defs[def]];
  const parts = Array.from(scale).flatMap(([def, [k, d]]) => names(def, /^\d*$/, String).map(name => quoted(`${name}=${k}/${d}`)));
  return [`boc whatif --short -p ${state.workers}${told.shared ? ' --shared-reads' : ''}`, ...Array.from(without, it => `--without ${quoted(cownWord(it))}`),
    ...Array.from(early).flatMap(def => names(def, /^$/, row => `row ${row}`).map(name => `--early${name.startsWith('-') ? '=' : ' '}${quoted(name)}`)),
    inputWords(), ...(parts.some(part => /^'?-/.test(part)) ? ['--'] : []), ...parts];
}
function changeOf(name, before, after) {
  const sign = after < before ? '−' : '+', part = ratio(100 * Math.abs(after - before) / before);
  return el('span', {class: 'change'}, `${name} `, el('b', {}, num(before)), ' → ', el('b', {}, num(after)),
    el('em', {class: after < before ? 'good' : after > before ? 'bad' : ''}, after === before ? ' no change' : ` ${sign}${part} %`));
}
const undo = () => {
  if (location.hash.startsWith('#edit=')) history.replaceState(null, '', location.pathname + location.search);
  applyEdits(noEdits());
};
function tellResult() {
  const {base, now, edits} = state, is = isEdited(edits);
  put('viewer-title', 'The plan', ...(is && !state.refused ? [el('span', {class: 'edited'}, `what if: ${toldEdits(edits)}`, button('undo', undo))] : []));
  for (const id of ['tables', 'curve']) byId(id).dataset.edited = is;
  if (state.refused) return put('result', `Refused: ${state.refused}. `, button('undo', undo));
  if (!is) return put('result', 'Move a slider or leave out a cown: plan, chain and ends change at once. Behaviours keep their order on each cown.');
  const p = state.workers, before = base.greedy(p).end, after = now.greedy(p).end, sums = chainSums(now);
  const defs = sums.defs.slice(0, 3).map(sum => `${defName(sum.key)} ${percent(sum.ticks, now.span)}`).join(', ');
  const words = commandOf(edits), few = words.length < 300 ? words : [`(a command of ${num(words.length)} words)`];
  // Without a seed, threads may make another run for each call.
  const anew = /^(typical ticks, )?([2-9]|\d\d+) workers(, names in |$)/.test(told.run)
    ? 'Threads make a new run for it: numbers may differ, but not with --seed.' : '';
  const chain = `the chain then: ${defs}; heaviest link: ${sums.links[0].key} ${percent(sums.links[0].ticks, now.span)}`;
  put('result', changeOf('span', base.span, now.span), changeOf('work', base.work, now.work),
    changeOf(`${many(p, 'worker')} end${p === 1 ? 's' : ''} at`, before, after), el('span', {class: 'change'}, chain), button('undo', undo),
    el('a', {href: `#edit=${addressOf(edits)}`}, 'link to these edits'), el('code', {}, ...few.flatMap(word => [el('bdi', {}, word), ' '])), anew);
}

// The beginning. What the page computes must agree with the plans in the data block.

let toldGreedy = null;
function begin() {
  const base = reckon(noEdits());
  const isSame = (list, other) => list.length === other.length && list.every((it, k) => it === other[k]);
  const agrees = isSame(base.plan.start, told.start) && isSame(base.chain, told.chain) && base.span === told.span && base.work === told.work;
  toldGreedy = {start: Float64Array.from(told.greedyStart), worker: Uint8Array.from(told.worker), end: told.end, workers: told.p};
  Object.assign(state, {base, now: base, mode: N <= 60 ? 'rows' : 'defs'});
  byId('viewer').hidden = false;
  if (!agrees) put('warning', 'This page computes other numbers than boc printed. Trust neither.');
  readTheme();
  tellHead();
  layOut();
  state.view = {from: 0, to: whole() > 2.5 * told.span ? told.span * 1.04 : whole()};
  for (const part of [draw, tellBar, tellLegend, tellDetails, listen]) part();
  setTimeout(() => {
    tellWhatIf();
    enhanceTables();
    tellRows();
    fromHash();
    window.page.ready = performance.now();
  });
}

// What tests wait for: `ready` is when the page has all its parts.
window.page = {ready: 0};
begin();
</script>
</body>
</html>
"#;

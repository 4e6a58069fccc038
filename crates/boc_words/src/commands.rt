// The commands, and the parser that knows them.

ghost use Rattle.std.specs.Prelude.{◌≡◌, IfNone, IfOk, IfSome};
ghost use Rattle.clap.specs.Words.{app_of};
ghost use Rattle.boc_words.specs.Commands.{app_of_command, commands_of_boc, signature_of};
ghost use Rattle.boc_words.specs.Tables.{listed_as};
ghost use Rattle.boc_words.specs.Words.{IsNoneOf, Told, command_line, without_commands};

use crate::arguments::Argument::{Flag, Needed, Number, Repeated, Word, Words};
use crate::arguments::{
    AFTER, AFTER_NAMES, ALL, ALL_ENDS, Argument, BEFORE, BEFORE_NAMES, BEST, BOTH_NAMES,
    COMPARE_WORKERS, CURVE_WORKERS, DEPTH, DRAWN_DEPTH, DRAWN_WORKERS, EARLY, EDITS, END,
    FIRST_SEED, FROM, INPUT, MANY_RUNS, MOST, NAMES, NO_PLAN, OUT_NAMES, PROGRAM, QUIET, RECORD,
    RUNNERS, RUNNERS_ALONE, RUNS, SEED, SHARING, SHORT, STREAM, STREAM_NAMES, SWEEP_COWNS,
    SWEEP_SPAWNS, SWEEP_WORKERS, THEN, TILES, TIMED, TOP, TYPICAL, WHY_WORKERS, WINDOW_QUIET,
    WINDOW_ROWS, WITHOUT, WORKERS,
};
use crate::version::VERSION;
use boc_program::limits::{
    MOST_ARGUMENTS, MOST_COWNS, MOST_DEFS, MOST_HELD, MOST_ROWS, MOST_TEXT, MOST_TICKS,
};
use std::alloc::{AllocError, Global};

/// Which command is named.
#[derive(Clone, Copy)]
pub(crate) enum Kind {
    Values,
    Check,
    Cut,
    Run,
    Profile,
    Time,
    WhatIf,
    Curve,
    Sweep,
    Why,
    Cowns,
    Compare,
    Outcomes,
}

// What help says of a command in a line, and at the top of its long form.
#[derive(Clone, Copy)]
struct About {
    line: &'static str,
    top: &'static str,
}

// A line on a command, and for the long form where its terms are explained.
macro_rules! about {
    ($line:literal) => {
        About {
            line: $line,
            top: concat!($line, "\n\nTerms (cown, row, tick, ..): boc --help"),
        }
    };
}

// What the parser knows of a command: its name, what help says of it, which arguments it takes, and what its long help says below them.
#[derive(Clone, Copy)]
struct Entry {
    name: &'static str,
    about: About,
    takes: &'static [Argument],
    lines: &'static str,
}

// What the lines of a record say.
const RECORD_LINES: &str =
    "The input is a program. The output is the record of its run, one line per event:
  boc 2 COWNS                First line: format version 2, number of cowns
  + ROW PARENT TICK COWN..   PARENT spawns ROW over these cowns, at its own TICK
  > ROW                      ROW starts
  < ROW TICKS STATUS COWN..  ROW ends, took TICKS, and wrote these cowns
  .                          Last line
ROW and PARENT are rows: behaviours, numbered in spawn order. main is row 0.
STATUS is 0 if the body reached its end, else the fault that ended it:
1 Overflow, 2 ZeroDivisor, 3 OutOfRange, 4 SameCown, 5 Negative, 6 TickCap.

Ticks count the cost of statements. They are not time. With more threads the
numbers change only if spawns or cowns come in another order.

Seeds: --seed runs N simulated workers on one thread. At each turn, S, a number
of 64 bits, picks at random the worker that moves. The same program, N, S and D
give the same run on every machine. One worker leaves nothing to draw, so give
-w 2 or more.

Depth: with --depth, the workers are in a random order (random priorities, as in
PCT). At each turn the first one that can move does. Before D - 1 steps or
fewer, which are drawn too, the one that would move drops to the last place.

Timed runs: --timed simulates N workers on one thread that take ticks as time.
Each is busy with a row for as many ticks as the row takes. The row that has
been ready longest goes to the idle worker with the lowest number. Nothing is
drawn: the same program and N give the same run on every machine. N is that of
-w; else the P of -p, where a command takes it, but at most 16; else 16. A run
on more workers can end later. Not with --seed.

Examples:
  boc run -w 4 program.boc > run.record
  boc run -w 4 --seed 3 program.boc | boc profile

See also: boc help why, boc help check. Exit statuses: boc --help.";

// What `cut` prints.
const CUT_LINES: &str =
    "STREAM has lines as a record has (boc help run), without a record's limits: row
numbers that rise, any number of cowns, numbers of up to 18 digits, lines of up
to 4,096 bytes. It may have no first line and no last one, and may stop between
any two lines, as that of a run that crashed or hangs. The output is the record
of one window of it, which every command takes that reads a record. A record
that has ended is its own window, unless --from or --rows is given.

The window begins when the row of --from RANK is spawned. It has the rows that
are alive then, spawned and not ended, and those that are spawned from there on:
at most N of these with --rows. A record has at most 65,535 rows in all. Reading
stops when all rows of the window have ended.
  - A row that is alive then is spawned at the beginning, by row 0 or by a row
    that is added to help with that. Row 0 is main, if main is alive then, or it
    replaces main. The row takes the ticks that are left after its last spawn.
  - If the stream ends before that, rows that have not started are left out, and
    rows that have not ended end at their last spawn.
  - Cowns that one row alone uses are left out, and those that order the same
    rows as another. Of more than 256, or more than 8 of a row, those are kept
    that hand on along the window's chain, then those waited for longest.
  - If a row takes more than 1,000,000 ticks, all ticks are divided by the first
    of 2, 5, 10, 20, .. that is enough, and rounded up.
Two rows of the record share a cown only if they share one in the stream, and
the same row is spawned first. Notes on standard error say what was left out,
and how much the span may differ for it; --quiet leaves them out.

--names FILE has names for the stream: lines as for boc why --names, in which
numbers of rows and cowns may be larger. --out-names FILE receives those of the
window, for --names of other commands. Both are given, or neither.

With --tiles K the output is a line FROM ROWS ALIVE fits for each window:
  FROM   The rank at which it begins, for --from
  ROWS   How many rows are spawned in it, for --rows
  ALIVE  How many rows are alive when it begins: the fewer, the better
  fits   `fits`, or `large` if a record cannot have that many rows
No --from, --rows, --names and --out-names can be given then.

Examples:
  boc cut --from 500000 --rows 20000 run.stream > window.record
  boc cut run.stream | boc why
  boc cut --tiles 10 run.stream

See also: boc help check, boc help why. Exit statuses: boc --help.";

// What the lines of a report say.
const REPORT_LINES: &str =
    "`profile` reads a program, which it runs, or the record of a run. The input is a
program if its first word, after comments, is `cown`, `def` or `main`; all else
is read as a record, which begins with `boc`. `time` reads a program and runs
it. With --record, `profile` reads a program, and FILE has its run.

Output:
  rows, work, span        Number of rows, their ticks together, and the end of
                          the earliest plan of this run (a worker for every row)
  chain
  ROW LINK TICKS          A row of the critical path, how it holds back the next
                          one (spawn or order; end for the last), and what it
                          adds to the span
  plan
  ROW START END           A row of the earliest plan
  greedy P
  ROW START END WORKER    With --p, a row of the greedy plan (list schedule)
  end END bound BOUND     The end of the greedy plan, and the tick by which it
                          ends at the latest: work / P rounded down, plus span
  timed N
  ROW START END WORKER    Of `time --timed`: when the row ran, on which worker
  end END bound BOUND     The end of the run, and the tick by which it ends at
                          the latest: work / N rounded down, plus the span
                          without --shared-reads, which the run doesn't know
All numbers are ticks, except rows, workers and P. Rows and workers count from
0. --p plans what has run: no thread executes a plan. With --typical the rows of
a program take the median ticks of their defs: see boc help why. Those of a
record have no names here, and keep their ticks.

Examples:
  boc time -w 4 program.boc
  boc profile --p 2 --no-plan program.boc
  boc run -w 4 program.boc | boc profile

See also: boc help curve. Seeds: boc help run. Exit statuses: boc --help.";

// What the lines of a curve say.
const CURVE_LINES: &str =
    "The input is a program, which is run, or the record of a run. It is a program if
its first word, after comments, is `cown`, `def` or `main`; all else is read as
a record, which begins with `boc`. With --record the input is a program, and
FILE has its run. On 2 or more threads a call may get another run than the one
before; with --seed or --timed each gets the same.

Output: `work`, the ticks of all rows; `span`, the end of the earliest plan;
then a line P END LOW BOUND for each number of workers.
  END    End of the greedy plan (list schedule) for P workers: those that are
         free at a tick take the rows that can start, lowest numbers first.
         It need not fall as P grows.
  LOW    No plan of this run for P workers ends sooner: the span, or work / P
         rounded up, if that is greater. A plan of another run may.
  BOUND  That greedy plan ends no later (Graham, Brent): work / P rounded down,
         plus span.
All numbers are ticks, except P. With --typical the rows of a program take the
median ticks of their defs: see boc help why. Those of a record have no names
here, and keep their ticks.

Examples:
  boc curve --p 8 program.boc
  boc run -w 4 program.boc | boc curve

See also: boc help profile. Seeds and depth: boc help run. Exit statuses: boc
--help.";

// What the lines of a sweep say.
const SWEEP_LINES: &str =
    "The input is a program, which is run, or the record of a run. It is a program if
its first word, after comments, is `cown`, `def` or `main`; all else is read as
a record, which begins with `boc`. With --record the input is a program, and
FILE has its run. On 2 or more threads a call may get another run than the one
before; with --seed or --timed each gets the same.

Each line changes one thing, and gives the end of the plan with that change:
  ROW END     The row takes as few ticks as it can: 1, or the offset of its last
              child (the tick at which the row spawns it). Its children are
              spawned at the same ticks as before. `boc whatif ROW=1/2` spawns
              them sooner too, and may gain more.
  COWN END    With --cowns: the cown imposes no order; all other orders stay.
  ROW SPAN    With --spawns: the row, any except main, is spawned as early as it
              can be: one tick after its earlier sibling, or at its parent's
              tick 1. The first `when` of a program is at tick 2, so a line can
              be a tick below what a program can reach.
The plan is the earliest plan, whose end is the span. With --p it is the greedy
plan (list schedule) for P workers, which may end later although a row takes
fewer ticks. --spawns goes with neither --cowns nor --p. With --p each line is
planned from nothing: the time grows with the square of the number of rows.

With --typical each row takes the median ticks of its def: see boc help why. The
rows of a record have names only with --names; without them nothing changes.

With --best, the lines that end soonest come first, and have a third number, the
gain: NUMBER END LESS.

With --names, or for a program with --best, each line ends with what the row or
the cown is called: NUMBER END NAME, or NUMBER END LESS NAME. boc help why has
the lines of a file of names. Give only one of --record and --names.

Examples:
  boc sweep program.boc
  boc sweep --cowns --best 3 program.boc

See also: boc help whatif, boc help why. Seeds and depth: boc help run. Exit
statuses: boc --help.";

// What `why` prints.
const WHY_LINES: &str =
    "Input that begins with `boc` is the record of a run. Anything else is a program,
which is run first. With --record the input is a program, and FILE has its run.
Ticks are cost, not time; boc --help has the rule.

Output:
  rows, work, span
      Number of rows (main, and each behaviour of the run), their ticks
      together, and when the last row ends if each has a worker, with the spawns
      and the orders on the cowns of this run. Other runs may differ. With
      --timed, `end E on N workers`: when the run itself was over. If E is above
      the span, workers are short; or, with --shared-reads, the run waited for
      reads that the span shares. All that follows is about the span, except for
      what P workers take.
  chain
      The critical path, from main to a row that ends last:
        tick       When the row starts
        ticks      Ticks until the next row of the chain can start, or, in the
                   last row, until it ends
        row        Its number in spawn order. 15..35 with `6 price` is a fold:
                   6 rows of price, the first is 15, the last 35. The fold has
                   the tick of the first and the ticks of all 6.
        behaviour  Its def, values and cowns; acct[0..5] is acct[0] to acct[5]
        then       It spawns the next row, hands it cowns that it waits for, or
                   ends (the last). If it hands several, leaving out only one
                   may gain nothing. `3 hand on` is of 3 rows of a fold.
      The number below the chain is the span.
  chain by def, chain by link
      The span, divided among the defs, and among the kinds of link: a cown that
      is handed on (`a and b` if both are at once), `spawn by DEF`, and `end`,
      the last row. `rows` and `links` count them.
  P workers   end E   least L   work/P Q   busy B%
      With --p. E is the end of the greedy plan for P workers, which leaves no
      worker idle while a row can start. Q is the work divided by P, rounded up.
      L is the greater of Q and the span: no plan for P workers ends before it.
      The workers are busy B % of the time, rounded down.
  P workers by def, by link
      With --p, if the greedy plan has another chain: its end, divided among
      defs and links. At a link `worker` the next row was ready before, and
      starts as a worker becomes free.
  candidates
      The span with one change, best first. `less` is the gain; it may be 0.
      Tried are the cowns of the chain (an array as a whole), alone and as one
      link hands them on, the 20 defs with most of its ticks, and the 20 whose
      spawns have most of them. If several chains are as long, another def may
      gain more: try it with boc whatif. With --p the chain of the greedy plan
      is tried too. The list has the end of the greedy plan then, and is in its
      order. A change may make that later: then `less` is below 0.
        DEF at 1/2           Each behaviour of DEF takes half its ticks, rounded
                             up, or as many as its spawns need. It spawns as
                             much sooner, each child at least a tick after the
                             one before it.
        without COWN         COWN, or the whole array COWN[*], imposes no order.
                             All other orders stay, so splitting it may gain
                             more or less.
        without A and B      A and B impose no order. Not listed if a part of
                             the set that was tried gains 75 % as much; with
                             --p, 75 % of both numbers.
        early spawns by DEF  In each behaviour of DEF the first spawn is at its
                             tick 1, the second at its tick 2, and so on. In a
                             program the first `when` is at tick 2, or later in
                             an `if` or `repeat`, so it may gain less.
  several cowns at once
      If the chain hands a cown on: the span without the order of the best two,
      three .. cowns or arrays that were found and are no candidates, and
      without that of every cown. With --p also the end of the greedy plan; the
      sets are chosen by the span.
  lower bound for any order: N (REASON)
      With the ticks and spawns of this run (which row spawns which, when and in
      which order), no order of the rows on the cowns ends before N. That holds
      for any number of workers. The best order may end later. Candidates change
      ticks, spawns or cowns, so they may end sooner. The reasons:
        COWN is held for H ticks, from tick T on
            Its rows take H ticks together, one at a time, and none can start
            before tick T. N is T + H.
        COWN is written for H ticks, from tick T on
            The same of the rows that wrote it, with --shared-reads
        their spawns take that long
            A row, with the spawns that lead to it, ends at N without any cown
  a better order ends at E: start whatever can start; it differs first at ..
      These rows, with these ticks and a worker for each, end at E if each
      starts as soon as it is spawned and its cowns are free. Then rows come in
      another order on some cowns; `at ..` is the first place. In another order
      values may differ, and then ticks.
  last line
      With --p, what limits the plan for P workers; the first that holds:
        workers  Q is at least 90 % of the end: do less; or have more workers,
                 if the span is less
        chain    The span is at least 90 % of it: more workers gain little
        plan     Neither is: another plan of these rows saves at most E - L
With --then K it prints instead `steps`: the change that leaves the soonest end,
which with --p is that of the greedy plan, then the best on top of it, and so
on, up to K. It takes no set of cowns of which a part gains 75 % as much. `less`
is the gain over the line above. It stops sooner if nothing that is tried gains
anything. --all changes nothing then.

With --runs K it draws K runs of a program: one for each seed from --seed on (0
if not given), on --workers simulated workers (4 if not given). It prints:
  least, median, most
      The least, the middle and the greatest number of these runs; of two in the
      middle the lower one. `a better order` is the order of boc help compare.
      `the run on one worker ..` says if that run, which boc why reports
      otherwise, has a longer or shorter span than all of these.
  spans, ends for P
      How many runs have a span, with --p an end for P, of this length
  candidates
      The 60 changes that most runs try, each made in every run: how much it
      gains there (`least less`, `median`, `most`), and `best in`, the number of
      runs in which it gains most. Of changes that gain as much only the first
      counts, and none where nothing gains. A set of cowns is best only if no
      part of it gains 75 % as much; it is listed only if no part of it gains
      that much in every run. The greatest median comes first.
It draws them the same way each time, on any number of threads. A behaviour that
ends by a fault is counted like others, without a note. The input cannot be a
record then, and --record, --names, --timed, --typical, --all and --then cannot
be given. --depth needs no --seed.

With --p, and without -w above 1, --seed, --timed and --record, a note on
standard error says if the timed run on P workers, at most 16, has another span,
unless --quiet is given. When that run ends is another number: add --timed to
see it.

Of a record, a note says if rows that take over 20 times the median ticks of
their def take more than a tenth of all ticks, unless --quiet is given.

With --typical each row takes the median of the ticks of its def's rows (of two
in the middle the lower one), or as many as its spawns need. Its spawns move by
the same part, rounded up, each at least a tick after the one before it. That
takes out rows that took long by chance, and levels what differs on purpose too.
Rows without names are defs of their own, so they keep their ticks. The answer
is of these rows; both notes, and `end E on N workers`, are left out. A note on
a behaviour that ended by a fault has the tick of the run.

Four or more rows of one def that follow each other on the chain are folded into
one line, unless --all is given. The other lists stop after 20 lines.

Names are those of the program. A file for --names replaces them one by one, but
not the cowns in the column behaviour. Without either, rows and cowns have their
numbers. Lines of a file of names:
  @ NUMBER NAME          The name of a cown. The first is 0, members of an array
                         count. x[0] and x[1] are members of an array x[*].
  = ROW NAME [ARG ..]    The name of a row; rows of one NAME are one def
The file may have blank lines and lines that begin with #.

Threads run the program, and -w is their number; with --seed or --timed it is
that of simulated workers. A plan runs nothing: --p plans the run on P workers,
and with --shared-reads the span, the chain and all below are those of plans in
which rows that only read a cown share it. The options -w, --seed, --depth and
--timed have no effect on a run that comes from a record.

Examples:
  boc why program.boc
  boc why -p 4 --then 3 program.boc
  boc why --runs 200 program.boc
  boc why -w 4 --seed 3 program.boc
  boc run program.boc > run.record
  boc why --record run.record program.boc

See also: boc help cowns, boc help whatif, boc help compare. Seeds and depth:
boc help run. Exit statuses: boc --help.";

// What `cowns` prints.
const COWNS_LINES: &str =
    "Input that begins with `boc` is the record of a run. Anything else is a program,
which is run first. With --record the input is a program, and FILE has its run.

Output, one line per cown, the longest held first (with --p see `end without`):
  rows      Rows that have the cown
  wrote     Rows that wrote it
  held      Ticks during which only one row has it. With --shared-reads, rows
            that only read it do not count.
  of span   `held` as a percentage of the span, rounded down
  waited    Ticks that its rows wait for it between spawn and start, added up. A
            row waits for one row: of those before it on its cowns that end as
            it starts, the one with the lowest number. The wait counts in full
            for each cown that this row hands it.
  chain     Ticks of the critical path in rows that hand this cown to the next
            one
  without   The span if the cown imposed no order, and all other orders stayed.
            Splitting it may gain more or less. If it is not below the span,
            leaving out only this cown gains nothing: it orders no rows of the
            chain, or others order the same rows, or another chain is as long.
  end without
            With --p: the end of the greedy plan for P workers if the cown
            imposed no order. The lines are in its order then.

If the chain hands a cown on, a table of several cowns at once follows. First
come cowns or arrays that one link hands on together, then the best two, three
.. that were found, then every cown. Each line has the span if they imposed no
order, with --p the end too.

Below these are the span, the span if no cown imposed any order, how long
the busiest cown is held, and a verdict:
  spawns  The spawns alone need at least 75 % of the span. With the ticks and
          spawns of this run, another order on the cowns saves at most a
          quarter. Spawn earlier, or do less. Once rows are spawned earlier, a
          cown that is held for long may be what limits the run.
  load    Otherwise, one cown is held for at least 75 % of the span: split it,
          or shorten what holds it. If another cown orders the same rows,
          splitting one gains nothing: see several cowns at once. Or one is held
          for less, but so late, in every order with the ticks and spawns of
          this run, that most of what the cowns cost remains. The line then
          gives the tick before which no row that has it starts; with
          --shared-reads, no row that wrote it.
  order   Neither: the lower bound shows no such cown. Another order of the
          behaviours may end sooner, but there need not be one.
Then come a lower bound for any order, a better order if one was found, and with
--p what P workers take and what limits them, as in boc why; and the span with
--shared-reads if that is smaller.

The notes on the timed run, with --p, and on long rows of a record may come, as
in boc help why, which also says what --typical does.

Names are those of the program or of the file for --names, which boc help why
describes. Without either, cowns have their numbers. -w, --seed, --depth and
--timed have no effect on a run that comes from a record. With more threads, or
with --timed, the numbers change only if spawns or cowns come in another order.

Examples:
  boc cowns --top 3 -p 4 program.boc
  boc run -w 4 program.boc | boc cowns

See also: boc help why, boc help whatif. Seeds and depth: boc help run. Exit
statuses: boc --help.";

// What `compare` prints.
const COMPARE_LINES: &str =
    "BEFORE and AFTER are each a program, which is run, or the record of a run, which
begins with `boc`. One of them may be `-`, standard input. All numbers are ticks
except rows, cowns, P, percents and seeds; boc --help has the rule.

Output:
  rows, work, span      As boc why has them: before, after, and the change
  end for P, least for P
                        With --p, when the greedy plan for P workers ends, and
                        the tick before which no plan of these rows for P
                        workers ends
  a better order        When these rows end if each starts as soon as it is
                        spawned and its cowns are free, in whatever order. That
                        may be after the span.
  bound for any order   No order of these rows on the cowns ends before it
  typical work, typical span, typical end for P
                        The same numbers if each row takes the median ticks of
                        its def, as with --typical. Rows that took long by
                        chance do not count then.
  chain                 The three defs with most ticks of the critical path
  def                   For each def its rows, their ticks together, the median
                        of their ticks (typical), and its ticks of the critical
                        path; each before, and `now`. `new` and `gone` mark a
                        def of which only AFTER has rows, or only BEFORE.
  cown                  For each cown or array: how many cowns it is, and how
                        long the one is held that is held longest. Then how long
                        rows wait for each of its cowns, added up, and the ticks
                        of the critical path at links that hand on any of it.
  last line             By how many percent of the first the span has changed,
                        rounded down; the typical span, and the end for P
Defs of one name go together, as do cowns, and arrays. Those come first that
have most ticks of a critical path, before or after; tables stop after 20 lines.
The lines of defs, and all that is typical, are left out if a record has no
names; its cowns go by their numbers. With --typical all numbers are of such
rows, and the typical ones are left out.

Names are those of the program. A file for --names replaces them in both inputs,
one for --names-a or --names-b in one of them; boc help why has its lines. The
notes on behaviours that ended by a fault say which input they are of.

With --runs K it draws K runs of each of two programs, by the same seeds from
--seed on (0 if not given), on --workers simulated workers (4 if not given). It
prints the least, the median and the greatest number of both. The last line says
by how much the median span has changed, with --p the median end for P, and for
how many seeds this span, or end, is less or the same. It notes no behaviour
that ended by a fault. The inputs cannot be records then, and no --timed,
--typical, --names, --names-a and --names-b can be given. --depth needs no
--seed.

Examples:
  boc compare -p 4 before.boc after.boc
  boc compare --runs 200 before.boc after.boc
  boc compare --names-a a.names --names-b b.names a.record b.record

See also: boc help why, boc help outcomes. Seeds and depth: boc help run. Exit
statuses: boc --help.";

// What `whatif` prints.
const WHATIF_LINES: &str =
    "An argument with neither = nor @ is FILE, a program, which is run, or the record
of a run. Without one, or if it is -, the input is standard input. It is a
program if its first word, after comments, is `cown`, `def` or `main`; all else
is read as a record, which begins with `boc`. With --record the input is a
program, and FILE has its run. On 2 or more threads a call may get another run
than the one before; with --seed or --timed each gets the same.

Every other argument is an edit. Edits are made in the order given, after
--typical, --without and --early; K and D are 1 to 1,000:
  ROW=TICKS     Set the ticks of a row. Its children are spawned at the same
                ticks as before. TICKS below 1, or below the offset of the row's
                last child (the tick that spawns it), is refused as BelowSpawn.
  ROW=K/D       Scale the ticks of a row, and the offsets of its children, by
                K/D, rounded up, each child at least a tick after the one
                before it. A row keeps at least 1 tick, and at least the offset
                of its last child.
  DEF=K/D       Do this for each row of a def.
  ROW@OFFSET    Spawn a row at this tick of its parent.

--without takes the number or the name of a cown, or the name of an array. What
is left out imposes no order; all other orders stay as they are.

--early takes the name of a def. Each behaviour of it spawns its first child at
its tick 1, and each further child one tick later. boc why lists this change as
`early spawns by DEF`.

--typical gives each row the median ticks of its def, before all other changes:
see boc help why. Without names nothing changes.

Output: the lines of boc profile, or with --short:
  work, span    Before and after, and how the span changes. With --p also the
                end of the greedy plan, before and after, and how it changes.
  chain         Ticks of the critical path by def, before and after

Names of defs and cowns are those of the program: the input, or for a record the
one in --program FILE. Those in --names FILE replace them one by one. Without
any, `row 2` is the def of row 2, and `cown 0` a cown. A number in an edit or
after --without always means a row or a cown; --early takes names alone. Give
only one of --record, --program and --names. Lines of a file of names:
  @ NUMBER NAME          The name of a cown. The first is 0, members of an array
                         count. x[0] and x[1] are members of an array x[*].
  = ROW NAME [ARG ..]    The name of a row; rows of one NAME are one def
The file may have blank lines and lines that begin with #.

Examples:
  boc whatif --short program.boc transfer=1/2
  boc whatif --without 0 --program program.boc run.record

See also: boc help why, boc help sweep. Seeds and depth: boc help run. Exit
statuses: boc --help.";

// What `outcomes` prints.
const OUTCOMES_LINES: &str =
    "The input is a program. Each run takes place on one thread, as N simulated
workers. At each turn a seed of the run's own, a number of 64 bits, picks at
random the worker that moves. The same program, workers, depth and seed give the
same run on every machine.

Output:
  runs K                        Number of runs
  rows LEAST MOST               Fewest and most rows of a run
  spans LEAST MOST              Shortest and longest span
  outcome RUNS seed S span A B  RUNS runs ended in the state below. The first of
                                them has seed S; their spans are A to B.
  NAME VALUE                    Final value of a cown, as boc values prints it
The most frequent outcome comes first. Of equally frequent ones, the one found
first comes first. If one of the runs needs more than 65,535 rows, the status is
4 and nothing is printed.

To look at an outcome, repeat its run with its seed and the same -w and --depth.
boc run also notes the rows that ended by a fault; boc outcomes does not.
  boc run -w 4 --seed S program.boc > run.record
  boc why -w 4 --seed S program.boc

What is not promised:
  - That all final states of the program are found. More runs may find more.
  - That N workers can reach all of them. More workers may reach more.
  - That the values which boc values prints are among them.

Depth: without --depth, each worker that can move is equally likely to be next,
which finds common orders. With it, the workers are in a random order (random
priorities, as in PCT). At each turn the first one that can move does. Before
D - 1 steps or fewer, which are drawn too, the one that would move drops to the
last place. That finds states that need few switches at the right places, which
are rare without --depth. Begin with --depth 2.

With --all nothing is drawn. A search goes through the runs of any number of
workers and all interleavings, and prints each end (final state) once. It puts
beginnings of runs together that have as many rows, and of which the rest of a
run is the same: these are a front. Not with --runs, --seed, -w and --depth.
  all yes                Each run of at most 65,535 rows ends with one of these
  all below R            The search stopped after FRONTS fronts. Each run of
                         fewer than R rows ends with one of these. A longer run
                         may end with another
  fronts N               Number of fronts that were looked at
  rows LEAST MOST        Fewest and most rows of the runs that were found. Left
                         out if none was found
  endless                Some run needs more than 65,535 rows. It was cut off
                         there: whether it ends, and how, is not known
  end K rows LEAST MOST  The Kth end, and the fewest and most rows of its runs.
                         After `all below R`, of those that were found
  NAME VALUE             Value of a cown at this end
Ends are sorted by the value of the first cown that differs, smallest first. To
each end that is printed there is a run, also after `all below R`. N workers may
not reach all.

With --end K the output is the record of a run to end K, of as few rows as can
be. K is the number that --all prints with the same --most. If there is no such
end, the status is 4. To see why a run ends so, look at its record:
  boc outcomes --all --end 2 program.boc > run.record
  boc values --record run.record program.boc
  boc why --record run.record program.boc

Examples:
  boc outcomes program.boc
  boc outcomes --runs 10000 --depth 2 program.boc
  boc outcomes --all program.boc

See also: boc help run, boc help values. Exit statuses: boc --help.";

// What holds of every command.
const COMMON_LINES: &str =
    "A program declares cowns, defs of behaviours over values and cowns, and a main.
`when` spawns a behaviour:
  cown acct[8] = 100;
  def transfer(n; from, to) { from = from - n; to = to + n; }
  main {
    let i = 0;
    repeat 7 { when transfer(10; acct[i], acct[i + 1]); i = i + 1; }
  }
A comment begins with `#`. A def has at most 8 values and 8 cowns; a program has
at most 65,536 bytes, 64 defs and 256 cowns; a run has at most 65,535 rows.

Terms:
  behaviour    A task: a body that starts once it holds its cowns.
  def          The code of behaviours: a body with values and cowns.
  cown         Concurrent owner: a value that one behaviour holds at a time.
               Behaviours get it in the order of their spawns.
  row          A behaviour by its number in spawn order. main is row 0.
  tick         A unit of cost, not of time. A body costs 1 to begin, `work N`
               costs N, any other statement 1, and each turn of a `repeat` 1
               more. A body takes at most 1,000,000 ticks.
  record       The spawns, starts and ends of one run, as text.
  stream       The same of a run of any size, which need not have ended.
  work         The ticks of all rows together.
  plan         A start tick for each row of a run. It keeps the spawns and the
               orders on the cowns of that run.
  span         The end of the earliest plan (T-infinity, or critical-path
               length). In that plan there is a worker for each row. A row
               starts as soon as it is spawned and the rows before it have left
               its cowns.
  chain        The critical path: each row spawns the next one, or hands it a
               cown. The ticks until then add up to the span.
  greedy plan  The list schedule for P workers: those that are free at a tick
               take rows that can start, lowest numbers first.
  fault        What ends a body early (boc help run has all), or an error in
               the input.

Input is read from FILE, or from standard input if FILE is missing or `-`. The
answer goes to standard output, all of it or none, unless a write fails. Faults
go to standard error: first where (a line of the input, or the number of an
edit), then what is there. A behaviour that ends by a fault does not stop the
command, and the status is 0: `values`, `run`, `time`, `profile`, `why`, `cowns`
and `compare`, if not of --runs, note such behaviours on standard error.

Exit statuses:
  0  Success
  2  Invalid command-line arguments, or a word that is no edit
  3  Invalid input or file, or a cown or an edit that the record does not allow
  4  Too many behaviours, no end K, or a thread could not be started
  5  Out of memory, a file that cannot be read, or an I/O error

Examples:
  boc values program.boc             Print the values after its serial run
  boc why program.boc                Show what limits the run of one worker
  boc time --timed -w 4 program.boc  Show when four workers would run what
  boc run program.boc | boc check    Record a run, and check the record

See also: boc COMMAND -h, boc help COMMAND, boc-view --help.";

// The limits that it names.
const _: () = prove!(MOST_ARGUMENTS == 8);

const _: () = prove!(MOST_COWNS == 256);

const _: () = prove!(MOST_DEFS == 64);

const _: () = prove!(MOST_HELD == 8);

const _: () = prove!(MOST_ROWS == 65_535);

const _: () = prove!(MOST_TEXT == 65_536);

const _: () = prove!(MOST_TICKS == 1_000_000);

// Every command, in the order of help.
//
// One more is a place here, a variant of `Kind` with its entry, and its `signature_of` and a place in `every_kind`; a variant of
// `Command`; an arm of `asked` with its function; and a line of `Asks`.
const EVERY_KIND: &[Kind] = &[
    Kind::Values,
    Kind::Check,
    Kind::Cut,
    Kind::Run,
    Kind::Profile,
    Kind::Time,
    Kind::WhatIf,
    Kind::Curve,
    Kind::Sweep,
    Kind::Why,
    Kind::Cowns,
    Kind::Compare,
    Kind::Outcomes,
];

const VALUES: Entry = Entry {
    name: "values",
    about: about!("Run a program serially and print the values of its cowns"),
    takes: &[Repeated(RECORD), Flag(QUIET), Word(INPUT)],
    lines: "The input is a program. The output is one line per cown: NAME VALUE, or
NAME[INDEX] VALUE for a member of an array. The values are those after the
serial run: one behaviour after the other, main first, in the order in which
they are spawned. Other runs, also that of boc run on one thread, may end with
others: see boc help outcomes.

With --record, the values are those with which the run recorded in FILE ended.
It must be a run of the program.

Examples:
  boc values program.boc
  boc run -w 4 program.boc > run.record
  boc values --record run.record program.boc

See also: boc help run, boc help outcomes. Exit statuses: boc --help.",
};

const CHECK: Entry = Entry {
    name: "check",
    about: about!("Check that the record of a run keeps the rules"),
    takes: &[Repeated(PROGRAM), Word(INPUT)],
    lines: "The input is the record of a run. The output is `ok ROWS`, its number of rows.

With --program, it must also be the record of a run of the program in FILE.
After the fourteen faults of records these are then reported, with the line of
the record:
  15 OtherCowns     It has another number of cowns than the program.
  16 NotNextSpawn   A row is spawned that is not what its parent spawns next.
  17 NotItsEnd      A row's end differs from that of its behaviour.

Examples:
  boc run program.boc | boc check
  boc run -w 4 program.boc | boc check --program program.boc

See also: boc help run. Exit statuses: boc --help.",
};

const CUT: Entry = Entry {
    name: "cut",
    about: about!("Cut a record out of a long or unfinished stream of lines"),
    takes: &[
        Number(FROM),
        Number(WINDOW_ROWS),
        Number(TILES),
        Repeated(STREAM_NAMES),
        Repeated(OUT_NAMES),
        Flag(WINDOW_QUIET),
        Word(STREAM),
    ],
    lines: CUT_LINES,
};

const RUN: Entry = Entry {
    name: "run",
    about: about!("Run a program on threads and print the record of the run"),
    takes: &[
        Number(RUNNERS_ALONE),
        Number(SEED),
        Number(DEPTH),
        Flag(TIMED),
        Flag(QUIET),
        Word(INPUT),
    ],
    lines: RECORD_LINES,
};

const PROFILE: Entry = Entry {
    name: "profile",
    about: about!("Print the work, span, chain and plan of a run"),
    takes: &[
        Number(RUNNERS),
        Number(SEED),
        Number(DEPTH),
        Flag(TIMED),
        Number(WORKERS),
        Flag(SHARING),
        Flag(TYPICAL),
        Repeated(RECORD),
        Flag(NO_PLAN),
        Flag(QUIET),
        Word(INPUT),
    ],
    lines: REPORT_LINES,
};

const TIME: Entry = Entry {
    name: "time",
    about: about!("Run a program on threads and print the profile of the run"),
    takes: &[
        Number(RUNNERS),
        Number(SEED),
        Number(DEPTH),
        Flag(TIMED),
        Number(WORKERS),
        Flag(SHARING),
        Flag(NO_PLAN),
        Flag(QUIET),
        Word(INPUT),
    ],
    lines: REPORT_LINES,
};

const WHATIF: Entry = Entry {
    name: "whatif",
    about: about!("Profile a run with ticks, spawns or cowns changed"),
    takes: &[
        Number(RUNNERS),
        Number(SEED),
        Number(DEPTH),
        Flag(TIMED),
        Number(WORKERS),
        Flag(SHARING),
        Flag(TYPICAL),
        Repeated(WITHOUT),
        Repeated(EARLY),
        Repeated(RECORD),
        Repeated(PROGRAM),
        Repeated(NAMES),
        Flag(SHORT),
        Flag(NO_PLAN),
        Words(EDITS),
    ],
    lines: WHATIF_LINES,
};

const CURVE: Entry = Entry {
    name: "curve",
    about: about!("Print when plans for 1, 2, 3 .. workers end"),
    takes: &[
        Number(RUNNERS),
        Number(SEED),
        Number(DEPTH),
        Flag(TIMED),
        Number(CURVE_WORKERS),
        Flag(SHARING),
        Flag(TYPICAL),
        Repeated(RECORD),
        Word(INPUT),
    ],
    lines: CURVE_LINES,
};

const SWEEP: Entry = Entry {
    name: "sweep",
    about: about!("Print the span with each row, cown or spawn changed in turn"),
    takes: &[
        Number(RUNNERS),
        Number(SEED),
        Number(DEPTH),
        Flag(TIMED),
        Number(SWEEP_WORKERS),
        Flag(SWEEP_COWNS),
        Flag(SWEEP_SPAWNS),
        Flag(SHARING),
        Flag(TYPICAL),
        Repeated(RECORD),
        Repeated(NAMES),
        Number(BEST),
        Word(INPUT),
    ],
    lines: SWEEP_LINES,
};

const WHY: Entry = Entry {
    name: "why",
    about: about!("Show the critical path of a run and what some changes gain"),
    takes: &[
        Number(RUNNERS),
        Number(SEED),
        Number(DEPTH),
        Flag(TIMED),
        Number(WHY_WORKERS),
        Flag(SHARING),
        Flag(TYPICAL),
        Repeated(RECORD),
        Repeated(NAMES),
        Flag(ALL),
        Number(THEN),
        Number(MANY_RUNS),
        Flag(QUIET),
        Word(INPUT),
    ],
    lines: WHY_LINES,
};

const COWNS: Entry = Entry {
    name: "cowns",
    about: about!("Show how long cowns are held and whether they limit a run"),
    takes: &[
        Number(RUNNERS),
        Number(SEED),
        Number(DEPTH),
        Flag(TIMED),
        Number(WHY_WORKERS),
        Flag(SHARING),
        Flag(TYPICAL),
        Repeated(RECORD),
        Repeated(NAMES),
        Number(TOP),
        Flag(QUIET),
        Word(INPUT),
    ],
    lines: COWNS_LINES,
};

const COMPARE: Entry = Entry {
    name: "compare",
    about: about!("Show what has changed from one run to another"),
    takes: &[
        Number(RUNNERS),
        Number(SEED),
        Number(DEPTH),
        Flag(TIMED),
        Number(COMPARE_WORKERS),
        Flag(SHARING),
        Flag(TYPICAL),
        Repeated(BOTH_NAMES),
        Repeated(BEFORE_NAMES),
        Repeated(AFTER_NAMES),
        Number(MANY_RUNS),
        Flag(QUIET),
        Needed(BEFORE),
        Needed(AFTER),
    ],
    lines: COMPARE_LINES,
};

const OUTCOMES: Entry = Entry {
    name: "outcomes",
    about: about!("Count the final states of random runs, or find all of them"),
    takes: &[
        Number(RUNS),
        Number(FIRST_SEED),
        Number(DRAWN_WORKERS),
        Number(DRAWN_DEPTH),
        Flag(ALL_ENDS),
        Number(MOST),
        Number(END),
        Word(INPUT),
    ],
    lines: OUTCOMES_LINES,
};

impl Kind {
    // Returns what the parser knows of it.
    fn entry(self) -> Entry
        ensures { listed_as result ≡ signature_of self }
    {
        match self {
            Kind::Values => VALUES,
            Kind::Check => CHECK,
            Kind::Cut => CUT,
            Kind::Run => RUN,
            Kind::Profile => PROFILE,
            Kind::Time => TIME,
            Kind::WhatIf => WHATIF,
            Kind::Curve => CURVE,
            Kind::Sweep => SWEEP,
            Kind::Why => WHY,
            Kind::Cowns => COWNS,
            Kind::Compare => COMPARE,
            Kind::Outcomes => OUTCOMES,
        }
    }

    // Returns the command as the parser takes it.
    fn command<'a>(self, alloc: Global) -> Result<clap::Command<'a>, AllocError>
        ensures { IfOk result (λ command. Told command (app_of_command (signature_of self))) }
    {
        self.entry().command(alloc)
    }
}

/// Returns the command of this name.
pub(crate) fn kind_of(name: &str) -> Option<Kind>
    ensures none { IfNone result (IsNoneOf name.now commands_of_boc) }
    ensures some { IfSome result (λ kind. name.now ≡ (signature_of kind).0) }
{
    for kind in EVERY_KIND {
        if kind.entry().name == name {
            return Some(*kind);
        }
    }
    None
}

/// Returns what the parser accepts.
pub(crate) fn parser<'a>(alloc: Global) -> Result<clap::Command<'a>, AllocError>
    ensures { IfOk result (λ parser. app_of parser ≡ command_line) }
{
    let mut parser = without_commands(alloc)?;
    for kind in EVERY_KIND {
        let command = kind.command(alloc)?;
        parser = parser.subcommand(command)?;
    }
    Ok(parser)
}

// Returns the program, which wants one of its commands. Its texts call it `boc` whatever the name of its file is.
fn without_commands<'a>(alloc: Global) -> Result<clap::Command<'a>, AllocError>
    ensures { IfOk result (λ parser. Told parser without_commands) }
{
    clap::Command::new(alloc, "boc")
        .about("Run and profile programs under behaviour-oriented concurrency")
        .after_long_help(COMMON_LINES)
        .version(VERSION)
        .subcommand_required(true)
        .arg_required_else_help(true)
        .bin_name("boc")
}

impl Entry {
    // Returns the command as the parser takes it.
    fn command<'a>(&self, alloc: Global) -> Result<clap::Command<'a>, AllocError>
        ensures { IfOk result (λ command. Told command (app_of_command (listed_as self.now))) }
    {
        let mut command = clap::Command::new(alloc, self.name)
            .about(self.about.line)
            .long_about(self.about.top)
            .after_long_help(self.lines);
        for argument in self.takes {
            command = command.arg(argument.arg(alloc))?;
        }
        Ok(command)
    }
}

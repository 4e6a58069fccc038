// Statements that are followed with what is known of the slots.

ghost use Rattle.std.specs.Prelude.{◌≡◌, ◌≤◌, ◌||◌, ◌&&◌, ℕ, length, map, slice_get};
ghost use Rattle.boc_program.specs.memory.View.{before, code_of, cown_ref_of, slot_expr_of};
ghost use Rattle.boc_program.specs.Syntax.{Code, Done};
ghost use Rattle.boc_sharp_footprints.specs.Followed.{after, forget as forget_spec, past, some_when};
ghost use Rattle.boc_sharp_footprints.specs.Known.{known_if};
ghost use Rattle.boc_sharp_footprints.specs.Tables.{is_in, leads_to, marked_up, reaches_with};

use crate::known::{known, may_fail, may_hold, set_known};
use crate::referring::{all_may_lead, mark_references};
use crate::table::SharpFootprints;
use boc_program::body::{Block, CownRef, Expr, Stmt};
use boc_program::short::CownNo;

// Forgets what is known of the slots that these statements assign.
#[cycle(forgetting)]
#[tactic(auto, using(crate::proofs::Split::forget_one, crate::proofs::Split::then_size, crate::proofs::Split::then_positive))]
fn forget(stmts: &[Stmt], slots: &mut [Option<i64>])
    ensures { slots.new ≡ forget_spec (code_of stmts.now) slots.old }
{
    match stmts {
        [] => {}
        [first, rest @ ..] => {
            forget_one(first, slots);
            forget(rest, slots);
        }
    }
}

#[cycle(forgetting)]
fn forget_one(stmt: &Stmt, slots: &mut [Option<i64>])
    ensures { slots.new ≡ forget_spec (before stmt.now Done) slots.old }
{
    match stmt {
        Stmt::Assign(slot, _) => set_known(slots, *slot, None),
        Stmt::Work(_) | Stmt::When(..) => {}
        Stmt::If(_, first, second) => {
            forget(first.as_slice(), slots);
            forget(second.as_slice(), slots);
        }
        Stmt::Repeat(_, block) => forget(block.as_slice(), slots),
    }
}

// Returns what is known of an argument, if it is there.
fn known_argument(args: &[Expr], place: usize, slots: &[Option<i64>]) -> Option<i64>
    ensures { result ≡ known_if (slice_get (map slot_expr_of args.now) place) slots.now }
{
    match args.get(place) {
        None => None,
        Some(arg) => known(arg, slots),
    }
}

// Marks the cowns that a kind reaches where the argument by which it has sets has this value, if that is known.
fn mark_reached(table: &SharpFootprints, kind: usize, value: Option<i64>, marks: &mut [bool])
    requires { length marks.old ≤ 256 }
    ensures { marks.new ≡ marked_up (reaches_with table.now kind value) (length marks.old) marks.old }
{
    for cown in 0..marks.len() {
        if table.reaches_with(kind, value, cown as CownNo) {
            marks[cown] = true;
        }
    }
}

// Marks the cowns to which a `when` may lead.
fn mark_asked(
    table: &SharpFootprints,
    kind: usize,
    args: &[Expr],
    references: &[CownRef],
    slots: &[Option<i64>],
    marks: &mut [bool],
)
    requires { length marks.old ≤ 256 }
    ensures { (c : ℕ) → is_in marks.new c
        ≡ (is_in marks.old c || leads_to table.now c kind (map slot_expr_of args.now) (map cown_ref_of references.now) slots.now) }
{
    if all_may_lead(references, slots) {
        mark_references(references, slots, marks);
        mark_reached(
            table,
            kind,
            known_argument(args, table.place(kind), slots),
            marks,
        );
    }
}

/// Follows statements: marks the cowns to which they may lead, and notes what is known of the slots after them.
#[cycle(following)]
#[tactic(auto, using(crate::proofs::Split::after_one, crate::proofs::Split::some_one, crate::proofs::Split::then_size, crate::proofs::Split::then_positive))]
pub(crate) fn follow(
    table: &SharpFootprints,
    stmts: &[Stmt],
    slots: &mut [Option<i64>],
    marks: &mut [bool],
)
    requires { length marks.old ≤ 256 }
    ensures slots { slots.new ≡ after (code_of stmts.now) slots.old }
    ensures marks { (c : ℕ) → is_in marks.new c ≡ (is_in marks.old c || some_when (leads_to table.now c) (code_of stmts.now) slots.old) }
{
    match stmts {
        [] => {}
        [first, rest @ ..] => {
            follow_one(table, first, slots, marks);
            follow(table, rest, slots, marks);
        }
    }
}

// Follows a block, if it may be done, and forgets what it assigns.
#[cycle(following)]
fn follow_block(
    table: &SharpFootprints,
    may: bool,
    block: &Block,
    slots: &mut [Option<i64>],
    marks: &mut [bool],
)
    requires { length marks.old ≤ 256 }
    ensures slots { slots.new ≡ past may block.now slots.old }
    ensures marks { (c : ℕ) → is_in marks.new c ≡ (is_in marks.old c || (may && some_when (leads_to table.now c) block.now slots.old)) }
{
    if may {
        follow(table, block.as_slice(), slots, marks);
    }
    forget(block.as_slice(), slots);
}

#[cycle(following)]
fn follow_one(table: &SharpFootprints, stmt: &Stmt, slots: &mut [Option<i64>], marks: &mut [bool])
    requires { length marks.old ≤ 256 }
    ensures slots { slots.new ≡ after (before stmt.now Done) slots.old }
    ensures marks { (c : ℕ) → is_in marks.new c ≡ (is_in marks.old c || some_when (leads_to table.now c) (before stmt.now Done) slots.old) }
{
    match stmt {
        Stmt::Assign(slot, expr) => {
            let value = known(expr, slots);
            set_known(slots, *slot, value);
        }
        Stmt::Work(_) => {}
        Stmt::If(condition, first, second) => {
            let value = known(condition, slots);
            follow_block(table, may_hold(value), first, slots, marks);
            follow_block(table, may_fail(value), second, slots, marks);
        }
        Stmt::Repeat(_, block) => {
            forget(block.as_slice(), slots);
            follow_block(table, true, block, slots, marks);
        }
        Stmt::When(kind, args, references) => mark_asked(
            table, *kind, args, references, slots, marks,
        ),
    }
}

// A body that runs again, statement by statement, and what its statements are charged.

ghost use Rattle.std.specs.Prelude.{◌≡◌, ◌+◌, ◌<◌, ◌≤◌, ◌^◌, ◌++◌, ℕ, ℤ, List, true, length, map, replicate, slice_set, sum, IfOk, OnOk};
ghost use Rattle.boc_program.specs.declared.limits.TheConstants.{MOST_TICKS};
ghost use Rattle.boc_program.specs.Syntax.{Done, Assign, Work, If, Repeat, When, code_size};
ghost use Rattle.boc_program.specs.memory.View.{before, code_of, cown_ref_of, slot_expr_of};
ghost use Rattle.boc_program.specs.declared.short.Input.{Input};
ghost use Rattle.boc_program.specs.Meaning.{start as start_state, start_slots, values_held};
ghost use Rattle.boc_program.specs.Signatures.{AllBelow};
ghost use Rattle.boc_runs.specs.Serial.{inputs_of};
ghost use Rattle.boc_lines.specs.Books.{add_at, entered};
ghost use Rattle.boc_lines.specs.Charges.{bill, charge, charged, turns};
ghost use Rattle.boc_lines.specs.Sizes.{AreSized, IsSized};
ghost use Rattle.boc_lines.specs.Walks.{Charges, ChargesWith, HasRoom, Keeps, book_of, can_wish, counting, state_of, testing};

use crate::sizes::{BlockSizes, first_size, size_at};
use crate::values::{count, have_values, is_zero, names_cowns, value};
use boc_program::body::{Block, Body, CownRef, Expr, Stmt};
use boc_program::limits::MOST_TICKS;
use boc_program::short::CownNo;
use std::alloc::{AllocError, Global};

/// A body under way, and what is kept of the charges of all bodies so far.
#[derive(Drop)]
pub(crate) struct Walk {
    /// The cowns that the body holds, in the order of its cown parameters.
    pub(crate) held: Vec<CownNo>,
    /// The values of its slots.
    pub(crate) slots: Vec<i64>,
    /// Its ticks so far.
    pub(crate) ticks: u32,
    /// Up to how many further ticks the chain goes through it.
    pub(crate) left: u64,
    /// By number, the ticks of the statement that has it.
    pub(crate) counts: Vec<u64>,
    /// By number, those that the chain goes through.
    pub(crate) chain: Vec<u64>,
}

// Appends the values that cowns have now.
fn put_values(slots: &mut Vec<i64>, cowns: &[CownNo], values: &[i64]) -> Result<(), AllocError>
    requires { AllBelow (length values.now) cowns.now }
    ensures { OnOk result (slots.new.items ≡ slots.old.items ++ values_held (inputs_of cowns.now values.now)) }
{
    match cowns {
        [] => Ok(()),
        [first, rest @ ..] => {
            slots.push(values[*first as usize])?;
            put_values(slots, rest, values)
        }
    }
}

/// Adds ticks at a place, if it is there.
pub(crate) fn add(counts: &mut [u64], at: usize, ticks: u64)
    requires { sum counts.old + ticks < 2 ^ 64 }
    ensures value { counts.new ≡ add_at counts.old at ticks }
    ensures sum { sum counts.new ≤ sum counts.old + ticks }
{
    if at < counts.len() {
        counts[at] += ticks;
    }
}

impl Walk {
    /// Returns a walk before the first body, which counts nothing yet of this many numbers.
    pub(crate) fn new(alloc: Global, count: usize) -> Result<Walk, AllocError>
        ensures counts { IfOk result (λ w. w.counts.items ≡ replicate count 0) }
        ensures chain { IfOk result (λ w. w.chain.items ≡ replicate count 0) }
    {
        Ok(Walk {
            held: Vec::new(alloc),
            slots: Vec::new(alloc),
            ticks: 0,
            left: 0,
            counts: vec![in alloc; 0; count]?,
            chain: vec![in alloc; 0; count]?,
        })
    }

    /// Goes to the start of a body with this many slots, on these arguments and the values that its cowns have now. The chain goes through its first
    /// ticks, as many as are left.
    pub(crate) fn begin(
        &mut self,
        args: &[i64],
        cowns: &[CownNo],
        values: &[i64],
        slots: usize,
        left: u64,
    ) -> Result<(), AllocError>
        requires few { length args.now + length cowns.now ≤ slots }
        requires below { AllBelow (length values.now) cowns.now }
        ensures state { OnOk result (state_of self.new ≡ record {
          held = cowns.now;
          slots = start_slots args.now (values_held (inputs_of cowns.now values.now)) slots;
          ticks = 0;
        }) }
        ensures book { OnOk result (book_of self.new ≡ record (book_of self.old) { left = left }) }
    {
        self.ticks = 0;
        self.left = left;
        self.held.clear();
        self.held.extend_from_slice(cowns)?;
        self.slots.clear();
        self.slots.extend_from_slice(args)?;
        put_values(&mut self.slots, cowns, values)?;
        self.slots.resize(slots, 0)
    }

    /// Runs a body from before its start, which has this number, to its end. The sizes are those of the blocks of all statements.
    pub(crate) fn run_body(&mut self, sizes: &[BlockSizes], body: &Body, start: usize)
        requires room { HasRoom self.old }
        requires sized { AreSized sizes.now body.now.block (start + 1) }
        requires ticks { self.old.ticks ≡ 0 }
        requires few { start + 1 + code_size body.now.block < 2 ^ 32 }
        ensures entered { (args : List ℤ) → (inputs : List Input) → state_of self.old ≡ record (start_state body.now args inputs) { ticks = 0 }
            → entered (book_of self.old) (bill start body.now args inputs) ≡ record { book = book_of self.new; slots = self.new.slots.items } }
        ensures keeps { Keeps self.old self.new }
    {
        if !self.charge(start, 1) {
            return;
        }
        self.run(sizes, body.block.as_slice(), start + 1);
    }

    /// Charges a statement ticks, unless that would pass the cap. Returns whether the body goes on.
    pub(crate) fn charge(&mut self, statement: usize, ticks: u64) -> bool
        requires { HasRoom self.old }
        ensures charges { Charges (charge statement ticks) self.old result self.new }
        ensures keeps { Keeps self.old self.new }
        ensures fits { self.old.ticks + ticks ≤ MOST_TICKS → result ≡ true }
    {
        if ticks > u64::from(MOST_TICKS - self.ticks) {
            return false;
        }
        let through = self.left.min(ticks);
        self.ticks += ticks as u32;
        self.left -= through;
        add(&mut self.counts, statement, ticks);
        add(&mut self.chain, statement, through);
        true
    }

    // An assignment.
    fn assign(&mut self, k: usize, slot: usize, expr: &Expr) -> bool
        requires { HasRoom self.old }
        ensures charges { Charges (charged (Assign slot (slot_expr_of expr.now) Done) k) self.old result self.new }
        ensures keeps { Keeps self.old self.new }
    {
        let found = self.test(k, expr);
        match &found {
            Some(number) => {
                self.set(slot, number);
                true
            }
            None => false,
        }
    }

    // Ticks.
    fn work(&mut self, k: usize, expr: &Expr) -> bool
        requires { HasRoom self.old }
        ensures charges { Charges (charged (Work (slot_expr_of expr.now) Done) k) self.old result self.new }
        ensures keeps { Keeps self.old self.new }
    {
        match count(expr, &self.slots) {
            Ok(ticks) => self.charge(k, ticks),
            Err(_) => false,
        }
    }

    // A wish, of whatever kind.
    fn wish(&mut self, k: usize, args: &[Expr], references: &[CownRef]) -> bool
        requires { HasRoom self.old }
        ensures charges { (kind : ℕ) → Charges (charged (When kind (map slot_expr_of args.now) (map cown_ref_of references.now) Done) k)
            self.old result self.new }
        ensures keeps { Keeps self.old self.new }
    {
        if !self.charge(k, 1) {
            return false;
        }
        self.can_wish(args, references)
    }

    // Returns whether a wish has all its values, and names each cown once.
    fn can_wish(&self, args: &[Expr], references: &[CownRef]) -> bool
        ensures { result ≡ can_wish (map slot_expr_of args.now) (map cown_ref_of references.now) (state_of self.now) }
    {
        have_values(args, &self.slots) && names_cowns(references, &self.held, &self.slots)
    }

    // Charges a statement its tick, and returns the value of its expression, if the body goes on.
    fn test(&mut self, k: usize, expr: &Expr) -> Option<i64>
        requires { HasRoom self.old }
        ensures charges { ChargesWith (testing k (slot_expr_of expr.now)) self.old result self.new }
        ensures keeps { Keeps self.old self.new }
    {
        if !self.charge(k, 1) {
            return None;
        }
        value(expr, &self.slots).ok()
    }

    // Charges a statement its tick, and returns the number of turns that its expression is worth, if the body goes on.
    fn turns(&mut self, k: usize, expr: &Expr) -> Option<u64>
        requires { HasRoom self.old }
        ensures charges { ChargesWith (counting k (slot_expr_of expr.now)) self.old result self.new }
        ensures keeps { Keeps self.old self.new }
    {
        if !self.charge(k, 1) {
            return None;
        }
        count(expr, &self.slots).ok()
    }

    // Sets a slot, if it is there.
    fn set(&mut self, slot: usize, number: &i64)
        ensures state { state_of self.new ≡ record (state_of self.old) { slots = slice_set self.old.slots.items slot number.now } }
        ensures book { book_of self.new ≡ book_of self.old }
        ensures long { length self.new.slots.items ≡ length self.old.slots.items }
    {
        if slot < self.slots.len() {
            self.slots[slot] = *number;
        }
    }

    /// Runs statements, of which the first has this number. Returns whether the body goes on after them.
    #[cycle(walk)]
    #[tactic(auto, using(boc_program::proofs::Followed::then_size, boc_program::proofs::Followed::then_positive))]
    pub(crate) fn run(&mut self, sizes: &[BlockSizes], stmts: &[Stmt], first: usize) -> bool
        requires room { HasRoom self.old }
        requires sized { AreSized sizes.now (code_of stmts.now) first }
        requires few { first + code_size (code_of stmts.now) < 2 ^ 32 }
        ensures charges { Charges (charged (code_of stmts.now) first) self.old result self.new }
        ensures keeps { Keeps self.old self.new }
    {
        match stmts {
            [] => true,
            [stmt, rest @ ..] => {
                let next = first + size_at(sizes, stmt, first);
                if !self.run_one(sizes, stmt, first) {
                    return false;
                }
                self.run(sizes, rest, next)
            }
        }
    }

    // Runs a statement.
    #[cycle(walk)]
    fn run_one(&mut self, sizes: &[BlockSizes], stmt: &Stmt, k: usize) -> bool
        requires room { HasRoom self.old }
        requires sized { AreSized sizes.now (before stmt.now Done) k }
        requires few { k + code_size (before stmt.now Done) < 2 ^ 32 }
        ensures charges { Charges (charged (before stmt.now Done) k) self.old result self.new }
        ensures keeps { Keeps self.old self.new }
    {
        match stmt {
            Stmt::Assign(slot, expr) => self.assign(k, *slot, expr),
            Stmt::Work(expr) => self.work(k, expr),
            Stmt::If(expr, block, other) => self.run_either(sizes, expr, block, other, k),
            Stmt::Repeat(expr, block) => self.repeat(sizes, expr, block, k),
            Stmt::When(_, args, references) => self.wish(k, args, references),
        }
    }

    // Runs the first block where the expression isn't 0, else the second.
    #[cycle(walk)]
    fn run_either(
        &mut self,
        sizes: &[BlockSizes],
        expr: &Expr,
        block: &Block,
        other: &Block,
        k: usize,
    ) -> bool
        requires room { HasRoom self.old }
        requires own { IsSized sizes.now k (code_size block.now) (code_size other.now) }
        requires sized_block { AreSized sizes.now block.now (k + 1) }
        requires sized_other { AreSized sizes.now other.now (k + 1 + code_size block.now) }
        requires few { k + code_size block.now + code_size other.now + 1 < 2 ^ 32 }
        ensures charges { Charges (charged (If (slot_expr_of expr.now) block.now other.now Done) k) self.old result self.new }
        ensures keeps { Keeps self.old self.new }
    {
        let found = self.test(k, expr);
        match &found {
            Some(number) => {
                if is_zero(number) {
                    let start = k + 1 + first_size(sizes, block, other, k);
                    return self.run(sizes, other.as_slice(), start);
                }
                self.run(sizes, block.as_slice(), k + 1)
            }
            None => false,
        }
    }

    // Runs as many turns of a block as the expression says.
    #[cycle(walk)]
    fn repeat(&mut self, sizes: &[BlockSizes], expr: &Expr, block: &Block, k: usize) -> bool
        requires room { HasRoom self.old }
        requires sized { AreSized sizes.now block.now (k + 1) }
        requires few { k + code_size block.now + 1 < 2 ^ 32 }
        ensures charges { Charges (charged (Repeat (slot_expr_of expr.now) block.now Done) k) self.old result self.new }
        ensures keeps { Keeps self.old self.new }
    {
        let Some(count) = self.turns(k, expr) else {
            return false;
        };
        self.run_turns(sizes, block.as_slice(), k, count)
    }

    // Runs turns of statements, each for a tick of the statement k.
    #[cycle(walk)]
    fn run_turns(&mut self, sizes: &[BlockSizes], stmts: &[Stmt], k: usize, count: u64) -> bool
        requires room { HasRoom self.old }
        requires sized { AreSized sizes.now (code_of stmts.now) (k + 1) }
        requires few { k + 1 + code_size (code_of stmts.now) < 2 ^ 32 }
        ensures charges { Charges (turns k count (charged (code_of stmts.now) (k + 1))) self.old result self.new }
        ensures keeps { Keeps self.old self.new }
    {
        for _turn in 0..count {
            if !self.charge(k, 1) {
                return false;
            }
            if !self.run(sizes, stmts, k + 1) {
                return false;
            }
        }
        true
    }
}

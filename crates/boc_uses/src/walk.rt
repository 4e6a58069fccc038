// Statements, one after another.

ghost use Rattle.std.specs.Prelude.{◌≡◌, ◌≤◌, ℕ, IsTrue, IfOk, length};
ghost use Rattle.boc_program.specs.declared.limits.TheConstants.{MOST_TICKS};
ghost use Rattle.boc_program.specs.memory.View.{code_of, before};
ghost use Rattle.boc_program.specs.Resolved.{fits};
ghost use Rattle.boc_program.specs.Syntax.{Done};
ghost use Rattle.boc_program.specs.Meaning.{as_count, cowns_held, is_zero as is_zero_spec};
ghost use Rattle.boc_uses.specs.Uses.{Using, code_uses, cown_uses, if_value, paid, turns_use};
ghost use Rattle.boc_uses.specs.Noting.{noted_all, noted_then, standing};

use crate::started::{start_slots, unused};
use crate::steps::{assign, begin, charge, count_of, wish, work};
use crate::uses::{Use, Uses};
use boc_program::body::{Block, Body, Stmt};
use boc_program::short::Input;
use std::alloc::{AllocError, Global};

#[inline(always)]
fn is_zero(value: i64) -> bool
    ensures { result ≡ is_zero_spec value }
{
    value == 0
}

/// Does statements, notes what they use, and returns whether the body goes on.
#[cycle(walk)]
pub(crate) fn walk(
    stmts: &[Stmt],
    inputs: &[Input],
    params: usize,
    slots: &mut [i64],
    ticks: &mut u32,
    uses: &mut [Option<Use>],
) -> bool
    requires fits { IsTrue (fits (record { slots = length slots.old; cowns = length inputs.now }) (code_of stmts.now)) }
    requires ticks { ticks.old ≤ MOST_TICKS }
    ensures few { ticks.new ≤ MOST_TICKS }
    ensures long { length slots.new ≡ length slots.old }
    ensures used { (next : Using) →
        noted_all params uses.old (code_uses (code_of stmts.now) (standing (cowns_held inputs.now) slots.old ticks.old) next)
        ≡ noted_then result params uses.new (next (standing (cowns_held inputs.now) slots.new ticks.new)) }
{
    match stmts {
        [] => true,
        [first, rest @ ..] => {
            walk_one(first, inputs, params, slots, ticks, uses)
                && walk(rest, inputs, params, slots, ticks, uses)
        }
    }
}

// Does one statement.
#[cycle(walk)]
fn walk_one(
    stmt: &Stmt,
    inputs: &[Input],
    params: usize,
    slots: &mut [i64],
    ticks: &mut u32,
    uses: &mut [Option<Use>],
) -> bool
    requires fits { IsTrue (fits (record { slots = length slots.old; cowns = length inputs.now }) (before stmt.now Done)) }
    requires ticks { ticks.old ≤ MOST_TICKS }
    ensures few { ticks.new ≤ MOST_TICKS }
    ensures long { length slots.new ≡ length slots.old }
    ensures used { (next : Using) →
        noted_all params uses.old (code_uses (before stmt.now Done) (standing (cowns_held inputs.now) slots.old ticks.old) next)
        ≡ noted_then result params uses.new (next (standing (cowns_held inputs.now) slots.new ticks.new)) }
{
    match stmt {
        Stmt::Assign(slot, expr) => assign(*slot, expr, params, slots, ticks, uses),
        Stmt::Work(expr) => work(expr, params, slots, ticks, uses),
        Stmt::If(expr, first, second) => {
            match begin(expr, None, params, slots, ticks, uses) {
                None => false,
                Some(value) => {
                    if is_zero(value) {
                        walk(second.as_slice(), inputs, params, slots, ticks, uses)
                    } else {
                        walk(first.as_slice(), inputs, params, slots, ticks, uses)
                    }
                }
            }
        }
        Stmt::Repeat(expr, block) => match begin(expr, None, params, slots, ticks, uses) {
            None => false,
            Some(count) => walk_turns(count, block, inputs, params, slots, ticks, uses),
        },
        Stmt::When(_, args, references) => wish(
            args, references, inputs, params, slots, ticks, uses,
        ),
    }
}

// Does as many turns of a block as a number says.
#[cycle(walk)]
fn walk_turns(
    number: i64,
    block: &Block,
    inputs: &[Input],
    params: usize,
    slots: &mut [i64],
    ticks: &mut u32,
    uses: &mut [Option<Use>],
) -> bool
    requires fits { IsTrue (fits (record { slots = length slots.old; cowns = length inputs.now }) block.now) }
    requires ticks { ticks.old ≤ MOST_TICKS }
    ensures few { ticks.new ≤ MOST_TICKS }
    ensures long { length slots.new ≡ length slots.old }
    ensures used { (next : Using) →
        noted_all params uses.old (if_value (as_count number) (λ n.
        turns_use n (code_uses block.now) (standing (cowns_held inputs.now) slots.old ticks.old) next))
        ≡ noted_then result params uses.new (next (standing (cowns_held inputs.now) slots.new ticks.new)) }
{
    match count_of(number) {
        None => false,
        Some(count) => {
            for _ in 0..count {
                if !walk_turn(block, inputs, params, slots, ticks, uses) {
                    return false;
                }
            }
            true
        }
    }
}

// Does a turn of a block.
#[cycle(walk)]
fn walk_turn(
    block: &Block,
    inputs: &[Input],
    params: usize,
    slots: &mut [i64],
    ticks: &mut u32,
    uses: &mut [Option<Use>],
) -> bool
    requires fits { IsTrue (fits (record { slots = length slots.old; cowns = length inputs.now }) block.now) }
    requires ticks { ticks.old ≤ MOST_TICKS }
    ensures few { ticks.new ≤ MOST_TICKS }
    ensures long { length slots.new ≡ length slots.old }
    ensures used { (next : Using) →
        noted_all params uses.old (paid 1 (standing (cowns_held inputs.now) slots.old ticks.old) (λ s. code_uses block.now s next))
        ≡ noted_then result params uses.new (next (standing (cowns_held inputs.now) slots.new ticks.new)) }
{
    charge(1, ticks) && walk(block.as_slice(), inputs, params, slots, ticks, uses)
}

/// Returns how a body uses each of the cowns that it holds, on these arguments and inputs. Fails only where memory runs out.
///
/// It evaluates the body as a run does, in a time that grows as that of the run, and keeps no more than two ticks and a mark of each cown.
pub fn uses_of(
    alloc: Global,
    body: &Body,
    args: &[i64],
    inputs: &[Input],
) -> Result<Uses, AllocError>
    requires args { length args.now ≡ body.now.params }
    requires inputs { length inputs.now ≡ body.now.cown_params }
    ensures { IfOk result (λ uses. uses.items ≡ cown_uses body.now args.now inputs.now) }
{
    let mut slots = start_slots(alloc, args, inputs, body.slots)?;
    let mut uses = unused(inputs.len());
    let mut ticks = 1;
    walk(
        body.block.as_slice(),
        inputs,
        body.params,
        &mut slots,
        &mut ticks,
        &mut uses,
    );
    Ok(uses)
}

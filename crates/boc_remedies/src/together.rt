// Several cowns at once.

ghost use Rattle.std.specs.Prelude.{◌≡◌, ◌<◌, ◌≤◌, ◌+◌, ◌++◌, All, IfOk, OnOk, length, option_map};
ghost use Rattle.boc_program.specs.declared.limits.TheConstants.{MOST_COWNS};
ghost use Rattle.boc_remedies.specs.Together.{AreCownsTogether, AreTogether, best_of_size, best_set, best_sets, goes_before, leaves_less, lines_of};
ghost use Rattle.boc_remedies.specs.Together.{most_families};
ghost use Rattle.boc_remedies.specs.Questions.{asked};

use crate::ends::{Ends, all_ends};
use crate::families::Families;
use crate::looked_at::{LookedAt, looked_at, no_orders, sets_of_chain};
use crate::question::Question;
use crate::remedy::Remedy;
use crate::tried::{add_sets, of_several};
use std::alloc::{AllocError, Global};
use std::thread::Threads;

/// Several cowns at once, and when the rows end without their order.
#[derive(Drop, Debug)]
pub struct Together {
    /// Their families; none where it is every cown.
    pub families: Option<Families>,
    pub ends: Ends,
}

// Returns the number of families of the largest set that was looked at.
fn most_families(looked: &[LookedAt]) -> usize
    ensures { result ≡ most_families looked.now }
{
    let mut most = 0;
    for own in looked {
        most = most.max(own.families.as_slice().len());
    }
    most
}

// Returns whether a set leaves less than another that was found, or as much and comes first.
fn goes_before(own: &LookedAt, best: Option<&LookedAt>) -> bool
    ensures { result ≡ goes_before own.now (option_map (λ b. b.now) best.entry) }
{
    match best {
        Some(best) => {
            own.span < best.span
                || own.span == best.span && own.families.comes_before(&best.families)
        }
        None => true,
    }
}

// Returns the best set of this many families, if there is one: it leaves the smallest span, and of equal ones it comes first.
fn best_of_size(looked: &[LookedAt], size: usize) -> Option<&LookedAt>
    ensures { option_map (λ b. b.now) result ≡ best_of_size looked.now size }
{
    let mut best = None;
    for own in looked {
        if own.families.as_slice().len() == size && goes_before(own, best) {
            best = Some(own);
        }
    }
    best
}

// Returns whether a set leaves less than each set of fewer families that was looked at.
fn leaves_less(looked: &[LookedAt], own: &LookedAt) -> bool
    ensures { result ≡ leaves_less looked.now own.now }
{
    for other in looked {
        let is_smaller = other.families.as_slice().len() < own.families.as_slice().len();
        if is_smaller && own.span >= other.span {
            return false;
        }
    }
    true
}

// Appends the best set of this many families, if it leaves less than each set of fewer.
fn push_best(
    alloc: Global,
    sets: &mut Vec<Families>,
    looked: &[LookedAt],
    size: usize,
) -> Result<(), AllocError>
    ensures { OnOk result (sets.new.items ≡ sets.old.items ++ best_set looked.now (best_of_size looked.now size)) }
{
    if let Some(own) = best_of_size(looked, size)
        && leaves_less(looked, own)
    {
        sets.push(own.families.copy(alloc)?)?;
    }
    Ok(())
}

/// Returns for each number of families from 2 on the best set of that many that was looked at, where it leaves less than each set of fewer. The best one
/// leaves the smallest span, and of equal ones it comes first. `AllocError` says that memory was refused.
pub fn best_sets(alloc: Global, looked: &[LookedAt]) -> Result<Vec<Families>, AllocError>
    ensures { IfOk result (λ sets. sets.items ≡ best_sets looked.now) }
{
    let mut sets = Vec::new(alloc);
    for more in 1..most_families(looked).max(1) {
        push_best(alloc, &mut sets, looked, more + 1)?;
    }
    Ok(sets)
}

// Returns a line for each of some sets, and then one for every cown. `AllocError` says that memory was refused.
fn lines_of(alloc: Global, sets: &[Families], left: &[Ends]) -> Result<Vec<Together>, AllocError>
    requires { length left.now ≡ length sets.now + 1 }
    ensures { IfOk result (λ lines. lines.items ≡ lines_of sets.now left.now) }
{
    let mut lines = Vec::new(alloc);
    for (place, set) in sets.iter().enumerate() {
        lines.push(Together {
            families: Some(set.copy(alloc)?),
            ends: left[place],
        })?;
    }
    lines.push(Together {
        families: None,
        ends: left[sets.len()],
    })?;
    Ok(lines)
}

/// Returns when the rows end without the order of each of these sets, and then without that of every cown. `AllocError` says that memory was refused.
///
/// Threads share out the plans.
pub fn all_together(
    rt: &(impl Threads + Sync),
    alloc: Global,
    question: &Question<'_>,
    sets: &[Families],
) -> Result<Vec<Together>, AllocError>
    requires defs { length question.now.defs.now ≡ length question.now.rows.now }
    requires few { length question.now.families.now ≤ MOST_COWNS }
    ensures { IfOk result (λ lines. AreTogether (asked question.now) sets.now lines.items) }
{
    let mut remedies = no_orders(alloc, sets)?;
    let every = Families::all_of(alloc, question.families)?;
    remedies.push(Remedy::NoOrder(every))?;
    let left = all_ends(rt, alloc, question, &remedies)?;
    lines_of(alloc, sets, &left)
}

/// Returns when the rows end without the order of some sets: the link sets of two or more of the chain, then the best sets of several cowns at once that are
/// not among them, and then every cown. Where the chain hands no cown on, there are none. `span` is that of the rows as they are. `AllocError` says that
/// memory was refused.
pub fn cowns_together(
    rt: &(impl Threads + Sync),
    alloc: Global,
    question: &Question<'_>,
    span: u64,
) -> Result<Vec<Together>, AllocError>
    requires defs { length question.now.defs.now ≡ length question.now.rows.now }
    requires few { length question.now.families.now ≤ MOST_COWNS }
    requires few_families { All (λ f. f < MOST_COWNS) question.now.families.now }
    ensures { IfOk result (λ lines. AreCownsTogether (asked question.now) span lines.items) }
{
    let of_chain = sets_of_chain(alloc, question, question.rows)?;
    if of_chain.is_empty() {
        return Ok(Vec::new(alloc));
    }
    let mut sets = of_several(alloc, &of_chain)?;
    let looked = looked_at(rt, alloc, question, span)?;
    let best = best_sets(alloc, &looked)?;
    add_sets(alloc, &mut sets, &best)?;
    all_together(rt, alloc, question, &sets)
}

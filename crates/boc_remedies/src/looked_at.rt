// The search for sets of cowns that save much only together.

ghost use Rattle.std.specs.Prelude.{◌≡◌, ◌<◌, ◌≤◌, ◌++◌, [], All, IfOk, OnOk, drop, length, map};
ghost use Rattle.std.specs.List.{fold, list_any};
ghost use Rattle.boc_program.specs.declared.limits.TheConstants.{MOST_COWNS};
ghost use Rattle.boc_remedies.specs.declared.remedy.Remedy.TheVariants.{NoOrder};
ghost use Rattle.boc_remedies.specs.Families.{is_same_set};
ghost use Rattle.boc_remedies.specs.InOrder.{first_place};
ghost use Rattle.boc_remedies.specs.LookedAt.{AreLeftBy, AreLookedAt, AreNew, AreSetsLeft, IsRound, best_of, best_with, by_span, is_better, is_known};
ghost use Rattle.boc_remedies.specs.LookedAt.{looked_at, new_from, new_with};
ghost use Rattle.boc_remedies.specs.Questions.{asked};

use crate::chain::shares_by_set;
use crate::ends::{Ends, all_ends, rows_after};
use crate::families::Families;
use crate::link_sets::link_sets;
use crate::question::Question;
use crate::remedy::Remedy;
use crate::tried::has_set;
use boc_order::profile;
use boc_plans::sharing::SeenRows;
use boc_runs::rows::Rows;
use boc_why::{links_of, weights_of};
use std::alloc::{AllocError, Global};
use std::cmp::Ordering;
use std::thread::Threads;

/// A set of families, and the span that the rows have without their order.
#[derive(Drop, Debug)]
pub struct LookedAt {
    pub families: Families,
    /// The span without their order, in ticks.
    pub span: u64,
}

impl LookedAt {
    // Returns the same once more. `AllocError` says that memory was refused.
    fn copy(&self, alloc: Global) -> Result<LookedAt, AllocError>
        ensures { IfOk result (λ copy. copy ≡ self.now) }
    {
        Ok(LookedAt {
            families: self.families.copy(alloc)?,
            span: self.span,
        })
    }
}

// The search has this many rounds.
const ROUNDS: usize = 3;

// This many of the best sets of a round are added to in the next one.
const KEPT: usize = 3;

/// Returns the link sets of the chain of some rows. `AllocError` says that memory was refused.
pub(crate) fn sets_of_chain(
    alloc: Global,
    question: &Question<'_>,
    rows: &Rows,
) -> Result<Vec<Families>, AllocError>
    requires defs { length question.now.defs.now ≡ length rows.now }
    requires few_families { All (λ f. f < MOST_COWNS) question.now.families.now }
    ensures { IfOk result (λ sets. AreSetsLeft (asked question.now) rows.now sets.items) }
{
    let profile = profile(alloc, rows, question.sharing)?;
    let steps = &profile.chain.steps;
    let seen = SeenRows::new(rows, question.sharing);
    let links = links_of(alloc, &seen, question.defs, steps)?;
    let weights = weights_of(alloc, steps)?;
    let by_set = shares_by_set(alloc, &links, &weights, question.families)?;
    link_sets(alloc, question.families, &links, &by_set)
}

// Returns the link sets of the chain of the rows without the order of some families. `AllocError` says that memory was refused.
fn sets_left(
    alloc: Global,
    question: &Question<'_>,
    base: &Families,
) -> Result<Vec<Families>, AllocError>
    requires defs { length question.now.defs.now ≡ length question.now.rows.now }
    requires few { length question.now.families.now ≤ MOST_COWNS }
    requires few_families { All (λ f. f < MOST_COWNS) question.now.families.now }
    ensures { IfOk result (λ sets. AreLeftBy (asked question.now) base.now sets.items) }
{
    let without = Remedy::NoOrder(base.copy(alloc)?);
    let rows = rows_after(alloc, question, &without)?;
    sets_of_chain(alloc, question, &rows)
}

// Returns whether a set was looked at.
fn was_looked_at(looked: &[LookedAt], set: &Families) -> bool
    ensures { result ≡ list_any (λ l. is_same_set l.families set.now) looked.now }
{
    for own in looked {
        if own.families.is(set) {
            return true;
        }
    }
    false
}

// Appends a set to others, unless it is known.
fn add_new(looked: &[LookedAt], sets: &mut Vec<Families>, set: Families) -> Result<(), AllocError>
    ensures { OnOk result (sets.new.items ≡ new_with looked.now sets.old.items set) }
{
    if !(was_looked_at(looked, &set) || has_set(sets, &set)) {
        sets.push(set)?;
    }
    Ok(())
}

// Appends the sets that a set makes with each of some others, those that aren't known.
fn add_joined(
    alloc: Global,
    looked: &[LookedAt],
    base: &Families,
    sets: &mut Vec<Families>,
    more: &[Families],
) -> Result<(), AllocError>
    ensures { OnOk result (sets.new.items ≡ new_from looked.now base.now sets.old.items more.now) }
{
    for own in more {
        add_new(looked, sets, base.joined(alloc, own)?)?;
    }
    Ok(())
}

// Returns the sets that are looked at next to some. `AllocError` says that memory was refused.
fn new_sets(
    alloc: Global,
    question: &Question<'_>,
    looked: &[LookedAt],
    bases: &[LookedAt],
) -> Result<Vec<Families>, AllocError>
    requires defs { length question.now.defs.now ≡ length question.now.rows.now }
    requires few { length question.now.families.now ≤ MOST_COWNS }
    requires few_families { All (λ f. f < MOST_COWNS) question.now.families.now }
    ensures { IfOk result (λ sets. AreNew (asked question.now) looked.now bases.now [] sets.items) }
{
    let mut sets = Vec::new(alloc);
    for base in bases {
        let more = sets_left(alloc, question, &base.families)?;
        add_joined(alloc, looked, &base.families, &mut sets, &more)?;
    }
    Ok(sets)
}

// Returns whether a set that was looked at is better than another: it leaves the lesser span, or as much with fewer families, or comes first.
fn is_better(own: &LookedAt, other: &LookedAt) -> bool
    ensures { result ≡ is_better own.now other.now }
{
    let (set, others) = (own.families.as_slice(), other.families.as_slice());
    match own.span.cmp(&other.span) {
        Ordering::Less => true,
        Ordering::Greater => false,
        Ordering::Equal => match set.len().cmp(&others.len()) {
            Ordering::Less => true,
            Ordering::Greater => false,
            Ordering::Equal => own.families.comes_before(&other.families),
        },
    }
}

// Returns how many of the sets at the front are no worse than this one.
fn place_of(best: &[LookedAt], own: &LookedAt) -> usize
    ensures is { result ≡ first_place (is_better own.now) best.now }
    ensures within { result ≤ length best.now }
{
    for (place, other) in best.iter().enumerate() {
        if is_better(own, other) {
            return place;
        }
    }
    best.len()
}

// Puts a set among the best, which it may drop out of at once.
fn keep(best: &mut Vec<LookedAt>, own: LookedAt) -> Result<(), AllocError>
    ensures { OnOk result (best.new.items ≡ best_with best.old.items own) }
{
    let place = place_of(best, &own);
    best.insert(place, own)?;
    best.truncate(KEPT);
    Ok(())
}

// Returns the best of some sets. `AllocError` says that memory was refused.
fn best_of(alloc: Global, looked: &[LookedAt]) -> Result<Vec<LookedAt>, AllocError>
    ensures { IfOk result (λ best. best.items ≡ best_of looked.now) }
{
    let mut best = Vec::new(alloc);
    for own in looked {
        keep(&mut best, own.copy(alloc)?)?;
    }
    Ok(best)
}

/// Returns each of some sets without its order, as a remedy. `AllocError` says that memory was refused.
pub(crate) fn no_orders(alloc: Global, sets: &[Families]) -> Result<Vec<Remedy>, AllocError>
    ensures { IfOk result (λ remedies. remedies.items ≡ map NoOrder sets.now) }
{
    let mut remedies = Vec::new(alloc);
    for set in sets {
        remedies.push(Remedy::NoOrder(set.copy(alloc)?))?;
    }
    Ok(remedies)
}

// Appends sets, with the spans that they leave, to those that were looked at.
fn push_looked_at(
    alloc: Global,
    looked: &mut Vec<LookedAt>,
    sets: &[Families],
    left: &[Ends],
) -> Result<(), AllocError>
    requires { length left.now ≡ length sets.now }
    ensures { OnOk result (looked.new.items ≡ looked.old.items ++ looked_at sets.now left.now) }
{
    for (place, set) in sets.iter().enumerate() {
        let families = set.copy(alloc)?;
        let span = left[place].span;
        looked.push(LookedAt { families, span })?;
    }
    Ok(())
}

// Looks at one more round of sets: those that the best ones from a place on make.
fn look_on(
    rt: &(impl Threads + Sync),
    alloc: Global,
    question: &Question<'_>,
    looked: &mut Vec<LookedAt>,
    from: usize,
) -> Result<(), AllocError>
    requires defs { length question.now.defs.now ≡ length question.now.rows.now }
    requires few { length question.now.families.now ≤ MOST_COWNS }
    requires few_families { All (λ f. f < MOST_COWNS) question.now.families.now }
    requires there { from ≤ length looked.old.items }
    ensures { OnOk result (IsRound (asked question.now) looked.old.items from looked.new.items) }
{
    let best = best_of(alloc, &looked[from..])?;
    let sets = new_sets(alloc, question, looked, &best)?;
    let remedies = no_orders(alloc, &sets)?;
    let left = all_ends(rt, alloc, question, &remedies)?;
    push_looked_at(alloc, looked, &sets, &left)
}

/// Returns the sets of cowns that are looked at, the empty one first, each with the span that the rows have without its order, in the order in which they are
/// looked at. A first round takes the link sets of the chain; each of two further ones takes the three best sets of the round before, and adds to each the link
/// sets of the chain that is left without it. The better set leaves the lesser span; of equal ones it has fewer families, or comes first. `span` is that of the
/// rows as they are. `AllocError` says that memory was refused.
///
/// A set that saves anything contains all cowns of some link of the chain, so a search without limits would miss none. It makes 141 plans at most. Threads
/// share out those of a round.
pub fn looked_at(
    rt: &(impl Threads + Sync),
    alloc: Global,
    question: &Question<'_>,
    span: u64,
) -> Result<Vec<LookedAt>, AllocError>
    requires defs { length question.now.defs.now ≡ length question.now.rows.now }
    requires few { length question.now.families.now ≤ MOST_COWNS }
    requires few_families { All (λ f. f < MOST_COWNS) question.now.families.now }
    ensures { IfOk result (λ looked. AreLookedAt (asked question.now) span looked.items) }
{
    let by_span = Question {
        workers: None,
        ..*question
    };
    let families = Families::none(alloc);
    let mut looked = Vec::new(alloc);
    looked.push(LookedAt { families, span })?;
    let mut from = 0;
    for _ in 0..ROUNDS {
        let count = looked.len();
        look_on(rt, alloc, &by_span, &mut looked, from)?;
        from = count;
    }
    Ok(looked)
}

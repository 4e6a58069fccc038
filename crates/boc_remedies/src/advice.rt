// What would move the end of some rows forward.

ghost use Rattle.std.specs.Prelude.{◌≡◌, ◌<◌, ◌≤◌, All, IfOk, IfSome, length, map};
ghost use Rattle.boc_program.specs.declared.limits.TheConstants.{MOST_COWNS, MOST_ROWS};
ghost use Rattle.boc_remedies.specs.Advice.{AreTogetherFor, IsAdvice, IsAdviceOf, IsAdvised, is_untold, leaves_out, untold};
ghost use Rattle.boc_remedies.specs.Chains.{known};
ghost use Rattle.boc_remedies.specs.Questions.{asked};

use crate::candidates::{Candidate, candidates};
use crate::chain::{Route, routes_of};
use crate::ends::Ends;
use crate::families::Families;
use crate::greedy_why::GreedyWhy;
use crate::looked_at::looked_at;
use crate::question::Question;
use crate::remedy::Remedy;
use crate::steps::{ends_now, greedy_asked};
use crate::together::{Together, all_together, best_sets};
use crate::tried::{handed_families, remedies_for};
use boc_why::{Why, why_of};
use std::alloc::{AllocError, Global};
use std::thread::Threads;

/// What would move the end of some rows forward.
#[derive(Drop, Debug)]
pub struct Advice {
    /// When the rows end as they are.
    pub now: Ends,
    /// The remedies that are reported, best first.
    pub candidates: Vec<Candidate>,
    /// Several cowns at once, and all of them last; nothing where no chain hands a cown on.
    pub together: Vec<Together>,
}

// Returns whether a remedy leaves out just these families.
fn leaves_out(remedy: &Remedy, set: &Families) -> bool
    ensures { result ≡ leaves_out set.now remedy.now }
{
    match remedy {
        Remedy::NoOrder(own) => own.is(set),
        _ => false,
    }
}

// Returns whether a set is no candidate.
fn is_untold(candidates: &[Candidate], set: &Families) -> bool
    ensures { result ≡ is_untold candidates.now set.now }
{
    for own in candidates {
        if leaves_out(&own.remedy, set) {
            return false;
        }
    }
    true
}

// Returns those of some sets that are no candidates. `AllocError` says that memory was refused.
fn untold(
    alloc: Global,
    candidates: &[Candidate],
    sets: &[Families],
) -> Result<Vec<Families>, AllocError>
    ensures { IfOk result (λ left. left.items ≡ untold candidates.now sets.now) }
{
    let mut left = Vec::new(alloc);
    for set in sets {
        if is_untold(candidates, set) {
            left.push(set.copy(alloc)?)?;
        }
    }
    Ok(left)
}

// Returns the best sets of several cowns at once that are no candidates, and every cown, with what they leave. `AllocError` says that memory was refused.
fn together_for(
    rt: &(impl Threads + Sync),
    alloc: Global,
    question: &Question<'_>,
    span: u64,
    candidates: &[Candidate],
) -> Result<Vec<Together>, AllocError>
    requires defs { length question.now.defs.now ≡ length question.now.rows.now }
    requires few { length question.now.families.now ≤ MOST_COWNS }
    requires few_families { All (λ f. f < MOST_COWNS) question.now.families.now }
    ensures { IfOk result (λ lines. AreTogetherFor (asked question.now) span candidates.now lines.items) }
{
    let looked = looked_at(rt, alloc, question, span)?;
    let best = best_sets(alloc, &looked)?;
    let sets = untold(alloc, candidates, &best)?;
    all_together(rt, alloc, question, &sets)
}

/// Returns what would move the end of some rows forward: the candidates for these chains, best first; and, where a chain hands any cown on, the best sets of
/// several cowns at once that are no candidates, and every cown. `now` has the ends of the rows as they are. `AllocError` says that memory was refused.
///
/// Threads share out the plans, of which there are some hundreds at most.
pub fn advice_for(
    rt: &(impl Threads + Sync),
    alloc: Global,
    question: &Question<'_>,
    routes: &[Route<'_>],
    now: Ends,
) -> Result<Advice, AllocError>
    requires defs { length question.now.defs.now ≡ length question.now.rows.now }
    requires few { length question.now.families.now ≤ MOST_COWNS }
    requires few_families { All (λ f. f < MOST_COWNS) question.now.families.now }
    ensures { IfOk result (IsAdvice (asked question.now) (map known routes.now) now) }
{
    let tried = remedies_for(alloc, routes, question.families)?;
    let candidates = candidates(rt, alloc, question, now, &tried)?;
    let handed = handed_families(alloc, routes, question.families)?;
    let together = if handed.as_slice().is_empty() {
        Vec::new(alloc)
    } else {
        together_for(rt, alloc, question, now.span, &candidates)?
    };
    Ok(Advice {
        now,
        candidates,
        together,
    })
}

// Returns what would move the end of some rows forward, whose chains are those of these. `AllocError` says that memory was refused.
fn advice_of(
    rt: &(impl Threads + Sync),
    alloc: Global,
    question: &Question<'_>,
    why: &Why,
    greedy: &Option<GreedyWhy>,
) -> Result<Advice, AllocError>
    requires defs { length question.now.defs.now ≡ length question.now.rows.now }
    requires few { length question.now.families.now ≤ MOST_COWNS }
    requires few_families { All (λ f. f < MOST_COWNS) question.now.families.now }
    requires whole { length why.now.links.items ≡ length why.now.profile.chain.steps.items }
    requires few_steps { length why.now.profile.chain.steps.items ≤ MOST_ROWS }
    requires greedy { IfSome greedy.now (λ g. (length g.links.items ≡ length g.steps.items) × (length g.steps.items ≤ MOST_ROWS)) }
    ensures { IfOk result (IsAdviceOf (asked question.now) why.now greedy.now) }
{
    let routes = routes_of(alloc, why, greedy, question.families)?;
    advice_for(rt, alloc, question, &routes, ends_now(why, greedy))
}

/// Why some rows take as long as they do, and what would move their end forward.
#[derive(Drop, Debug)]
pub struct Advised {
    pub why: Why,
    /// Why the greedy plan takes as long as it does, where a number of workers is given.
    pub greedy: Option<GreedyWhy>,
    pub advice: Advice,
}

/// Returns why the rows take as long as they do, why their greedy plan does where a number of workers is given, and what would move the end forward.
/// `AllocError` says that memory was refused.
///
/// Threads share out the plans, of which there are some hundreds at most.
pub fn advise(
    rt: &(impl Threads + Sync),
    alloc: Global,
    question: &Question<'_>,
) -> Result<Advised, AllocError>
    requires defs { length question.now.defs.now ≡ length question.now.rows.now }
    requires few_defs { All (λ d. d < MOST_ROWS) question.now.defs.now }
    requires few { length question.now.families.now ≤ MOST_COWNS }
    requires few_families { All (λ f. f < MOST_COWNS) question.now.families.now }
    ensures advised { IfOk result (IsAdvised (asked question.now)) }
    ensures there { IfOk result (λ a. All (λ s. s.row < length a.why.profile.starts.items) a.why.profile.chain.steps.items) }
    ensures whole { IfOk result (λ a. length a.why.links.items ≡ length a.why.profile.chain.steps.items) }
    ensures keys { IfOk result (λ a. All (λ s. s.key < length a.why.links.items) a.why.by_link.items) }
    ensures greedy_keys { IfOk result (λ a. IfSome a.greedy (λ g. All (λ s. s.key < length g.links.items) g.by_link.items)) }
{
    let Question {
        rows,
        defs,
        families,
        sharing,
        ..
    } = *question;
    let why = why_of(alloc, rows, sharing, defs, families.len())?;
    let greedy = greedy_asked(alloc, question)?;
    let advice = advice_of(rt, alloc, question, &why, &greedy)?;
    Ok(Advised {
        why,
        greedy,
        advice,
    })
}

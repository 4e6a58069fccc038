// One change after another.

ghost use Rattle.std.specs.Prelude.{◌≡◌, ◌<◌, ◌≤◌, ◌++◌, ◌∷◌, [], All, IfOk, IfSome, OnOk, length, option_map};
ghost use Rattle.std.specs.List.{list_any};
ghost use Rattle.boc_program.specs.declared.limits.TheConstants.{MOST_COWNS, MOST_ROWS};
ghost use Rattle.boc_remedies.specs.Remedies.{is_same};
ghost use Rattle.boc_remedies.specs.Steps.{AreSteps, IsBestStep, IsGreedyAsked, best_taken, ends_now, is_sooner, may_be_taken, others, outdoes_step};
ghost use Rattle.boc_remedies.specs.Questions.{asked};

use crate::candidates::{Candidate, brings_nearly, paired};
use crate::chain::routes_of;
use crate::ends::{Ends, all_ends, rows_after};
use crate::greedy_why::{GreedyWhy, greedy_why_of};
use crate::question::Question;
use crate::remedy::Remedy;
use crate::tried::remedies_for;
use boc_why::{Why, why_of};
use std::alloc::{AllocError, Global};
use std::thread::Threads;

/// Returns why the greedy plan of the rows takes as long as it does, where a number of workers is given. `AllocError` says that memory was refused.
pub fn greedy_asked(alloc: Global, question: &Question<'_>) -> Result<Option<GreedyWhy>, AllocError>
    requires defs { length question.now.defs.now ≡ length question.now.rows.now }
    requires few_defs { All (λ d. d < MOST_ROWS) question.now.defs.now }
    ensures asked { IfOk result (IsGreedyAsked (asked question.now) question.now.workers) }
    ensures keys { IfOk result (λ greedy. IfSome greedy (λ g. All (λ s. s.key < length g.links.items) g.by_link.items)) }
    ensures few { IfOk result (λ greedy. IfSome greedy (λ g. (length g.links.items ≡ length g.steps.items) × (length g.steps.items ≤ MOST_ROWS))) }
{
    let Question {
        rows,
        defs,
        sharing,
        workers,
        ..
    } = *question;
    match workers {
        Some(workers) => Ok(Some(greedy_why_of(alloc, rows, sharing, defs, workers)?)),
        None => Ok(None),
    }
}

/// Returns when the rows end as they are.
pub fn ends_now(why: &Why, greedy: &Option<GreedyWhy>) -> Ends
    ensures { result ≡ ends_now why.now greedy.now }
{
    let greedy = match greedy {
        Some(greedy) => Some(greedy.end),
        None => None,
    };
    let span = why.profile.span;
    Ends { span, greedy }
}

// Returns whether some step has taken a remedy.
fn was_taken(steps: &[Candidate], remedy: &Remedy) -> bool
    ensures { result ≡ list_any (λ s. is_same s.remedy remedy.now) steps.now }
{
    for step in steps {
        if step.remedy.is(remedy) {
            return true;
        }
    }
    false
}

// Appends a remedy to others, unless some step has taken it.
fn push_other(
    alloc: Global,
    left: &mut Vec<Remedy>,
    steps: &[Candidate],
    remedy: &Remedy,
) -> Result<(), AllocError>
    ensures { OnOk result (left.new.items ≡ left.old.items ++ others steps.now (remedy.now ∷ [])) }
{
    if !was_taken(steps, remedy) {
        left.push(remedy.copy(alloc)?)?;
    }
    Ok(())
}

// Returns those of some remedies that no step has taken. `AllocError` says that memory was refused.
fn others(
    alloc: Global,
    steps: &[Candidate],
    remedies: &[Remedy],
) -> Result<Vec<Remedy>, AllocError>
    ensures { IfOk result (λ left. left.items ≡ others steps.now remedies.now) }
{
    let mut left = Vec::new(alloc);
    for remedy in remedies {
        push_other(alloc, &mut left, steps, remedy)?;
    }
    Ok(left)
}

// Returns whether another candidate, within this one, saves nearly as much by the end by which the rows are judged.
fn outdoes_step(now: Ends, own: &Candidate, other: &Candidate) -> bool
    ensures { result ≡ outdoes_step now own.now other.now }
{
    other.remedy.is_within(&own.remedy)
        && brings_nearly(now.judged(), other.ends.judged(), own.ends.judged())
}

// Returns whether another candidate, within this one, saves nearly as much.
fn is_outdone(now: Ends, all: &[Candidate], own: &Candidate) -> bool
    ensures { result ≡ list_any (outdoes_step now own.now) all.now }
{
    for other in all {
        if outdoes_step(now, own, other) {
            return true;
        }
    }
    false
}

// Returns whether a candidate may be taken: it saves something, and no smaller set within it is tried that saves nearly as much.
fn may_be_taken(now: Ends, all: &[Candidate], own: &Candidate) -> bool
    ensures { result ≡ may_be_taken now all.now own.now }
{
    own.ends.judged() < now.judged() && !is_outdone(now, all, own)
}

// Returns whether a candidate leaves a sooner end than another that was found.
fn is_sooner(own: &Candidate, best: Option<&Candidate>) -> bool
    ensures { result ≡ is_sooner own.now (option_map (λ b. b.now) best.entry) }
{
    match best {
        Some(best) => own.ends.judged() < best.ends.judged(),
        None => true,
    }
}

// Returns what is taken: of those that may be the one that leaves the soonest end, and of equal ones the first.
fn best_taken(now: Ends, all: &[Candidate]) -> Option<&Candidate>
    ensures { option_map (λ b. b.now) result ≡ best_taken now all.now }
{
    let mut best = None;
    for own in all {
        if is_sooner(own, best) && may_be_taken(now, all, own) {
            best = Some(own);
        }
    }
    best
}

// Returns the best of some candidates once more, if one may be taken. `AllocError` says that memory was refused.
fn taken(alloc: Global, now: Ends, all: &[Candidate]) -> Result<Option<Candidate>, AllocError>
    ensures { IfOk result (λ step. step ≡ best_taken now all.now) }
{
    match best_taken(now, all) {
        Some(best) => Ok(Some(best.copy(alloc)?)),
        None => Ok(None),
    }
}

// Returns the best change of some rows on top of those that were made before, if there is one that saves anything. `AllocError` says that memory was refused.
fn best_step(
    rt: &(impl Threads + Sync),
    alloc: Global,
    question: &Question<'_>,
    steps: &[Candidate],
) -> Result<Option<Candidate>, AllocError>
    requires defs { length question.now.defs.now ≡ length question.now.rows.now }
    requires few_defs { All (λ d. d < MOST_ROWS) question.now.defs.now }
    requires few { length question.now.families.now ≤ MOST_COWNS }
    requires few_families { All (λ f. f < MOST_COWNS) question.now.families.now }
    ensures { IfOk result (IsBestStep (asked question.now) steps.now) }
{
    let Question {
        rows,
        defs,
        families,
        sharing,
        ..
    } = *question;
    let why = why_of(alloc, rows, sharing, defs, families.len())?;
    let greedy = greedy_asked(alloc, question)?;
    let routes = routes_of(alloc, &why, &greedy, families)?;
    let tried = remedies_for(alloc, &routes, families)?;
    let left_over = others(alloc, steps, &tried)?;
    let left = all_ends(rt, alloc, question, &left_over)?;
    let all = paired(alloc, &left_over, &left)?;
    taken(alloc, ends_now(&why, &greedy), &all)
}

/// Returns the best change of some rows, then the best on top of it, and so on, each with what it leaves, up to this many. Tried at each step is what is
/// tried for the chains of the rows as they are then, except for changes that were made before. The step takes what leaves the soonest end, and of equal ones
/// the first that is tried. That is the end of the greedy plan where a number of workers is given, else the span. It takes no set of cowns within which a
/// smaller one saves three quarters as much. It ends where nothing saves anything. `AllocError` says that memory was refused.
///
/// Each step makes some hundreds of plans at most. Threads share them out.
pub fn steps_of(
    rt: &(impl Threads + Sync),
    alloc: Global,
    question: &Question<'_>,
    most: u32,
) -> Result<Vec<Candidate>, AllocError>
    requires defs { length question.now.defs.now ≡ length question.now.rows.now }
    requires few_defs { All (λ d. d < MOST_ROWS) question.now.defs.now }
    requires few { length question.now.families.now ≤ MOST_COWNS }
    requires few_families { All (λ f. f < MOST_COWNS) question.now.families.now }
    ensures { IfOk result (λ steps. AreSteps (asked question.now) most steps.items) }
{
    let mut rows = question.rows.copy(alloc)?;
    let mut steps: Vec<Candidate> = Vec::new(alloc);
    for _ in 0..most {
        let step = Question {
            rows: &rows,
            ..*question
        };
        let Some(best) = best_step(rt, alloc, &step, &steps)? else {
            return Ok(steps);
        };
        rows = rows_after(alloc, &step, &best.remedy)?;
        steps.push(best)?;
    }
    Ok(steps)
}

// What is reported of the remedies that are tried, best first.

ghost use Rattle.std.specs.Prelude.{◌≡◌, ◌≤◌, [], ◌∷◌, IfOk, OnOk, filter, length, nat_lt};
ghost use Rattle.std.specs.List.{fold, list_any};
ghost use Rattle.boc_program.specs.declared.limits.TheConstants.{MOST_COWNS};
ghost use Rattle.boc_remedies.specs.Ends.{judged};
ghost use Rattle.boc_remedies.specs.InOrder.{first_place};
ghost use Rattle.boc_remedies.specs.Told.{AreCandidates, brings_nearly, brings_nearly_as, brings_nearly_for, is_told, outdoes, paired, ranked_with, told};
ghost use Rattle.boc_remedies.specs.Questions.{asked};

use crate::ends::{Ends, all_ends};
use crate::question::Question;
use crate::remedy::Remedy;
use std::alloc::{AllocError, Global};
use std::thread::Threads;

// What saves this many of 100 ticks of what another one saves is nearly as good.
const NEARLY: u128 = 75;

/// A remedy, and when the rows end with it.
#[derive(Drop, Debug)]
pub struct Candidate {
    pub remedy: Remedy,
    pub ends: Ends,
}

impl Candidate {
    /// Returns the same candidate once more. `AllocError` says that memory was refused.
    pub fn copy(&self, alloc: Global) -> Result<Candidate, AllocError>
        ensures { IfOk result (λ copy. copy ≡ self.now) }
    {
        Ok(Candidate {
            remedy: self.remedy.copy(alloc)?,
            ends: self.ends,
        })
    }
}

// Returns each remedy with what it leaves. `AllocError` says that memory was refused.
pub(crate) fn paired(
    alloc: Global,
    remedies: &[Remedy],
    left: &[Ends],
) -> Result<Vec<Candidate>, AllocError>
    requires { length left.now ≡ length remedies.now }
    ensures { IfOk result (λ all. all.items ≡ paired remedies.now left.now) }
{
    let mut all = Vec::new(alloc);
    for (place, remedy) in remedies.iter().enumerate() {
        all.push(Candidate {
            remedy: remedy.copy(alloc)?,
            ends: left[place],
        })?;
    }
    Ok(all)
}

// Returns whether what leaves `left` of these ticks saves nearly as much as what leaves `other`. Either may leave more than there was, and then it saves less
// than nothing.
pub(crate) fn brings_nearly(now: u64, left: u64, other: u64) -> bool
    ensures { result ≡ brings_nearly now left other }
{
    u128::from(left) * 100 <= u128::from(now) * (100 - NEARLY) + u128::from(other) * NEARLY
}

// Returns the same of the ends of greedy plans, where there are any.
fn brings_nearly_for(now: Option<u64>, left: Option<u64>, other: Option<u64>) -> bool
    ensures { result ≡ brings_nearly_for now left other }
{
    match (now, left, other) {
        (Some(now), Some(left), Some(other)) => brings_nearly(now, left, other),
        _ => true,
    }
}

// Returns whether one saves nearly as much as another by each measure: by the span, and by the end of the greedy plan, where there is one.
fn brings_nearly_as(now: Ends, left: Ends, other: Ends) -> bool
    ensures { result ≡ brings_nearly_as now left other }
{
    brings_nearly_for(now.greedy, left.greedy, other.greedy)
        && brings_nearly(now.span, left.span, other.span)
}

// Returns whether another candidate, within this one, saves nearly as much.
fn outdoes(now: Ends, own: &Candidate, other: &Candidate) -> bool
    ensures { result ≡ outdoes now own.now other.now }
{
    other.remedy.is_within(&own.remedy) && brings_nearly_as(now, other.ends, own.ends)
}

// Returns whether a candidate is reported: none within it saves nearly as much.
fn is_told(now: Ends, all: &[Candidate], own: &Candidate) -> bool
    ensures { result ≡ is_told now all.now own.now }
{
    for other in all {
        if outdoes(now, own, other) {
            return false;
        }
    }
    true
}

// Returns how many candidates at the front leave as much as this one or less.
fn place_of(ranked: &[Candidate], own: &Candidate) -> usize
    ensures is { result ≡ first_place (λ c. nat_lt (judged own.now.ends) (judged c.ends)) ranked.now }
    ensures within { result ≤ length ranked.now }
{
    for (place, other) in ranked.iter().enumerate() {
        if own.ends.judged() < other.ends.judged() {
            return place;
        }
    }
    ranked.len()
}

// Puts a candidate after those that leave as much or less.
fn rank(ranked: &mut Vec<Candidate>, own: Candidate) -> Result<(), AllocError>
    ensures { OnOk result (ranked.new.items ≡ ranked_with ranked.old.items own) }
{
    let place = place_of(ranked, &own);
    ranked.insert(place, own)?;
    Ok(())
}

// Puts a candidate among those that are reported, if it is.
fn rank_told(
    alloc: Global,
    ranked: &mut Vec<Candidate>,
    now: Ends,
    all: &[Candidate],
    own: &Candidate,
) -> Result<(), AllocError>
    ensures { OnOk result (ranked.new.items ≡ fold ranked_with ranked.old.items (filter (is_told now all.now) (own.now ∷ []))) }
{
    if is_told(now, all, own) {
        rank(ranked, own.copy(alloc)?)?;
    }
    Ok(())
}

/// Returns those candidates that are reported: all but a set of cowns within which a smaller one is tried that saves three quarters as much by each measure.
/// Those that leave the soonest end come first, and of equal ones the first that is tried. `now` has the ends of the rows as they are. `AllocError` says that
/// memory was refused.
pub fn told(alloc: Global, now: Ends, all: &[Candidate]) -> Result<Vec<Candidate>, AllocError>
    ensures { IfOk result (λ ranked. ranked.items ≡ told now all.now) }
{
    let mut ranked = Vec::new(alloc);
    for own in all {
        rank_told(alloc, &mut ranked, now, all, own)?;
    }
    Ok(ranked)
}

/// Returns what is reported of the remedies that are tried, each with what it leaves, best first. The rows are judged by the end of the greedy plan, where a
/// number of workers is given, else by the span. `now` has the ends of the rows as they are. `AllocError` says that memory was refused.
///
/// Each remedy takes a copy of the rows, and a plan or two of its own. Threads share out the remedies.
pub fn candidates(
    rt: &(impl Threads + Sync),
    alloc: Global,
    question: &Question<'_>,
    now: Ends,
    tried: &[Remedy],
) -> Result<Vec<Candidate>, AllocError>
    requires defs { length question.now.defs.now ≡ length question.now.rows.now }
    requires few { length question.now.families.now ≤ MOST_COWNS }
    ensures { IfOk result (λ candidates. AreCandidates (asked question.now) now tried.now candidates.items) }
{
    let left = all_ends(rt, alloc, question, tried)?;
    let all = paired(alloc, tried, &left)?;
    told(alloc, now, &all)
}

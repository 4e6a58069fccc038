// What is tried in several runs.

ghost use Rattle.std.specs.Prelude.{◌≡◌, ◌≤◌, ◌+◌, [], IfOk, OnOk, length, map, nat_lt};
ghost use Rattle.std.specs.List.{fold};
ghost use Rattle.boc_remedies.specs.InOrder.{first_place};
ghost use Rattle.boc_remedies.specs.Remedies.{is_same};
ghost use Rattle.boc_many_runs.specs.declared.counted.TheConstants.{MOST_JUDGED};
ghost use Rattle.boc_many_runs.specs.Union.{counted, most_tried, ranked_with};

use boc_remedies::Remedy;
use std::alloc::{AllocError, Global};

/// This many remedies are judged in all runs at most.
pub(crate) const MOST_JUDGED: usize = 60;

/// A remedy, and in how many runs it is tried.
#[derive(Drop)]
pub(crate) struct Counted {
    pub remedy: Remedy,
    pub runs: u64,
}

impl Counted {
    // Returns the same once more. `AllocError` says that memory was refused.
    fn copy(&self, alloc: Global) -> Result<Counted, AllocError>
        ensures { IfOk result (λ copy. copy ≡ self.now) }
    {
        let remedy = self.remedy.copy(alloc)?;
        let runs = self.runs;
        Ok(Counted { remedy, runs })
    }

    // One more run tries it.
    fn raise(&mut self) -> Result<(), AllocError>
        ensures { OnOk result (self.new ≡ record self.old { runs = self.old.runs + 1 }) }
    {
        self.runs = self.runs.checked_add(1).ok_or(AllocError)?;
        Ok(())
    }
}

// Returns the place of a remedy among those that were tried; their number where it is new.
fn place_of(all: &[Counted], remedy: &Remedy) -> usize
    ensures is { result ≡ first_place (λ c. is_same c.remedy remedy.now) all.now }
    ensures within { result ≤ length all.now }
{
    for (place, own) in all.iter().enumerate() {
        if own.remedy.is(remedy) {
            return place;
        }
    }
    all.len()
}

// Counts one more run that tries a remedy.
fn count(alloc: Global, all: &mut Vec<Counted>, remedy: &Remedy) -> Result<(), AllocError>
    ensures { OnOk result (all.new.items ≡ counted all.old.items remedy.now) }
{
    let place = place_of(all, remedy);
    if place < all.len() {
        all[place].raise()?;
        return Ok(());
    }
    let remedy = remedy.copy(alloc)?;
    all.push(Counted { remedy, runs: 1 })?;
    Ok(())
}

/// Counts what one more run tries.
pub(crate) fn count_all(
    alloc: Global,
    all: &mut Vec<Counted>,
    tried: &[Remedy],
) -> Result<(), AllocError>
    ensures { OnOk result (all.new.items ≡ fold counted all.old.items tried.now) }
{
    for remedy in tried {
        count(alloc, all, remedy)?;
    }
    Ok(())
}

// Returns how many at the front are tried in as many runs as this one or more.
fn rank_of(best: &[Counted], own: &Counted) -> usize
    ensures is { result ≡ first_place (λ c. nat_lt c.runs own.now.runs) best.now }
    ensures within { result ≤ length best.now }
{
    for (place, other) in best.iter().enumerate() {
        if other.runs < own.runs {
            return place;
        }
    }
    best.len()
}

// Puts one among those that most runs try, which it may drop out of at once.
fn rank(best: &mut Vec<Counted>, own: Counted) -> Result<(), AllocError>
    ensures ranked { OnOk result (best.new.items ≡ ranked_with best.old.items own) }
    ensures few { OnOk result (length best.new.items ≤ MOST_JUDGED) }
{
    let place = rank_of(best, &own);
    best.insert(place, own)?;
    best.truncate(MOST_JUDGED);
    Ok(())
}

// Returns those that most runs try, in their order. `AllocError` says that memory was refused.
fn ranked(alloc: Global, all: &[Counted]) -> Result<Vec<Counted>, AllocError>
    ensures ranked { IfOk result (λ best. best.items ≡ fold ranked_with [] all.now) }
    ensures few { IfOk result (λ best. length best.items ≤ MOST_JUDGED) }
{
    let mut best = Vec::new(alloc);
    for own in all {
        rank(&mut best, own.copy(alloc)?)?;
    }
    Ok(best)
}

/// Returns the remedies that most runs try, in their order. `AllocError` says that memory was refused.
pub(crate) fn most_tried(alloc: Global, all: &[Counted]) -> Result<Vec<Remedy>, AllocError>
    ensures are { IfOk result (λ remedies. remedies.items ≡ most_tried all.now) }
    ensures few { IfOk result (λ remedies. length remedies.items ≤ MOST_JUDGED) }
{
    let best = ranked(alloc, all)?;
    let mut remedies = Vec::new(alloc);
    for own in &best {
        remedies.push(own.remedy.copy(alloc)?)?;
    }
    Ok(remedies)
}

//! Which ends samples have, and how often.

ghost use Rattle.std.specs.Prelude.{◌≡◌, ℕ, ◌+◌, ◌<◌, ◌≤◌, List, [], ◌∷◌, ◌++◌, length, map, Some};
ghost use Rattle.std.specs.Prelude.{IsSome, MatchOption, OnOk};
ghost use Rattle.std.specs.List.{Contains};
ghost use Rattle.boc_program.specs.declared.limits.TheConstants.{MOST_RUNS};
ghost use Rattle.boc_outcomes.specs.Samples.{Sample, sample_of};
ghost use Rattle.boc_outcomes.specs.Tallies.{ArePlaces, HasOutcomes, IsTally, NoneHas, StandsAt, Tallies, widened};

use crate::asked::Asked;
use crate::bounds::{Bounds, widen};
use crate::sampling::Sampled;
use std::alloc::{AllocError, Global};
use std::cmp::Reverse;
use std::collections::BTreeMap;

/// An end that a program reached.
#[derive(Drop, Debug)]
pub struct Outcome {
    /// The values of the cowns.
    pub values: Vec<i64>,
    /// How many runs ended so.
    pub runs: u32,
    /// The number of the first of them, counted from 0.
    pub first: u32,
    /// The seed of the first of them.
    pub seed: u64,
    /// The smallest and the greatest of their spans, as cowns are exclusive.
    pub spans: Bounds,
}

/// The ends that a program reached in many runs, the most frequent first, and of those that are as frequent the one that came first.
#[derive(Drop, Debug)]
pub struct Outcomes {
    /// The smallest and the greatest number of rows of a run.
    pub rows: Bounds,
    /// The smallest and the greatest span of a run, as cowns are exclusive.
    pub spans: Bounds,
    pub all: Vec<Outcome>,
}

/// The ends so far, in the order in which they came, and the place at which those with the same values are.
#[derive(Drop)]
pub(crate) struct Tally {
    rows: Option<Bounds>,
    spans: Option<Bounds>,
    all: Vec<Outcome>,
    places: BTreeMap<Vec<i64>, usize>,
}

impl Outcome {
    // One more run ended so, with this span.
    fn count(&mut self, span: u64)
        requires { self.old.runs < MOST_RUNS }
        ensures { self.new ≡ record self.old { runs = self.old.runs + 1; spans = widened (Some self.old.spans) span } }
    {
        self.runs += 1;
        self.spans = self.spans.with(span);
    }
}

impl Tally {
    /// Makes a tally in which no run is counted.
    pub fn new(alloc: Global) -> Tally
        ensures { (seed : ℕ) → Tallies seed [] result }
    {
        Tally {
            rows: None,
            spans: None,
            all: Vec::new(alloc),
            places: BTreeMap::new(alloc),
        }
    }

    // Returns the place of the outcome that has the values of this sample, if there is one.
    fn place_of(&self, sampled: &Sampled) -> Option<usize>
        requires { ArePlaces self.now.all.items self.now.places }
        ensures { MatchOption result (NoneHas self.now.all.items sampled.now.values.items) (StandsAt self.now.all.items sampled.now.values.items) }
    {
        self.places.get(&sampled.values).copied()
    }

    // Counts the run of this number among those that ended as it did, or as the first that did.
    fn count(
        &mut self,
        alloc: Global,
        asked: &Asked,
        number: u32,
        sampled: &Sampled,
    ) -> Result<(), AllocError>
        requires few { number < MOST_RUNS }
        requires counted { (samples : List Sample) × (length samples ≡ number) × HasOutcomes asked.now.seed samples self.old.all.items }
        requires placed { ArePlaces self.old.all.items self.old.places }
        ensures rows { self.new.rows ≡ self.old.rows }
        ensures spans { self.new.spans ≡ self.old.spans }
        ensures all { OnOk result ((samples : List Sample) → length samples ≡ number → HasOutcomes asked.now.seed samples self.old.all.items
            → HasOutcomes asked.now.seed (samples ++ sample_of sampled.now ∷ []) self.new.all.items) }
        ensures placed { OnOk result (ArePlaces self.new.all.items self.new.places) }
    {
        match self.place_of(sampled) {
            Some(place) => {
                self.all[place].count(sampled.span);
                Ok(())
            }
            None => {
                let place = self.all.len();
                let values = Vec::from_slice(alloc, &sampled.values)?;
                self.all.push(Outcome {
                    values,
                    runs: 1,
                    first: number,
                    seed: asked.seed_of(number),
                    spans: Bounds::of(sampled.span),
                })?;
                let key = Vec::from_slice(alloc, &sampled.values)?;
                self.places.insert(key, place)?;
                Ok(())
            }
        }
    }

    // Adds what the draw of this number ended with.
    fn add(
        &mut self,
        alloc: Global,
        asked: &Asked,
        number: u32,
        sampled: &Sampled,
    ) -> Result<(), AllocError>
        requires few { number < MOST_RUNS }
        requires counted { (samples : List Sample) × (length samples ≡ number) × Tallies asked.now.seed samples self.old }
        ensures { OnOk result ((samples : List Sample) → length samples ≡ number → Tallies asked.now.seed samples self.old
            → Tallies asked.now.seed (samples ++ sample_of sampled.now ∷ []) self.new) }
    {
        self.rows = Some(widen(self.rows, u64::from(sampled.rows)));
        self.spans = Some(widen(self.spans, sampled.span));
        self.count(alloc, asked, number, sampled)
    }

    /// Adds what the draws from this number on ended with, in their order. `AllocError` says that memory was refused.
    pub fn add_all(
        &mut self,
        alloc: Global,
        asked: &Asked,
        from: u32,
        all: &[Sampled],
    ) -> Result<(), AllocError>
        requires few { from + length all.now ≤ MOST_RUNS }
        requires counted { (samples : List Sample) × (length samples ≡ from) × Tallies asked.now.seed samples self.old }
        ensures { OnOk result ((samples : List Sample) → length samples ≡ from → Tallies asked.now.seed samples self.old
            → Tallies asked.now.seed (samples ++ map sample_of all.now) self.new) }
    {
        for (place, sampled) in all.iter().enumerate() {
            self.add(alloc, asked, from + place as u32, sampled)?;
        }
        Ok(())
    }

    /// Returns the outcomes in their order, where a run is counted. It takes no memory.
    pub fn in_order(self) -> Outcomes
        requires rows { IsSome self.rows }
        requires spans { IsSome self.spans }
        ensures { (seed : ℕ) (samples : List Sample) → Tallies seed samples self → IsTally seed samples result }
    {
        let Tally {
            rows,
            spans,
            mut all,
            places: _,
        } = self;
        all.sort_unstable_by_key(|outcome| (Reverse(outcome.runs), outcome.first));
        Outcomes {
            rows: rows.unwrap(),
            spans: spans.unwrap(),
            all,
        }
    }
}

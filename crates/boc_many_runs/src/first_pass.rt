// The numbers of all runs, and how many runs try each remedy.

ghost use Rattle.std.specs.Prelude.{◌≡◌, ◌<◌, ◌≤◌, ◌++◌, ◌∷◌, [], ℕ, List, All, IfOk, MatchResult, OnOk, flat_map, length, map};
ghost use Rattle.std.specs.List.{fold};
ghost use Rattle.boc_program.specs.declared.limits.TheConstants.{MOST_COWNS};
ghost use Rattle.boc_outcomes.specs.Samples.{IsAsked};
ghost use Rattle.boc_many_runs.specs.Passes.{HasFound, HasNoRoomIn};
ghost use Rattle.boc_many_runs.specs.Runs.{manner};
ghost use Rattle.boc_many_runs.specs.Union.{counted};

use crate::counted::{Counted, count_all};
use crate::judging::Judging;
use crate::seen::{Numbers, Seen, seen_between};
use boc_draws::DrawFault;
use boc_outcomes::Asked;
use boc_progress::Progress;
use boc_registers::compiled::CompiledProgram;
use std::alloc::{AllocError, Global};
use std::thread::Threads;

/// After this many runs, which threads share out, what is found in them is added to the rest, and it is reported how far the runs are.
pub(crate) const ROUND: u32 = 256;

/// The numbers of the runs so far, and how many of them try each remedy.
#[derive(Drop)]
pub(crate) struct FirstPass {
    pub numbers: Vec<Numbers>,
    pub counted: Vec<Counted>,
}

impl FirstPass {
    // Makes what is found in no run yet, with space for this many. `AllocError` says that memory was refused.
    fn with_room(alloc: Global, runs: usize) -> Result<FirstPass, AllocError>
        ensures numbers { IfOk result (λ pass. pass.numbers.items ≡ []) }
        ensures counted { IfOk result (λ pass. pass.counted.items ≡ []) }
    {
        let numbers = Vec::with_capacity(alloc, runs)?;
        let counted = Vec::new(alloc);
        Ok(FirstPass { numbers, counted })
    }

    // Adds what is found in one more run.
    fn add(&mut self, alloc: Global, seen: &Seen) -> Result<(), AllocError>
        ensures numbers { OnOk result (self.new.numbers.items ≡ self.old.numbers.items ++ seen.now.numbers ∷ []) }
        ensures counted { OnOk result (self.new.counted.items ≡ fold counted self.old.counted.items seen.now.tried.items) }
    {
        self.numbers.push(seen.numbers)?;
        count_all(alloc, &mut self.counted, &seen.tried)
    }

    // Adds what is found in some more runs.
    fn add_all(&mut self, alloc: Global, all: &[Seen]) -> Result<(), AllocError>
        ensures numbers { OnOk result (self.new.numbers.items ≡ self.old.numbers.items ++ map (λ s. s.numbers) all.now) }
        ensures counted { OnOk result (self.new.counted.items ≡ fold counted self.old.counted.items (flat_map (λ s. s.tried.items) all.now)) }
    {
        for seen in all {
            self.add(alloc, seen)?;
        }
        Ok(())
    }
}

/// Returns the numbers of all runs, and how many of them try each remedy. `progress` receives after each round how many are done, of twice as many.
pub(crate) fn first_pass(
    rt: &(impl Threads + Sync),
    alloc: Global,
    program: &CompiledProgram<'_>,
    asked: &Asked,
    judging: &Judging<'_>,
    progress: &mut dyn Progress,
) -> Result<FirstPass, DrawFault>
    requires asked { IsAsked asked.now }
    requires few { length judging.now.families.now ≤ MOST_COWNS }
    requires few_families { All (λ f. f < MOST_COWNS) judging.now.families.now }
    ensures { MatchResult result (λ pass. HasFound program.now asked.now (manner judging.now) asked.now.runs pass.numbers.items pass.counted.items)
        (HasNoRoomIn program.now asked.now) }
{
    let mut pass = FirstPass::with_room(alloc, asked.runs as usize)?;
    let mut done = 0;
    while done < asked.runs {
        let next = asked.runs.min(done + ROUND);
        let all = seen_between(rt, alloc, program, asked, judging, done, next)?;
        pass.add_all(alloc, &all)?;
        done = next;
        progress.done(done as usize, 2 * asked.runs as usize);
    }
    Ok(pass)
}

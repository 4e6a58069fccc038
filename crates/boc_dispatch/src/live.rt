//! Behaviours that are not gone yet.

ghost use Rattle.std.specs.Prelude.{◌≡◌, ◌+◌, ◌==◌, ◌<◌, ◌^◌, ◌↔◌, ℕ, None, Some, Option, All, IsTrue, IfOk, length, slice_get, false, []};
ghost use Rattle.boc_program.specs.declared.limits.TheConstants.{MOST_COWNS};
ghost use Rattle.boc_runs.specs.declared.stage.Phase.TheVariants as phases;
ghost use Rattle.boc_runs.specs.declared.stage.Stage.TheVariants.{Asking, Recorded};
ghost use Rattle.boc_runs.specs.machine.Stages.{row_at};
ghost use Rattle.boc_runs.specs.machine.Steps.{flagging};
ghost use Rattle.boc_program.specs.Rising.{rising};
ghost use Rattle.boc_program.specs.Signatures.{AllBelow};
ghost use Rattle.boc_runs.specs.Serial.{inputs_of as inputs_at};
ghost use Rattle.boc_dispatch.specs.Inside.{behaviour_of, open_of};
ghost use Rattle.boc_dispatch.specs.KeptStages.{request_of};
ghost use Rattle.boc_dispatch.specs.Places.{in_phase};

use crate::kept_args::KeptArgs;
use crate::kept_stage::KeptStage;
use boc_eval::SpawnWish;
use boc_program::body::Body;
use boc_program::cowns::{are_cowns, rising_cowns};
use boc_program::held::HeldCowns;
use boc_program::limits::MOST_COWNS;
use boc_program::program::Program;
use boc_program::short::{CownNo, Cowns, HeldCown, Input};
use boc_runs::stage::{Phase, Stage};
use std::alloc::{AllocError, Global};

/// A behaviour from its Open until its last request is released.
#[derive(Drop, Debug)]
pub struct Live {
    /// The number of its Open, which is never given again; main's is 0.
    pub number: u32,
    /// The row that spawns it.
    pub parent: u32,
    /// The ticks that its parent had counted as it wished for it.
    pub offset: u32,
    /// The place of its body among the program's bodies.
    pub kind: u32,
    /// The values of its value parameters.
    pub args: KeptArgs,
    /// Its cowns in the order of its cown parameters.
    pub params: HeldCowns,
    /// Its cowns in rising order, which is that of its requests.
    pub cowns: HeldCowns,
    /// How many of its requests aren't granted, and one more before Own.
    pub awaited: u8,
    /// How far it is.
    pub stage: KeptStage,
    /// How many of its wishes were spawned.
    pub spawned: u32,
    /// The slot of the wish that is being enqueued.
    pub child: Option<u32>,
}

// Many behaviours wait at once: no memory is lost between the fields.
const _: () = prove!(size_of::<Option<Live>>() == 80);

/// Returns main as it is opened: its spawn is recorded, and it is ready.
pub fn main_behaviour() -> Live
    ensures behaviour { behaviour_of result ≡ record { kind = 0; args = []; cowns = [] } }
    ensures state { open_of result ≡ record { parent = 0; offset = 0; cowns = []; stage = Recorded 0 phases.Ready } }
    ensures fresh { (result.number ≡ 0) × (result.awaited ≡ 0) × (result.spawned ≡ 0) × (result.child ≡ None) }
{
    Live {
        number: 0,
        parent: 0,
        offset: 0,
        kind: 0,
        args: KeptArgs::new(),
        params: HeldCowns::new(),
        cowns: HeldCowns::new(),
        awaited: 0,
        stage: KeptStage::recorded(0, Phase::Ready),
        spawned: 0,
        child: None,
    }
}

// Returns some cowns in their order and in rising order. Mostly they rise as given.
#[tactic(auto, using(boc_program::proofs::RisingNumbers::rising_is))]
fn held_cowns(cowns: &Cowns) -> (HeldCowns, HeldCowns)
    requires { All (λ c. c < MOST_COWNS) cowns.now.items }
    ensures same { result.0 ≡ cowns.now }
    ensures rising { result.1.items ≡ rising cowns.now.items }
{
    let held = HeldCowns::of(cowns);
    let rising = if are_cowns(cowns, MOST_COWNS as u32) {
        held.duplicate()
    } else {
        HeldCowns::of(&rising_cowns(cowns))
    };
    (held, rising)
}

/// Returns the behaviour of a row's wish as it is opened, under a number of its own. `AllocError` says that memory was refused.
pub fn wished_behaviour(
    alloc: Global,
    number: u32,
    row: u32,
    wish: &SpawnWish,
) -> Result<Live, AllocError>
    requires cowns { All (λ c. c < MOST_COWNS) wish.now.cowns.items }
    requires kind { wish.now.kind < 2 ^ 32 }
    ensures behaviour { IfOk result (λ l. behaviour_of l ≡ record { kind = wish.now.kind; args = wish.now.args.items; cowns = wish.now.cowns.items }) }
    ensures state { IfOk result (λ l. open_of l ≡ record
        { parent = row; offset = wish.now.offset; cowns = rising wish.now.cowns.items; stage = Asking 0 false }) }
    ensures number { IfOk result (λ l. l.number ≡ number) }
    ensures awaited { IfOk result (λ l. l.awaited ≡ length l.cowns.items + 1) }
    ensures fresh { IfOk result (λ l. (l.spawned ≡ 0) × (l.child ≡ None)) }
{
    let (params, cowns) = held_cowns(&wish.cowns);
    let awaited = cowns.as_slice().len() as u8 + 1;
    Ok(Live {
        number,
        parent: row,
        offset: wish.offset,
        kind: wish.kind as u32,
        args: KeptArgs::of(alloc, &wish.args)?,
        params,
        cowns,
        awaited,
        stage: KeptStage::asking(0, false),
        spawned: 0,
        child: None,
    })
}

// Returns whether these are the cowns, with these values.
fn are_inputs_of(inputs: &[Input], cowns: &[HeldCown], values: &[i64]) -> bool
    requires { AllBelow (length values.now) cowns.now }
    ensures { IsTrue result ↔ (inputs.now ≡ inputs_at cowns.now values.now) }
{
    match (inputs, cowns) {
        ([], []) => true,
        ([input, more @ ..], [cown, others @ ..]) => {
            input.cown == CownNo::from(*cown)
                && input.value == values[*cown as usize]
                && are_inputs_of(more, others, values)
        }
        _ => false,
    }
}

impl Live {
    /// Returns whether it runs as this row on this body, these arguments and inputs. While it runs, its inputs are the values that its
    /// cowns have.
    pub fn runs_on(
        &self,
        program: &Program,
        values: &[i64],
        row: u32,
        body: &Body,
        args: &[i64],
        inputs: &[Input],
    ) -> bool
        requires kind { self.now.kind < length program.now.bodies }
        requires below { AllBelow (length values.now) self.now.params.items }
        ensures { IsTrue result ↔ ((self.now.stage ≡ Recorded row phases.Running) × (slice_get program.now.bodies self.now.kind ≡ Some body.now)
            × (args.now ≡ self.now.args.items) × (inputs.now ≡ inputs_at self.now.params.items values.now)) }
    {
        self.is_running(row)
            && self.has_body(program, body)
            && self.has_args(args)
            && self.has_inputs(values, inputs)
    }

    // Returns whether it runs as this row.
    fn is_running(&self, row: u32) -> bool
        ensures { IsTrue result ↔ (self.now.stage ≡ Recorded row phases.Running) }
    {
        let runs = Stage::Recorded {
            row,
            phase: Phase::Running,
        };
        self.stage.stage() == runs
    }

    // Returns whether this is its body.
    fn has_body(&self, program: &Program, body: &Body) -> bool
        requires { self.now.kind < length program.now.bodies }
        ensures { IsTrue result ↔ (slice_get program.now.bodies self.now.kind ≡ Some body.now) }
    {
        *program.body(self.kind as usize) == *body
    }

    // Returns whether these are its arguments.
    fn has_args(&self, args: &[i64]) -> bool
        ensures { IsTrue result ↔ (args.now ≡ self.now.args.items) }
    {
        args == self.args.as_slice()
    }

    // Returns whether these are its cowns, with these values.
    fn has_inputs(&self, values: &[i64], inputs: &[Input]) -> bool
        requires { AllBelow (length values.now) self.now.params.items }
        ensures { IsTrue result ↔ (inputs.now ≡ inputs_at self.now.params.items values.now) }
    {
        are_inputs_of(inputs, self.params.as_slice(), values)
    }

    /// Returns whether the last of `wishes` wishes is the next to be spawned, and nothing is being enqueued.
    pub fn opens_next(&self, wishes: u32) -> bool
        ensures { IsTrue result ↔ ((self.now.child ≡ None) × (wishes ≡ self.now.spawned + 1)) }
    {
        self.child.is_none() && wishes > 0 && wishes - 1 == self.spawned
    }

    /// Returns whether all of `wishes` wishes were spawned, and nothing is being enqueued.
    pub fn has_spawned(&self, wishes: u32) -> bool
        ensures { IsTrue result ↔ ((self.now.child ≡ None) × (wishes ≡ self.now.spawned)) }
    {
        self.child.is_none() && wishes == self.spawned
    }
}

impl Live {
    /// Returns the row under which its spawn is recorded, if it is.
    pub fn row(&self) -> Option<u32>
        ensures { result ≡ row_at self.now.stage }
    {
        match self.stage.stage() {
            Stage::Asking { .. } => None,
            Stage::Recorded { row, .. } => Some(row),
        }
    }

    /// Returns which request it releases next, where it has ended as this row.
    pub fn leaving(&self, row: u32) -> Option<usize>
        ensures { (request : ℕ) → (result ≡ Some request) ↔ (self.now.stage ≡ Recorded row (phases.Leaving request)) }
    {
        match self.stage.stage() {
            Stage::Recorded {
                row: own,
                phase: Phase::Leaving(request),
            } if own == row => Some(request),
            _ => None,
        }
    }

    /// Returns the phase in which it goes on with the flag of this request; after the last its enqueue has ended except for Own.
    pub fn flagging(&self, request: usize) -> Phase
        ensures phase { result ≡ flagging self.now.cowns.items request }
        ensures few { request_of result < 2 ^ 8 }
    {
        if request < self.cowns.as_slice().len() {
            Phase::Flagging(request)
        } else {
            Phase::Owning
        }
    }

    /// Puts it into this phase of its row.
    pub fn go_on(&mut self, row: u32, phase: Phase)
        requires { request_of phase < 2 ^ 8 }
        ensures { self.new ≡ in_phase row phase self.old }
    {
        self.stage = KeptStage::recorded(row, phase);
    }
}

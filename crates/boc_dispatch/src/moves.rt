//! What a step does to a behaviour.

ghost use Rattle.std.specs.Prelude.{◌≡◌, ◌==◌, ◌+◌, ◌^◌, ◌<◌, ◌≤◌, nat_lt, suc, false, None, Some, IsSome, ℕ, length, map, slice_get};
ghost use Rattle.boc_runs.specs.declared.stage.Phase.TheVariants as phases;
ghost use Rattle.boc_runs.specs.machine.Stages.{row_at};
ghost use Rattle.boc_runs.specs.machine.Steps.{flagging};
ghost use Rattle.boc_program.specs.Signatures.{AllBelow, CountsAre, signature_of};
ghost use Rattle.boc_runs.specs.Serial.{after_outputs, inputs_of as inputs};
ghost use Rattle.boc_dispatch.specs.Places.{in_phase, begun, with_child, with_spawn, exchanged, settled, with_row, spawn_of, granted as with_grant};

use crate::calls::Job;
use crate::kept_stage::KeptStage;
use crate::live::Live;
use boc_eval::{Frame, Spare};
use boc_program::short::Args;
use boc_registers::compiled::CompiledProgram;
use boc_runs::event::Event;
use boc_runs::stage::{Phase, Stage};
use boc_runs::values::{inputs_of, write_outputs};

impl Live {
    /// Starts it on the current values. Returns what its body is run on.
    pub fn begin<'a>(&mut self, program: &'a CompiledProgram<'a>, values: &[i64]) -> Job<'a>
        requires recorded { IsSome (row_at self.old.stage) }
        requires counts { let signature = slice_get (map signature_of program.now.bodies) self.old.kind in
            CountsAre signature (length self.old.args.items) (length self.old.params.items) }
        requires below { AllBelow (length values.now) self.old.params.items }
        ensures started { self.new ≡ begun result.row self.old }
        ensures row { row_at self.old.stage ≡ Some result.row }
        ensures body { slice_get program.now.bodies self.old.kind ≡ Some result.body }
        ensures args { result.args.items ≡ self.old.args.items }
        ensures inputs { result.inputs.items ≡ inputs self.old.params.items values.now }
    {
        let row = self.recorded_row();
        self.go_on(row, Phase::Running);
        Job {
            row,
            body: program.body(self.kind as usize),
            args: Args::try_from(self.args.as_slice()).unwrap(),
            inputs: inputs_of(&self.params.widened(), values),
        }
    }

    /// Starts it on the current values, as `begin` does, and on the memory of a body that has ended. Returns its row, and its body at its start.
    pub fn begin_on<'a>(
        &mut self,
        program: &'a CompiledProgram<'a>,
        values: &[i64],
        spare: &mut Spare<'a>,
    ) -> (u32, Frame<'a>)
        requires ready { IsSome spare.old }
        requires recorded { IsSome (row_at self.old.stage) }
        requires counts { let signature = slice_get (map signature_of program.now.bodies) self.old.kind in
            CountsAre signature (length self.old.args.items) (length self.old.params.items) }
        requires below { AllBelow (length values.now) self.old.params.items }
        ensures started { self.new ≡ begun result.0 self.old }
        ensures row { row_at self.old.stage ≡ Some result.0 }
        ensures body { slice_get program.now.bodies self.old.kind ≡ Some result.1.body }
        ensures frame { result.1 ≡ record {
          body = result.1.body;
          args = self.old.args.items;
          inputs = inputs self.old.params.items values.now;
          made = 0;
          ended = false;
        } }
    {
        let row = self.recorded_row();
        self.go_on(row, Phase::Running);
        let frame = spare.begin(
            program.body(self.kind as usize),
            self.args.as_slice(),
            self.params.as_slice(),
            values,
        );
        (row, frame)
    }

    /// Returns the row under which its spawn is recorded.
    pub fn recorded_row(&self) -> u32
        requires { IsSome (row_at self.now.stage) }
        ensures { row_at self.now.stage ≡ Some result }
    {
        self.row().unwrap()
    }

    /// Notes that a wish of it is being enqueued at this slot.
    pub fn begin_child(&mut self, child: u32)
        ensures { self.new ≡ with_child (Some child) self.old }
    {
        self.child = Some(child);
    }

    /// Notes that none of its wishes is being enqueued any more.
    pub fn end_child(&mut self)
        ensures { self.new ≡ with_child None self.old }
    {
        self.child = None;
    }

    /// Counts one more of its wishes as spawned.
    pub fn count_spawn(&mut self)
        requires { self.old.spawned + 1 < 2 ^ 32 }
        ensures { self.new ≡ with_spawn self.old }
    {
        self.spawned += 1;
    }

    /// Notes that this request is exchanged.
    pub fn ask(&mut self, request: usize)
        requires { request < length self.old.cowns.items }
        ensures { self.new ≡ exchanged request self.old }
    {
        let count = self.cowns.as_slice().len();
        prove!(request < count);
        self.stage = KeptStage::asking(request, true);
    }

    /// Notes that this request is settled, and that `granted` more are granted. Returns whether it was the last.
    pub fn settle_next(&mut self, request: usize, granted: u8) -> bool
        requires low { request < length self.old.cowns.items }
        requires awaited { granted ≤ self.old.awaited }
        ensures settles { self.new ≡ settled request granted self.old }
        ensures last { result ≡ (suc request == length self.old.cowns.items) }
    {
        let count = self.cowns.as_slice().len();
        self.awaited -= granted;
        self.stage = KeptStage::asking(request + 1, false);
        request + 1 == count
    }

    /// Records its spawn under this row. Returns the event.
    pub fn record(&mut self, row: u32) -> Event
        ensures recorded { self.new ≡ with_row row self.old }
        ensures event { result ≡ spawn_of row self.old }
    {
        self.go_on(row, self.flagging(0));
        Event::Spawn {
            row,
            parent: self.parent,
            offset: self.offset,
            cowns: self.cowns.widened(),
        }
    }

    /// Notes that this request is flagged.
    pub fn flag_next(&mut self, row: u32, request: usize)
        requires { request < length self.old.cowns.items }
        ensures { self.new ≡ in_phase row (flagging self.old.cowns.items (suc request)) self.old }
    {
        let count = self.cowns.as_slice().len();
        prove!(request < count);
        self.go_on(row, self.flagging(request + 1));
    }

    /// Ends its enqueue.
    pub fn wait(&mut self, row: u32)
        ensures { self.new ≡ in_phase row phases.Waiting self.old }
    {
        self.go_on(row, Phase::Waiting);
    }

    /// Counts one thing less that it awaits; where it awaits nothing more it waits no longer. Returns whether it is ready.
    pub fn grant_one(&mut self) -> bool
        requires { 0 < self.old.awaited }
        ensures grants { (row : ℕ) → row_at self.old.stage ≡ Some row → self.new ≡ with_grant row self.old }
        ensures early { 1 < self.old.awaited → self.new ≡ with_grant 0 self.old }
        ensures ready { result ≡ (self.old.awaited == 1) }
    {
        self.awaited -= 1;
        if self.awaited > 0 {
            return false;
        }
        if let Stage::Recorded { row, .. } = self.stage.stage() {
            self.go_on(row, Phase::Ready);
        }
        true
    }

    /// Notes that it has ended, and its outputs are written to its cowns. Returns whether it has any.
    pub fn end(&mut self, row: u32, values: &mut [i64], outputs: &[i64]) -> bool
        requires below { AllBelow (length values.old) self.old.params.items }
        requires both { length self.old.params.items ≡ length outputs.now }
        ensures ended { self.new ≡ in_phase row (phases.Leaving 0) self.old }
        ensures values { values.new ≡ after_outputs values.old self.old.params.items outputs.now }
        ensures cowns { result ≡ nat_lt 0 (length self.old.cowns.items) }
    {
        write_outputs(values, &self.params.widened(), outputs);
        self.go_on(row, Phase::Leaving(0));
        !self.cowns.as_slice().is_empty()
    }

    /// Notes that this request is released. Returns whether it was the last.
    pub fn leave_next(&mut self, row: u32, request: usize) -> bool
        requires { request < length self.old.cowns.items }
        ensures released { self.new ≡ in_phase row (phases.Leaving (suc request)) self.old }
        ensures last { result ≡ (suc request == length self.old.cowns.items) }
    {
        let count = self.cowns.as_slice().len();
        prove!(request < count);
        self.go_on(row, Phase::Leaving(request + 1));
        request + 1 == count
    }
}

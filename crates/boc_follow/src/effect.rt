// What a body does, found from its start to its end at once.

ghost use Rattle.std.specs.Prelude.{◌≡◌, ◌↔◌, false, true, length, map, IfOk, IsTrue, OnOk};
ghost use Rattle.boc_program.specs.Meaning.{meaning};
ghost use Rattle.boc_eval.specs.Frames.{wishes_of as all_wishes};
ghost use Rattle.boc_eval.specs.Wishes.{wish_of};
ghost use Rattle.boc_follow.specs.Standings.{underway_in};
ghost use Rattle.boc_follow.specs.Takes.{IsEndBy};

use arrayvec::ArrayVec;
use boc_eval::{Frame, Spare, SpawnWish, Stop};
use boc_program::body::EndStatus;
use boc_program::limits::MOST_HELD;
use boc_program::short::{CownNo, Cowns, Input};
use boc_registers::compiled::CompiledBody;
use boc_runs::event::Event;
use std::alloc::{AllocError, Global};

/// The values of a body's cown parameters where it ends.
pub type Outputs = ArrayVec<i64, MOST_HELD>;

/// What a body does, and how many of its wishes were spawned.
#[derive(Drop, Debug)]
pub struct Effect {
    pub wishes: Vec<SpawnWish>,
    pub spawned: usize,
    pub outputs: Outputs,
    pub ticks: u32,
    pub status: EndStatus,
    pub written: Cowns,
}

impl Effect {
    /// All wishes of the body were spawned.
    pub fn is_spent(&self) -> bool
        ensures { IsTrue result ↔ ((underway_in self.now).spawned ≡ length (underway_in self.now).means.wishes) }
    {
        self.spawned == self.wishes.len()
    }

    /// The body ends so.
    pub fn gives(&self, ticks: u32, status: EndStatus, written: &[CownNo]) -> bool
        ensures { IsTrue result ↔ ((ticks ≡ self.now.ticks) × (status ≡ self.now.status) × (written.now ≡ self.now.written.items)) }
    {
        self.ticks == ticks && self.status == status && written == self.written.as_slice()
    }

    /// The end of this row, whose body it is.
    pub fn end(&self, row: u32) -> Event
        ensures { IsEndBy (underway_in self.now) row result }
    {
        Event::End {
            row,
            ticks: self.ticks,
            status: self.status,
            written: Cowns::try_from(self.written.as_slice()).unwrap(),
        }
    }
}

// All wishes of a body that is at its start, which then has ended.
fn wishes_of(alloc: Global, frame: &mut Frame<'_>) -> Result<Vec<SpawnWish>, AllocError>
    requires fresh { frame.old.made ≡ 0 }
    requires begun { frame.old.ended ≡ false }
    ensures wishes { IfOk result (λ wishes. map wish_of wishes.items ≡ all_wishes frame.old) }
    ensures ended { OnOk result (frame.new ≡ record frame.old { made = length (all_wishes frame.old); ended = true }) }
{
    let mut wishes = Vec::new(alloc);
    while let Stop::Wants(wish) = frame.run() {
        wishes.push(wish)?;
    }
    Ok(wishes)
}

/// What a body does on its arguments and inputs. None of its wishes was spawned.
pub fn effect_of<'a>(
    alloc: Global,
    spare: &mut Spare<'a>,
    body: CompiledBody<'a>,
    args: &[i64],
    inputs: &[Input],
) -> Result<Effect, AllocError>
    requires args { length args.now ≡ body.params }
    requires inputs { length inputs.now ≡ body.cown_params }
    ensures { IfOk result (λ effect. underway_in effect ≡ record { means = meaning body.entry args.now inputs.now; spawned = 0 }) }
{
    let mut frame = Frame::renewed(alloc, spare, body, args, inputs)?;
    let wishes = wishes_of(alloc, &mut frame)?;
    let outcome = frame.into_outcome();
    let effect = Effect {
        wishes,
        spawned: 0,
        outputs: Outputs::try_from(outcome.outputs()).unwrap(),
        ticks: outcome.ticks(),
        status: outcome.status(),
        written: Cowns::try_from(outcome.written().as_slice()).unwrap(),
    };
    outcome.leave(spare);
    Ok(effect)
}

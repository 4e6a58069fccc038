// Whether a record is that of a run of a program.

ghost use Rattle.std.specs.Prelude.{◌≡◌, ◌≢◌, ℕ, []};
ghost use Rattle.boc_program.specs.Programs.{cown_count};
ghost use Rattle.boc_runs.specs.declared.event.Event.TheVariants.{Start};
ghost use Rattle.boc_follow.specs.Strays.{Follows, FollowsAll, IsToldAs};

use crate::follower::{Follower, TakeFault};
use crate::stray::{StrayFault, StrayFaultKind};
use boc_progress::Progress;
use boc_registers::compiled::CompiledProgram;
use boc_runs::event::Event;
use boc_runs::record::Record;
use std::alloc::{AllocError, Global};

// Progress is reported once in this many events.
const STRETCH: usize = 64;

// How a record diverges that has this event, which the program doesn't allow next. It is no start: those a program allows wherever the rule of records does.
fn kind_of(event: &Event) -> StrayFaultKind
    requires { (row : ℕ) → event.now ≢ Start row }
    ensures { IsToldAs result event.now }
{
    match event {
        Event::Spawn { .. } => StrayFaultKind::NotNextSpawn,
        Event::Start { .. } => unreachable!(),
        Event::End { .. } => StrayFaultKind::NotItsEnd,
    }
}

// Takes the events of a record in their order, up to the first that is not taken.
fn follow_all(
    follower: &mut Follower<'_>,
    recorded: &Record,
    progress: &mut dyn Progress,
) -> Result<(), StrayFault>
    requires none_yet { follower.old.log ≡ [] }
    requires cowns { recorded.now.cowns ≡ cown_count follower.old.program.cowns }
    ensures { FollowsAll follower.old.program recorded.now result follower.new }
{
    let events = recorded.events();
    let count = events.len();
    for place in 0..count {
        if place % STRETCH == 0 {
            progress.done(place, count);
        }
        let event = events.get(place);
        match follower.take(&event) {
            Ok(()) => {}
            Err(TakeFault::NotAllowed) => {
                let line = place as u64 + 2;
                let kind = kind_of(&event);
                return Err(StrayFault { line, kind });
            }
            Err(TakeFault::Memory) => return Err(StrayFault::from(AllocError)),
        }
    }
    progress.done(count, count);
    Ok(())
}

/// The run of a program that a record is of, followed to its end, or the first line of the record's text that diverges from the program.
///
/// What is handed out has taken all events of the record, so its `values` are those that the run ends with, and it knows what each row is. Memory is refused
/// with line 0, which says nothing of the record. `progress` receives at every 64th event how many are taken.
pub fn follow_record<'a>(
    alloc: Global,
    program: &'a CompiledProgram<'a>,
    recorded: &Record,
    progress: &mut dyn Progress,
) -> Result<Follower<'a>, StrayFault>
    ensures { Follows program.now recorded.now result }
{
    let mut follower = Follower::new(alloc, program)?;
    if recorded.cowns() != follower.cowns() {
        let kind = StrayFaultKind::OtherCowns;
        return Err(StrayFault { line: 1, kind });
    }
    follow_all(&mut follower, recorded, progress)?;
    Ok(follower)
}

//! What a run answers whose dispatcher is of another program, whose workers end before it has ended, or in which a fault was noted.

ghost use Rattle.std.specs.Prelude.{◌≡◌};

use crate::workers::{NO_COWNS, TRANSFER, program};
use boc_dispatch::Tell;
use boc_program::program::Program;
use boc_registers::compiled::CompiledProgram;
use boc_workers::{OpenGate, RunAnswer, RunFault, Shared};
use std::alloc::Global;
use std::marker::Brand;
use std::sync::ledger::{Blank, Ledger};

// Returns what a run of a dispatcher's program answers to another program, where its one worker ends at once and a fault was noted, if any.
fn closed<L: Ledger + Send + Sync>(
    alloc: Global,
    blank: Blank,
    own: &Program,
    asked: &Program,
    noted: bool,
) -> Result<RunAnswer, RunFault>
    requires name { blank.name ≡ L.name }
    requires parts { (blank.parts ≡ L.parts) × (blank.parts ≡ 1) }
{
    let (book, rest) = blank.open::<L>();
    let mut made = Vec::new(alloc);
    if made.push(0).is_err() {
        return Err(RunFault::Memory);
    }
    let Ok(compiled) = CompiledProgram::new(alloc, own) else {
        return Err(RunFault::Memory);
    };
    let Ok(mut shared) = Shared::<L, OpenGate>::new(alloc, &compiled, book, Tell::Nothing) else {
        return Err(RunFault::Memory);
    };
    if noted {
        shared.note(RunFault::NoThread);
    }
    shared.close(asked, Ok((made, rest)))
}

// Returns the fault of a run that is closed so.
fn fault_of(alloc: Global, own: &Program, asked: &Program, noted: bool) -> Option<RunFault> {
    closed::<Brand>(alloc, Blank::new(1), own, asked, noted).err()
}

#[test]
fn strangers_come_first_and_unfinished_runs_last(rt: HostRuntime) {
    let alloc = rt.alloc();
    let own = program(&rt, alloc, TRANSFER);
    let other = program(&rt, alloc, NO_COWNS);
    for (asked, noted, fault) in [
        (&other, false, RunFault::Stranger),
        (&other, true, RunFault::Stranger),
        (&own, true, RunFault::NoThread),
        (&own, false, RunFault::Unfinished),
    ] {
        assert_eq!(rt; fault_of(alloc, &own, asked, noted), Some(fault));
    }
}

// What a file given with an input reports: a program, or a record.

ghost use Rattle.std.specs.Prelude.{◌≡◌, MatchResult};
ghost use Rattle.boc_reader.specs.Spells.{Spells};
ghost use Rattle.boc_record.specs.RecordTexts.{IsTextOf};
ghost use Rattle.boc_run_commands.specs.Beside.{IsOfProgramFile, IsOfRecordFile};
ghost use Rattle.boc_run_commands.specs.Faults.{of_read_beside, of_record_beside, of_stray_beside};

use crate::fault::{Fault, FileFault, InputFault, Want};
use boc_follow::{StrayFault, StrayFaultKind};
use boc_program::program::Program;
use boc_reader::{ReadFault, ReadFaultKind, read_program};
use boc_record::{RecordFault, RecordFaultKind, read_record};
use boc_runs::record::Record;
use boc_text::Bytes;
use std::alloc::Global;

// Returns the program that a file spells.
pub(crate) fn program_beside(alloc: Global, text: &[u8]) -> Result<Program, Fault>
    ensures { MatchResult result (Spells text.now) (IsOfProgramFile text.now) }
{
    match read_program(alloc, text) {
        Ok(program) => Ok(program),
        Err(fault) => Err(of_read_beside(fault)),
    }
}

// Returns the record whose text a file is.
pub(crate) fn record_beside(alloc: Global, text: Vec<u8>) -> Result<Record, Fault>
    ensures { MatchResult result (IsTextOf text.items) (IsOfRecordFile text.items) }
{
    match read_record(alloc, &mut Bytes::new(text)) {
        Ok(recorded) => Ok(recorded),
        Err(fault) => Err(of_record_beside(fault)),
    }
}

// Returns the fault of a program text that is in a file.
pub(crate) fn of_read_beside(fault: ReadFault) -> Fault
    ensures { result ≡ of_read_beside fault fault.kind }
{
    match fault.kind {
        ReadFaultKind::Memory => Fault::Means(Want::Memory),
        _ => Fault::Input(InputFault::Beside(FileFault::Program(fault))),
    }
}

// Returns the fault of the text of a record that is in a file. It is read from memory, which no device fails to give.
pub(crate) fn of_record_beside(fault: RecordFault) -> Fault
    ensures { result ≡ of_record_beside fault fault.kind }
{
    match fault.kind {
        RecordFaultKind::Memory | RecordFaultKind::Device => Fault::Means(Want::Memory),
        _ => Fault::Input(InputFault::Beside(FileFault::Record(fault))),
    }
}

// Returns the fault of a record that is in a file, and diverges from its program.
pub(crate) fn of_stray_beside(fault: StrayFault) -> Fault
    ensures { result ≡ of_stray_beside fault fault.kind }
{
    match fault.kind {
        StrayFaultKind::Memory => Fault::Means(Want::Memory),
        _ => Fault::Input(InputFault::Beside(FileFault::Stray(fault))),
    }
}

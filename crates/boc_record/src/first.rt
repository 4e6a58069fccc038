// From a text to the first events of its record.

ghost use Rattle.std.specs.Prelude.{◌<◌};
ghost use Rattle.boc_record.specs.Reading.{CountsRead, ReadsFirst};

use crate::fault::{RecordFault, kind_of};
use crate::read::{next_item, read_header};
use crate::sink::EventSink;
use crate::verdict::RecordFaultKind;
use boc_rules::Judge;
use boc_text::{Lines, Source};
use std::alloc::Global;

/// Reads the given number of the first events of a record; all where there are fewer. What comes after them may be faulty, so a text is read up to its fault.
pub fn read_first<S: Source>(
    alloc: Global,
    source: &mut S,
    count: u64,
) -> Result<Judge, RecordFault>
    requires { S.failures source.old < u64.MAX }
    ensures first_or_fault { ReadsFirst count result (S.remaining source.old) (S.remaining source.new) }
    ensures failures { CountsRead result (S.failures source.old) (S.failures source.new) }
{
    let mut lines = Lines::new();
    let (version, cowns) = match read_header(&mut lines, source) {
        Ok(header) => header,
        Err(kind) => return Err(RecordFault { line: 1, kind }),
    };
    let Ok(mut sink) = Judge::new(alloc, cowns) else {
        let kind = RecordFaultKind::Memory;
        return Err(RecordFault { line: 1, kind });
    };
    let mut line = 2;
    while line - 2 < count {
        match next_item(&mut lines, source, version, &sink) {
            Ok(Some(event)) => {
                if let Err(fault) = sink.hand_over(event) {
                    let kind = kind_of(fault);
                    return Err(RecordFault { line, kind });
                }
            }
            Ok(None) => return Ok(sink),
            Err(kind) => return Err(RecordFault { line, kind }),
        }
        line += 1;
    }
    Ok(sink)
}

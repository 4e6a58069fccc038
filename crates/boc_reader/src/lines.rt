// The lines of a text.

ghost use Rattle.std.specs.Prelude.{◌≡◌, ◌≤◌, length, take};
ghost use Rattle.boc_program.specs.declared.limits.TheConstants.{MOST_TEXT};
ghost use Rattle.boc_reader.specs.FaultMeanings.{StandsIn};
ghost use Rattle.boc_reader.specs.Lines.{line_after};

use crate::fault::{ReadFault, ReadFaultKind};

/// Returns the fault of this kind at a byte of a text, or at its end where the byte is none of it.
pub(crate) fn fault_at(text: &[u8], kind: ReadFaultKind, at: usize) -> ReadFault
    requires { length text.now ≤ MOST_TEXT }
    ensures kind { result.kind ≡ kind }
    ensures at { at ≤ length text.now → result.at ≡ at }
    ensures stands { StandsIn result text.now }
{
    let at = at.min(text.len());
    ReadFault {
        line: line_at(text, at),
        at: at as u32,
        kind,
    }
}

/// Returns the number of the line in which a byte is, or the last one at the end of the text.
pub(crate) fn line_at(text: &[u8], at: usize) -> u32
    requires { length text.now ≤ MOST_TEXT }
    ensures { result ≡ line_after (take at text.now) }
{
    line_after(&text[..at.min(text.len())])
}

/// Returns the number of the line that these bytes lead to.
pub(crate) fn line_after(front: &[u8]) -> u32
    requires { length front.now ≤ MOST_TEXT }
    ensures { result ≡ line_after front.now }
{
    let mut line = 1;
    for byte in front {
        if *byte == b'\n' {
            line += 1;
        }
    }
    line
}

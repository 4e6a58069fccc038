// Records that diverge from a program: what the program does there, and what the record has.

ghost use Rattle.std.specs.Prelude.{IfOk, string_bytes};
ghost use Rattle.std.specs.Option.{option_copied};
ghost use Rattle.boc_said.specs.Lines.{AreLinesOf};

use crate::formed::number;
use crate::names::{called, program_cowns};
use crate::record::is_first_version;
use crate::run::line_at;
use boc_eval::Instance;
use boc_follow::{Follower, StrayFault, StrayFaultKind as Kind, TakeFault};
use boc_names::{CownNames, behaviour_text, def_names};
use boc_program::cowns::rising_cowns;
use boc_program::limits::MOST_COWNS;
use boc_program::program::Program;
use boc_program::short::{CownNo, Cowns};
use boc_reader::read_listed;
use boc_record::{put_line, read_record};
use boc_registers::compiled::CompiledProgram;
use boc_runs::event::Event;
use boc_runs::record::Record;
use boc_said::place::Text;
use boc_said::said::Part::{Bytes as Shown, Many, Quote, Words};
use boc_said::said::{Explained, Said, Told};
use boc_text::{Bytes, put_number};
use std::alloc::{AllocError, Global};

// The event of a record that diverges from a program.
#[derive(Clone, Copy)]
struct Strayed<'a> {
    record: &'a Record,
    place: usize,
    // The record is of the first version, in which ends have no cowns.
    is_first: bool,
    // What the defs of the program are called.
    defs: &'a [Vec<u8>],
}

/// Returns what is reported after the line of its fault of a record that diverges from this program.
pub fn explain_stray(
    alloc: Global,
    text: Text<'_>,
    program: Text<'_>,
    fault: StrayFault,
) -> Explained
    ensures { IfOk result (λ told. AreLinesOf (option_copied text.entry.name) (string_bytes told)) }
{
    let mut said = Said::new(alloc);
    if let Some(line) = line_at(text, fault.line) {
        said.set_place(fault.line, 1);
        said.set_subject(line)?;
        put_stray(&mut said, text, program, fault)?;
    }
    said.into_text(text.name)
}

fn put_stray(said: &mut Said, text: Text<'_>, program: Text<'_>, fault: StrayFault) -> Told {
    if fault.kind == Kind::Memory {
        return Ok(());
    }
    if fault.kind == Kind::OtherCowns {
        return match program_cowns(said.alloc, program.bytes) {
            Some(count) => said.about("the program has ", &[Many(count, "cown")]),
            None => Ok(()),
        };
    }
    // The first line is no event, and lines are counted from 1.
    let place = fault.line.saturating_sub(2) as usize;
    let is_known = text.whole && program.whole;
    if is_known && put_at(said, text.bytes, program.bytes, place)? {
        return Ok(());
    }
    let reason = if fault.kind == Kind::NotNextSpawn {
        "in the program its parent spawns at another tick, over other cowns, or no more"
    } else {
        "in the program it ends after other ticks, with other cowns written, or spawns first"
    };
    said.about(reason, &[])
}

// Reports what a program does instead of the event at this place of the record with this text, which diverges from it there. Answers whether that is known.
fn put_at(said: &mut Said, text: &[u8], program: &[u8], place: usize) -> Result<bool, AllocError> {
    let alloc = said.alloc;
    let Ok((program, listings)) = read_listed(alloc, program) else {
        return Ok(false);
    };
    let Ok(record) = read_record(alloc, &mut Bytes::new(Vec::from_slice(alloc, text)?)) else {
        return Ok(false);
    };
    let (record, is_first) = (&record, is_first_version(text));
    let defs = &def_names(alloc, &called(alloc, listings)?)?;
    put_of_program(
        said,
        &program,
        Strayed {
            record,
            place,
            is_first,
            defs,
        },
    )
}

// Reports what this program does instead of an event. Answers whether that is known.
fn put_of_program(
    said: &mut Said,
    program: &Program,
    strayed: Strayed<'_>,
) -> Result<bool, AllocError> {
    let compiled = CompiledProgram::new(said.alloc, program)?;
    let mut run = Follower::new(said.alloc, &compiled)?;
    put_instead(said, &mut run, strayed)
}

// Reports what a program that runs does instead of an event. Answers whether that is known.
fn put_instead(
    said: &mut Said,
    run: &mut Follower<'_>,
    strayed: Strayed<'_>,
) -> Result<bool, AllocError> {
    let Some(event) = event_at(run, strayed.record, strayed.place)? else {
        return Ok(false);
    };
    let Some(next) = next_of(run, row_of(&event)) else {
        return Ok(false);
    };
    put_next(said, &next, &event, strayed.is_first)?;
    put_names(said, run, strayed.defs, &event)?;
    put_differences(said, &next, &event, strayed.is_first)?;
    Ok(true)
}

// Returns the event at a place of a record, once the events before it are taken.
fn event_at(
    run: &mut Follower<'_>,
    record: &Record,
    place: usize,
) -> Result<Option<Event>, AllocError> {
    let events = record.events();
    if place >= events.len() {
        return Ok(None);
    }
    for before in 0..place {
        match run.take(&events.get(before)) {
            Ok(()) => {}
            Err(TakeFault::Memory) => return Err(AllocError),
            Err(TakeFault::NotAllowed) => return Ok(None),
        }
    }
    Ok(Some(events.get(place)))
}

// Returns the row of an event: that which spawns, starts or ends.
fn row_of(event: &Event) -> u32 {
    match event {
        Event::Spawn { parent, .. } => *parent,
        Event::Start { row } | Event::End { row, .. } => *row,
    }
}

// Returns the event by which a row of a run goes on, if it runs.
fn next_of(run: &Follower<'_>, row: u32) -> Option<Event> {
    match run.next_wish(row) {
        Some(wish) => Some(Event::Spawn {
            row: run.rows() as u32,
            parent: row,
            offset: wish.offset,
            cowns: rising_cowns(wish.cowns.as_slice()),
        }),
        None => run.end_of(row),
    }
}

// Returns the tick of a spawn, or the ticks and the status of an end, and the cowns of either.
#[rattlefmt::skip]
fn told_of(event: &Event) -> (u32, u32, &[CownNo]) {
    match event {
        Event::Spawn { offset, cowns, .. } => (*offset, 0, cowns),
        Event::End { ticks, status, written, .. } => (*ticks, *status as u32, written),
        Event::Start { .. } => (0, 0, &[]),
    }
}

// Returns whether two events are ends that wrote other cowns.
fn write_others(next: &Event, event: &Event) -> bool {
    let are_ends = matches!((next, event), (Event::End { .. }, Event::End { .. }));
    are_ends && told_of(next).2 != told_of(event).2
}

// Reports the line of a record that has what a row does next. In the first version ends have no cowns.
fn put_next(said: &mut Said, next: &Event, event: &Event, is_first: bool) -> Told {
    let is_untold = is_first && write_others(next, event);
    let mut told = next.duplicate();
    if is_first
        && !is_untold
        && let Event::End { written, .. } = &mut told
    {
        *written = Cowns::new();
    }
    let mut line = Vec::new(said.alloc);
    put_line(&mut line, &told)?;
    let _feed = line.pop();
    let words = if is_untold {
        "version 1 can't say how row {} ends in the program; version 2 says "
    } else {
        "in the program row {} continues with "
    };
    said.about(words, &[number(row_of(event)), Quote(&line)])
}

// Reports what the row of an event is called, and what it does next instead.
fn put_names(said: &mut Said, run: &Follower<'_>, defs: &[Vec<u8>], event: &Event) -> Told {
    let alloc = said.alloc;
    let row = row_of(event);
    let declared = run.program().cowns.as_slice();
    if declared.len() > MOST_COWNS {
        return Ok(());
    }
    let cowns = CownNames::of(alloc, declared)?;
    let name = match run.instance(row) {
        Some(instance) => behaviour_text(alloc, defs, &cowns, instance)?,
        None => return Ok(()),
    };
    let is_spawn = matches!(event, Event::Spawn { .. });
    let Some(wish) = run.next_wish(row) else {
        let end = if is_spawn {
            " without another spawn"
        } else {
            ""
        };
        let parts = [number(row), Quote(&name), Words(end)];
        return said.tell("row {} is {}, and ends", &parts);
    };
    let spawned = behaviour_text(alloc, defs, &cowns, &Instance::of(wish))?;
    let words = if is_spawn {
        "row {} is {}, and next spawns "
    } else {
        "row {} is {}, and before it ends it spawns "
    };
    said.tell(words, &[number(row), Quote(&name), Quote(&spawned)])
}

// Reports in what the event that a program has and that of the record differ, where both are of one kind.
fn put_differences(said: &mut Said, next: &Event, event: &Event, is_first: bool) -> Told {
    let (is, status, cowns) = told_of(next);
    let (told, other, held) = told_of(event);
    match (next, event) {
        (Event::Spawn { .. }, Event::Spawn { .. }) => {
            put_numbers(said, "it spawns it at its tick ", is, told)?;
            put_cowns(said, "it spawns it over ", cowns, held)
        }
        (Event::End { .. }, Event::End { .. }) => {
            put_numbers(said, "its ticks are ", is, told)?;
            put_numbers(said, "its status is ", status, other)?;
            if is_first && cowns != held {
                return put_untold(said, cowns);
            }
            put_cowns(said, "it writes ", cowns, held)
        }
        _ => Ok(()),
    }
}

// Reports which cowns a row writes in the program, where the first version of records can't say that.
fn put_untold(said: &mut Said, cowns: &[CownNo]) -> Told {
    let written = cowns_text(said.alloc, cowns)?;
    let words = "it writes {}, and in version 1 a record says that it writes all its cowns";
    said.tell(words, &[Shown(&written)])
}

// Reports two numbers, where they differ: the program's, and the record's.
fn put_numbers(said: &mut Said, words: &str, is: u32, told: u32) -> Told {
    if is == told {
        return Ok(());
    }
    let parts = [Words(words), number(is), number(told)];
    said.tell("{}{}, and the record has ", &parts)
}

// Reports two lists of cowns, where they differ: the program's, and the record's.
fn put_cowns(said: &mut Said, words: &str, cowns: &[CownNo], told: &[CownNo]) -> Told {
    if cowns == told {
        return Ok(());
    }
    let cowns = cowns_text(said.alloc, cowns)?;
    let told = cowns_text(said.alloc, told)?;
    let parts = [Words(words), Shown(&cowns), Shown(&told)];
    said.tell("{}{}, and the record has ", &parts)
}

// Returns cowns by their numbers.
fn cowns_text(alloc: Global, cowns: &[CownNo]) -> Result<Vec<u8>, AllocError> {
    let words: &[u8] = match cowns {
        [] => b"no cown",
        [_] => b"cown",
        _ => b"cowns",
    };
    let mut text = Vec::from_slice(alloc, words)?;
    for cown in cowns {
        text.push(b' ')?;
        put_number(&mut text, u64::from(*cown))?;
    }
    Ok(text)
}

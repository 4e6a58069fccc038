// Runs that reach more behaviours than there may be.

use crate::declared::Thing;
use crate::spot::{Word, words_of};
use boc_draws::{Depth, DrawFault, way_of};
use boc_program::limits::MOST_RUNNERS;
use boc_progress::Silent;
use boc_reader::read_program;
use boc_registers::compiled::CompiledProgram;
use boc_said::said::{Explained, Part, Said, Told};
use boc_said::view::line_number;
use std::alloc::{AllocError, Global};

// A `when` of a text: the number of the body in which it is, that of the def that it names, and its place. Main has the number 0.
#[derive(Clone, Copy)]
struct Spawn {
    by: usize,
    of: usize,
    at: usize,
}

/// How a run is drawn for which the steps are counted first.
#[derive(Clone, Copy, Debug)]
pub struct AtDepth {
    /// How many workers there are, from 1 to 16.
    pub workers: u32,
    /// The depth of the priorities by which they are picked.
    pub depth: Depth,
}

/// Returns what is reported of a program whose run reaches more behaviours than there may be. Where the run is drawn at a depth, that may be the run which
/// counts the steps for it, so that one is drawn again.
pub fn explain_behaviours(alloc: Global, program: &[u8], drawn: Option<AtDepth>) -> Explained {
    let mut said = Said::new(alloc);
    said.words("a run has at most 65535 behaviours, main included, and this one has more")?;
    if let Some(drawn) = drawn {
        put_draw(&mut said, program, drawn)?;
    }
    let words = words_of(alloc, program)?;
    let names = def_names(alloc, &words)?;
    let spawns = spawns_of(alloc, &words, &names)?;
    match first_again(alloc, names.len(), &spawns)? {
        Some(spawn) => put_again(&mut said, program, &names, spawn)?,
        None => said.words(
            "no def spawns itself: look for a `when` in a `repeat`, and for defs that each spawn several others",
        )?,
    }
    said.into_text(None)
}

// The draw that counts the steps reaches too many behaviours.
const COUNTING: &str =
    "for --depth a run with seed 0 counts the steps first: that run has more, so none was started at this depth";

// That one doesn't.
const COUNTED: &str =
    "for --depth a run with seed 0 counts the steps first: that run has no more, but one at this depth has";

// Writes which draw reaches too many behaviours: that which counts the steps, or one at the depth for which they are counted.
fn put_draw(said: &mut Said, program: &[u8], drawn: AtDepth) -> Told {
    let AtDepth { workers, depth } = drawn;
    let Ok(program) = read_program(said.alloc, program) else {
        return Ok(());
    };
    if !(1..=MOST_RUNNERS as u32).contains(&workers) {
        return Ok(());
    }
    let compiled = CompiledProgram::new(said.alloc, &program)?;
    let told = match way_of(said.alloc, &compiled, workers, Some(depth), &mut Silent) {
        Ok(_) => COUNTED,
        Err(DrawFault::Behaviours) => COUNTING,
        Err(DrawFault::Memory) => return Err(AllocError),
    };
    said.words(told)
}

// Returns the names of main and of the defs.
fn def_names<'a>(alloc: Global, words: &[Word<'a>]) -> Result<Vec<&'a [u8]>, AllocError> {
    let mut names: Vec<&'a [u8]> = Vec::new(alloc);
    names.push(b"main")?;
    for word in words {
        if word.thing == Some(Thing::Def) {
            names.push(word.bytes)?;
        }
    }
    Ok(names)
}

// Returns the `when`s of a text that name a def.
fn spawns_of(alloc: Global, words: &[Word<'_>], names: &[&[u8]]) -> Result<Vec<Spawn>, AllocError> {
    let mut spawns = Vec::new(alloc);
    let mut by: usize = 0;
    let mut begun: usize = 0;
    let mut is_name = false;
    for word in words {
        if is_name && let Some(of) = names.iter().position(|name| word.bytes == *name) {
            let at = word.at;
            spawns.push(Spawn { by, of, at })?;
        }
        is_name = word.is("when");
        if word.is("def") {
            begun = begun.saturating_add(1);
            by = begun;
        }
        if word.is("main") {
            by = 0;
        }
    }
    Ok(spawns)
}

// Returns the bodies that come about by each one, at whatever remove: for each of both whether it leads there. Each leads to itself.
fn onward_of(alloc: Global, count: usize, spawns: &[Spawn]) -> Result<Vec<Vec<bool>>, AllocError> {
    let mut onward: Vec<Vec<bool>> = Vec::new(alloc);
    for from in 0..count {
        onward.push(reached_from(alloc, from, count, spawns)?)?;
    }
    Ok(onward)
}

// Returns for each body whether it comes about by this one.
fn reached_from(
    alloc: Global,
    from: usize,
    count: usize,
    spawns: &[Spawn],
) -> Result<Vec<bool>, AllocError> {
    let mut reached = Vec::new(alloc);
    for body in 0..count {
        reached.push(body == from)?;
    }
    for _ in 0..count {
        for spawn in spawns {
            let comes = reached.get(spawn.by).copied().unwrap_or(false);
            if comes && let Some(of) = reached.get_mut(spawn.of) {
                *of = true;
            }
        }
    }
    Ok(reached)
}

// Returns the first `when` that comes about from main on and leads back to the body in which it is.
fn first_again(alloc: Global, count: usize, spawns: &[Spawn]) -> Result<Option<Spawn>, AllocError> {
    let onward = onward_of(alloc, count, spawns)?;
    for spawn in spawns {
        if leads(&onward, 0, spawn.by) && leads(&onward, spawn.of, spawn.by) {
            return Ok(Some(*spawn));
        }
    }
    Ok(None)
}

// Returns whether a body leads to another one.
fn leads(onward: &[Vec<bool>], from: usize, to: usize) -> bool {
    let reached = onward.get(from).and_then(|reached| reached.get(to));
    reached.copied().unwrap_or(false)
}

// Writes about a def that spawns itself again, at once or by way of another one.
#[rattlefmt::skip]
fn put_again(said: &mut Said, text: &[u8], names: &[&[u8]], spawn: Spawn) -> Told {
    let by = Part::Quote(names.get(spawn.by).copied().unwrap_or(b""));
    let of = Part::Quote(names.get(spawn.of).copied().unwrap_or(b""));
    let line = Part::Number(line_number(text, spawn.at));
    if spawn.by == spawn.of {
        let words = "{} may spawn itself too often, by the `when` on line {}: check the condition that ends it";
        return said.tell(words, &[by, line]);
    }
    let words = "{} may spawn itself too often through {}, by the `when` on line {}: check the condition that ends it";
    said.tell(words, &[by, of, line])
}

// Where a stream is best cut into several windows: where the fewest rows are alive.

ghost use Rattle.std.specs.Prelude.{◌<◌};
ghost use Rattle.boc_cut.specs.Counting.{CountsCut, CountsPart};

use crate::cutting::CutFault;
use crate::fans::Fans;
use crate::follow::Stream;
use crate::table::Table;
use boc_program::limits::MOST_ROWS;
use boc_progress::Progress;
use boc_stream::{StreamFault, StreamFaultKind};
use boc_text::Source;
use std::alloc::{AllocError, Global};

// The most places that are kept of a stream.
const MOST_PLACES: usize = 65_536;

/// A place at which a stream can be cut.
#[derive(Clone, Copy, PartialEq, Eq, Debug)]
pub struct Place {
    /// The rank of the row that is spawned next.
    pub rank: u64,
    /// How many rows are alive there.
    pub alive: usize,
}

/// Places of a stream, the best of each group of ranks.
#[derive(Drop)]
struct Places {
    list: Vec<Place>,
    /// How many ranks a place is for.
    width: u64,
    /// How many ranks the last place is for so far.
    filled: u64,
}

/// A window of several that cover a stream.
#[derive(Clone, Copy, PartialEq, Eq, Debug)]
pub struct Tile {
    /// The rank at which it begins.
    pub from: u64,
    /// How many rows are spawned in it.
    pub rows: u64,
    /// How many rows are alive where it begins.
    pub alive: usize,
    /// It fits into a record.
    pub fits: bool,
}

impl Places {
    // Joins places two by two.
    fn halve(&mut self) -> Result<(), AllocError> {
        let alloc = *self.list.allocator();
        let mut kept: Vec<Place> = Vec::new(alloc);
        for (number, place) in self.list.iter().enumerate() {
            match kept.last_mut() {
                Some(last) if number % 2 == 1 => {
                    if place.alive < last.alive {
                        *last = *place;
                    }
                }
                _ => kept.push(*place)?,
            }
        }
        self.list = kept;
        self.width = self.width.saturating_mul(2);
        Ok(())
    }

    // Notes a place.
    fn put(&mut self, rank: u64, alive: usize) -> Result<(), AllocError> {
        if self.filled < self.width {
            if let Some(last) = self.list.last_mut() {
                if alive < last.alive {
                    *last = Place { rank, alive };
                }
                self.filled = self.filled.saturating_add(1);
                return Ok(());
            }
        }
        if self.list.len() >= MOST_PLACES {
            self.halve()?;
        }
        self.list.push(Place { rank, alive })?;
        self.filled = 1;
        Ok(())
    }

    // Returns how many places are before those within reach of a rank; of the given number it is known.
    fn count_before(&self, known: usize, rank: u64, reach: u64) -> usize {
        let least = rank.saturating_sub(reach);
        for number in known..self.list.len() {
            if self.list[number].rank >= least {
                return number;
            }
        }
        self.list.len()
    }

    // Returns the place with the fewest rows alive that is within reach of a rank, or the one that is nearest. The given number of places
    // are before those within reach. Ranks rise, so only the last of these and those up to the first behind can be the nearest.
    fn best(&self, before: usize, rank: u64, reach: u64) -> Place {
        let mut best = Place { rank: 0, alive: 0 };
        let mut away = u64::MAX;
        for number in before.saturating_sub(1)..self.list.len() {
            let place = self.list[number];
            let far = place.rank.abs_diff(rank);
            let is_near = far <= reach;
            let was_near = away <= reach;
            let is_better = if is_near && was_near {
                place.alive < best.alive
            } else {
                far < away
            };
            if is_better {
                best = place;
                away = far;
            }
            if place.rank > rank && !is_near {
                return best;
            }
        }
        best
    }
}

// Returns whether a window of a number of rows, with a number of rows that were alive before, fits into a record.
fn fits(rows: u64, alive: usize) -> bool {
    let helpers = Fans::of(alive).helpers();
    rows.saturating_add(alive as u64)
        .saturating_add(helpers as u64)
        < MOST_ROWS as u64
}

// Returns the windows from one place up to the next, the last up to the end.
fn tiles_of(
    alloc: Global,
    places: &Places,
    rank: u64,
    count: u32,
) -> Result<Vec<Tile>, AllocError> {
    let mut tiles: Vec<Tile> = Vec::new(alloc);
    let width = rank / u64::from(count.max(1));
    let mut from = Place { rank: 0, alive: 0 };
    let mut before = 0;
    for number in 1..count.max(1) {
        let even = width.saturating_mul(u64::from(number));
        before = places.count_before(before, even, width / 4);
        let next = places.best(before, even, width / 4);
        if next.rank > from.rank {
            let rows = next.rank.saturating_sub(from.rank);
            tiles.push(Tile {
                from: from.rank,
                rows,
                alive: from.alive,
                fits: fits(rows, from.alive),
            })?;
            from = next;
        }
    }
    let rows = rank.saturating_sub(from.rank);
    tiles.push(Tile {
        from: from.rank,
        rows,
        alive: from.alive,
        fits: fits(rows, from.alive),
    })?;
    Ok(tiles)
}

// Follows a stream to its end, and notes how many rows are alive at each rank.
fn note_places<S: Source>(
    stream: &mut Stream,
    source: &mut S,
    table: &mut Table,
    places: &mut Places,
    progress: &mut dyn Progress,
) -> Result<(), StreamFaultKind>
    requires { S.failures source.old < u64.MAX }
    ensures failures { CountsPart result (S.failures source.old) (S.failures source.new) }
{
    for _ in 0..u64::MAX {
        let rank = table.rank;
        let alive = table.alive;
        if !stream.advance_over(source, table, progress)? {
            return Ok(());
        }
        if table.rank > rank && places.put(rank, alive).is_err() {
            return Err(StreamFaultKind::Memory);
        }
    }
    Ok(())
}

/// Returns the ranks at which a stream is best cut into a number of windows.
pub fn tiles<S: Source>(
    alloc: Global,
    source: &mut S,
    count: u32,
    progress: &mut dyn Progress,
) -> Result<Vec<Tile>, CutFault>
    requires { S.failures source.old < u64.MAX }
    ensures failures { CountsCut result (S.failures source.old) (S.failures source.new) }
{
    let mut stream = Stream::new(alloc);
    let mut table = Table::new(alloc, u64::MAX, None);
    let mut places = Places {
        list: Vec::new(alloc),
        width: 1,
        filled: 0,
    };
    match note_places(&mut stream, source, &mut table, &mut places, progress) {
        Ok(()) => {}
        Err(kind) => return Err(CutFault::Stream(stream.fault(kind))),
    }
    if table.rank == 0 {
        return Err(CutFault::Stream(StreamFault {
            line: stream.line,
            kind: StreamFaultKind::BeyondEnd,
        }));
    }
    match tiles_of(alloc, &places, table.rank, count) {
        Ok(tiles) => {
            progress.done(table.rank as usize, table.rank as usize);
            Ok(tiles)
        }
        Err(_) => Err(CutFault::Stream(stream.fault(StreamFaultKind::Memory))),
    }
}

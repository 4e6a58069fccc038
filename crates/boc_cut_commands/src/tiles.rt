// The command `cut --tiles`.

ghost use Rattle.std.specs.Prelude.{◌≡◌, ◌<◌, ◌≤◌, ◌++◌, IfErr, IfOk, OnOk, length};
ghost use Rattle.boc_run_commands.specs.Commands.{CountsSource, CountsSink, Leaves};
ghost use Rattle.boc_cut_commands.specs.CutAnswers.{IsOfWindow, IsTilesAnswer, RefusesWindow, tile_line, tiles_text};

use crate::cut::fault_of_cut;
use crate::notes::note_on_tiles;
use boc_cut::{Tile, tiles};
use boc_progress::Progress;
use boc_run_commands::{Fault, WindowFault};
use boc_text::{Sink, Source, put_number, put_out};
use std::alloc::{AllocError, Global};

/// Reads a stream to its end, and writes where it is best cut into a number of windows. The line of a window has the rank at which it begins, how many rows are
/// spawned in it, how many are alive when it begins, and whether a record can have as many. A note replaces others if one can't.
///
/// Nothing is written unless the whole answer is ready. After a failing write a beginning of it went out. `progress` receives how many rows were spawned so
/// far.
pub fn tiles_cmd<S: Source, W: Sink>(
    alloc: Global,
    count: u32,
    progress: &mut dyn Progress,
    notes: &mut Vec<u8>,
    source: &mut S,
    sink: &mut W,
) -> Result<(), Fault>
    requires source { S.failures source.old < u64.MAX }
    requires sink { W.failures sink.old < u64.MAX }
    ensures written { Leaves (IsTilesAnswer count) result (W.written sink.old) (W.written sink.new) }
    ensures refused { RefusesWindow result }
    ensures source { CountsSource result (S.failures source.old) (S.failures source.new) }
    ensures sink { CountsSink result (W.failures sink.old) (W.failures sink.new) }
{
    let found = tiles_found(alloc, count, progress, source)?;
    let large = found.iter().filter(|tile| !tile.fits).count();
    *notes = note_on_tiles(alloc, large, found.len())?;
    let text = tiles_text(alloc, &found)?;
    put_out(sink, &text)?;
    Ok(())
}

// Returns where a stream is best cut into a number of windows.
fn tiles_found<S: Source>(
    alloc: Global,
    count: u32,
    progress: &mut dyn Progress,
    source: &mut S,
) -> Result<Vec<Tile>, Fault>
    requires { S.failures source.old < u64.MAX }
    ensures few { IfOk result (λ tiles. length tiles.items ≤ count) }
    ensures refused { IfErr result IsOfWindow }
    ensures source { CountsSource result (S.failures source.old) (S.failures source.new) }
{
    match tiles(alloc, source, count, progress) {
        Ok(found) if found.len() <= count as usize => Ok(found),
        Ok(_) => Err(Fault::Window(WindowFault::Unmade)),
        Err(fault) => Err(fault_of_cut(fault)),
    }
}

// Returns a line for each of these windows.
fn tiles_text(alloc: Global, tiles: &[Tile]) -> Result<Vec<u8>, AllocError>
    ensures { IfOk result (λ text. text.items ≡ tiles_text tiles.now) }
{
    let mut text = Vec::new(alloc);
    for tile in tiles {
        put_tile(&mut text, tile)?;
    }
    Ok(text)
}

// Puts the line of a window.
fn put_tile(text: &mut Vec<u8>, tile: &Tile) -> Result<(), AllocError>
    ensures { OnOk result (text.new.items ≡ text.old.items ++ tile_line tile.now) }
{
    put_number(text, tile.from)?;
    text.push(b' ')?;
    put_number(text, tile.rows)?;
    text.push(b' ')?;
    put_number(text, tile.alive as u64)?;
    let end: &[u8] = if tile.fits { b" fits\n" } else { b" large\n" };
    text.extend_from_slice(end)
}

// Tables.

ghost use Rattle.std.specs.Prelude.{◌≡◌, ◌++◌, ◌∷◌, [], ◌*◌, ◌≤◌, length, map, flat_map, take, OnOk, OnErr};
ghost use Rattle.boc_table.specs.Tables.{table_text};

use crate::put::{put_lines, widths_of};
use crate::side::Side;
use std::alloc::{AllocError, Global};
use std::marker::Model;

/// Lines of texts, one for each column.
///
/// Contracts see the sides of the columns, and the lines.
#[derive(Drop)]
pub struct Table {
    sides: &'static [Side],
    // How many lines there are.
    count: usize,
    // How many bytes each text has, and the texts, one after the other.
    lens: Vec<usize>,
    bytes: Vec<u8>,
}

impl Model for Table {
    ghost use Rattle.std.specs.Prelude.{length};
    ghost use Rattle.boc_table.specs.Tables.{Grid};
    ghost use Rattle.boc_table.specs.Storage.{AreStored, lines_of};

    ghost Value = { Grid };

    ghost view = { λ t. record { sides = t.sides.now; lines = lines_of t.count (length t.sides.now) t.lens.items t.bytes.items } };

    ghost invariant = { λ t. AreStored t.count (length t.sides.now) t.lens.items t.bytes.items };
}

impl Table {
    /// Makes a table of no lines yet, of columns on these sides. It takes no memory.
    pub fn new(alloc: Global, sides: &'static [Side]) -> Table
        ensures sides { result.sides ≡ sides.now }
        ensures lines { result.lines ≡ [] }
    {
        Table {
            sides,
            count: 0,
            lens: Vec::new(alloc),
            bytes: Vec::new(alloc),
        }
    }

    /// Appends one more line, a text for each column. `AllocError` says that memory was refused. The table is then as before.
    pub fn put_line(&mut self, cells: &[&[u8]]) -> Result<(), AllocError>
        requires { length cells.now ≡ length self.old.sides }
        ensures ok { OnOk result (self.new ≡ record self.old { lines = self.old.lines ++ (map (λ c. c.now) cells.now) ∷ [] }) }
        ensures err { OnErr result (self.new ≡ self.old) }
    {
        let count = self.count.checked_add(1).ok_or(AllocError)?;
        put_cells(&mut self.lens, &mut self.bytes, cells)?;
        self.count = count;
        Ok(())
    }
}

// Puts texts after those that are stored, and their lengths. After a refusal of memory all is as before.
fn put_cells(lens: &mut Vec<usize>, bytes: &mut Vec<u8>, cells: &[&[u8]]) -> Result<(), AllocError>
    ensures lens { OnOk result (lens.new.items ≡ lens.old.items ++ map (λ c. length c.now) cells.now) }
    ensures bytes { OnOk result (bytes.new.items ≡ bytes.old.items ++ flat_map (λ c. c.now) cells.now) }
    ensures lens_stay { OnErr result (lens.new.items ≡ lens.old.items) }
    ensures bytes_stay { OnErr result (bytes.new.items ≡ bytes.old.items) }
{
    let lens_before = lens.len();
    let bytes_before = bytes.len();
    let put = push_cells(lens, bytes, cells);
    if put.is_err() {
        lens.truncate(lens_before);
        bytes.truncate(bytes_before);
    }
    put
}

// The same, where some of the texts stay after after a refusal of memory.
fn push_cells(lens: &mut Vec<usize>, bytes: &mut Vec<u8>, cells: &[&[u8]]) -> Result<(), AllocError>
    ensures lens { OnOk result (lens.new.items ≡ lens.old.items ++ map (λ c. length c.now) cells.now) }
    ensures bytes { OnOk result (bytes.new.items ≡ bytes.old.items ++ flat_map (λ c. c.now) cells.now) }
    ensures lens_front { take (length lens.old.items) lens.new.items ≡ lens.old.items }
    ensures bytes_front { take (length bytes.old.items) bytes.new.items ≡ bytes.old.items }
{
    for cell in cells {
        bytes.extend_from_slice(cell)?;
        lens.push(cell.len())?;
    }
    Ok(())
}

/// Appends a table to a text. `AllocError` says that memory was refused.
pub fn put_table(text: &mut Vec<u8>, table: &Table) -> Result<(), AllocError>
    ensures { OnOk result (text.new.items ≡ text.old.items ++ table_text table.now.sides table.now.lines) }
{
    let widths = widths_of(
        *text.allocator(),
        table.sides.len(),
        table.count,
        &table.lens,
    )?;
    put_lines(
        text,
        table.sides,
        &widths,
        table.count,
        &table.lens,
        &table.bytes,
    )
}

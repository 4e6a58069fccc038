// What each remedy saves, run by run.

ghost use Rattle.std.specs.Prelude.{◌≡◌, [], IfOk, OnOk, length, map, replicate};
ghost use Rattle.std.specs.List.{fold};
ghost use Rattle.boc_many_runs.specs.Lines.{in_run};
ghost use Rattle.boc_many_runs.specs.Runs.{pushed};

use std::alloc::{AllocError, Global};
use std::marker::Model;

/// What a remedy saves in each run. Contracts see the list of these numbers.
#[derive(Drop)]
pub(crate) struct Column {
    less: Vec<i64>,
}

impl Model for Column {
    ghost use Rattle.std.specs.Prelude.{ℤ, List};

    ghost Value = { List ℤ };

    ghost view = { λ c. c.less.items };

    ghost invariant = { λ c. Unit {0} };
}

impl Column {
    ghost use Rattle.std.specs.Prelude.{◌++◌, ◌∷◌};

    // Makes a column for this many runs. `AllocError` says that memory was refused.
    fn with_room(alloc: Global, runs: usize) -> Result<Column, AllocError>
        ensures { IfOk result (λ column. column ≡ []) }
    {
        let less = Vec::with_capacity(alloc, runs)?;
        Ok(Column { less })
    }

    // Appends what the remedy saves in one more run. `AllocError` says that memory was refused.
    fn push(&mut self, less: i64) -> Result<(), AllocError>
        ensures { OnOk result (self.new ≡ self.old ++ less ∷ []) }
    {
        self.less.push(less)?;
        Ok(())
    }

    /// Returns what the remedy saves in the run of this number; 0 where there is none.
    pub fn in_run(&self, number: usize) -> i64
        ensures { result ≡ in_run self.now number }
    {
        match self.less.get(number) {
            Some(less) => *less,
            None => 0,
        }
    }

    /// Returns how many runs there are.
    pub fn len(&self) -> usize
        ensures { result ≡ length self.now }
    {
        self.less.len()
    }

    /// Returns the same numbers once more. `AllocError` says that memory was refused.
    pub fn numbers(&self, alloc: Global) -> Result<Vec<i64>, AllocError>
        ensures { IfOk result (λ numbers. numbers.items ≡ self.now) }
    {
        Vec::from_slice(alloc, &self.less)
    }
}

/// Makes columns of no run yet, for this many runs. `AllocError` says that memory was refused.
pub(crate) fn empty_columns(
    alloc: Global,
    count: usize,
    runs: usize,
) -> Result<Vec<Column>, AllocError>
    ensures { IfOk result (λ columns. columns.items ≡ replicate count []) }
{
    let mut columns = Vec::with_capacity(alloc, count)?;
    for _ in 0..count {
        columns.push(Column::with_room(alloc, runs)?)?;
    }
    Ok(columns)
}

// Appends to each column what its remedy saves in one more run.
fn push_run(columns: &mut [Column], less: &[i64]) -> Result<(), AllocError>
    ensures { OnOk result (columns.new ≡ pushed columns.old less.now) }
{
    let count = columns.len().min(less.len());
    for place in 0..count {
        columns[place].push(less[place])?;
    }
    Ok(())
}

/// Appends to each column what its remedy saves in some more runs. `AllocError` says that memory was refused.
pub(crate) fn push_runs(columns: &mut [Column], runs: &[Vec<i64>]) -> Result<(), AllocError>
    ensures { OnOk result (columns.new ≡ fold pushed columns.old (map (λ r. r.items) runs.now)) }
{
    for less in runs {
        push_run(columns, less)?;
    }
    Ok(())
}

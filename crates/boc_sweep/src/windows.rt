// For each place the greatest value of the stretches that hold it.

ghost use Rattle.std.specs.Prelude.{◌≡◌, ℕ, ◌<◌, ◌≤◌, ◌+◌, ◌-◌, ◌^◌, ◌∷◌, ◌++◌, [], max, Contains, List, length, replicate, IfOk, OnOk, slice_index, slice_set};
ghost use Rattle.boc_sweep.specs.declared.windows.Stretch.{Stretch};
ghost use Rattle.boc_sweep.specs.Tops.{AreByLength, AreOfLength, AreTops, AreWindows, HasRaised, list_at, lists_of};

use boc_program::limits::MOST_ROWS;
use std::alloc::{AllocError, Global};

/// The places from one on and before another, and a value.
#[derive(Clone, Copy)]
pub struct Stretch {
    /// The first place.
    pub low: u32,
    /// The place after the last.
    pub high: u32,
    /// The value.
    pub value: u64,
}

// Each value becomes the greater of itself and the one that is this many places before it.
fn halve(values: &mut [u64], step: usize)
    requires { 0 < step }
    ensures len { length values.new ≡ length values.old }
    ensures low { (j : ℕ) → j < step → slice_index values.new j ≡ slice_index values.old j }
    ensures high { (j : ℕ) → step ≤ j → j < length values.old → slice_index values.new j ≡ max (slice_index values.old (j - step)) (slice_index values.old j) }
{
    let mut place = values.len();
    while place > step {
        place -= 1;
        values[place] = values[place - step].max(values[place]);
    }
}

// The value at this place becomes no smaller than this.
fn raise(values: &mut [u64], place: usize, value: u64)
    requires { place < length values.old }
    ensures { values.new ≡ slice_set values.old place (max value (slice_index values.old place)) }
{
    values[place] = value.max(values[place]);
}

// Windows of this size are raised to the values of stretches that are no shorter, and less than twice as long: each by the window at its first place and
// by the one that ends with it.
fn cover(values: &mut [u64], stretches: &[Stretch], size: usize)
    requires some { 0 < size }
    requires inside { (r : Stretch) → Contains stretches.now r → r.high ≤ length values.old }
    requires long { (r : Stretch) → Contains stretches.now r → r.low + size ≤ r.high }
    requires short { (r : Stretch) → Contains stretches.now r → r.high < r.low + (size + size) }
    ensures len { length values.new ≡ length values.old }
    ensures raised { HasRaised stretches.now size values.old (length stretches.now) values.new }
{
    for stretch in stretches {
        raise(values, stretch.low as usize, stretch.value);
        raise(values, stretch.high as usize - size, stretch.value);
    }
}

// Windows of this size instead of those that are twice as large, which cover the stretches of this length too.
fn split(values: &mut [u64], stretches: &[Stretch], size: usize)
    requires some { 0 < size }
    requires inside { (r : Stretch) → Contains stretches.now r → r.high ≤ length values.old }
    requires long { (r : Stretch) → Contains stretches.now r → r.low + size ≤ r.high }
    requires short { (r : Stretch) → Contains stretches.now r → r.high < r.low + (size + size) }
    ensures len { length values.new ≡ length values.old }
    ensures windows { (all : List Stretch) → ((r : Stretch) → Contains all r → r.high ≤ length values.old) → AreOfLength all stretches.now size
        → AreWindows all (length values.old) (size + size) (size + size) (slice_index values.old)
        → AreWindows all (length values.old) size size (slice_index values.new) }
{
    halve(values, size);
    cover(values, stretches, size);
}

// As many lists as there are lengths that differ by a factor of two: a stretch of all places has fewer than 2 ^ 16.
const LENGTHS: usize = 16;

const _: () = prove!(MOST_ROWS < 1 << LENGTHS);

// Puts a stretch into the list at a place.
fn put(lists: &mut [Vec<Stretch>], place: usize, stretch: Stretch) -> Result<(), AllocError>
    requires { place < length lists.old }
    ensures { OnOk result (lists_of lists.new ≡ slice_set (lists_of lists.old) place (list_at lists.old place ++ stretch ∷ [])) }
{
    lists[place].push(stretch)?;
    Ok(())
}

// As many empty lists.
fn no_lists(alloc: Global) -> Result<Vec<Vec<Stretch>>, AllocError>
    ensures { IfOk result (λ lists. lists_of lists.items ≡ replicate LENGTHS []) }
{
    let mut lists = Vec::with_capacity(alloc, LENGTHS)?;
    for _ in 0..LENGTHS {
        lists.push_reserved(Vec::new(alloc));
    }
    Ok(lists)
}

// Returns the stretches by their length: at place k those of 2 ^ k places and more, but of fewer than twice as many.
fn by_length(alloc: Global, stretches: &[Stretch]) -> Result<Vec<Vec<Stretch>>, AllocError>
    requires { (r : Stretch) → Contains stretches.now r → r.high ≤ MOST_ROWS }
    ensures count { IfOk result (λ lists. length lists.items ≡ LENGTHS) }
    ensures lists { IfOk result (λ lists. AreByLength stretches.now (list_at lists.items)) }
{
    let mut lists = no_lists(alloc)?;
    for stretch in stretches {
        if stretch.low < stretch.high {
            let place = (stretch.high - stretch.low).ilog2() as usize;
            put(&mut lists, place, *stretch)?;
        }
    }
    Ok(lists)
}

/// Returns for each of the given number of places the greatest value of the stretches that hold it, and 0 where there is none.
pub fn all_tops(alloc: Global, stretches: &[Stretch], count: usize) -> Result<Vec<u64>, AllocError>
    requires inside { (r : Stretch) → Contains stretches.now r → r.high ≤ count }
    requires few { count ≤ MOST_ROWS }
    ensures { IfOk result (λ t. AreTops stretches.now count t.items) }
{
    let lists = by_length(alloc, stretches)?;
    let mut values = vec![in alloc; 0; count]?;
    let mut place = LENGTHS;
    let mut size = 1 << LENGTHS;
    while place > 0 {
        place -= 1;
        size /= 2;
        split(&mut values, &lists[place], size);
    }
    Ok(values)
}

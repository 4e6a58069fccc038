// A histogram.

ghost use Rattle.std.specs.Prelude.{◌≡◌, ◌≤◌, IfOk};
ghost use Rattle.boc_many_runs.specs.Bins.{bin_at, bins_for, bins_of, first_of, last_of, many_within, width_of};

use std::alloc::{AllocError, Global};

// There are this many bins at most.
const MOST_BINS: u64 = 10;

/// The numbers from the first to the last, and how many runs have one of these.
#[derive(Clone, Copy, PartialEq, Eq, Debug)]
pub struct Bin {
    pub first: u64,
    pub last: u64,
    pub runs: u64,
}

// Returns how many of some numbers are from the first to the last.
fn many_within(numbers: &[u64], first: u64, last: u64) -> u64
    ensures { result ≡ many_within numbers.now first last }
{
    let mut many = 0;
    for number in numbers {
        if first <= *number && *number <= last {
            many += 1;
        }
    }
    many
}

// Returns the bin at this place.
fn bin_at(numbers: &[u64], least: u64, most: u64, place: u64) -> Bin
    requires order { least ≤ most }
    requires there { first_of least most place ≤ most }
    ensures { result ≡ bin_at numbers.now least most place }
{
    let tenth = (most - least) / MOST_BINS;
    let first = least + place * (tenth + 1);
    let last = most.min(first.saturating_add(tenth));
    let runs = many_within(numbers, first, last);
    Bin { first, last, runs }
}

/// Returns the bins of numbers between these two bounds: they are equally wide, at most ten, and the last ends with the most. `AllocError` says that memory
/// was refused.
#[tactic(auto, using(crate::proofs::Ranges::map_range_more))]
pub(crate) fn bins_of(
    alloc: Global,
    numbers: &[u64],
    least: u64,
    most: u64,
) -> Result<Vec<Bin>, AllocError>
    requires { least ≤ most }
    ensures { IfOk result (λ bins. bins.items ≡ bins_of numbers.now least most) }
{
    let width = (most - least) / MOST_BINS + 1;
    let count = (most - least) / width + 1;
    let mut bins = Vec::new(alloc);
    for place in 0..count {
        bins.push(bin_at(numbers, least, most, place))?;
    }
    Ok(bins)
}

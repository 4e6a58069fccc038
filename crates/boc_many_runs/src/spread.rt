// The least, the median and the most of some numbers.

ghost use Rattle.std.specs.Prelude.{◌≡◌, ◌<◌, IfOk, length};
ghost use Rattle.std.specs.Ordering.{int_cmp};
ghost use Rattle.boc_many_runs.specs.Spreads.{AreSpread, IsSpread};

/// The least, the median and the most of some numbers. Of an even number of them the median is the lower of the two in the middle.
#[derive(Clone, Copy, PartialEq, Eq, Debug)]
pub struct Spread {
    pub least: u64,
    pub median: u64,
    pub most: u64,
}

/// Returns the least, the median and the most of some numbers, which are put in rising order.
pub(crate) fn spread_of(mut numbers: Vec<u64>) -> Spread
    requires { 0 < length numbers.items }
    ensures { IsSpread numbers.items result }
{
    numbers.sort_unstable();
    let last = numbers.len() - 1;
    Spread {
        least: numbers[0],
        median: numbers[last / 2],
        most: numbers[last],
    }
}

/// Returns the same of numbers that may be less than 0.
pub(crate) fn signed_spread_of(mut numbers: Vec<i64>) -> (i64, i64, i64)
    requires { 0 < length numbers.items }
    ensures { AreSpread int_cmp numbers.items result.0 result.1 result.2 }
{
    numbers.sort_unstable();
    let last = numbers.len() - 1;
    (numbers[0], numbers[last / 2], numbers[last])
}

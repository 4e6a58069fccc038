// Helpers: rows through which the first row of a window spawns those that were alive before it, with few ticks between them.

ghost use Rattle.std.specs.Prelude.{◌≤◌};

use boc_program::limits::MOST_ROWS;

// So few rows have no helpers.
const FEW: usize = 8;

/// How rows that were alive where a window begins are spawned: each spawner spawns at most `width`. `first` of them are
/// children of the window's first row; these are helpers where there is a level of them.
#[derive(Clone, Copy, PartialEq, Eq, Debug)]
pub struct Fans {
    /// How many rows there are.
    pub rows: usize,
    /// It is at least 1.
    pub width: usize,
    /// How many helpers are children of the first row; 0 where there are none.
    pub upper: usize,
    /// How many helpers spawn rows; 0 where there are none.
    pub lower: usize,
    pub ghost some: { 1 ≤ width },
}

// Returns whether spawners in this number of levels reach this number of rows.
fn reaches(width: usize, levels: usize, rows: usize) -> bool {
    let mut reached = 1usize;
    for _ in 0..levels {
        reached = reached.saturating_mul(width);
    }
    reached >= rows
}

// Returns the smallest width of spawners in this number of levels that reach this number of rows.
fn width_of(rows: usize, levels: usize) -> usize
    ensures { 2 ≤ result }
{
    for width in 2..MOST_ROWS {
        if reaches(width, levels, rows) {
            return width;
        }
    }
    MOST_ROWS
}

impl Fans {
    // Returns the fans of a number of rows, without helpers.
    fn flat(rows: usize) -> Fans {
        Fans {
            rows,
            width: rows.max(1),
            upper: 0,
            lower: 0,
        }
    }

    // Returns the fans of a number of rows, with helpers in one level.
    fn one(rows: usize) -> Fans {
        let width = width_of(rows, 2);
        Fans {
            rows,
            width,
            upper: 0,
            lower: rows.div_ceil(width),
        }
    }

    // Returns the fans of a number of rows, with helpers in two levels.
    fn two(rows: usize) -> Fans {
        let width = width_of(rows, 3);
        let lower = rows.div_ceil(width);
        Fans {
            rows,
            width,
            upper: lower.div_ceil(width),
            lower,
        }
    }

    /// Returns the fans of a number of rows. Where they fit, there are helpers in two levels or in one.
    pub fn of(rows: usize) -> Fans {
        if rows < FEW {
            return Fans::flat(rows);
        }
        let two = Fans::two(rows);
        if rows.saturating_add(two.helpers()) < MOST_ROWS {
            return two;
        }
        let one = Fans::one(rows);
        if rows.saturating_add(one.helpers()) < MOST_ROWS {
            return one;
        }
        Fans::flat(rows)
    }

    /// Returns how many helpers there are.
    pub fn helpers(&self) -> usize {
        self.upper.saturating_add(self.lower)
    }

    /// Returns how many children the first row has for them.
    pub fn children(&self) -> usize {
        if self.upper > 0 {
            self.upper
        } else if self.lower > 0 {
            self.lower
        } else {
            self.rows
        }
    }

    /// Returns how many ticks late a row is spawned at most.
    pub fn late(&self) -> usize {
        if self.upper > 0 {
            self.width.saturating_mul(3)
        } else if self.lower > 0 {
            self.width.saturating_mul(2)
        } else {
            self.rows
        }
    }
}

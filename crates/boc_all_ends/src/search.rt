// The search of all ends.

ghost use Rattle.std.specs.Prelude.{◌≡◌, ◌+◌, ◌<◌, ◌≤◌, ◌↔◌, length, true, false, IfOk, OnOk, IsTrue, MatchBool};
ghost use Rattle.boc_program.specs.declared.limits.TheConstants.{MOST_ROWS};
ghost use Rattle.boc_front_rows.specs.Seen.{front_of};
ghost use Rattle.boc_all_ends.specs.Ends.{AnswersAll};
ghost use Rattle.boc_all_ends.specs.Gathered.{AreNoted, HasLive};
ghost use Rattle.boc_all_ends.specs.Searching.{HasReached, IsNext, StandsAt};
ghost use Rattle.boc_all_ends.specs.Spreading.{AreKept, IsPut, IsReady, IsSpread};
ghost use Rattle.boc_all_ends.specs.Stepping.{Grows, ListsFit};

use crate::ends::Ends;
use crate::found::Found;
use crate::stepper::Stepper;
use boc_front_rows::Front;
use boc_program::limits::MOST_ROWS;
use boc_progress::Progress;
use boc_registers::compiled::CompiledProgram;
use indexmap::IndexSet;
use std::alloc::{AllocError, Global};

// The fronts of one row more, unless there are more fronts than may be looked at.
#[derive(Drop)]
enum Next {
    Whole(IndexSet<Front>),
    Full,
}

// How far a search has come: whole runs of fewer rows than this have no other ends.
#[derive(Clone, Copy)]
struct Reach {
    below: u32,
    // Whether it has gone through all fronts.
    whole: bool,
    // Whether some run needs more rows than there may be.
    endless: bool,
}

// A search of the fronts of a program.
#[derive(Drop)]
struct Search<'a> {
    stepper: Stepper<'a>,
    // How many fronts may be looked at, and how many were.
    most: u32,
    fronts: u32,
    ghost within: { fronts ≤ most },
}

impl<'a> Search<'a> {
    // Puts a front among those of a layer, unless it is there. Returns whether it was among the fronts that may be looked at.
    fn put(&mut self, layer: &mut IndexSet<Front>, front: Front) -> Result<bool, AllocError>
        ensures put { IfOk result (λ b. MatchBool b (IsPut front layer.old.keys layer.new.keys) (self.new.fronts ≡ self.new.most)) }
        ensures there { OnOk result (IsPut front layer.old.keys layer.new.keys) }
        ensures stepper { self.new.stepper ≡ self.old.stepper }
        ensures most { self.new.most ≡ self.old.most }
    {
        if layer.insert(front)? {
            if self.fronts == self.most {
                return Ok(false);
            }
            self.fronts += 1;
        }
        Ok(true)
    }

    // Puts the fronts to which one spawn leads from a front among those of the next layer. Returns whether all of them may be looked at.
    fn spread(
        &mut self,
        alloc: Global,
        front: &Front,
        rows: u32,
        next: &mut IndexSet<Front>,
    ) -> Result<bool, AllocError>
        requires few { rows < MOST_ROWS }
        requires ready { IsReady self.old.stepper.program.now self.old.stepper.lists rows front.now }
        requires kept { AreKept self.old.stepper.lists (rows + 1) next.old.keys }
        requires fits { ListsFit self.old.stepper.program.now self.old.stepper.lists }
        ensures spread { IfOk result (λ b. MatchBool b (IsSpread self.new.stepper.program.now (front_of self.old.stepper.lists front.now)
            self.new.stepper.lists next.old.keys next.new.keys) (self.new.fronts ≡ self.new.most)) }
        ensures kept { OnOk result (AreKept self.new.stepper.lists (rows + 1) next.new.keys) }
        ensures grows { OnOk result (Grows self.old.stepper.lists self.new.stepper.lists) }
        ensures fits { OnOk result (ListsFit self.new.stepper.program.now self.new.stepper.lists) }
        ensures program { self.new.stepper.program.now ≡ self.old.stepper.program.now }
        ensures most { self.new.most ≡ self.old.most }
    {
        let places = self.stepper.places_to_try(alloc, front)?;
        for place in &places {
            let after = self.stepper.step(alloc, front, *place as usize)?;
            if !self.put(next, after)? {
                return Ok(false);
            }
        }
        Ok(true)
    }

    // Returns the fronts to which one spawn leads from those of N rows.
    fn next(&mut self, alloc: Global, layer: &[Front], rows: u32) -> Result<Next, AllocError>
        requires few { (1 ≤ rows) × (rows < MOST_ROWS) }
        requires layer { StandsAt self.old.stepper.program.now self.old.stepper.lists rows layer.now }
        requires fits { ListsFit self.old.stepper.program.now self.old.stepper.lists }
        ensures next { IfOk result (λ next. IsNext self.new.stepper.program.now self.new.stepper.lists rows self.new.fronts self.new.most next) }
        ensures fits { OnOk result (ListsFit self.new.stepper.program.now self.new.stepper.lists) }
        ensures program { self.new.stepper.program.now ≡ self.old.stepper.program.now }
        ensures most { self.new.most ≡ self.old.most }
    {
        let mut next = IndexSet::new(alloc);
        for front in layer {
            if !self.spread(alloc, front, rows, &mut next)? {
                return Ok(Next::Full);
            }
        }
        Ok(Next::Whole(next))
    }

    // Goes from layer to layer, from the first on, and notes their ends.
    fn go_through(
        &mut self,
        alloc: Global,
        first: IndexSet<Front>,
        ends: &mut Ends,
        progress: &mut dyn Progress,
    ) -> Result<Reach, AllocError>
        requires layer { StandsAt self.old.stepper.program.now self.old.stepper.lists 1 first.keys }
        requires fits { ListsFit self.old.stepper.program.now self.old.stepper.lists }
        requires noted { AreNoted self.old.stepper.program.now 1 ends.old }
        ensures reached { IfOk result (λ reach. HasReached self.old.stepper.program.now self.new.fronts self.old.most ends.new reach) }
    {
        let mut layer = first;
        for rows in 1..MOST_ROWS as u32 {
            ends.note_all(alloc, layer.as_slice(), rows)?;
            progress.done(self.fronts as usize, 0);
            if layer.is_empty() {
                return Ok(Reach::of_all(false));
            }
            match self.next(alloc, layer.as_slice(), rows)? {
                Next::Whole(next) => layer = next,
                Next::Full => return Ok(Reach::up_to(rows)),
            }
        }
        ends.note_all(alloc, layer.as_slice(), MOST_ROWS as u32)?;
        Ok(Reach::of_all(has_live(layer.as_slice())))
    }
}

impl Reach {
    // Returns how far a search has come that has gone through all fronts.
    fn of_all(endless: bool) -> Reach
        ensures { result ≡ record { below = MOST_ROWS + 1; whole = true; endless = endless } }
    {
        Reach {
            below: MOST_ROWS as u32 + 1,
            whole: true,
            endless,
        }
    }

    // Returns how far a search has come that stopped after the fronts of N rows.
    fn up_to(rows: u32) -> Reach
        requires { rows ≤ MOST_ROWS }
        ensures { result ≡ record { below = rows + 1; whole = false; endless = false } }
    {
        Reach {
            below: rows + 1,
            whole: false,
            endless: false,
        }
    }
}

// Returns whether one of these fronts has a live row.
fn has_live(layer: &[Front]) -> bool
    ensures { IsTrue result ↔ HasLive layer.now }
{
    for front in layer {
        if !front.live.is_empty() {
            return true;
        }
    }
    false
}

/// Returns the ends of the whole runs of a program, whatever the order in which its rows are spawned, and for each of them the smallest and the greatest
/// number of rows. The search goes by the number of rows, and stops where it would look at more fronts than `most`; then it says below which number of rows there are
/// no other ends. `progress` receives after each number of rows how many fronts were looked at. `AllocError` says that memory was refused.
pub fn all_ends(
    alloc: Global,
    program: &CompiledProgram<'_>,
    most: u32,
    progress: &mut dyn Progress,
) -> Result<Found, AllocError>
    requires { 1 ≤ most }
    ensures { AnswersAll program.now most result }
{
    let mut search = Search {
        stepper: Stepper::new(alloc, program)?,
        most,
        fronts: 1,
    };
    let mut layer = IndexSet::new(alloc);
    layer.insert(search.stepper.first(alloc)?)?;
    let mut ends = Ends::new(alloc);
    let reach = search.go_through(alloc, layer, &mut ends, progress)?;
    let fronts = search.fronts;
    progress.done(fronts as usize, fronts as usize);
    Ok(Found {
        all: ends.in_order(alloc)?,
        below: reach.below,
        whole: reach.whole,
        endless: reach.endless,
        fronts,
    })
}

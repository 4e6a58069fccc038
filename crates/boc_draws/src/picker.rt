// What picks the worker that moves next.

ghost use Rattle.std.specs.Prelude.{◌≡◌, ◌<◌, ◌≤◌, ◌+◌, ◌%◌, Some, length};
ghost use Rattle.boc_program.specs.declared.limits.TheConstants.{MOST_RUNNERS};
ghost use Rattle.boc_draws.specs.declared.picker.TheConstants.{MOST_FALLS};
ghost use Rattle.boc_draws.specs.Picks.{drawn_below, first_among, order_before, picked, picker_of, shuffled, Meets, SomeAmong};

use crate::way::Way;
use arrayvec::ArrayVec;
use boc_program::limits::{MOST_DEPTH, MOST_RUNNERS};
use rand_core::SeedableRng;
use rand_core::utils::NextWord;
use rand_xoshiro::Xoshiro256PlusPlus;

/// The most steps before which a worker falls to the last.
pub(crate) const MOST_FALLS: usize = MOST_DEPTH as usize - 1;

/// What the worker that moves next is picked by, from turn to turn.
#[derive(Drop)]
pub(crate) enum Picker {
    /// The words of a generator.
    Words(Xoshiro256PlusPlus),
    /// An order of the workers, and the steps before which the first that can move falls to the last, counted from 0.
    Order {
        order: ArrayVec<u32, MOST_RUNNERS>,
        falls: ArrayVec<u64, MOST_FALLS>,
    },
}

impl Picker {
    /// Returns the picker of a seed, for the first turn of the given number of workers.
    pub(crate) fn new(way: Way, workers: u32, seed: u64) -> Picker
        requires { workers ≤ MOST_RUNNERS }
        ensures { result ≡ picker_of way workers seed }
    {
        let mut generator = Xoshiro256PlusPlus::seed_from_u64(seed);
        match way {
            Way::Uniform => Picker::Words(generator),
            Way::Priorities { depth, steps } => {
                let order = shuffle(&mut generator, workers);
                let falls = draw_below(&mut generator, depth.number() - 1, steps.max(1));
                Picker::Order { order, falls }
            }
        }
    }

    /// Returns which one of these moves next, where this many steps were made.
    pub(crate) fn pick(&mut self, steps: u64, movers: &[u32]) -> u32
        requires { Meets self.old movers.now }
        ensures { picked self.old steps movers.now ≡ (Some result, self.new) }
    {
        match self {
            Picker::Words(generator) => {
                let place = generator.next_word() % movers.len() as u64;
                movers[place as usize]
            }
            Picker::Order { order, falls } => {
                fall(order, falls, steps, movers);
                order[first_of(order, movers)]
            }
        }
    }
}

// Returns the given number of workers in an order that is drawn.
fn shuffle(generator: &mut Xoshiro256PlusPlus, workers: u32) -> ArrayVec<u32, MOST_RUNNERS>
    requires { workers ≤ MOST_RUNNERS }
    ensures { (result.items, generator.new) ≡ shuffled workers generator.old }
{
    let mut order = ArrayVec::new();
    for worker in 0..workers {
        let place = generator.next_word() % (u64::from(worker) + 1);
        order.insert(place as usize, worker);
    }
    order
}

// Returns the given number of numbers below a bound.
fn draw_below(
    generator: &mut Xoshiro256PlusPlus,
    count: u32,
    bound: u64,
) -> ArrayVec<u64, MOST_FALLS>
    requires few { count ≤ MOST_FALLS }
    requires some { 0 < bound }
    ensures { (result.items, generator.new) ≡ drawn_below count bound generator.old }
{
    let mut numbers = ArrayVec::new();
    for _ in 0..count {
        numbers.push(generator.next_word() % bound);
    }
    numbers
}

// Returns the place of the first of an order that is among these.
fn first_of(order: &[u32], movers: &[u32]) -> usize
    requires { SomeAmong order.now movers.now }
    ensures place { result ≡ first_among order.now movers.now }
    ensures below { result < length order.now }
{
    for (place, worker) in order.iter().enumerate() {
        if movers.contains(worker) {
            return place;
        }
    }
    unreachable!()
}

// The first of an order that is among these falls to the last, where this is a step before which one does.
fn fall(order: &mut ArrayVec<u32, MOST_RUNNERS>, falls: &[u64], steps: u64, movers: &[u32])
    requires { SomeAmong order.old.items movers.now }
    ensures { order.new.items ≡ order_before order.old.items falls.now steps movers.now }
{
    if falls.contains(&steps) {
        let worker = order.remove(first_of(order, movers));
        order.push(worker);
    }
}

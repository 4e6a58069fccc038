// What takes the events of a record as they are read.

ghost use Rattle.std.specs.Prelude.{◌≡◌, ◌≤◌, ℕ, List, [], IfOk};
ghost use Rattle.boc_program.specs.declared.limits.TheConstants.{MOST_COWNS};
ghost use Rattle.boc_runs.specs.declared.event.Event.{Event};
ghost use Rattle.boc_runs.specs.Legal.{entries};
ghost use Rattle.boc_record.specs.Sinks.{Hands};

use boc_rules::{Judge, RuleFault, Rules};
use boc_runs::event::Event;
use std::alloc::{AllocError, Global};

/// Takes events one after the other, and judges each by those before it.
pub trait EventSink: Drop {
    /// How many cowns there are.
    ghost cown_count: { Self → ℕ };

    /// These events were taken.
    ghost has_taken: { Self → List Event → Type 0 };

    /// No events yet, over this many cowns.
    fn begin(alloc: Global, cowns: u32) -> Result<Self, AllocError>
        requires { cowns ≤ MOST_COWNS }
        ensures { IfOk result (λ s. (cown_count s ≡ cowns) × has_taken s []) };

    /// Returns the run so far, as it is judged.
    fn judge(&self) -> &Judge
        ensures cowns { result.now.cowns ≡ cown_count self.now }
        ensures rows { (log : List Event) → has_taken self.now log → result.now.rows ≡ entries log };

    /// Takes the event if it keeps the rules, and otherwise answers the first rule that it breaks.
    fn hand_over(&mut self, event: Event) -> Result<(), RuleFault>
        ensures cowns { cown_count self.new ≡ cown_count self.old }
        ensures taken { (log : List Event) → has_taken self.old log → Hands (cown_count self.old) log event result (has_taken self.new) };
}

// A judge keeps the rows alone.
impl EventSink for Judge {
    ghost cown_count = { λ j. j.cowns };

    ghost has_taken = { λ j log. j.rows ≡ entries log };

    fn begin(alloc: Global, cowns: u32) -> Result<Judge, AllocError> {
        Judge::new(alloc, cowns)
    }

    fn judge(&self) -> &Judge {
        self
    }

    #[inline(always)]
    fn hand_over(&mut self, event: Event) -> Result<(), RuleFault> {
        Judge::take(self, event)
    }
}

// Rules keep the events too.
impl EventSink for Rules {
    ghost cown_count = { λ r. r.cowns };

    ghost has_taken = { λ r log. r.events ≡ log };

    fn begin(alloc: Global, cowns: u32) -> Result<Rules, AllocError> {
        Rules::new(alloc, cowns)
    }

    fn judge(&self) -> &Judge {
        Rules::judge(self)
    }

    fn hand_over(&mut self, event: Event) -> Result<(), RuleFault> {
        self.take(event)
    }
}

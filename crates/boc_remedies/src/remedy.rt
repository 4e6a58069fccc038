// What would move the end of some rows forward.

ghost use Rattle.std.specs.Prelude.{◌≡◌, ◌≤◌, IfOk, length};
ghost use Rattle.boc_program.specs.declared.limits.TheConstants.{MOST_COWNS};
ghost use Rattle.boc_remedies.specs.Remedies.{IsCauseOf, is_same, is_within};

use crate::families::Families;
use boc_why::Cause;
use std::alloc::{AllocError, Global};

/// What would move the end of some rows forward.
#[derive(Drop, Debug)]
pub enum Remedy {
    /// The behaviours of this def cost half as much.
    HalfCost(u32),
    /// The cowns of these families impose no order.
    NoOrder(Families),
    /// The behaviours of this def spawn as early as they can.
    EarlySpawns(u32),
}

impl Remedy {
    /// Returns the same remedy once more. `AllocError` says that memory was refused.
    pub fn copy(&self, alloc: Global) -> Result<Remedy, AllocError>
        ensures { IfOk result (λ copy. copy ≡ self.now) }
    {
        match self {
            Remedy::HalfCost(def) => Ok(Remedy::HalfCost(*def)),
            Remedy::NoOrder(families) => Ok(Remedy::NoOrder(families.copy(alloc)?)),
            Remedy::EarlySpawns(def) => Ok(Remedy::EarlySpawns(*def)),
        }
    }

    /// Returns whether the remedy is this one.
    pub fn is(&self, other: &Remedy) -> bool
        ensures { result ≡ is_same self.now other.now }
    {
        match (self, other) {
            (Remedy::HalfCost(def), Remedy::HalfCost(own)) => def == own,
            (Remedy::NoOrder(set), Remedy::NoOrder(own)) => set.is(own),
            (Remedy::EarlySpawns(def), Remedy::EarlySpawns(own)) => def == own,
            _ => false,
        }
    }

    /// Returns whether the remedy leaves out fewer cowns than another one, and none that the other doesn't.
    pub fn is_within(&self, large: &Remedy) -> bool
        ensures { result ≡ is_within self.now large.now }
    {
        match (self, large) {
            (Remedy::NoOrder(some), Remedy::NoOrder(others)) => some.is_part_of(others),
            _ => false,
        }
    }

    /// Returns what the remedy takes away, where each cown belongs to the family at its place. `AllocError` says that memory was refused.
    pub fn cause(&self, alloc: Global, families: &[u32]) -> Result<Cause, AllocError>
        requires few { length families.now ≤ MOST_COWNS }
        ensures { IfOk result (IsCauseOf families.now self.now) }
    {
        match self {
            Remedy::HalfCost(def) => Ok(Cause::Cost(*def)),
            Remedy::NoOrder(set) => Ok(Cause::Order(set.members(alloc, families)?)),
            Remedy::EarlySpawns(def) => Ok(Cause::Spawns(*def)),
        }
    }
}

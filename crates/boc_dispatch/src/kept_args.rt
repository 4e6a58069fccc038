// The arguments of a behaviour, as they are kept until it starts.

ghost use Rattle.std.specs.Prelude.{◌≡◌, ◌≤◌, [], length, IfOk};
ghost use Rattle.boc_program.specs.declared.limits.TheConstants.{MOST_ARGUMENTS};

use boc_program::short::Args;
use std::alloc::{AllocError, Global};
use std::marker::Model;

/// At most eight arguments, in little memory: many behaviours wait at once, and most have one argument or none.
/// Contracts see them as those of `Args`.
#[derive(Drop, Debug)]
pub struct KeptArgs {
    list: List,
}

#[derive(Drop, Debug)]
enum List {
    None,
    One([i64; 1]),
    More(Box<Args>),
}

impl Model for KeptArgs {
    ghost use Rattle.std.specs.Prelude.{ℤ};
    ghost use Rattle.arrayvec.specs.ArrayVec.{ArrayVec};
    ghost use Rattle.boc_dispatch.specs.KeptArguments.{kept_list};

    ghost Value = { ArrayVec ℤ };

    ghost view = { λ a. kept_list a.list };
}

impl KeptArgs {
    /// Returns no arguments.
    pub fn new() -> KeptArgs
        ensures { result.items ≡ [] }
    {
        KeptArgs { list: List::None }
    }

    /// Returns these arguments, kept. More than one take memory; `AllocError` says that it was refused.
    pub fn of(alloc: Global, args: &Args) -> Result<KeptArgs, AllocError>
        ensures { IfOk result (λ kept. kept.items ≡ args.now.items) }
    {
        let list = match args.as_slice() {
            [] => List::None,
            [one] => List::One([*one]),
            more => List::More(Box::new(alloc, Args::try_from(more).unwrap())?),
        };
        Ok(KeptArgs { list })
    }

    /// Returns the arguments, in their order.
    pub fn as_slice(&self) -> &[i64]
        ensures value { result.now ≡ self.now.items }
        ensures few { length result.now ≤ MOST_ARGUMENTS }
    {
        match &self.list {
            List::None => &[],
            List::One(one) => one,
            List::More(list) => list.as_slice(),
        }
    }
}

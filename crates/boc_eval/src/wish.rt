// What a body wishes for.

ghost use Rattle.std.specs.Prelude.{◌≡◌};
ghost use Rattle.boc_registers.specs.Steps.{wish_of as wish_asked};
ghost use Rattle.boc_eval.specs.Wishes.{wish_of};

use crate::lists::refill;
use boc_program::short::{Args, Cowns};
use boc_registers::step::Asked;

/// A wish for a behaviour, made by a `when`.
#[derive(Drop, Debug)]
pub struct SpawnWish {
    /// The ticks that the body had counted when it made the wish, from 2 to 1,000,000.
    pub offset: u32,
    /// The place of the behaviour's body among the program's bodies.
    pub kind: usize,
    /// The values of the behaviour's value parameters.
    pub args: Args,
    /// The cowns of the behaviour's cown parameters, in their order. No cown is here twice.
    pub cowns: Cowns,
}

impl SpawnWish {
    /// Returns a place for a wish.
    pub(crate) fn blank() -> SpawnWish {
        SpawnWish {
            offset: 0,
            kind: 0,
            args: Args::new(),
            cowns: Cowns::new(),
        }
    }

    /// Takes over what a body asked for.
    #[inline(always)]
    pub(crate) fn take_over(&mut self, asked: &Asked)
        ensures { wish_of self.new ≡ wish_asked asked.now }
    {
        self.offset = asked.offset;
        self.kind = asked.kind;
        refill(&mut self.args, asked.args.as_slice());
        refill(&mut self.cowns, asked.cowns.as_slice());
    }

    /// Returns the same wish once more. It takes no memory.
    pub(crate) fn duplicate(&self) -> SpawnWish
        ensures { wish_of result ≡ wish_of self.now }
    {
        SpawnWish {
            offset: self.offset,
            kind: self.kind,
            args: Args::try_from(self.args.as_slice()).unwrap(),
            cowns: Cowns::try_from(self.cowns.as_slice()).unwrap(),
        }
    }
}

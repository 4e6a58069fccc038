// What a row is.

ghost use Rattle.std.specs.Prelude.{◌≡◌};
ghost use Rattle.boc_runs.specs.Serial.{behaviour_of, main_behaviour};
ghost use Rattle.boc_eval.specs.Instances.{behaviour_in};
ghost use Rattle.boc_eval.specs.Wishes.{wish_of};

use crate::wish::SpawnWish;
use boc_program::short::{Args, Cowns};

/// A behaviour as it is spawned, which is what a row is: its body, its arguments and its cowns.
#[derive(Drop, Debug)]
pub struct Instance {
    /// The place of its body among the program's bodies.
    pub kind: usize,
    /// The values of its value parameters.
    pub args: Args,
    /// Its cowns in the order of its cown parameters.
    pub cowns: Cowns,
}

/// What a row of a run is.
#[derive(Drop, Debug)]
pub struct ToldRow {
    /// The number of the row.
    pub row: u32,
    /// The behaviour that it is.
    pub instance: Instance,
}

impl Instance {
    /// Returns main, which has neither arguments nor cowns.
    pub fn main() -> Instance
        ensures { behaviour_in result ≡ main_behaviour }
    {
        Instance {
            kind: 0,
            args: Args::new(),
            cowns: Cowns::new(),
        }
    }

    /// Returns the instance that is wished for.
    pub fn of(wish: &SpawnWish) -> Instance
        ensures { behaviour_in result ≡ behaviour_of (wish_of wish.now) }
    {
        Instance {
            kind: wish.kind,
            args: Args::try_from(wish.args.as_slice()).unwrap(),
            cowns: Cowns::try_from(wish.cowns.as_slice()).unwrap(),
        }
    }

    /// Returns the same instance once more.
    pub fn duplicate(&self) -> Instance
        ensures { result ≡ self.now }
    {
        Instance {
            kind: self.kind,
            args: Args::try_from(self.args.as_slice()).unwrap(),
            cowns: Cowns::try_from(self.cowns.as_slice()).unwrap(),
        }
    }
}

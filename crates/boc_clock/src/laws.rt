// A law of clocks.

ghost use Rattle.std.specs.Prelude.{◌≡◌, ℕ, List};
ghost use Rattle.boc_clock.specs.declared.clocks.Clocks.{Clocks};
ghost use Rattle.boc_clock.specs.Clocks.{IsDueFirst};

/// Proves that one of some workers comes first.
pub fn one_is_first()
    ensures { (c : Clocks) (movers : List ℕ) (i j : ℕ) → IsDueFirst c movers i → IsDueFirst c movers j → i ≡ j }
{}

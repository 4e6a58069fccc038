// Laws of draws.

ghost use Rattle.std.specs.Prelude.{◌≡◌, ℕ, Ok, Err};
ghost use Rattle.boc_program.specs.declared.program.Program.{Program};
ghost use Rattle.boc_runs.specs.machine.Turns.{Driven, Turns, opening_driven};
ghost use Rattle.std.specs.Prelude.{List, Option};
ghost use Rattle.boc_draws.specs.declared.drawing.Drawn.{Drawn};
ghost use Rattle.boc_draws.specs.declared.fault.DrawFault.TheVariants.{Behaviours};
ghost use Rattle.boc_draws.specs.declared.picker.Picker.{Picker};
ghost use Rattle.boc_draws.specs.declared.way.Way.{Way};
ghost use Rattle.boc_draws.specs.Draws.{IsDraw, DrawsTo};
ghost use Rattle.boc_draws.specs.Ways.{AnswersWay, IsWay};

/// Proves that a draw is a function of the program, the number of workers, the way and the seed: two that were drawn have the same events, the
/// same number of cowns, the same values at the end and as many steps; and where one is drawn none runs out of room.
pub fn one_draw()
    ensures events { (p : Program) (workers seed : ℕ) (way : Way) (a b : Drawn) → IsDraw p workers way seed (Ok a)
        → IsDraw p workers way seed (Ok b) → a.record.events ≡ b.record.events }
    ensures cowns { (p : Program) (workers seed : ℕ) (way : Way) (a b : Drawn) → IsDraw p workers way seed (Ok a)
        → IsDraw p workers way seed (Ok b) → a.record.cowns ≡ b.record.cowns }
    ensures values { (p : Program) (workers seed : ℕ) (way : Way) (a b : Drawn) → IsDraw p workers way seed (Ok a)
        → IsDraw p workers way seed (Ok b) → a.values.items ≡ b.values.items }
    ensures steps { (p : Program) (workers seed : ℕ) (way : Way) (a b : Drawn) → IsDraw p workers way seed (Ok a)
        → IsDraw p workers way seed (Ok b) → a.steps ≡ b.steps }
    ensures either { (p : Program) (workers seed : ℕ) (way : Way) (a : Drawn) → IsDraw p workers way seed (Ok a)
        → IsDraw p workers way seed (Err Behaviours) → ⊥ }
{}

/// Proves that what is drawn is one of the interleavings of the workers: the turns of those that are picked are turns.
pub fn draws_are_turns()
    ensures { (p : Program) (workers seed : ℕ) (way : Way) (choices : List ℕ) (e : Driven) (later : Picker)
        → DrawsTo p workers way seed choices e later → Turns p (opening_driven p workers) choices e }
{}

/// Proves that there is one way at most of a program, a number of workers and a depth; and where there is one, the draw that counts its steps doesn't run out
/// of room.
pub fn one_way()
    ensures one { (p : Program) (workers : ℕ) (depth : Option ℕ) (a b : Way) → IsWay p workers depth a → IsWay p workers depth b → a ≡ b }
    ensures either { (p : Program) (workers : ℕ) (depth : Option ℕ) (way : Way) → IsWay p workers depth way
        → AnswersWay p workers depth (Err Behaviours) → ⊥ }
{}

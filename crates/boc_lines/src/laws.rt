// Laws of what statements are charged.

ghost use Rattle.std.specs.Prelude.{◌≡◌, ℕ, ℤ, List, [], map};
ghost use Rattle.boc_program.specs.Meaning.{meaning};
ghost use Rattle.boc_program.specs.Programs.{initial_values};
ghost use Rattle.boc_program.specs.declared.program.Program.{Program};
ghost use Rattle.boc_program.specs.declared.short.Input.{Input};
ghost use Rattle.boc_runs.specs.Serial.{serial_along};
ghost use Rattle.boc_lines.specs.Charges.{bill, total};
ghost use Rattle.boc_lines.specs.Replays.{charges_along};
ghost use Rattle.boc_lines.specs.SerialRuns.{AreWished, charges_of_row};

use boc_program::body::Body;

/// Proves that the charges of a body add up to its ticks.
pub fn charges_are_the_ticks(body: &Body)
    ensures { (first : ℕ) (args : List ℤ) (inputs : List Input) → total (bill first body.now args inputs).charges ≡ (meaning body.now args inputs).ticks }
{
    let _ = body;
}

/// Proves that behaviours which run one after another are charged what the rows of the serial run along these rows are charged, whose behaviours they are, and
/// that what each row was charged adds up to its ticks.
pub fn rows_are_charged_serially()
    ensures charges { (p : Program) (parents : List ℕ) → AreWished p (serial_along p []) parents → map (charges_of_row p) (serial_along p parents).rows
        ≡ charges_along p (initial_values p.cowns) (map (λ r. r.behaviour) (serial_along p parents).rows) }
    ensures ticks { (p : Program) (parents : List ℕ) → AreWished p (serial_along p []) parents
        → map total (map (charges_of_row p) (serial_along p parents).rows) ≡ map (λ r. r.means.ticks) (serial_along p parents).rows }
{}

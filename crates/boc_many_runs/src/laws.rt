// Laws of what many runs say: the least, the median and the most are numbers of some run, each run is counted once in the histogram, and each has one best
// remedy at most.

ghost use Rattle.std.specs.Prelude.{◌≡◌, ◌≤◌, ℕ, ℤ, List};
ghost use Rattle.std.specs.List.{Contains, sum_by};
ghost use Rattle.std.specs.Ordering.{int_cmp, nat_cmp};
ghost use Rattle.boc_program.specs.declared.program.Program.{Program};
ghost use Rattle.boc_outcomes.specs.declared.asked.Asked.{Asked};
ghost use Rattle.boc_many_runs.specs.declared.many.ManyRuns.{ManyRuns};
ghost use Rattle.boc_many_runs.specs.declared.seen.Numbers.{Numbers};
ghost use Rattle.boc_many_runs.specs.Many.{AreNumbersTold, IsManyRuns, SayTheSame};
ghost use Rattle.boc_many_runs.specs.Runs.{AreNumbersOfRuns, Manner};
ghost use Rattle.boc_many_runs.specs.Spreads.{AreSpread};

/// Proves that the least, the median and the most of some numbers are among them, also where numbers may be less than 0.
pub fn spreads_are_members()
    ensures numbers { (xs : List ℕ) (least median most : ℕ) → AreSpread nat_cmp xs least median most
        → Contains xs least × Contains xs median × Contains xs most }
    ensures signed { (xs : List ℤ) (least median most : ℤ) → AreSpread int_cmp xs least median most
        → Contains xs least × Contains xs median × Contains xs most }
{}

/// Proves that each run is counted in one bin: the runs of all bins add up to those that are asked for.
pub fn bins_add_up()
    ensures { (p : Program) (asked : Asked) (m : Manner) (many : ManyRuns) → IsManyRuns p asked m many
        → sum_by (λ b. b.runs) many.bins.items ≡ asked.runs }
{}

/// Proves that each run has one best remedy at most: the runs in which remedies are the best add up to no more than those that are asked for.
pub fn bests_add_up()
    ensures { (p : Program) (asked : Asked) (m : Manner) (many : ManyRuns) → IsManyRuns p asked m many
        → sum_by (λ l. l.best_in) many.lines.items ≤ asked.runs }
{}

/// Proves that what is said is a function of the program and of what is asked: there is one answer, whatever the threads.
pub fn many_runs_have_one_answer()
    ensures { (p : Program) (asked : Asked) (m : Manner) (a b : ManyRuns) → IsManyRuns p asked m a → IsManyRuns p asked m b → SayTheSame a b }
{}

/// Proves that the numbers of runs are a function of the program and of what is asked, and that their spreads are those that `many_runs` reports.
pub fn numbers_have_one_answer()
    ensures one { (p : Program) (asked : Asked) (m : Manner) (count : ℕ) (xs ys : List Numbers) → AreNumbersOfRuns p asked m count xs
        → AreNumbersOfRuns p asked m count ys → xs ≡ ys }
    ensures told { (p : Program) (asked : Asked) (m : Manner) (many : ManyRuns) (xs : List Numbers) → IsManyRuns p asked m many
        → AreNumbersOfRuns p asked m asked.runs xs → AreNumbersTold xs many.spreads }
{}

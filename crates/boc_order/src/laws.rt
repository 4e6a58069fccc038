// Laws of plans and chains: rows have one of each, links are counted as requests are, and no order of the cowns ends before the lower bound.

ghost use Rattle.std.specs.Prelude.{◌≡◌, ◌<◌, ◌≤◌, ℕ, List, length};
ghost use Rattle.boc_plans.specs.declared.chain.ChainStep.{ChainStep};
ghost use Rattle.boc_runs.specs.declared.rows.Row.{Row};
ghost use Rattle.boc_runs.specs.Rows.{IsRows, offset_of};
ghost use Rattle.boc_runs.specs.Changes.{moved, without};
ghost use Rattle.boc_plans.specs.Plans.{HasEnds, IsEarliest, IsEnd, start_of};
ghost use Rattle.boc_plans.specs.Chains.{IsPicked, weight_of};
ghost use Rattle.boc_plans.specs.Greedy.{IsBound, IsSpan};
ghost use Rattle.boc_plans.specs.Edits.{IsCownSweep, IsSpawnSweep, IsSweep};
ghost use Rattle.boc_runs.specs.machine.Queues.{times as times_in};
ghost use Rattle.boc_order.specs.declared.least.Busiest.{Busiest};
ghost use Rattle.boc_order.specs.declared.least.Least.{Least};
ghost use Rattle.boc_order.specs.Least.{IsBusy, IsLeast, IsSpawnPlan, KeepsApart, KeepsSpawns, load_of, tick_of, without_cowns};
ghost use Rattle.boc_order.specs.Waits.{times};

/// Proves that rows have one earliest plan at most. A plan has one end at most, its rows have one list of ends, and one chain is picked in it.
pub fn rows_have_one_plan()
    ensures plan { (rows : List Row) (plan other : List ℕ) → IsEarliest rows plan → IsEarliest rows other → plan ≡ other }
    ensures ends { (rows : List Row) (plan ends others : List ℕ) → HasEnds rows plan ends → HasEnds rows plan others → ends ≡ others }
    ensures last { (rows : List Row) (plan : List ℕ) (last other : ℕ) → IsEnd rows plan last → IsEnd rows plan other → last ≡ other }
    ensures chain { (rows : List Row) (plan : List ℕ) (steps others : List ChainStep) → IsPicked rows plan steps → IsPicked rows plan others → steps ≡ others }
{}

/// Proves that rows have one span at most, one bound for each number of workers, and one sweep.
pub fn rows_have_one_span()
    ensures span { (rows : List Row) (span other : ℕ) → IsSpan rows span → IsSpan rows other → span ≡ other }
    ensures bound { (rows : List Row) (p bound other : ℕ) → IsBound rows p bound → IsBound rows p other → bound ≡ other }
    ensures sweep { (rows : List Row) (spans others : List ℕ) → IsSweep rows spans → IsSweep rows others → spans ≡ others }
    ensures cowns { (rows : List Row) (count : ℕ) (spans others : List ℕ) → IsCownSweep rows count spans → IsCownSweep rows count others → spans ≡ others }
    ensures spawns { (rows : List Row) (spans others : List ℕ) → IsSpawnSweep rows spans → IsSpawnSweep rows others → spans ≡ others }
{}

/// Proves that rows without a cown start no later in their earliest plan, and end no later.
pub fn fewer_cowns_are_no_later()
    ensures starts { (rows : List Row) (cown : ℕ) (plan other : List ℕ) → IsEarliest rows plan → IsEarliest (without cown rows) other
        → (r : ℕ) → r < length rows → start_of other r ≤ start_of plan r }
    ensures span { (rows : List Row) (cown span other : ℕ) → IsSpan rows span → IsSpan (without cown rows) other → other ≤ span }
{}

/// Proves that rows of which one is spawned no later than it was start no later in their earliest plan, and end no later.
pub fn earlier_spawns_are_no_later()
    ensures starts { (rows : List Row) (row offset : ℕ) (plan other : List ℕ) → offset ≤ offset_of rows row → IsEarliest rows plan
        → IsEarliest (moved rows row offset) other → (r : ℕ) → r < length rows → start_of other r ≤ start_of plan r }
    ensures span { (rows : List Row) (row offset span other : ℕ) → offset ≤ offset_of rows row → IsSpan rows span → IsSpan (moved rows row offset) other
        → other ≤ span }
{}

/// Proves that the chain that is picked in the earliest plan of rows weighs as many ticks as the plan takes.
pub fn chain_weighs_the_span()
    ensures { (rows : List Row) (plan : List ℕ) (span : ℕ) (steps : List ChainStep) → IsRows rows → IsEarliest rows plan → IsEnd rows plan span
        → IsPicked rows plan steps → weight_of steps ≡ span }
{}

/// Proves that how often a row is among links is how often its number is in a list of the machine's: plans and machine count in one way.
pub fn links_are_counted_as_requests()
    ensures { (row : ℕ) (links : List ℕ) → times row links ≡ times_in row links }
{}

/// Proves that no plan that keeps the spawns of some rows, and keeps rows that conflict over a cown apart in whatever order, ends before the lower bound.
/// Nor does it end before the span of the rows without cowns, or the ticks of the rows that wrote a cown. Nor does it end before the tick until which that
/// cown is busy: as many ticks after the earliest start of one of these rows if only the spawns order the rows.
pub fn no_order_ends_before()
    ensures spawns { (rows : List Row) (plan : List ℕ) (last spawns : ℕ) → KeepsSpawns rows plan → KeepsApart rows plan → IsEnd rows plan last
        → IsSpan (without_cowns rows) spawns → spawns ≤ last }
    ensures load { (rows : List Row) (plan : List ℕ) (last cown : ℕ) → IsRows rows → KeepsSpawns rows plan → KeepsApart rows plan
        → IsEnd rows plan last → load_of rows cown ≤ last }
    ensures until { (rows : List Row) (plan spawned : List ℕ) (last spawns : ℕ) (busy : Busiest) → IsRows rows → KeepsSpawns rows plan
        → KeepsApart rows plan → IsEnd rows plan last → IsSpawnPlan rows spawned spawns → IsBusy rows spawned busy → busy.until ≤ last }
    ensures told { (rows : List Row) (plan : List ℕ) (last count : ℕ) (least : Least) → IsRows rows → KeepsSpawns rows plan → KeepsApart rows plan
        → IsEnd rows plan last → IsLeast rows count least → tick_of least ≤ last }
{}

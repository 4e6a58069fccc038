// Laws of a greedy plan's chain: there is one, it takes as long as the plan, and where a row takes over a worker, none was idle since it could start.

ghost use Rattle.std.specs.Prelude.{◌≡◌, ℕ, ◌<◌, ◌≤◌, List, Some, slice_get, suc};
ghost use Rattle.std.specs.List.{sum_by};
ghost use Rattle.boc_runs.specs.declared.rows.Row.{Row};
ghost use Rattle.boc_runs.specs.Rows.{IsRows};
ghost use Rattle.boc_plans.specs.Plans.{IsEnd, start_of};
ghost use Rattle.boc_plans.specs.Greedy.{IsGreedy, IsReady};
ghost use Rattle.boc_greedy_chain.specs.declared.chain.GreedyStep.{GreedyStep};
ghost use Rattle.boc_greedy_chain.specs.declared.chain.Tie.TheVariants.{Worker};
ghost use Rattle.boc_greedy_chain.specs.GreedyChains.{AreAllBusy, IsGreedyChain};

/// Proves that a greedy plan has one chain at most.
pub fn chain_is_one()
    ensures { (rows : List Row) (p : ℕ) (plan workers : List ℕ) (steps others : List GreedyStep) → IsRows rows → IsGreedy rows p plan workers
        → IsGreedyChain rows plan workers steps → IsGreedyChain rows plan workers others → steps ≡ others }
{}

/// Proves that the weights of a greedy plan's chain add up to the end of the plan.
pub fn chain_adds_up()
    ensures { (rows : List Row) (p last : ℕ) (plan workers : List ℕ) (steps : List GreedyStep) → IsRows rows → IsGreedy rows p plan workers
        → IsEnd rows plan last → IsGreedyChain rows plan workers steps → sum_by (λ s. s.weight) steps ≡ last }
{}

/// Proves that where a row of the chain takes over a worker, all workers were busy at each tick from when it could start until it did.
pub fn all_are_busy()
    ensures { (rows : List Row) (p : ℕ) (plan workers : List ℕ) (steps : List GreedyStep) (k t : ℕ) (step next : GreedyStep) → IsRows rows
        → IsGreedy rows p plan workers → IsGreedyChain rows plan workers steps → slice_get steps k ≡ Some step → slice_get steps (suc k) ≡ Some next
        → step.tie ≡ Worker → IsReady rows plan t next.row → t < start_of plan next.row → AreAllBusy rows p plan workers t }
{}

// Laws: shares add up to the weight of their chain, and there is one list of them; rows that spawn early are one list; and rows have one
// answer.

ghost use Rattle.std.specs.Prelude.{◌≡◌, ℕ, List, length};
ghost use Rattle.std.specs.List.{sum_by};
ghost use Rattle.boc_plans.specs.declared.chain.ChainStep.{ChainStep};
ghost use Rattle.boc_plans.specs.Chains.{weight_of};
ghost use Rattle.boc_why.specs.declared.shares.Share.{Share};
ghost use Rattle.boc_why.specs.Shares.{AreShares, weights_of};
ghost use Rattle.boc_runs.specs.declared.rows.Row.{Row};
ghost use Rattle.boc_runs.specs.Rows.{IsRows};
ghost use Rattle.boc_plans.specs.declared.sharing.Sharing.{Sharing};
ghost use Rattle.boc_why.specs.declared.why.Why.{Why};
ghost use Rattle.boc_why.specs.Causes.{AreSpawnedEarly};
ghost use Rattle.boc_why.specs.Why.{IsWhy, SayTheSame};

/// Proves that the shares of a chain of which each step has a key add up to its weight.
pub fn shares_add_up()
    ensures { (keys : List ℕ) (steps : List ChainStep) (shares : List Share) → AreShares keys (weights_of steps) shares
        → length keys ≡ length steps → sum_by (λ s. s.ticks) shares ≡ weight_of steps }
{}

/// Proves that a chain with its keys has one list of shares at most.
pub fn shares_are_one()
    ensures { (keys weights : List ℕ) (shares others : List Share) → AreShares keys weights shares → AreShares keys weights others → shares ≡ others }
{}

/// Proves that there is one list of rows at most in which the behaviours of a def spawn as early as they can.
pub fn early_rows_are_one()
    ensures { (rows : List Row) (defs : List ℕ) (def : ℕ) (after other : List Row) → IsRows rows → AreSpawnedEarly rows defs def after
        → AreSpawnedEarly rows defs def other → after ≡ other }
{}

/// Proves that of some rows one thing is reported at most: two whys say the same.
pub fn rows_have_one_why()
    ensures { (rows : List Row) (sharing : Sharing) (defs : List ℕ) (count : ℕ) (why other : Why) → IsWhy rows sharing defs count why
        → IsWhy rows sharing defs count other → SayTheSame why other }
{}

// A law of chains: what a set of cowns that saves anything contains.

ghost use Rattle.std.specs.Prelude.{◌<◌, ◌⊎◌, ℕ, List};
ghost use Rattle.boc_runs.specs.declared.rows.Row.{Row};
ghost use Rattle.boc_runs.specs.Rows.{IsRows};
ghost use Rattle.boc_plans.specs.declared.chain.ChainStep.{ChainStep};
ghost use Rattle.boc_plans.specs.declared.sharing.Sharing.{Sharing};
ghost use Rattle.boc_plans.specs.Plans.{IsEarliest, IsEnd, Keeps};
ghost use Rattle.boc_plans.specs.Chains.{IsChain, IsPicked, weight_of};
ghost use Rattle.boc_plans.specs.Greedy.{IsSpan};
ghost use Rattle.boc_plans.specs.Seen.{seen};
ghost use Rattle.boc_links.specs.Within.{HasLinkWithin};
ghost use Rattle.boc_why.specs.Causes.{without_all};

/// Where rows without some cowns end sooner than the rows do, some order link of the rows' chain hands on none but these cowns, whether reads are shared
/// or not. And so it is for every chain of the rows and every plan that keeps the rows without these cowns: where the plan ends sooner than the chain
/// weighs, some order link of the chain hands on none but these. For a chain of which each order link keeps a cown that isn't one of these is a chain of
/// the rows without them, as it is.
pub fn link_within()
    ensures span { (rows : List Row) (sharing : Sharing) (cowns plan : List ℕ) (span other : ℕ) (steps : List ChainStep) → IsRows rows
        → IsEarliest (seen sharing rows) plan → IsEnd (seen sharing rows) plan span → IsPicked (seen sharing rows) plan steps
        → IsSpan (seen sharing (without_all cowns rows)) other → other < span → HasLinkWithin (seen sharing rows) cowns steps }
    ensures stands { (rows : List Row) (cowns : List ℕ) (steps : List ChainStep) → IsChain rows steps
        → IsChain (without_all cowns rows) steps ⊎ HasLinkWithin rows cowns steps }
    ensures chain { (rows : List Row) (cowns plan : List ℕ) (last : ℕ) (steps : List ChainStep) → IsChain rows steps
        → Keeps (without_all cowns rows) plan → IsEnd (without_all cowns rows) plan last → last < weight_of steps → HasLinkWithin rows cowns steps }
{}

// Laws of what is tried and reported. A set of cowns that saves anything contains all that some link of the chain hands on. There is one list of candidates,
// of sets that are looked at, of several cowns at once, and of steps.

ghost use Rattle.std.specs.Prelude.{◌≡◌, ◌<◌, ℕ, List, Option, length};
ghost use Rattle.boc_runs.specs.declared.rows.Row.{Row};
ghost use Rattle.boc_runs.specs.Rows.{IsRows};
ghost use Rattle.boc_why.specs.declared.why.Why.{Why};
ghost use Rattle.boc_why.specs.Why.{IsWhy};
ghost use Rattle.boc_remedies.specs.declared.advice.Advice.{Advice};
ghost use Rattle.boc_remedies.specs.declared.advice.Advised.{Advised};
ghost use Rattle.boc_remedies.specs.declared.candidates.Candidate.{Candidate};
ghost use Rattle.boc_remedies.specs.declared.ends.Ends.{Ends};
ghost use Rattle.boc_remedies.specs.declared.greedy_why.GreedyWhy.{GreedyWhy};
ghost use Rattle.boc_remedies.specs.declared.looked_at.LookedAt.{LookedAt};
ghost use Rattle.boc_remedies.specs.Questions.{Asked};
ghost use Rattle.boc_remedies.specs.declared.remedy.Remedy.{Remedy};
ghost use Rattle.boc_remedies.specs.declared.together.Together.{Together};
ghost use Rattle.boc_remedies.specs.Advice.{AdviseTheSame, IsAdvice, IsAdvised};
ghost use Rattle.boc_remedies.specs.Chains.{AreChains, Known};
ghost use Rattle.boc_remedies.specs.GreedyWhys.{IsGreedyWhy, SayTheSameOfGreedy};
ghost use Rattle.boc_remedies.specs.LookedAt.{AreLookedAt};
ghost use Rattle.boc_remedies.specs.Steps.{AreSteps, IsGreedyAsked};
ghost use Rattle.boc_remedies.specs.Together.{AreCownsTogether};
ghost use Rattle.boc_remedies.specs.Told.{AreCandidates};
ghost use Rattle.boc_remedies.specs.WithLinks.{HasLinkIn, IsSpanWithout};

/// Proves that where the rows without the order of some families end before the span, the chain has a link that hands on cowns of none but these.
pub fn sets_contain_a_link()
    ensures { (question : Asked) (set : List ℕ) (why : Why) (other : ℕ) → IsRows question.rows
        → IsWhy question.rows question.sharing question.defs (length question.families) why → IsSpanWithout question set other
        → other < why.profile.span → HasLinkIn question.families why.links.items set }
{}

/// Proves that of a greedy plan one thing is reported at most.
pub fn greedy_whys_are_one()
    ensures { (rows : List Row) (p : ℕ) (defs : List ℕ) (why other : GreedyWhy) → IsRows rows → IsGreedyWhy rows p defs why
        → IsGreedyWhy rows p defs other → SayTheSameOfGreedy why other }
{}

/// Proves that one thing is known at most of the chains of some rows.
pub fn chains_are_one()
    ensures { (question : Asked) (why others : Why) (greedy other : Option GreedyWhy) (chains known : List Known) → IsRows question.rows
        → IsWhy question.rows question.sharing question.defs (length question.families) why
        → IsWhy question.rows question.sharing question.defs (length question.families) others
        → IsGreedyAsked question question.workers greedy → IsGreedyAsked question question.workers other
        → AreChains question.families why greedy chains → AreChains question.families others other known → chains ≡ known }
{}

/// Proves that there is one list of candidates at most of what is tried.
pub fn candidates_are_one()
    ensures { (question : Asked) (now : Ends) (tried : List Remedy) (candidates others : List Candidate) → IsRows question.rows
        → AreCandidates question now tried candidates → AreCandidates question now tried others → candidates ≡ others }
{}

/// Proves that the sets that are looked at are one list, each with the span that is left without it.
pub fn looked_at_are_one()
    ensures { (question : Asked) (span : ℕ) (looked others : List LookedAt) → IsRows question.rows → AreLookedAt question span looked
        → AreLookedAt question span others → looked ≡ others }
{}

/// Proves that of some rows and their chains one advice is given at most.
pub fn advice_is_one()
    ensures now { (question : Asked) (chains : List Known) (now : Ends) (advice other : Advice) → IsRows question.rows
        → IsAdvice question chains now advice → IsAdvice question chains now other → advice.now ≡ other.now }
    ensures candidates { (question : Asked) (chains : List Known) (now : Ends) (advice other : Advice) → IsRows question.rows
        → IsAdvice question chains now advice → IsAdvice question chains now other → advice.candidates.items ≡ other.candidates.items }
    ensures together { (question : Asked) (chains : List Known) (now : Ends) (advice other : Advice) → IsRows question.rows
        → IsAdvice question chains now advice → IsAdvice question chains now other → advice.together.items ≡ other.together.items }
{}

/// Proves that of several cowns at once one table is reported at most.
pub fn tables_are_one()
    ensures { (question : Asked) (span : ℕ) (lines others : List Together) → IsRows question.rows → AreCownsTogether question span lines
        → AreCownsTogether question span others → lines ≡ others }
{}

/// Proves that one change after another is one list at most.
pub fn steps_are_one()
    ensures { (question : Asked) (most : ℕ) (steps others : List Candidate) → IsRows question.rows → AreSteps question most steps
        → AreSteps question most others → steps ≡ others }
{}

/// Proves that of some rows one thing is found at most: why they take as long as they do, and what would move their end forward.
pub fn advised_is_one()
    ensures { (question : Asked) (advised other : Advised) → IsRows question.rows → IsAdvised question advised → IsAdvised question other
        → AdviseTheSame advised other }
{}

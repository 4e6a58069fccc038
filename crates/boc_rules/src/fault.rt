// Why an event was refused.

ghost use Rattle.std.specs.Prelude.{◌≡◌};

use boc_runs::event::BrokenRule;
use thiserror::Error;

/// Why an event was refused.
#[derive(Debug, Drop, Error)]
pub enum RuleFault {
    /// It breaks this rule, and none that is judged earlier. The rules of a spawn are judged in the order
    /// `NumberNotNext`, `TooMany`, `ParentNotRunning`, `Offset`, `Cowns`.
    #[error("{}", rule_text(*.0))]
    Broken(BrokenRule),
    /// Memory was refused for a row that keeps every rule.
    #[error("8 Memory")]
    Memory,
}

ghost use Rattle.boc_rules.specs.Faults.{fault_text, rule_line};

// Returns the number and the name of a rule.
fn rule_text(rule: BrokenRule) -> &'static str
    ensures { result.now ≡ rule_line rule }
{
    match rule {
        BrokenRule::NumberNotNext => "1 NumberNotNext",
        BrokenRule::ParentNotRunning => "2 ParentNotRunning",
        BrokenRule::Offset => "3 Offset",
        BrokenRule::Cowns => "4 Cowns",
        BrokenRule::StartNotAllowed => "5 StartNotAllowed",
        BrokenRule::EndNotAllowed => "6 EndNotAllowed",
        BrokenRule::TooMany => "7 TooMany",
    }
}

impl RuleFault {
    /// Returns the number and the name of the fault, as it is displayed.
    pub fn text(&self) -> &'static str
        ensures { result.now ≡ fault_text self.now }
    {
        match self {
            RuleFault::Broken(rule) => rule_text(*rule),
            RuleFault::Memory => "8 Memory",
        }
    }
}

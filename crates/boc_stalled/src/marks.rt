// Cowns that are marked.

ghost use Rattle.std.specs.Prelude.{◌≡◌, ℕ, ◌↔◌, ◌⊎◌, IsTrue, length};
ghost use Rattle.std.specs.List.{Contains};
ghost use Rattle.boc_program.specs.declared.limits.TheConstants.{MOST_COWNS};
ghost use Rattle.boc_stalled.specs.Stalled.{IsMarked, HasMarked};

use boc_program::short::HeldCown;

/// Marks cowns.
pub fn mark(marks: &mut [bool], cowns: &[HeldCown])
    requires { length marks.old ≡ MOST_COWNS }
    ensures all { length marks.new ≡ MOST_COWNS }
    ensures marked { (cown : ℕ) → IsMarked marks.new cown ↔ (IsMarked marks.old cown ⊎ Contains cowns.now cown) }
{
    for cown in cowns {
        marks[*cown as usize] = true;
    }
}

/// Returns whether one of these cowns is marked.
pub fn has_marked(marks: &[bool], cowns: &[HeldCown]) -> bool
    requires { length marks.now ≡ MOST_COWNS }
    ensures { IsTrue result ↔ HasMarked marks.now cowns.now }
{
    for cown in cowns {
        if marks[*cown as usize] {
            return true;
        }
    }
    false
}

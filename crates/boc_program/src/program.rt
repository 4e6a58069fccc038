// Programs.

ghost use Rattle.std.specs.Prelude.{◌≡◌, ◌<◌, ◌≤◌, IsTrue, length, Some, slice_get};
ghost use Rattle.boc_program.specs.Programs.{cown_count, have_members, program_fits, has_main};
ghost use Rattle.boc_program.specs.declared.limits.TheConstants.{MOST_BODIES, MOST_COWNS};

use crate::body::Body;
use crate::calls::{after_cowns, calls_fit, has_main, have_members};
use crate::limits::{MOST_BODIES, MOST_COWNS};
use crate::lists::{BodyList, CownList};

/// A program: its cowns, its main body, and its defs in the order of the text.
///
/// It has at most 256 cowns and 64 defs, and every array has a member. Main takes nothing, and every
/// `when` names a def, gives it as many arguments and cowns as it takes, and names cowns that are there.
#[derive(Drop, Debug)]
pub struct Program {
    pub cowns: CownList,
    pub bodies: BodyList,
    pub ghost members: { IsTrue (have_members cowns) },
    pub ghost few_cowns: { cown_count cowns ≤ MOST_COWNS },
    pub ghost few_defs: { length bodies ≤ MOST_BODIES },
    pub ghost main: { IsTrue (has_main bodies) },
    pub ghost calls: { IsTrue (program_fits cowns bodies) },
}

impl Program {
    ghost use Rattle.std.specs.Prelude.{MatchOption};
    ghost use Rattle.boc_program.specs.Parts.{MakesProgram};

    /// Returns a program of these parts, which fit together, main's body first. It takes no memory.
    pub fn new(cowns: CownList, bodies: BodyList) -> Program
        requires { MakesProgram cowns bodies }
        ensures cowns { result.cowns ≡ cowns }
        ensures bodies { result.bodies ≡ bodies }
    {
        Program { cowns, bodies }
    }

    /// Returns a program of these parts, main's body first, or `None` where they break a limit, an array has no
    /// member, main takes anything, or a `when` names main or does not fit the def that it names.
    pub fn checked(cowns: CownList, bodies: BodyList) -> Option<Program>
        ensures { MatchOption result (MakesProgram cowns bodies → ⊥) (λ p. (p.cowns ≡ cowns) × (p.bodies ≡ bodies)) }
    {
        if !have_members(cowns.as_slice()) {
            return None;
        }
        let left = after_cowns(cowns.as_slice(), MOST_COWNS)?;
        let all = bodies.as_slice();
        if all.len() > MOST_BODIES || !has_main(all) || !calls_fit(all, all, MOST_COWNS - left) {
            return None;
        }
        Some(Program::new(cowns, bodies))
    }

    /// Returns the body of a kind.
    pub fn body(&self, kind: usize) -> &Body
        requires { kind < length self.now.bodies }
        ensures { slice_get self.now.bodies kind ≡ Some result.now }
    {
        &self.bodies.as_slice()[kind]
    }
}

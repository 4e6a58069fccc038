// Bodies are compared by what they say.

ghost use Rattle.std.specs.Prelude.{◌≡◌, ◌↔◌, IsTrue};

use crate::body::Body;
use crate::cown::Cown;
use crate::program::Program;

/// Returns whether the bodies are the same.
pub(crate) fn same_body(a: &Body, b: &Body) -> bool
    ensures { IsTrue result ↔ (a.now ≡ b.now) }
{
    a.params == b.params
        && a.cown_params == b.cown_params
        && a.slots == b.slots
        && a.block.same(&b.block)
}

fn same_bodies(a: &[Body], b: &[Body]) -> bool
    ensures { IsTrue result ↔ (a.now ≡ b.now) }
{
    match (a, b) {
        ([], []) => true,
        ([x, rest @ ..], [y, rest_b @ ..]) => same_body(x, y) && same_bodies(rest, rest_b),
        _ => false,
    }
}

fn same_cown(a: &Cown, b: &Cown) -> bool
    ensures { IsTrue result ↔ (a.now ≡ b.now) }
{
    a.name.as_str() == b.name.as_str() && a.size == b.size && a.initial == b.initial
}

fn same_cowns(a: &[Cown], b: &[Cown]) -> bool
    ensures { IsTrue result ↔ (a.now ≡ b.now) }
{
    match (a, b) {
        ([], []) => true,
        ([x, rest @ ..], [y, rest_b @ ..]) => same_cown(x, y) && same_cowns(rest, rest_b),
        _ => false,
    }
}

/// Returns whether the programs are the same.
pub(crate) fn same_program(a: &Program, b: &Program) -> bool
    ensures { IsTrue result ↔ (a.now ≡ b.now) }
{
    same_cowns(a.cowns.as_slice(), b.cowns.as_slice())
        && same_bodies(a.bodies.as_slice(), b.bodies.as_slice())
}

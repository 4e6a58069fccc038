// Uses of cowns, and where they are noted.

ghost use Rattle.std.specs.Prelude.{◌≡◌};
ghost use Rattle.boc_uses.specs.Uses.{way_of as way_of_spec, needs as needs_spec};
ghost use Rattle.boc_uses.specs.Noting.{after_use as after_use_spec, noted};

use arrayvec::ArrayVec;
use boc_program::limits::MOST_HELD;

/// How a body uses a cown that it holds.
///
/// A body uses a cown where it reads the value of that parameter in an expression, or assigns to it. To hand the cown on in a `when`
/// is no use: that names the cown, and not its value. The tick of a use is the number of ticks that the body has counted then.
#[derive(Clone, Copy, PartialEq, Eq, Debug)]
pub struct Use {
    /// The tick of the first use.
    pub first: u32,
    /// The tick of the last use.
    pub last: u32,
    /// Whether the value is read elsewhere than on the right side of an assignment to the same parameter.
    pub needed: bool,
}

/// How a body uses each cown that it holds, in parameter order. A cown that it does not use has none.
pub type Uses = ArrayVec<Option<Use>, MOST_HELD>;

/// How a slot is used.
#[derive(Clone, Copy, PartialEq, Eq, Debug)]
pub enum Way {
    /// It is read, and its value goes into something else.
    Needing,
    /// It is read in an assignment to itself.
    Updating,
    /// It is written.
    Writing,
}

// Returns how a slot is read in an assignment to `own`, if there is one.
#[inline(always)]
pub(crate) fn way_of(own: Option<usize>, slot: usize) -> Way
    ensures { result ≡ way_of_spec own slot }
{
    match own {
        None => Way::Needing,
        Some(own) => {
            if slot == own {
                Way::Updating
            } else {
                Way::Needing
            }
        }
    }
}

#[inline(always)]
fn needs(way: Way) -> bool
    ensures { result ≡ needs_spec way }
{
    match way {
        Way::Needing => true,
        Way::Updating | Way::Writing => false,
    }
}

#[inline(always)]
fn after_use(before: Option<Use>, tick: u32, needing: bool) -> Use
    ensures { result ≡ after_use_spec before tick needing }
{
    match before {
        None => Use {
            first: tick,
            last: tick,
            needed: needing,
        },
        Some(before) => Use {
            first: before.first,
            last: tick,
            needed: before.needed || needing,
        },
    }
}

/// Notes a use of a slot, where it is a cown parameter's.
#[inline(always)]
pub(crate) fn note(uses: &mut [Option<Use>], params: usize, slot: usize, tick: u32, way: Way)
    ensures { uses.new ≡ noted params uses.old (record { slot = slot; tick = tick; way = way }) }
{
    if slot >= params && slot - params < uses.len() {
        uses[slot - params] = Some(after_use(uses[slot - params], tick, needs(way)));
    }
}

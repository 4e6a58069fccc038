// Uses in the order in which a row has its cowns.

ghost use Rattle.std.specs.Prelude.{◌≡◌, ◌≤◌, ◌++◌, length, map, OnOk};
ghost use Rattle.boc_program.specs.declared.limits.TheConstants.{MOST_HELD};
ghost use Rattle.boc_program.specs.Rising.{rising};
ghost use Rattle.boc_turns.specs.Turns.{use_at};

use boc_program::cowns::rising_cowns;
use boc_program::short::CownNo;
use boc_uses::Use;
use std::alloc::AllocError;

// Returns the use of a cown, where these are the uses of these cowns, in their order.
fn use_at(cowns: &[CownNo], uses: &[Option<Use>], cown: CownNo) -> Option<Use>
    ensures { result ≡ use_at cowns.now uses.now cown }
{
    match cowns {
        [] => None,
        [first, rest @ ..] => match uses {
            [] => None,
            [own, others @ ..] => {
                if *first == cown {
                    *own
                } else {
                    use_at(rest, others, cown)
                }
            }
        },
    }
}

// Puts the uses of some cowns after the others, where `own` has the uses of `cowns`.
fn put_each(
    uses: &mut Vec<Option<Use>>,
    cowns: &[CownNo],
    own: &[Option<Use>],
    wanted: &[CownNo],
) -> Result<(), AllocError>
    ensures { OnOk result (uses.new.items ≡ uses.old.items ++ map (use_at cowns.now own.now) wanted.now) }
{
    for cown in wanted {
        uses.push(use_at(cowns, own, *cown))?;
    }
    Ok(())
}

/// Puts the uses of these cowns after the others, in the order of the cowns' numbers. `own` has them in the order of the cowns.
pub(crate) fn put_ordered(
    uses: &mut Vec<Option<Use>>,
    cowns: &[CownNo],
    own: &[Option<Use>],
) -> Result<(), AllocError>
    requires { length cowns.now ≤ MOST_HELD }
    ensures { OnOk result (uses.new.items ≡ uses.old.items ++ map (use_at cowns.now own.now) (rising cowns.now)) }
{
    let ordered = rising_cowns(cowns);
    put_each(uses, cowns, own, &ordered)
}

//! A slot is used again, on both kinds of chains.

ghost use Rattle.std.specs.Prelude.{◌≡◌, replicate, [], ◌∷◌};

use boc_chain::{Chains, LinkChains, ListChains, Settled};
use boc_program::short::Cowns;
use std::alloc::AllocError;
use std::test::Fail;

// Returns the cowns of a behaviour with one cown, of number 0.
fn one() -> Cowns
    ensures { result.items ≡ 0 ∷ [] }
{
    let mut cowns = Cowns::new();
    cowns.push(0);
    cowns
}

// Returns whether a slot that was freed is used again, and its one request is granted at once.
fn uses_again<C: Chains>(chains: &mut C) -> Result<bool, AllocError>
    requires { C.lists chains.old ≡ replicate 1 [] }
{
    let first = chains.admit(one())?;
    let second = chains.admit(one())?;
    chains.dismiss(first);
    let third = chains.admit(one())?;
    let before = chains.swap(third, 0);
    let settled = chains.settle(third, 0);
    Ok(first == third && first != second && before.is_none() && settled == Settled::Lone)
}

#[test]
fn lists_use_a_slot_again(rt: HostRuntime) -> Result<(), Fail> {
    let mut chains = ListChains::new(rt.alloc(), 1)?;
    assert!(rt; uses_again(&mut chains)?);
    Ok(())
}

#[test]
fn links_use_a_slot_again(rt: HostRuntime) -> Result<(), Fail> {
    let mut chains = LinkChains::new(rt.alloc(), 1)?;
    assert!(rt; uses_again(&mut chains)?);
    assert_eq!(rt; chains.peak(), 2);
    Ok(())
}

//! What each call does to the list of one cown.

ghost use Rattle.std.specs.Prelude.{◌≡◌, ℕ, ◌+◌, ◌<◌, List, [], ◌∷◌, ◌++◌, length, position, ◌==◌, ◌≤◌, ◌↔◌, false};
ghost use Rattle.std.specs.Vec.{vec_len, vec_capacity};
ghost use Rattle.boc_chain.specs.Chain.{last_slot, before, settle_answer, after_settle, with_settled, with_flagged, settle_one, flag_one, leave_answer};
ghost use Rattle.boc_chain.specs.Chain.{after_leave, times, slots, IsGranted, fresh};
ghost use Rattle.boc_chain.specs.declared.request.Settled.TheVariants.{Blocked as SettleBlocked};
ghost use Rattle.boc_chain.specs.declared.request.Released.TheVariants.{Blocked as LeaveBlocked};

use crate::request::{Released, Request, Settled, Slot};

/// Returns the slot at the end of a list.
pub fn end_of(requests: &[Request]) -> Option<Slot>
    ensures { result ≡ last_slot requests.now }
{
    requests.last().map(|request| Slot {
        index: request.slot,
    })
}

// Returns the request, settled where it is the slot's.
fn settled_if(request: Request, slot: usize) -> Request
    ensures { result ≡ settle_one slot request }
{
    Request {
        settled: request.settled || request.slot == slot,
        ..request
    }
}

// Returns the request, flagged where it is the slot's.
fn flagged_if(request: Request, slot: usize) -> Request
    ensures { result ≡ flag_one slot request }
{
    Request {
        flagged: request.flagged || request.slot == slot,
        ..request
    }
}

// Marks the slot's request settled.
fn mark_settled(requests: &mut [Request], slot: usize)
    ensures { requests.new ≡ with_settled slot requests.old }
{
    for request in requests.iter_mut() {
        *request = settled_if(*request, slot);
    }
}

// Marks the slot's request flagged.
fn mark_flagged(requests: &mut [Request], slot: usize)
    ensures { requests.new ≡ with_flagged slot requests.old }
{
    for request in requests.iter_mut() {
        *request = flagged_if(*request, slot);
    }
}

/// Flags the slot's request in its cown's list.
pub fn flag_in(requests: &mut Vec<Request>, slot: usize)
    ensures after { requests.new.items ≡ with_flagged slot requests.old.items }
    ensures len { vec_len requests.new ≡ vec_len requests.old }
    ensures capacity { vec_capacity requests.new ≡ vec_capacity requests.old }
{
    mark_flagged(requests, slot);
}

// Returns the place of the slot's request.
fn place_of(requests: &[Request], slot: usize) -> Option<usize>
    ensures { result ≡ position (λ r. r.slot == slot) requests.now }
{
    requests.iter().position(|request| request.slot == slot)
}

// Returns the request right before the slot's.
fn one_before(requests: &[Request], slot: usize) -> Option<Request>
    ensures { result ≡ before slot requests.now }
{
    let place = place_of(requests, slot)?;
    if 0 < place {
        requests.get(place - 1).copied()
    } else {
        None
    }
}

/// Settles the slot's request in its cown's list.
pub fn settle_in(requests: &mut Vec<Request>, slot: usize) -> Settled
    ensures answer { result ≡ settle_answer slot requests.old.items }
    ensures after { requests.new.items ≡ after_settle slot requests.old.items }
    ensures len { vec_len requests.new ≡ vec_len requests.old }
    ensures capacity { vec_capacity requests.new ≡ vec_capacity requests.old }
{
    match one_before(requests, slot) {
        Some(request) if !request.flagged => Settled::Blocked,
        Some(_) => {
            mark_settled(requests, slot);
            Settled::Linked
        }
        None => {
            mark_settled(requests, slot);
            Settled::Lone
        }
    }
}

/// Takes the front off its cown's list, where no request is after it or the next is settled.
pub fn leave_in(requests: &mut Vec<Request>) -> Released
    requires { 0 < length requests.old.items }
    ensures answer { result ≡ leave_answer requests.old.items }
    ensures after { requests.new.items ≡ after_leave requests.old.items }
    ensures shorter { vec_len requests.new ≤ vec_len requests.old }
    ensures capacity { vec_capacity requests.new ≡ vec_capacity requests.old }
{
    match requests.get(1) {
        Some(next) if !next.settled => Released::Blocked,
        Some(next) => {
            let next = Slot { index: next.slot };
            requests.remove(0);
            Released::Passed(next)
        }
        None => {
            requests.remove(0);
            Released::Unhooked
        }
    }
}

/// Returns whether the slot's request can be settled in its cown's list.
pub fn can_settle_in(requests: &[Request], slot: usize) -> bool
    ensures { (result ≡ false) ↔ (settle_answer slot requests.now ≡ SettleBlocked) }
{
    match one_before(requests, slot) {
        Some(request) => request.flagged,
        None => true,
    }
}

/// Returns whether the front can leave its cown's list.
pub fn can_leave_in(requests: &[Request]) -> bool
    ensures { (result ≡ false) ↔ (leave_answer requests.now ≡ LeaveBlocked) }
{
    match requests.get(1) {
        Some(next) => next.settled,
        None => true,
    }
}

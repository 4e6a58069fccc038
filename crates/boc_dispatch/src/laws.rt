// A law of chains and machine: both mean one thing by a granted request.

ghost use Rattle.std.specs.Prelude.{◌≡◌, ◌↔◌, ℕ, Some, true};
ghost use Rattle.boc_runs.specs.machine.Queues.{is_granted};
ghost use Rattle.boc_runs.specs.machine.Steps.{at, queue};
ghost use Rattle.boc_chain.specs.Chain.{IsGranted, list};
ghost use Rattle.boc_dispatch.specs.declared.live.Live.{Live};
ghost use Rattle.boc_dispatch.specs.Inside.{IsKept, Parts, live_at, state};

/// In what a dispatcher keeps, the request of a behaviour for a cown is granted in the list of its chains exactly where it is
/// in the machine's state, settled and first.
pub fn requests_are_granted_in_one_way()
    ensures { (d : Parts) (slot c : ℕ) (l : Live) → IsKept d → live_at d.live slot ≡ Some l
        → IsGranted slot (list d.lists c) ↔ (is_granted (at (state d)) (queue (state d)) l.number c ≡ true) }
{}

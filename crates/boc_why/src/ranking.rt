// Spans in their order.

ghost use Rattle.std.specs.Prelude.{◌<◌, length, All, IfOk};
ghost use Rattle.boc_why.specs.Ranking.{ArePlaced, AreRanked};

use std::alloc::{AllocError, Global};

/// A span, and the place at which it is.
#[derive(Clone, Copy, PartialEq, Eq, Debug)]
pub struct Placed {
    pub span: u64,
    pub place: usize,
}

// Returns all spans with their places. `AllocError` says that memory was refused.
fn placed_spans(alloc: Global, spans: &[u64]) -> Result<Vec<Placed>, AllocError>
    ensures { IfOk result (λ placed. ArePlaced spans.now placed.items) }
{
    let mut placed = Vec::new(alloc);
    for (place, span) in spans.iter().enumerate() {
        placed.push(Placed { span: *span, place })?;
    }
    Ok(placed)
}

/// Returns all spans with their places, the smallest span first, and of equal ones the first. `AllocError` says that memory was refused.
pub fn ranked(alloc: Global, spans: &[u64]) -> Result<Vec<Placed>, AllocError>
    ensures ranked { IfOk result (λ placed. AreRanked spans.now placed.items) }
    ensures below { IfOk result (λ placed. All (λ p. p.place < length spans.now) placed.items) }
{
    let mut placed = placed_spans(alloc, spans)?;
    placed.sort_unstable_by_key(|own| (own.span, own.place));
    Ok(placed)
}

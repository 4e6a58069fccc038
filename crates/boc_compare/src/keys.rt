// Numbers, each once.

ghost use Rattle.std.specs.Prelude.{◌≡◌, ◌<◌, All, IfOk};
ghost use Rattle.boc_compare.specs.Totalled.{each_once};

use std::alloc::{AllocError, Global};

/// Returns these numbers, each once, in the order in which they come first. They are below the bound. `AllocError` says that memory was refused.
pub(crate) fn each_once(
    alloc: Global,
    numbers: &[u32],
    bound: usize,
) -> Result<Vec<u32>, AllocError>
    requires { All (λ n. n < bound) numbers.now }
    ensures { IfOk result (λ once. once.items ≡ each_once numbers.now) }
{
    let mut seen = vec![in alloc; false; bound]?;
    let mut once = Vec::new(alloc);
    for number in numbers {
        if !seen[*number as usize] {
            seen[*number as usize] = true;
            once.push(*number)?;
        }
    }
    Ok(once)
}

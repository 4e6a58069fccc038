// Tables of slots.

ghost use Rattle.std.specs.Prelude.{◌<◌, length, IsOk, OnOk, vec_capacity};
ghost use Rattle.boc_chain.specs.Tables.{IsLonger};

use std::alloc::AllocError;

/// Makes a table long enough to have this slot.
pub fn reach<T: Drop>(table: &mut Vec<Option<T>>, slot: usize) -> Result<(), AllocError>
    ensures longer { IsLonger table.old.items table.new.items }
    ensures long { OnOk result (slot < length table.new.items) }
    ensures succeeds { slot < vec_capacity table.old → IsOk result }
{
    while table.len() <= slot {
        table.push(None)?;
    }
    Ok(())
}

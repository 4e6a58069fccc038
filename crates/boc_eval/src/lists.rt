// Lists that grow by a few items at a time.

ghost use Rattle.std.specs.Prelude.{◌≡◌, ◌≤◌, ◌++◌, length, OnOk};

use arrayvec::ArrayVec;
use std::alloc::AllocError;

/// Puts items after the others. One by one, since few are copied so in less time than a call to copy them takes.
#[inline(always)]
pub fn push_each<T: Copy + Drop>(list: &mut Vec<T>, items: &[T]) -> Result<(), AllocError>
    ensures { OnOk result (list.new.items ≡ list.old.items ++ items.now) }
{
    for item in items {
        list.push(*item)?;
    }
    Ok(())
}

/// Puts items into a list, instead of those before. One by one, since few are copied so in less time than a call to copy them takes.
#[inline(always)]
pub fn refill<T: Copy + Default + Drop, const CAP: usize>(list: &mut ArrayVec<T, CAP>, items: &[T])
    requires { length items.now ≤ CAP }
    ensures { list.new.items ≡ items.now }
{
    list.clear();
    for item in items {
        list.push(*item);
    }
}

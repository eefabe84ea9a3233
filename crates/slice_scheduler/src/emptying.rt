//! Lists that are filled anew in the memory that they have.

ghost use Rattle.std.specs.Prelude.{◌≡◌, [], OnOk};

use std::alloc::AllocError;

/// Removes all items of a list, and makes room for so many others.
#[inline(always)]
pub(crate) fn empty_for<T: Drop>(list: &mut Vec<T>, items: usize) -> Result<(), AllocError>
    ensures { OnOk result (list.new.items ≡ []) }
{
    list.clear();
    Ok(list.reserve(items)?)
}

/// Puts a copy of each item of a slice into a list, in place of the items that it has.
#[inline(always)]
pub(crate) fn copy_into<T: Copy>(list: &mut Vec<T>, slice: &[T]) -> Result<(), AllocError>
    ensures { OnOk result (list.new.items ≡ slice.now) }
{
    list.clear();
    Ok(list.extend_from_slice(slice)?)
}

//! Lists by number: of so many numbers, one list for each.

ghost use Rattle.std.specs.Prelude.{◌≡◌, ◌≢◌, ℕ, ◌<◌, [], ◌∷◌, ◌++◌, length, slice_get, slice_index_or, Some, IfOk, OnOk};

use hem_base::{List, OutOfMemory};
use std::alloc::Global;
use std::mem;

/// Of so many numbers, lists with nothing in them.
pub(crate) fn empty_lists<T: Drop>(
    alloc: Global,
    count: usize,
) -> Result<List<List<T>>, OutOfMemory>
    ensures size { IfOk result (λ lists. length lists ≡ count) }
    ensures none { IfOk result (λ lists. (n : ℕ) → slice_index_or lists n [] ≡ []) }
{
    let mut lists = List::from_vec(Vec::with_capacity(alloc, count)?);
    for _n in 0..count {
        lists.push(List::new(alloc))?;
    }
    Ok(lists)
}

/// Puts an item at the end of a number's list.
pub(crate) fn append<T: Drop>(
    lists: &mut List<List<T>>,
    number: usize,
    item: T,
) -> Result<(), OutOfMemory>
    requires { number < length lists.old }
    ensures there { OnOk result (slice_get lists.new number ≡ Some (slice_index_or lists.old number [] ++ item ∷ [])) }
    ensures others { OnOk result ((n : ℕ) → n ≢ number → slice_get lists.new n ≡ slice_get lists.old n) }
    ensures size { length lists.new ≡ length lists.old }
{
    let list = lists.at_mut(number);
    list.push(item)
}

/// Takes a number's list out, and leaves one with nothing in it.
pub(crate) fn take_out<T: Drop>(alloc: Global, lists: &mut List<List<T>>, number: usize) -> List<T>
    requires { number < length lists.old }
    ensures taken { result ≡ slice_index_or lists.old number [] }
    ensures others { (n : ℕ) → n ≢ number → slice_get lists.new n ≡ slice_get lists.old n }
    ensures size { length lists.new ≡ length lists.old }
{
    let list = lists.at_mut(number);
    mem::replace(list, List::new(alloc))
}

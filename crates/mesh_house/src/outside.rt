// Lists without the items of some keys.
ghost use Rattle.std.specs.Prelude.{◌≡◌, [], true, ◌≤◌, length, is_some, IsTrue, IsFalse};
ghost use Rattle.mesh_list.specs.Keyed.{ascends, found, place_of};
ghost use Rattle.mesh_house.specs.Outside.{itself, may_lose, outside};

use mesh_list::{Keyed, Register};
use std::mem;

// The number of keys in front of the first that is not below that of an item, by halves.
fn seek<T: Keyed>(keys: &[T::Key], item: &T) -> usize
    requires { ascends T.order itself keys.now ≡ true }
    ensures place { result ≡ place_of T.order itself (T.key item.now) keys.now }
    ensures within { result ≤ length keys.now }
{
    let mut low = 0;
    let mut high = keys.len();
    while low < high {
        let middle = low + (high - low) / 2;
        if item.compare(&keys[middle]).is_gt() {
            low = middle + 1;
        } else {
            high = middle;
        }
    }
    low
}

// Whether the key of an item is listed.
fn is_listed<T: Keyed>(keys: &[T::Key], item: &T) -> bool
    requires { ascends T.order itself keys.now ≡ true }
    ensures { result ≡ is_some (found T.order itself (T.key item.now) keys.now) }
{
    let at = seek(keys, item);
    if at == keys.len() {
        return false;
    }
    item.compare(&keys[at]).is_eq()
}

// The items but for those whose keys are listed. It takes no memory.
fn thinned<T: Keyed>(mut items: Vec<T>, keys: &[T::Key]) -> Vec<T>
    requires { ascends T.order itself keys.now ≡ true }
    ensures { result.items ≡ outside T.order T.key keys.now items.items }
{
    items.retain(
        |item|
            requires { ascends T.order itself keys.now ≡ true }
        { !is_listed(keys, item) },
    );
    items
}

/// Takes the items whose keys are listed out of a register, in one pass and without memory.
pub(crate) fn thin<T: Keyed>(list: &mut Register<T>, keys: &[T::Key])
    requires { ascends T.order itself keys.now ≡ true }
    ensures { list.new ≡ outside T.order T.key keys.now list.old }
{
    if keys.is_empty() {
        return;
    }
    let nothing = Register::new(list.alloc());
    let items = mem::replace(list, nothing).into_vec();
    *list = Register::from_vec(thinned(items, keys));
}

// Whether each key is below the next.
fn is_ascending<T: Keyed>(items: &[T]) -> bool
    ensures { IsTrue result → ascends T.order T.key items.now ≡ true }
{
    for i in 1..items.len() {
        if !items[i - 1].against(&items[i]).is_lt() {
            return false;
        }
    }
    true
}

/// Whether one more item may be left to go later. Where others are, the list is known to ascend.
pub(crate) fn may_wait<T: Keyed>(keys: &[T::Key], items: &[T]) -> bool
    requires { may_lose T.order T.key keys.now items.now ≡ true }
    ensures yes { IsTrue result → ascends T.order T.key items.now ≡ true }
    ensures no { IsFalse result → keys.now ≡ [] }
{
    if keys.is_empty() {
        return is_ascending(items);
    }
    true
}

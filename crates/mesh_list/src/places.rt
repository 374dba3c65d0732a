// Where a key stands in a list, and where it belongs.
ghost use Rattle.std.specs.Prelude.{◌≡◌, true, ◌≤◌, length, IsTrue, OnOk, OnErr};
ghost use Rattle.std.specs.Option.{option_copied};
ghost use Rattle.mesh_list.specs.Keyed.{found, placed, without, exchanged, ascends, place_of, first_at};

use crate::keyed::Keyed;
use crate::memory::Memory;

// The number of items in front of the first whose key is not below this key, by halves.
fn seek<T: Keyed>(items: &[T], key: &T::Key) -> usize
    requires { ascends T.order T.key items.now ≡ true }
    ensures place { result ≡ place_of T.order T.key key.now items.now }
    ensures within { result ≤ length items.now }
{
    let mut low = 0;
    let mut high = items.len();
    while low < high {
        let middle = low + (high - low) / 2;
        if items[middle].compare(key).is_lt() {
            low = middle + 1;
        } else {
            high = middle;
        }
    }
    low
}

// The same for the key of an item.
fn seek_item<T: Keyed>(items: &[T], item: &T) -> usize
    requires { ascends T.order T.key items.now ≡ true }
    ensures place { result ≡ place_of T.order T.key (T.key item.now) items.now }
    ensures within { result ≤ length items.now }
{
    let mut low = 0;
    let mut high = items.len();
    while low < high {
        let middle = low + (high - low) / 2;
        if items[middle].against(item).is_lt() {
            low = middle + 1;
        } else {
            high = middle;
        }
    }
    low
}

// The same where the list need not ascend, from the front.
fn walk_to<T: Keyed>(items: &[T], item: &T) -> usize
    ensures place { result ≡ place_of T.order T.key (T.key item.now) items.now }
    ensures within { result ≤ length items.now }
{
    for (i, other) in items.iter().enumerate() {
        if !other.against(item).is_lt() {
            return i;
        }
    }
    items.len()
}

// The number of items in front of the first whose key is not below that of this item.
fn belongs_at<T: Keyed>(items: &[T], ascending: bool, item: &T) -> usize
    requires { IsTrue ascending → ascends T.order T.key items.now ≡ true }
    ensures place { result ≡ place_of T.order T.key (T.key item.now) items.now }
    ensures within { result ≤ length items.now }
{
    if ascending {
        seek_item(items, item)
    } else {
        walk_to(items, item)
    }
}

// Where the item with this key stands, by halves.
fn stands_at<T: Keyed>(items: &[T], key: &T::Key) -> Option<usize>
    requires { ascends T.order T.key items.now ≡ true }
    ensures { result ≡ first_at T.order T.key key.now items.now }
{
    let at = seek(items, key);
    if at == items.len() {
        return None;
    }
    if items[at].compare(key).is_eq() {
        return Some(at);
    }
    None
}

// The same where the list need not ascend, from the front.
fn met_at<T: Keyed>(items: &[T], key: &T::Key) -> Option<usize>
    ensures { result ≡ first_at T.order T.key key.now items.now }
{
    for (i, item) in items.iter().enumerate() {
        if item.compare(key).is_eq() {
            return Some(i);
        }
    }
    None
}

// Where the first item with this key stands.
fn key_at<T: Keyed>(items: &[T], ascending: bool, key: &T::Key) -> Option<usize>
    requires { IsTrue ascending → ascends T.order T.key items.now ≡ true }
    ensures { result ≡ first_at T.order T.key key.now items.now }
{
    if ascending {
        stands_at(items, key)
    } else {
        met_at(items, key)
    }
}

// Where an item with the key of this one stands, by halves.
fn like_stands_at<T: Keyed>(items: &[T], item: &T) -> Option<usize>
    requires { ascends T.order T.key items.now ≡ true }
    ensures { result ≡ first_at T.order T.key (T.key item.now) items.now }
{
    let at = seek_item(items, item);
    if at == items.len() {
        return None;
    }
    if items[at].against(item).is_eq() {
        return Some(at);
    }
    None
}

// The same where the list need not ascend, from the front.
fn like_met_at<T: Keyed>(items: &[T], item: &T) -> Option<usize>
    ensures { result ≡ first_at T.order T.key (T.key item.now) items.now }
{
    for (i, other) in items.iter().enumerate() {
        if other.against(item).is_eq() {
            return Some(i);
        }
    }
    None
}

// Where the first item with the key of this one stands.
fn like_at<T: Keyed>(items: &[T], ascending: bool, item: &T) -> Option<usize>
    requires { IsTrue ascending → ascends T.order T.key items.now ≡ true }
    ensures { result ≡ first_at T.order T.key (T.key item.now) items.now }
{
    if ascending {
        like_stands_at(items, item)
    } else {
        like_met_at(items, item)
    }
}

// The first item with this key.
pub(crate) fn find_in<'a, T: Keyed>(items: &'a [T], ascending: bool, key: &T::Key) -> Option<&'a T>
    requires { IsTrue ascending → ascends T.order T.key items.now ≡ true }
    ensures { option_copied result ≡ found T.order T.key key.now items.now }
{
    match key_at(items, ascending, key) {
        Some(at) => Some(&items[at]),
        None => None,
    }
}

// Takes the first item with this key out.
pub(crate) fn remove_in<T: Keyed>(items: &mut Vec<T>, ascending: bool, key: &T::Key) -> Option<T>
    requires { IsTrue ascending → ascends T.order T.key items.old.items ≡ true }
    ensures value { result ≡ found T.order T.key key.now items.old.items }
    ensures rest { items.new.items ≡ without T.order T.key key.now items.old.items }
{
    match key_at(items.as_slice(), ascending, key) {
        Some(at) => Some(items.remove(at)),
        None => None,
    }
}

// Puts an item where the first with its key stands, and answers that.
pub(crate) fn exchange_in<T: Keyed>(items: &mut Vec<T>, ascending: bool, item: T) -> Option<T>
    requires { IsTrue ascending → ascends T.order T.key items.old.items ≡ true }
    ensures value { result ≡ found T.order T.key (T.key item) items.old.items }
    ensures rest { items.new.items ≡ exchanged T.order T.key item items.old.items }
{
    match like_at(items.as_slice(), ascending, &item) {
        Some(at) => Some(std::mem::replace(&mut items[at], item)),
        None => None,
    }
}

// Puts an item at its place, instead of the one that had its key.
pub(crate) fn place_in<T: Keyed>(items: &mut Vec<T>, ascending: bool, item: T) -> Result<(), Memory>
    requires { IsTrue ascending → ascends T.order T.key items.old.items ≡ true }
    ensures ok { OnOk result (items.new.items ≡ placed T.order T.key item items.old.items) }
    ensures err { OnErr result (items.new.items ≡ items.old.items) }
{
    let at = belongs_at(items.as_slice(), ascending, &item);
    if at == items.len() {
        items.push(item)?;
        return Ok(());
    }
    if items[at].against(&item).is_eq() {
        items[at] = item;
        return Ok(());
    }
    items.insert(at, item)?;
    Ok(())
}

// Whether each key is below the next.
pub(crate) fn is_ascending<T: Keyed>(items: &[T]) -> bool
    ensures { IsTrue result → ascends T.order T.key items.now ≡ true }
{
    for i in 1..items.len() {
        if !items[i - 1].against(&items[i]).is_lt() {
            return false;
        }
    }
    true
}

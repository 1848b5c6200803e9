//! Lists of values under keys, in the order of the keys.
ghost use Rattle.std.specs.Prelude.{◌≡◌, ◌≤◌, false, not, length, slice_get, OnOk};
ghost use Rattle.std.specs.BTreeMap.{insert_entry};
ghost use Rattle.std.specs.List.{prefix_len};
ghost use Rattle.std.specs.Map.{remove_entry};
ghost use Rattle.std.specs.Option.{option_map_or};
ghost use Rattle.std.specs.Ordering.{is_gt, is_eq};

use std::alloc::AllocError;

/// How many entries in front have keys below that one.
fn place_for<K: Ord, V>(list: &[(K, V)], key: &K) -> usize
    ensures place { result ≡ prefix_len (λ e. is_gt (K.cmp key.now e.0)) list.now }
    ensures within { result ≤ length list.now }
{
    list.iter().take_while(|e| key.cmp(&e.0).is_gt()).count()
}

/// Whether an entry stands at that place, under that key.
fn is_under<K: Ord, V>(list: &[(K, V)], place: usize, key: &K) -> bool
    ensures { result ≡ option_map_or (λ e. is_eq (K.cmp key.now e.0)) (slice_get list.now place) false }
{
    match list.get(place) {
        Some(entry) => key.cmp(&entry.0).is_eq(),
        None => false,
    }
}

/// Puts a value under that key, in the place of an older one, or where the order puts it. It goes by the keys one after the other.
pub(crate) fn put_entry<K: Ord + Copy, V: Drop>(
    list: &mut Vec<(K, V)>,
    key: K,
    value: V,
) -> Result<(), AllocError>
    ensures { OnOk result (list.new.items ≡ insert_entry K.cmp list.old.items key value) }
{
    let place = place_for(list.as_slice(), &key);
    if is_under(list.as_slice(), place, &key) {
        list[place].1 = value;
    } else {
        list.insert(place, (key, value))?;
    }
    Ok(())
}

/// How many entries stand before the first one under that key, or how many there are where none is.
fn count_before<K: Ord, V>(list: &[(K, V)], key: &K) -> usize
    ensures place { result ≡ prefix_len (λ e. not (is_eq (K.cmp key.now e.0))) list.now }
    ensures within { result ≤ length list.now }
{
    list.iter().take_while(|e| !key.cmp(&e.0).is_eq()).count()
}

/// Takes the value under that key away, if there is one.
pub(crate) fn drop_entry<K: Ord + Copy, V: Drop>(list: &mut Vec<(K, V)>, key: K)
    ensures { list.new.items ≡ remove_entry (λ k. is_eq (K.cmp key k)) list.old.items }
{
    let place = count_before(list.as_slice(), &key);
    if place < list.len() {
        let _entry = list.remove(place);
    }
}

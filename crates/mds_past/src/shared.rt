//! What all packed requests share: the keys of vehicles, and the names of types.
ghost use Rattle.std.specs.Prelude.{◌≡◌, ◌+◌, ◌<◌, ◌≤◌, ◌^◌, Some, length, slice_get, vec_len, vec_capacity, IfSome};
ghost use Rattle.mds_core.specs.Reported.{max_event_types};
ghost use Rattle.mds_past.specs.Shared.{AddsBehind, StandsAt};

use mds_core::Key;
use mds_table::TypeName;

/// How many lists of types are looked through for one that came before.
const MAX_STARTS: usize = 128;

/// The place of a key, which is put behind the others unless it stands at `number`.
pub(crate) fn place_of_key(key: &Key, number: usize, keys: &mut Vec<Key>) -> u32
    requires room { vec_len keys.old < vec_capacity keys.old }
    requires fits { vec_len keys.old < 2 ^ 32 }
    ensures adds { AddsBehind 1 keys.old.items keys.new.items }
    ensures place { slice_get keys.new.items result ≡ Some key.now }
{
    if number < keys.len() && keys[number] == *key {
        return number as u32;
    }
    let place = keys.len() as u32;
    let Ok(()) = keys.push(*key) else {
        unreachable!();
    };
    place
}

/// The place of the first of these types, which are put behind the others unless they stand at one of the starts.
pub(crate) fn place_of_types(
    types: &[TypeName],
    names: &mut Vec<TypeName>,
    starts: &mut Vec<usize>,
) -> u32
    requires few { length types.now ≤ max_event_types }
    requires room { vec_len names.old + max_event_types ≤ vec_capacity names.old }
    requires fits { vec_len names.old + max_event_types < 2 ^ 32 }
    ensures adds { AddsBehind max_event_types names.old.items names.new.items }
    ensures place { StandsAt types.now names.new.items result }
{
    if let Some(place) = find_types(types, names, starts) {
        return place as u32;
    }
    let place = names.len();
    let Ok(()) = names.extend_from_slice(types) else {
        unreachable!();
    };
    // Without memory for it, the list is written again when it comes again.
    if starts.len() < MAX_STARTS {
        let _ = starts.push(place);
    }
    place as u32
}

/// Where these types stand among the names, if they do at one of the starts.
fn find_types(types: &[TypeName], names: &[TypeName], starts: &[usize]) -> Option<usize>
    ensures { IfSome result (StandsAt types.now names.now) }
{
    for start in starts {
        if let Some(rest) = names.get(*start..) {
            if rest.starts_with(types) {
                return Some(*start);
            }
        }
    }
    None
}

//! Going over a vehicle's requests from the last one back to the first, some at a time.
ghost use Rattle.std.specs.Prelude.{◌≡◌, ◌≤◌, ◌<◌, ◌+◌, ◌++◌, List, Some, length};
ghost use Rattle.std.specs.Option.{option_to_list};
ghost use mathlib.Core.List.{IsPrefix};
ghost use Rattle.mds_core.specs.declared.key.Key.{Key};
ghost use Rattle.mds_core.specs.declared.request.Request.{Request as Requested};
ghost use Rattle.mds_shard.specs.Replay.{AreBefore};
ghost use Rattle.mds_shard.specs.Walk.{IsWalkOf, steps_left};

use crate::TakesEvents;
use mds_core::EventRef;
use mds_past::{KeptForm, Past};

/// The most requests of a vehicle that are gone over at a time.
pub const MAX_STEPS: usize = 64;

/// Where a walk over a vehicle's requests begins.
#[derive(Clone, Copy, Debug, PartialEq, Eq)]
pub struct WalkStart {
    /// The place in the history of its last request.
    pub last: usize,
    /// How many events it has.
    pub events: usize,
}

fn add_event<E: TakesEvents>(list: &mut E, event: Option<EventRef<'_>>)
    requires { 1 ≤ E.room list.old }
    ensures events { E.events list.new ≡ E.events list.old ++ option_to_list event.entry }
    ensures room { E.room list.old + length (E.events list.old)
        ≤ E.room list.new + length (E.events list.new) }
{
    if let Some(event) = event {
        list.add(&event);
    }
}

/// As [`crate::Shard::walk_back`].
pub(crate) fn walk_back<K: KeptForm, E: TakesEvents>(
    past: &Past<K>,
    from: usize,
    list: &mut E,
) -> Option<usize>
    requires before { AreBefore past.now.requests past.now.before }
    requires from { from < length past.now.requests }
    requires room { MAX_STEPS ≤ E.room list.old }
    ensures walk { (seen : List Requested) (key : Key) → IsPrefix seen past.now.requests
        → IsWalkOf seen key (Some from) (E.events list.old)
        → IsWalkOf seen key result (E.events list.new) }
    ensures nears { steps_left result ≤ from }
    ensures room { E.room list.old + length (E.events list.old)
        ≤ E.room list.new + length (E.events list.new) }
{
    let mut place = from;
    for _step in 0..MAX_STEPS {
        add_event(list, past.event(place));
        let Some(earlier) = past.earlier(place) else {
            return None;
        };
        place = earlier;
    }
    Some(place)
}

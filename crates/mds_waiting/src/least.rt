//! The connection with the least time.
ghost use Rattle.std.specs.Prelude.{◌≡◌};
ghost use Rattle.mds_waiting.specs.Least.{IsLeast, time_in, lesser_of};

use crate::Waiter;

/// By which time connections are compared, and which of them.
#[derive(Clone, Copy, Debug, PartialEq, Eq)]
pub(crate) enum Order {
    /// All, by when their times are over.
    Until,
    /// Those that hold at least so many bytes, by when they began.
    Begun {
        /// How many.
        bytes: usize,
    },
}

/// A connection that was found, by its key, and its time.
#[derive(Clone, Copy, Debug, PartialEq, Eq)]
pub(crate) struct Found {
    pub(crate) key: usize,
    pub(crate) time: u64,
}

impl Order {
    fn time_in<S>(self, slot: &Option<Waiter<S>>) -> Option<u64>
        ensures { result ≡ time_in self slot.now }
    {
        let Some(waiter) = slot else {
            return None;
        };
        match self {
            Order::Until => Some(waiter.until),
            Order::Begun { bytes } if bytes <= waiter.bytes.len() => Some(waiter.begun),
            Order::Begun { .. } => None,
        }
    }
}

fn lesser_of(first: Option<Found>, key: usize, time: Option<u64>) -> Option<Found>
    ensures { result ≡ lesser_of first key time }
{
    match (first, time) {
        (_, None) => first,
        (Some(found), Some(time)) if found.time <= time => Some(found),
        (_, Some(time)) => Some(Found { key, time }),
    }
}

pub(crate) fn find_least<S>(slots: &[Option<Waiter<S>>], order: Order) -> Option<Found>
    ensures { IsLeast order slots.now result }
{
    let mut best = None;
    for key in 0..slots.len() {
        best = lesser_of(best, key, order.time_in(&slots[key]));
    }
    best
}

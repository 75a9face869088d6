//! A call of `mds_log`.
ghost use Rattle.std.specs.Prelude.{◌≡◌, ◌++◌, ◌+◌, ◌∷◌, ◌<◌, ◌^◌, [], length};
ghost use mathlib.Core.List.{IsPrefix};

use mds_core::Request;
use mds_log::{Front, Keeper, Logged, Mark, Marked};

/// Adds a request to a log under a caller's mark, and shows the caller the whole log.
pub fn add_and_show<J: Logged, K: Marked>(
    keeper: &mut Keeper<J>,
    mark: &Mark<K>,
    request: &Request,
    front: &mut Front<J>,
)
    requires { length keeper.old + 1 < 2 ^ 63 }
    ensures added { keeper.new ≡ keeper.old ++ record { tag = mark.now; request = request.now } ∷ [] }
    ensures shown { front.new ≡ keeper.new }
    ensures begins { IsPrefix front.old front.new }
{
    keeper.add(mark, request);
    keeper.show(front);
}

//! A call of `mds_waiting`.
ghost use Rattle.std.specs.Prelude.{◌≡◌, Some, vec_len};
ghost use Rattle.mds_waiting.specs.Waiting.{HasRoom, IsVacant};

use mds_waiting::{Waiter, Waiting};

/// Has a connection wait under a key, and takes it again: it is the same, and the others wait as they did.
pub fn put_and_take<S: Drop>(
    waiting: &mut Waiting<S>,
    key: usize,
    waiter: Waiter<S>,
) -> Option<Waiter<S>>
    requires vacant { IsVacant waiting.old key }
    requires room { HasRoom waiting.old (vec_len waiter.bytes) }
    ensures taken { result ≡ Some waiter }
    ensures others { waiting.new ≡ waiting.old }
{
    waiting.put(key, waiter);
    waiting.take(key)
}

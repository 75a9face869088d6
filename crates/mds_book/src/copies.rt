//! Requests that were copied, in room that is used again.
ghost use Rattle.std.specs.Prelude.{◌≡◌, ◌<◌, ◌≤◌, ◌+◌, ◌++◌, ◌∷◌, ◌^◌, [], Some, length, slice_get, take, drop, OnOk, OnErr};
ghost use Rattle.mds_core.specs.declared.request.Request.{Request as Requested};

use mds_core::Request;
use mds_past::{KeptForm, Past};
use std::alloc::{AllocError, Global};
use std::marker::Model;

/// Requests that were copied, one behind the other. Contracts see the list of them.
///
/// Its room stays when it is cleared. A request that comes into the room of an earlier one is copied as far as it has something
/// of its own: most of an event is room for further types.
#[derive(Drop)]
pub struct Copies {
    room: Vec<Request>,
    count: usize,
}

impl Model for Copies {
    ghost use Rattle.std.specs.Prelude.{◌≤◌, List, take, vec_len};
    ghost use Rattle.mds_core.specs.declared.request.Request.{Request as Requested};

    ghost Value = { List Requested };

    ghost view = { λ copies. take copies.count copies.room.items };

    ghost invariant = { λ copies. copies.count ≤ vec_len copies.room };
}

impl Copies {
    /// No requests. It takes no memory.
    pub fn new(alloc: Global) -> Copies
        ensures { result ≡ [] }
    {
        Copies {
            room: Vec::new(alloc),
            count: 0,
        }
    }

    /// The requests.
    pub fn as_slice(&self) -> &[Request]
        ensures { result.now ≡ self.now }
    {
        &self.room[..self.count]
    }

    /// Takes all requests out. The room stays.
    pub fn clear(&mut self)
        ensures { self.new ≡ [] }
    {
        self.count = 0;
    }

    /// Copies the request at this place of a past.
    fn push<K: KeptForm>(&mut self, past: &Past<K>, at: usize) -> Result<(), AllocError>
        requires { at < length past.now.requests }
        ensures pushed { OnOk result ((request : Requested)
            × (slice_get past.now.requests at ≡ Some request)
            × (self.new ≡ self.old ++ request ∷ [])) }
        ensures unchanged { OnErr result (self.new ≡ self.old) }
    {
        if self.count == self.room.len() {
            self.room.push(Request::Look(*past.key(at)))?;
        }
        past.copy_to(at, &mut self.room[self.count]);
        self.count += 1;
        Ok(())
    }

    /// Copies so many requests of a past, from this place on. Where there is no memory, some of them may have been added.
    pub(crate) fn take<K: KeptForm>(
        &mut self,
        past: &Past<K>,
        from: usize,
        size: usize,
    ) -> Result<(), AllocError>
        requires within { from + size ≤ length past.now.requests }
        requires small { from + size < 2 ^ 64 }
        ensures { OnOk result (self.new ≡ self.old ++ take size (drop from past.now.requests)) }
    {
        for done in 0..size {
            self.push(past, from + done)?;
        }
        Ok(())
    }
}

//! A list that grows by pieces.
ghost use Rattle.std.specs.Prelude.{◌≡◌, ◌<◌, ◌+◌, ◌-◌, ◌≤◌, ◌++◌, [], ◌∷◌, Some, length, slice_get, OnOk, OnErr};

use std::alloc::{AllocError, Global};
use std::marker::Model;
use std::mem;

/// The most elements of a piece for which all memory is asked for at once.
const WHOLE: usize = 1 << 20;

/// A list that grows by pieces of so many elements. An element of a full piece never moves, and memory is asked for a piece at a
/// time, so the list needs no room to move to and no more than one piece that is in part unused.
///
/// Where a piece has more than 2^20 elements, it grows as a `Vec` does.
///
/// Contracts see the elements, the size of a piece, and for how many further elements there is memory for certain.
#[derive(Drop)]
pub struct Pieces<T: Copy> {
    full: Vec<Vec<T>>,
    last: Vec<T>,
    size: usize,
    len: usize,
    room: usize,
}

impl<T: Copy> Model for Pieces<T> {
    ghost use Rattle.mds_past.specs.Pieces.{Pieced, pieced_code, joined, ArePieces};

    ghost Value = { Pieced T };

    ghost coded = { pieced_code T.code };

    ghost use Rattle.std.specs.Prelude.{◌++◌};

    ghost view = { λ pieces. record {
      items = joined pieces.full.items ++ pieces.last.items;
      size = pieces.size;
      room = pieces.room;
    } };

    ghost invariant = { λ pieces. ArePieces pieces.full pieces.last pieces.size pieces.len
        pieces.room };
}

impl<T: Copy> Pieces<T> {
    /// No elements. It takes no memory.
    pub fn new(alloc: Global, size: usize) -> Pieces<T>
        requires { 1 ≤ size }
        ensures { result ≡ record { items = []; size = size; room = 0 } }
    {
        Pieces {
            full: Vec::new(alloc),
            last: Vec::new(alloc),
            size,
            len: 0,
            room: 0,
        }
    }

    /// How many elements there are.
    pub fn len(&self) -> usize
        ensures { result ≡ length self.now.items }
    {
        self.len
    }

    /// Makes room for a further element.
    ///
    /// # Errors
    ///
    /// `AllocError` where there is no memory for it; the elements stay as they are.
    pub fn reserve(&mut self) -> Result<(), AllocError>
        ensures items { self.new.items ≡ self.old.items }
        ensures size { self.new.size ≡ self.old.size }
        ensures room { OnOk result (1 ≤ self.new.room) }
        ensures more { self.old.room ≤ self.new.room }
        ensures full { OnErr result (self.old.room ≡ 0) }
    {
        if self.room > 0 {
            return Ok(());
        }
        if self.len == usize::MAX {
            return Err(AllocError);
        }
        if self.last.len() == self.size {
            self.full.reserve(1)?;
            let alloc = *self.last.allocator();
            let last = mem::replace(&mut self.last, Vec::new(alloc));
            let Ok(()) = self.full.push(last) else {
                unreachable!();
            };
        }
        let places = if self.last.is_empty() && self.size <= WHOLE {
            self.size
        } else {
            1
        };
        self.last.reserve(places)?;
        self.room = 1;
        Ok(())
    }

    /// Adds an element behind the others.
    pub fn push(&mut self, value: T)
        requires { 1 ≤ self.old.room }
        ensures { self.new ≡ record {
          items = self.old.items ++ value ∷ [];
          size = self.old.size;
          room = self.old.room - 1;
        } }
    {
        let Ok(()) = self.last.push(value) else {
            unreachable!();
        };
        self.len += 1;
        self.room -= 1;
    }

    /// The element at this place, from 0.
    pub fn get(&self, at: usize) -> &T
        requires { at < length self.now.items }
        ensures { slice_get self.now.items at ≡ Some result.now }
    {
        match self.full.get(at / self.size) {
            Some(piece) => &piece[at % self.size],
            None => &self.last[at % self.size],
        }
    }

    /// All elements, while the first piece isn't full.
    pub fn as_slice(&self) -> &[T]
        requires { length self.now.items < self.now.size }
        ensures { result.now ≡ self.now.items }
    {
        &self.last
    }
}

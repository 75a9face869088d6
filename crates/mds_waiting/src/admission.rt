//! Who leaves where one more connection is to wait.
ghost use Rattle.std.specs.Prelude.{◌≡◌, ◌<◌, ℕ, All, IfNone, IfSome, length, true, false};
ghost use Rattle.mds_waiting.specs.Waiting.{HasBegunSince, HasRoom, HaveLeftFor, IsVacant, LeavesEldestBefore, LeavesKey, MakesWay, max_waiting};

use crate::waiting::Waiting;
use std::alloc::AllocError;

impl<S: Drop> Waiting<S> {
    /// A key for one more connection, which holds so many bytes, and room for it: the eldest ones that hold bytes leave where
    /// there is no room for it, and the eldest one of all where each key has a connection. `None` for want of memory for one more
    /// slot.
    pub fn key_for(&mut self, count: usize) -> Option<usize>
        ensures vacant { IfSome result (IsVacant self.new) }
        ensures room { HasRoom self.new count }
        ensures memory { IfNone result (length self.old < max_waiting) }
        ensures others { HasRoom self.old count → LeavesKey self.old self.new }
        ensures left { MakesWay count self.old self.new }
    {
        if !self.has_room(count) {
            self.clear_room(count);
        }
        self.clear_key()
    }

    /// Lets go of the eldest ones that hold bytes, one after the other, until there is room for so many more.
    fn clear_room(&mut self, count: usize)
        ensures left { (n : ℕ) × HaveLeftFor n count self.old self.new }
        ensures room { HasRoom self.new count }
    {
        while self.make_room(count).is_some() {}
    }

    /// A key that no connection has: the eldest connection leaves where each key has one. `None` for want of memory.
    fn clear_key(&mut self) -> Option<usize>
        ensures vacant { IfSome result (IsVacant self.new) }
        ensures memory { IfNone result (length self.old < max_waiting) }
        ensures left { LeavesKey self.old self.new }
    {
        match self.vacancy() {
            Ok(Some(key)) => return Some(key),
            Ok(None) => {}
            Err(AllocError) => return None,
        }
        let key = self.eldest_holding(0)?;
        let _ = self.take(key);
        Some(key)
    }

    /// Lets go of the connection that began to wait first, if it did so before this time: whether it did.
    pub fn let_eldest_go(&mut self, before: u64) -> bool
        ensures left { result ≡ true → LeavesEldestBefore before self.old self.new }
        ensures none { result ≡ false → All (HasBegunSince before) self.old }
        ensures same { result ≡ false → self.new ≡ self.old }
    {
        match self.eldest_before(before) {
            Some(key) => {
                let _ = self.take(key);
                true
            }
            None => false,
        }
    }
}

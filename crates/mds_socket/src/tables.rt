//! The connections that wait: those whose requests come, and those whose answers leave.
ghost use Rattle.std.specs.Prelude.{◌≡◌, ◌↔◌, ◌⊎◌, All, count_by, is_some, IfNone, IfSome, OnErr, OnOk, Some, true, false, slice_set, vec_len};
ghost use Rattle.mds_waiting.specs.Waiting.{HasRoom, IsInTime, IsVacant, Joins};
ghost use Rattle.mds_socket.specs.Tables.{LeavesLate};

use crate::system::{Ready, System};
use mds_metrics::{Board, Gauge};
use mds_waiting::{Coming, Leaving, Part, Peer, Waiter, Waiting};
use std::alloc::Global;

/// The connections that wait.
#[derive(Drop)]
pub(crate) struct Tables<P> {
    pub(crate) coming: Waiting<Coming<P>>,
    pub(crate) leaving: Waiting<Leaving<P>>,
    /// Whether a worker that takes a new connection may wait for it.
    may_wait: bool,
    /// How many were let go since they were late.
    pub(crate) late: u64,
    /// How many were let go to make room for others.
    pub(crate) crowded: u64,
    /// What was told last.
    told: Levels,
}

/// Who waits, and who was let go.
#[derive(Clone, Copy, PartialEq, Eq)]
struct Levels {
    coming: usize,
    coming_bytes: usize,
    leaving: usize,
    leaving_bytes: usize,
    late: u64,
    crowded: u64,
}

impl Levels {
    /// Nobody.
    fn none() -> Levels {
        Levels {
            coming: 0,
            coming_bytes: 0,
            leaving: 0,
            leaving_bytes: 0,
            late: 0,
            crowded: 0,
        }
    }

    fn tell(&self, board: &Board) {
        board.set(Gauge::Coming, self.coming as u64);
        board.set(Gauge::ComingBytes, self.coming_bytes as u64);
        board.set(Gauge::Leaving, self.leaving as u64);
        board.set(Gauge::LeavingBytes, self.leaving_bytes as u64);
        board.set(Gauge::DroppedLate, self.late);
        board.set(Gauge::DroppedForRoom, self.crowded);
    }
}

/// A connection that was late, and waits no more.
#[derive(Drop)]
pub(crate) enum Late<P> {
    /// Its request wasn't whole.
    Coming(Waiter<Coming<P>>),
    /// Its answer hadn't left, or its client hadn't ended.
    Leaving(Waiter<Leaving<P>>),
}

impl<P: Peer> Tables<P> {
    /// None.
    pub(crate) fn new(alloc: Global) -> Tables<P> {
        Tables {
            coming: Waiting::new(alloc),
            leaving: Waiting::new(alloc),
            may_wait: false,
            late: 0,
            crowded: 0,
            told: Levels::none(),
        }
    }

    /// Tells who waits now, and who was let go, where that isn't what was told last.
    pub(crate) fn tell(&mut self, board: &Board)
        ensures coming { self.new.coming ≡ self.old.coming }
        ensures leaving { self.new.leaving ≡ self.old.leaving }
    {
        let levels = Levels {
            coming: self.coming.len(),
            coming_bytes: self.coming.held_bytes(),
            leaving: self.leaving.len(),
            leaving_bytes: self.leaving.held_bytes(),
            late: self.late,
            crowded: self.crowded,
        };
        if levels != self.told {
            levels.tell(board);
            self.told = levels;
        }
    }

    /// Lets a worker that takes a new connection wait for it where no connection waits, and else not: who waits there isn't told of
    /// any other. It takes one call of the system, in place of three. Whether it may.
    pub(crate) fn set_taking<S: System<Peer = P>>(&mut self, system: &S) -> bool
        ensures coming { self.new.coming ≡ self.old.coming }
        ensures leaving { self.new.leaving ≡ self.old.leaving }
        ensures taking { (self.new.may_wait ≡ true) ↔ ((count_by is_some self.old.coming ≡ 0)
            × (count_by is_some self.old.leaving ≡ 0)) }
        ensures told { result ≡ self.new.may_wait }
    {
        let may_wait = self.coming.len() == 0 && self.leaving.len() == 0;
        if may_wait != self.may_wait {
            system.let_take_wait(may_wait);
            self.may_wait = may_wait;
        }
        may_wait
    }

    /// How long may be waited from this time on, if the clock tells one, in milliseconds.
    ///
    /// # Errors
    ///
    /// One that was late, and waits no more: a late request goes before a late answer.
    pub(crate) fn patience(&mut self, now: Option<u64>) -> Result<u64, Late<P>>
        ensures late { OnErr result
            ((LeavesLate now self.old.coming self.new.coming × (self.new.leaving ≡ self.old.leaving))
            ⊎ ((self.new.coming ≡ self.old.coming) × All (IsInTime now) self.old.coming
            × LeavesLate now self.old.leaving self.new.leaving)) }
        ensures coming { OnOk result (self.new.coming ≡ self.old.coming) }
        ensures leaving { OnOk result (self.new.leaving ≡ self.old.leaving) }
        ensures none { OnOk result (All (IsInTime now) self.old.coming
            × All (IsInTime now) self.old.leaving) }
    {
        if let Some(waiter) = take_late(&mut self.coming, now) {
            return Err(Late::Coming(waiter));
        }
        if let Some(waiter) = take_late(&mut self.leaving, now) {
            return Err(Late::Leaving(waiter));
        }
        Ok(self.coming.patience(now).min(self.leaving.patience(now)))
    }

    /// Lets a connection wait until more of its request comes. Where the system can't be asked when, it is let go.
    pub(crate) fn let_come<S: System<Peer = P>>(
        &mut self,
        system: &S,
        mut waiter: Waiter<Coming<P>>,
    )
        ensures joins { Joins (vec_len waiter.bytes) self.old.coming self.new.coming }
        ensures leaving { self.new.leaving ≡ self.old.leaving }
    {
        let before = self.coming.len();
        let key = self.coming.key_for(waiter.bytes.len());
        let gone = before.saturating_sub(self.coming.len());
        self.crowded = self.crowded.saturating_add(gone as u64);
        let Some(key) = key else {
            return;
        };
        let is_asked = system.ask(&mut waiter.state.peer, Ready::Coming(key), false);
        put_if(is_asked, &mut self.coming, key, waiter);
    }

    /// Lets a connection wait until its client takes more of the answer, or ends behind it.
    pub(crate) fn let_leave<S: System<Peer = P>>(
        &mut self,
        system: &S,
        mut waiter: Waiter<Leaving<P>>,
    )
        ensures joins { Joins (vec_len waiter.bytes) self.old.leaving self.new.leaving }
        ensures coming { self.new.coming ≡ self.old.coming }
    {
        let for_sending = waiter.state.part == Part::Answer;
        let before = self.leaving.len();
        let key = self.leaving.key_for(waiter.bytes.len());
        let gone = before.saturating_sub(self.leaving.len());
        self.crowded = self.crowded.saturating_add(gone as u64);
        let Some(key) = key else {
            return;
        };
        let is_asked = system.ask(&mut waiter.state.peer, Ready::Leaving(key), for_sending);
        put_if(is_asked, &mut self.leaving, key, waiter);
    }
}

/// Takes the connection whose time is over first, if it is over now.
fn take_late<S: Drop>(waiting: &mut Waiting<S>, now: Option<u64>) -> Option<Waiter<S>>
    ensures late { IfSome result (λ _. LeavesLate now waiting.old waiting.new) }
    ensures none { IfNone result (All (IsInTime now) waiting.old) }
    ensures same { IfNone result (waiting.new ≡ waiting.old) }
{
    let key = waiting.find_late(now)?;
    waiting.take(key)
}

/// Lets a connection wait under this key if the system could be asked about it. Else it is let go.
fn put_if<S: Drop>(is_asked: bool, waiting: &mut Waiting<S>, key: usize, waiter: Waiter<S>)
    requires vacant { IsVacant waiting.old key }
    requires room { HasRoom waiting.old (vec_len waiter.bytes) }
    ensures waits { is_asked ≡ true → waiting.new ≡ slice_set waiting.old key (Some waiter) }
    ensures gone { is_asked ≡ false → waiting.new ≡ waiting.old }
{
    if is_asked {
        waiting.put(key, waiter);
    }
}

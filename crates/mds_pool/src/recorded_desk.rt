//! A caller's seat as a desk whose answers go out once what they rest on is recorded.
ghost use Rattle.std.specs.Prelude.{◌≡◌, OnOk};

use crate::Recorder;
use crate::counting::Counter;
use mds_book::{Book, RecordFault, Seat, ShardLedger};
use mds_core::{Event, EventList, Key, Reply, Request};
use mds_face::{Desk, Found, KeptDesk, Plan, SeatDesk};
use mds_table::Row;
use std::alloc::AllocError;
use std::sync::Wait;

/// A caller's seat at a book, as a desk, and what records what the seat has seen.
#[derive(Drop)]
pub(crate) struct RecordedDesk<'a, R: Wait, L: ShardLedger, M: ShardLedger, K: Recorder<L, M>> {
    pub(crate) desk: SeatDesk<'a, R, L, M>,
    pub(crate) recorder: &'a K,
    pub(crate) receipt: &'a mut K::Receipt,
    pub(crate) counter: &'a Counter<'a>,
}

impl<R: Wait, L: ShardLedger, M: ShardLedger, K: Recorder<L, M>> Desk
    for RecordedDesk<'_, R, L, M, K> {
    ghost use Rattle.std.specs.Prelude.{◌≡◌};
    ghost use Rattle.mds_core.specs.History.{key_of, requests_of};
    ghost use Rattle.mds_core.proofs.OfTheirKind.{given_is_for};
    ghost use Rattle.mds_book.specs.Seats.{IsListed};
    ghost use Rattle.mds_face.specs.Seats.{SeatCalls};

    ghost calls = { λ old request reply new. (new.desk.book ≡ old.desk.book)
        × (new.desk.seat.ghost_name ≡ old.desk.seat.ghost_name)
        × SeatCalls old.desk.book.now.tables old.desk.seat.now request reply new.desk.seat.now };

    ghost gives_events = { λ old key found new. (new.desk.book ≡ old.desk.book)
        × (new.desk.seat.ghost_name ≡ old.desk.seat.ghost_name)
        × IsListed old.desk.book.now.tables old.desk.seat.now key found new.desk.seat.now };

    ghost gives_rows = { λ own tables. tables ≡ own.desk.book.now.tables };

    ghost of_its_kind = { λ old request reply new calls. let called = calls.2.0 in
        given_is_for old.desk.book.now.tables (requests_of called.before (key_of request)) request
        reply.outcome (called.answer).outcome };

    fn call(&mut self, request: &Request) -> Result<Reply, AllocError> {
        let replied = self.desk.call(request);
        if let Ok(reply) = &replied {
            self.counter.count_accepted(request, reply.outcome);
        }
        replied
    }

    fn events(&mut self, key: &Key) -> Result<Option<Vec<Event>>, AllocError> {
        self.desk.events(key)
    }

    fn event_list(&mut self, key: &Key) -> Result<Option<EventList>, AllocError> {
        self.desk.event_list(key)
    }

    fn rows(&mut self) -> Result<Vec<(u64, Vec<Row>)>, AllocError> {
        self.desk.rows()
    }
}

impl<R: Wait, L: ShardLedger, M: ShardLedger, K: Recorder<L, M>> KeptDesk
    for RecordedDesk<'_, R, L, M, K> {
    ghost use Rattle.std.specs.Prelude.{◌≡◌};

    ghost is_kept = { λ own about. K.covers own.receipt.now about own.desk.seat.now };

    ghost keeps = { λ old answer new. new.desk ≡ old.desk };

    fn keep(&mut self, about: Option<Key>) -> Result<(), RecordFault> {
        commit_seat(
            self.recorder,
            self.desk.rt,
            self.desk.book,
            self.desk.seat,
            about,
            self.receipt,
        )
    }

    fn count_answer(&self, plan: &Plan, found: &Found, status: u16) {
        self.counter.count_answer(plan, found, status);
    }

    fn count_fault(&self, plan: &Plan, fault: RecordFault) {
        self.counter.count_fault(plan, fault);
    }
}

fn commit_seat<R: Wait, L: ShardLedger, M: ShardLedger, K: Recorder<L, M>>(
    recorder: &K,
    rt: &R,
    book: &Book<L, M>,
    seat: &mut Seat<L, M>,
    about: Option<Key>,
    receipt: &mut K::Receipt,
) -> Result<(), RecordFault>
    ensures covers { OnOk result (K.covers receipt.new about seat.new) }
    ensures same { seat.new ≡ seat.old }
{
    recorder.commit(rt, book, seat, about, receipt)
}

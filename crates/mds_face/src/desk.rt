//! Where requests are put: the plain machine, or a caller's seat at a book.
ghost use Rattle.std.specs.Prelude.{◌≡◌, Some, None, IfOk, OnErr, MatchResult, option_map};
ghost use Rattle.mds_core.specs.Answer.{IsOutcomeFor};
ghost use Rattle.mds_core.specs.Machine.{events_in};
ghost use Rattle.mds_book.specs.Seats.{IsListed};
ghost use Rattle.mds_http.specs.Found.{tables_of};
ghost use Rattle.mds_face.specs.Desk.{FleetCalls};
ghost use Rattle.mds_face.specs.Seats.{SeatCalls};

use mds_book::{Book, Seat, ShardLedger};
use mds_core::{Event, EventList, Fleet, Key, Reply, Request};
use mds_table::{Row, Tables};
use std::alloc::{AllocError, Global};
use std::sync::Wait;

/// Where requests are put, and the accepted events and the tables are asked for.
pub trait Desk {
    ghost use Rattle.std.specs.Prelude.{◌≡◌, List, Option, Some, None, IfOk, OnErr, MatchResult, option_map};
    ghost use Rattle.mds_table.specs.Tables.{Tables as Timed};
    ghost use Rattle.mds_core.specs.declared.key.Key.{Key as About};
    ghost use Rattle.mds_core.specs.declared.request.Request.{Request as Asked};
    ghost use Rattle.mds_core.specs.declared.reply.Reply.{Reply as Replied};
    ghost use Rattle.mds_core.specs.Reported.{Reported};
    ghost use Rattle.mds_core.specs.Answer.{IsOutcomeFor};
    ghost use Rattle.mds_http.specs.Found.{tables_of};

    /// In the first state a request may get this reply, and leave the second state; `None` where there was no memory.
    ghost calls: { Self → Asked → Option Replied → Self → Type 0 };

    /// In the first state a question for a vehicle's accepted events may get these, and leave the second state; `None`
    /// where it isn't registered.
    ghost gives_events: { Self → About → Option (List Reported) → Self → Type 0 };

    /// In a state, these are the tables.
    ghost gives_rows: { Self → Timed → Type 0 };

    /// The reply to a request.
    ///
    /// # Errors
    ///
    /// `AllocError` where there is no memory for it.
    fn call(&mut self, request: &Request) -> Result<Reply, AllocError>
        ensures { MatchResult result (λ reply. calls self.old request.now (Some reply) self.new)
            (λ _. calls self.old request.now None self.new) };

    /// The accepted events of a vehicle in their order, or `None` where it isn't registered.
    ///
    /// # Errors
    ///
    /// `AllocError` where there is no memory for the list; the desk is as it was then.
    fn events(&mut self, key: &Key) -> Result<Option<Vec<Event>>, AllocError>
        ensures events { IfOk result (λ events.
            gives_events self.old key.now (option_map (λ v. v.items) events) self.new) }
        ensures unchanged { OnErr result (self.new ≡ self.old) };

    /// As [`Desk::events`], in a list that takes little memory.
    ///
    /// # Errors
    ///
    /// Those of [`Desk::events`]; the desk is as it was then.
    fn event_list(&mut self, key: &Key) -> Result<Option<EventList>, AllocError>
        ensures list { IfOk result (λ list.
            gives_events self.old key.now (option_map (λ l. l.events) list) self.new) }
        ensures unchanged { OnErr result (self.new ≡ self.old) };

    /// The tables in order of time: each one's starting time, in milliseconds since the Unix epoch, and its rows in their
    /// order. They leave the desk as it was.
    ///
    /// # Errors
    ///
    /// `AllocError` where there is no memory for them.
    fn rows(&mut self) -> Result<Vec<(u64, Vec<Row>)>, AllocError>
        ensures rows { IfOk result (λ listed. gives_rows self.old (tables_of listed.items)) }
        ensures unchanged { self.new ≡ self.old };

    /// A reply has an outcome that the rules have for such a request.
    ghost of_its_kind: { (old : Self) (request : Asked) (reply : Replied) (new : Self)
        → calls old request (Some reply) new → IsOutcomeFor request reply.outcome };
}

impl Desk for Fleet {
    ghost use Rattle.std.specs.Prelude.{◌≡◌};
    ghost use Rattle.mds_core.specs.History.{key_of, requests_of};
    ghost use Rattle.mds_core.proofs.OfTheirKind.{given_is_for};
    ghost use Rattle.mds_core.specs.Machine.{events_in};
    ghost use Rattle.mds_face.specs.Desk.{FleetCalls};

    ghost calls = { FleetCalls };

    ghost gives_events = { λ old key found new. (found ≡ events_in old.history key) × (new ≡ old) };

    ghost gives_rows = { λ fleet tables. tables ≡ fleet.tables };

    ghost of_its_kind = { λ old request reply new calls. given_is_for old.tables
        (requests_of old.history (key_of request)) request reply.outcome (calls.answer).outcome };

    fn call(&mut self, request: &Request) -> Result<Reply, AllocError> {
        self.step(request)
    }

    fn events(&mut self, key: &Key) -> Result<Option<Vec<Event>>, AllocError> {
        Fleet::events(self, self.allocator(), key)
    }

    fn event_list(&mut self, key: &Key) -> Result<Option<EventList>, AllocError> {
        let alloc = self.allocator();
        match Fleet::events(self, alloc, key)? {
            Some(events) => Ok(Some(list_of(alloc, &events)?)),
            None => Ok(None),
        }
    }

    fn rows(&mut self) -> Result<Vec<(u64, Vec<Row>)>, AllocError> {
        list_of_tables(self.allocator(), self.tables())
    }
}

fn list_of(alloc: Global, events: &[Event]) -> Result<EventList, AllocError>
    ensures { IfOk result (λ list. list.events ≡ events.now) }
{
    let mut list = EventList::new(alloc);
    for event in events {
        list.push(event)?;
    }
    Ok(list)
}

fn list_of_tables(alloc: Global, tables: &Tables) -> Result<Vec<(u64, Vec<Row>)>, AllocError>
    ensures { IfOk result (λ listed. tables_of listed.items ≡ tables.now) }
{
    let mut list = Vec::with_capacity(alloc, tables.len())?;
    for at in 0..tables.len() {
        if let Some((start, table)) = tables.entry(at) {
            let rows = table.rows(alloc)?;
            list.push((start, rows))?;
        }
    }
    Ok(list)
}

/// A caller's seat at a book, as a desk. Its calls wait for the locks of the book.
#[derive(Drop)]
pub struct SeatDesk<'a, R: Wait, L: ShardLedger, M: ShardLedger> {
    /// Where the memory for the events and the tables comes from.
    pub alloc: Global,
    /// The handle by which it waits.
    pub rt: &'a R,
    /// The book.
    pub book: &'a Book<L, M>,
    /// The seat.
    pub seat: &'a mut Seat<L, M>,
}

impl<R: Wait, L: ShardLedger, M: ShardLedger> Desk for SeatDesk<'_, R, L, M> {
    ghost use Rattle.std.specs.Prelude.{◌≡◌};
    ghost use Rattle.mds_core.specs.History.{key_of, requests_of};
    ghost use Rattle.mds_core.proofs.OfTheirKind.{given_is_for};
    ghost use Rattle.mds_book.specs.Seats.{IsListed};
    ghost use Rattle.mds_face.specs.Seats.{SeatCalls};

    ghost calls = { λ old request reply new. (new.book ≡ old.book)
        × (new.seat.ghost_name ≡ old.seat.ghost_name)
        × SeatCalls old.book.now.tables old.seat.now request reply new.seat.now };

    ghost gives_events = { λ old key found new. (new.book ≡ old.book)
        × (new.seat.ghost_name ≡ old.seat.ghost_name)
        × IsListed old.book.now.tables old.seat.now key found new.seat.now };

    ghost gives_rows = { λ desk tables. tables ≡ desk.book.now.tables };

    ghost of_its_kind = { λ old request reply new calls. let called = calls.2.0 in
        given_is_for old.book.now.tables (requests_of called.before (key_of request)) request
        reply.outcome (called.answer).outcome };

    fn call(&mut self, request: &Request) -> Result<Reply, AllocError> {
        self.book.call(self.rt, self.seat, request)
    }

    fn events(&mut self, key: &Key) -> Result<Option<Vec<Event>>, AllocError> {
        self.book.seat_events(self.rt, self.alloc, self.seat, key)
    }

    fn event_list(&mut self, key: &Key) -> Result<Option<EventList>, AllocError> {
        self.book.seat_list(self.rt, self.alloc, self.seat, key)
    }

    fn rows(&mut self) -> Result<Vec<(u64, Vec<Row>)>, AllocError> {
        list_of_tables(self.alloc, self.book.tables())
    }
}

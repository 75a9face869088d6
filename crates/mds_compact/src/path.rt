//! What is known of one vehicle: of all its requests first, and then of those so far.
ghost use Rattle.std.specs.Prelude.{◌≡◌, ℕ, ◌-◌, ◌<◌, [], ◌∷◌, ◌++◌, List, Some, length, Bool, false, true, nat_eq, nat_lt, ◌&&◌, position, slice_get, IfOk, OnOk};
ghost use Rattle.mds_table.specs.State.{code_of};
ghost use Rattle.mds_core.specs.declared.request.Request.{Request as Requested};
ghost use Rattle.mds_core.specs.declared.request.Request.TheVariants.{Report};
ghost use Rattle.mds_compact.specs.Compaction.{has_to_stay as stays, position_count};

use mds_core::{Event, Request};
use mds_table::State;
use std::alloc::{AllocError, Global};
use std::marker::Model;

/// A state that the vehicle held, and after how many of its requests.
#[derive(Clone, Copy, Debug, PartialEq, Eq)]
pub struct Visit {
    /// The state held.
    pub state: State,
    /// How many of the vehicle's requests led there.
    pub count: usize,
}

/// The way of one vehicle through its states. In the first pass it learns what is to come, in the second it marks the
/// requests that stay, and in the third it tells the marks.
#[derive(Debug, Drop)]
pub struct Path {
    /// The time of the last event of all.
    last: Option<u64>,
    /// How many events with a position are still to come.
    positions: usize,
    /// The state held after the requests so far.
    held: State,
    /// A mark for each of the vehicle's requests so far: whether it stays.
    marks: Vec<bool>,
    /// Where a loop may be closed: states that were held since the last request that stays for good, in order, each once.
    visits: Vec<Visit>,
    /// How many marks were told.
    next: usize,
}

impl Model for Path {
    ghost use Rattle.mds_compact.specs.Path.{Way};

    ghost Value = { Way };

    ghost view = { λ path. record {
      last = path.last;
      positions = path.positions;
      held = path.held;
      marks = path.marks.items;
      visits = path.visits.items;
      next = path.next;
    } };
}

impl Path {
    ghost use Rattle.mds_compact.specs.declared.path.Visit.{Visit as Visited};
    ghost use Rattle.mds_compact.specs.Path.{way_to, way_at, marks_up_to, IsPath, IsMarked};

    /// The way of a vehicle of which no request has come.
    ///
    /// # Errors
    ///
    /// `AllocError` where there is no memory for its first visit.
    pub fn open(alloc: Global) -> Result<Path, AllocError>
        ensures { IfOk result (λ way. way ≡ way_to []) }
    {
        let mut visits = Vec::new(alloc);
        visits.push(Visit {
            state: State::Removed,
            count: 0,
        })?;
        Ok(Path {
            last: None,
            positions: 0,
            held: State::Removed,
            marks: Vec::new(alloc),
            visits,
            next: 0,
        })
    }

    /// Learns of one more request that is to come.
    pub fn note(&mut self, request: &Request)
        ensures { (requests : List Requested)
            → length requests < usize.MAX → self.old ≡ way_to requests
            → self.new ≡ way_to (requests ++ request.now ∷ []) }
    {
        let Some(event) = request.event() else {
            return;
        };
        self.last = Some(event.time());
        if event.position().is_some() {
            self.positions = self.positions.saturating_add(1);
        }
    }

    /// Takes the next of the requests, and marks whether it stays, as far as is known yet.
    ///
    /// # Errors
    ///
    /// `AllocError` where there is no memory for a mark or a visit. The path is of no use then.
    pub fn take(&mut self, from: u64, request: &Request) -> Result<(), AllocError>
        ensures { OnOk result ((old rest : List Requested)
            → IsPath from old (request.now ∷ rest) self.old
            → IsPath from (old ++ request.now ∷ []) rest self.new) }
    {
        let Some(event) = request.event() else {
            let held = self.held;
            return self.keep(0, held);
        };
        let is_last_position = self.count_down(event);
        if is_last_position || has_to_stay(from, self.last, event) {
            return self.keep(0, event.state());
        }
        match self.visit_of(event.state()) {
            Some(place) => self.cut(place),
            None => {
                let place = self.visits.len();
                self.keep(place, event.state())
            }
        }
    }

    /// Counts an event's position down. It says whether that is the last one.
    fn count_down(&mut self, event: &Event) -> bool
        ensures counted { self.new ≡ record self.old {
          positions = self.old.positions - position_count (Report event.now ∷ []);
        } }
        ensures last { result ≡ (nat_eq self.new.positions 0 && nat_lt 0 (position_count (Report event.now ∷ []))) }
    {
        if event.position().is_none() {
            return false;
        }
        self.positions = self.positions.saturating_sub(1);
        self.positions == 0
    }

    /// The place of the visit at this state, if there is one.
    fn visit_of(&self, state: State) -> Option<usize>
        ensures { result
            ≡ position (λ visit. nat_eq (code_of visit.state) (code_of state)) self.now.visits }
    {
        self.visits
            .iter()
            .position(|visit| visit.state.code() == state.code())
    }

    /// Keeps the next request, which leads to the state. The visits behind the first `place` go, and this is one.
    fn keep(&mut self, place: usize, state: State) -> Result<(), AllocError>
        ensures { OnOk result
            (self.new ≡ way_at place state (self.old.marks ++ true ∷ []) self.old) }
    {
        self.marks.push(true)?;
        self.stand(place, state)
    }

    /// Leaves out the next request, which leads back to the visit at this place, and all that was kept since.
    fn cut(&mut self, place: usize) -> Result<(), AllocError>
        requires { place < length self.old.visits }
        ensures { OnOk result ((visit : Visited)
            → slice_get self.old.visits place ≡ Some visit
            → self.new
            ≡ way_at place visit.state (marks_up_to visit.count self.old.marks ++ false ∷ []) self.old) }
    {
        let visit = self.visits[place];
        let count = self.marks.len();
        self.marks.truncate(visit.count);
        self.marks.resize(count, false)?;
        self.marks.push(false)?;
        self.stand(place, visit.state)
    }

    /// Holds the state, with the visit there behind the first `place` ones.
    fn stand(&mut self, place: usize, state: State) -> Result<(), AllocError>
        ensures { OnOk result (self.new ≡ way_at place state self.old.marks self.old) }
    {
        let count = self.marks.len();
        self.visits.truncate(place);
        self.visits.push(Visit { state, count })?;
        self.held = state;
        Ok(())
    }

    /// The mark of the next request, from the first one on: whether it stays.
    pub fn next_mark(&mut self) -> bool
        ensures { (from : ℕ) (marks : List Bool) (old rest : List Requested) (request : Requested)
            → IsMarked from marks old (request ∷ rest) self.old
            → IsMarked from (marks ++ result ∷ []) (old ++ request ∷ []) rest self.new }
    {
        if self.next >= self.marks.len() {
            return false;
        }
        let mark = self.marks[self.next];
        self.next += 1;
        mark
    }
}

/// Whether the event has to stay for its time.
fn has_to_stay(from: u64, last: Option<u64>, event: &Event) -> bool
    ensures { result ≡ stays from last (Report event.now) }
{
    let time = event.time();
    from <= time || last.is_none_or(|last| last <= time)
}

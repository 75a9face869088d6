//! The plain machine: a history of accepted requests, in which everything is looked up.
ghost use Rattle.std.specs.Prelude.{◌≡◌, [], IfOk, OnErr, option_map};
ghost use Rattle.mds_core.specs.Machine.{Steps, LacksMemory, standing_in, events_in as accepted_in};

use crate::answers::answer;
use crate::lookup::{events_in, known_in};
use crate::{Event, Key, Outcome, Reply, Request, Standing};
use mds_table::Tables;
use std::alloc::{AllocError, Global};
use std::marker::Model;

/// The plain machine over the tables that decide. It keeps its history alone, and looks everything up in it. So it is
/// short enough to compare with the definitions, and slow. No command calls it.
#[derive(Debug, Drop)]
pub struct Fleet {
    tables: Tables,
    history: Vec<Request>,
}

impl Model for Fleet {
    ghost use Rattle.mds_core.specs.Machine.{Machine};

    ghost Value = { Machine };

    ghost view = { λ fleet. record { tables = fleet.tables; history = fleet.history.items } };
}

impl Fleet {
    /// A machine over the tables, with nothing accepted yet. It takes no memory.
    pub fn open(alloc: Global, tables: Tables) -> Fleet
        ensures { result ≡ record { tables = tables; history = [] } }
    {
        Fleet {
            tables,
            history: Vec::new(alloc),
        }
    }

    /// Answers one request, and keeps it in the history where it was accepted. It goes through the whole history.
    ///
    /// # Errors
    ///
    /// `AllocError` where the request would be accepted and there is no memory to keep it; nothing has changed then.
    pub fn step(&mut self, request: &Request) -> Result<Reply, AllocError>
        ensures step { IfOk result (λ reply. Steps self.old request.now reply self.new) }
        ensures memory { OnErr result (LacksMemory self.old request.now self.new) }
    {
        let reply = answer(&self.tables, &self.history, request);
        if let Outcome::Done = reply.outcome {
            self.history.push(*request)?;
        }
        Ok(reply)
    }

    /// The tables of the machine.
    pub fn tables(&self) -> &Tables
        ensures { result.now ≡ self.now.tables }
    {
        &self.tables
    }

    /// The allocator from which the machine has the memory for its history.
    pub fn allocator(&self) -> Global {
        *self.history.allocator()
    }

    /// The accepted requests, in the order in which they were accepted.
    pub fn history(&self) -> &[Request]
        ensures { result.now ≡ self.now.history }
    {
        self.history.as_slice()
    }

    /// Where the vehicle stands, or `None` where it isn't registered.
    pub fn standing(&self, key: &Key) -> Option<Standing>
        ensures { result ≡ standing_in self.now.history key.now }
    {
        known_in(&self.history, &Request::Look(*key)).standing
    }

    /// The accepted events of the vehicle in their order, or `None` where it isn't registered.
    ///
    /// # Errors
    ///
    /// `AllocError` where there is no memory for the list.
    pub fn events(&self, alloc: Global, key: &Key) -> Result<Option<Vec<Event>>, AllocError>
        ensures { IfOk result (λ found.
            option_map (λ events. events.items) found ≡ accepted_in self.now.history key.now) }
    {
        events_in(alloc, &self.history, key)
    }
}

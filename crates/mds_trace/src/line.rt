//! The lines that a session prints.
ghost use Rattle.std.specs.Prelude.{Some};
ghost use Rattle.mds_trace.specs.Printed.{chain_line, counts_line, line_text};

use crate::{Halt, Place};
use mds_steps::StateSet;
use mds_table::State;
use std::fmt;

/// The line of what was said of a vehicle's events.
#[derive(Clone, Copy)]
pub struct CountsLine {
    /// How many were accepted.
    pub events: usize,
    /// How many were refused.
    pub refused: usize,
}

impl fmt::Display for CountsLine {
    ghost output = { λ line. Some (counts_line line.events line.refused) };

    fn fmt<W: fmt::Write>(&self, f: &mut fmt::Formatter<W>) -> fmt::Result {
        let events = self.events;
        let refused = self.refused;
        write!(f, "events {events} refused {refused}")
    }
}

/// The least chain of an event.
#[derive(Drop)]
pub struct Chain {
    /// Its states, one after the other.
    pub states: Vec<State>,
}

impl fmt::Display for Chain {
    ghost output = { λ chain. Some (chain_line chain.states.items) };

    fn fmt<W: fmt::Write>(&self, f: &mut fmt::Formatter<W>) -> fmt::Result {
        let Some((first, rest)) = self.states.split_first() else {
            return Ok(());
        };
        write!(f, "{first}")?;
        for state in rest {
            write!(f, " {state}")?;
        }
        Ok(())
    }
}

/// A line that a command prints.
#[derive(Drop)]
pub enum Line {
    /// Where the session stands.
    Place {
        /// The place.
        place: Place,
        /// The state held before the present event.
        state: State,
        /// The states possible at the place.
        possible: StateSet,
    },
    /// Why it doesn't move, or has no chain.
    Halt(Halt),
    /// The least chain of the present event.
    Chain(Chain),
    /// The line of the script isn't a command.
    Unknown,
}

impl fmt::Display for Line {
    ghost output = { λ line. Some (line_text line) };

    fn fmt<W: fmt::Write>(&self, f: &mut fmt::Formatter<W>) -> fmt::Result {
        match self {
            Line::Place {
                place,
                state,
                possible,
            } => {
                let event = place.event;
                let passed = place.passed;
                write!(f, "{event} {passed} {state} possible {possible}")
            }
            Line::Halt(halt) => write!(f, "{halt}"),
            Line::Chain(chain) => write!(f, "{chain}"),
            Line::Unknown => f.write_str("unknown command"),
        }
    }
}

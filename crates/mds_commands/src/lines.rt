//! The lines that are printed of a replay.
ghost use Rattle.std.specs.Prelude.{Some};
ghost use Rattle.mds_commands.specs.Text.{held_text, from_text, item_line, vehicle_line, total_line};

use mds_core::Standing;
use mds_steps::StateSet;
use mds_trace::{Opening, VehicleEnd, Verdict};
use std::fmt;

/// The line of an item: its index, and what is said of it.
#[derive(Clone, Copy)]
pub struct ItemLine {
    /// The index of the item, from 0.
    pub index: usize,
    /// What is said of it.
    pub verdict: Verdict,
}

impl fmt::Display for ItemLine {
    ghost output = { λ line. Some (item_line line.index line.verdict) };

    fn fmt<W: fmt::Write>(&self, f: &mut fmt::Formatter<W>) -> fmt::Result {
        let index = self.index;
        let verdict = self.verdict;
        write!(f, "{index} {verdict}")
    }
}

/// The line of a vehicle: its key, the state that it holds, how many of its events were accepted, and where nothing was
/// taken for given, the states in which it may have opened.
#[derive(Clone, Copy)]
pub struct VehicleLine<'a> {
    /// Where the vehicle ends.
    pub end: &'a VehicleEnd,
    /// What it was taken to hold before its first accepted event.
    pub opening: Opening,
}

impl fmt::Display for VehicleLine<'_> {
    ghost output = { λ line. Some (vehicle_line line.opening line.end.now) };

    fn fmt<W: fmt::Write>(&self, f: &mut fmt::Formatter<W>) -> fmt::Result {
        let provider = self.end.key.provider;
        let device = self.end.key.device;
        let held = Held {
            standing: self.end.standing,
        };
        let from = OpenedFrom {
            openings: &self.end.openings,
            opening: self.opening,
        };
        write!(f, "vehicle {provider} {device} {held}{from}")
    }
}

/// The state that a vehicle holds, where it is known, and how many of its events were accepted.
#[derive(Clone, Copy)]
struct Held {
    standing: Option<Standing>,
}

impl fmt::Display for Held {
    ghost output = { λ held. Some (held_text held.standing) };

    fn fmt<W: fmt::Write>(&self, f: &mut fmt::Formatter<W>) -> fmt::Result {
        match self.standing {
            Some(standing) => {
                let state = standing.state;
                let events = standing.events;
                write!(f, "{state} {events}")
            }
            None => write!(f, "unknown 0"),
        }
    }
}

/// The states in which a vehicle may have opened, where nothing was taken for given.
#[derive(Clone, Copy)]
struct OpenedFrom<'a> {
    openings: &'a StateSet,
    opening: Opening,
}

impl fmt::Display for OpenedFrom<'_> {
    ghost output = { λ from. Some (from_text from.opening from.openings.now) };

    fn fmt<W: fmt::Write>(&self, f: &mut fmt::Formatter<W>) -> fmt::Result {
        match self.opening {
            Opening::Removed => Ok(()),
            Opening::Any => {
                let openings = self.openings;
                write!(f, " from {openings}")
            }
        }
    }
}

/// The last line: how many items were accepted, and how many were not.
#[derive(Clone, Copy)]
pub struct TotalLine {
    /// How many items were accepted.
    pub accepted: usize,
    /// How many were not.
    pub refused: usize,
}

impl fmt::Display for TotalLine {
    ghost output = { λ line. Some (total_line line.accepted line.refused) };

    fn fmt<W: fmt::Write>(&self, f: &mut fmt::Formatter<W>) -> fmt::Result {
        let accepted = self.accepted;
        let refused = self.refused;
        write!(f, "accepted {accepted} refused {refused}")
    }
}

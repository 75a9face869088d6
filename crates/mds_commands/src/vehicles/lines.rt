//! The lines that are printed of a roster.
ghost use Rattle.std.specs.Prelude.{Some};
ghost use Rattle.mds_commands.specs.ListingText.{counts_line, totals_line, vehicle_line};

use mds_core::{Key, Standing};
use std::fmt;

/// The line of a vehicle: its key, the state that it holds, and how many of its events were accepted.
#[derive(Clone, Copy)]
pub struct VehicleLine {
    /// The vehicle.
    pub key: Key,
    /// Where it stands.
    pub standing: Standing,
}

impl fmt::Display for VehicleLine {
    ghost output = { λ line. Some (vehicle_line (line.key, line.standing)) };

    fn fmt<W: fmt::Write>(&self, f: &mut fmt::Formatter<W>) -> fmt::Result {
        let provider = self.key.provider;
        let device = self.key.device;
        let state = self.standing.state;
        let events = self.standing.events;
        write!(f, "vehicle {provider} {device} {state} {events}")
    }
}

/// The line behind those: how many vehicles are registered, and how many events were accepted.
#[derive(Clone, Copy)]
pub struct TotalsLine {
    /// How many vehicles.
    pub registrations: usize,
    /// How many events.
    pub events: usize,
}

impl fmt::Display for TotalsLine {
    ghost output = { λ line. Some (totals_line line.registrations line.events) };

    fn fmt<W: fmt::Write>(&self, f: &mut fmt::Formatter<W>) -> fmt::Result {
        let registrations = self.registrations;
        let events = self.events;
        write!(f, "registrations {registrations} events {events}")
    }
}

/// The line of a journal: how many lines it has, and how many groups of requests.
#[derive(Clone, Copy)]
pub struct CountsLine {
    /// How many lines.
    pub lines: usize,
    /// How many groups.
    pub groups: usize,
}

impl fmt::Display for CountsLine {
    ghost output = { λ line. Some (counts_line line.lines line.groups) };

    fn fmt<W: fmt::Write>(&self, f: &mut fmt::Formatter<W>) -> fmt::Result {
        let lines = self.lines;
        let groups = self.groups;
        write!(f, "lines {lines} groups {groups}")
    }
}

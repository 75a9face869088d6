//! What is asked of events of several types, and the answers.
use mds_table::State::{
    self, Available, Elsewhere, InDepot, Missing, NonContactable, NonOperational, OnTrip, Removed,
    Reserved,
};
use test_fixtures::rows;

/// A question, and its answer.
#[derive(Clone, Copy)]
pub enum Asked {
    /// From the state held to the state reported: where an event gets stuck, or `None` where it's admitted.
    Admit(State, State, Option<usize>),
    /// The same: the least chain, or `None` where there is none.
    Chain(State, State, Option<&'static [State]>),
    /// The states held, and those that may follow.
    Forward(&'static [State], &'static [State]),
    /// The state reported, and the states that may have been held.
    Openings(State, &'static [State]),
    /// The states held, and how far an event gets.
    Stuck(&'static [State], usize),
}

use Asked::{Admit, Chain, Forward, Openings, Stuck};

/// An event: so many types, these two by turns; and what is asked of it.
pub type Case = ([&'static str; 2], usize, Asked);

const ENDS_LOW: [&str; 2] = ["trip_end", "battery_low"];

const BACK_AND_ENDS: [&str; 2] = ["comms_restored", "trip_end"];

const BACK_AND_LOST: [&str; 2] = ["comms_restored", "comms_lost"];

const CHARGED_AND_LOW: [&str; 2] = ["battery_charged", "battery_low"];

const LOW_AND_CHARGED: [&str; 2] = ["battery_low", "battery_charged"];

const LOW_TWICE: [&str; 2] = ["battery_low", "battery_low"];

const ENDS_TWICE: [&str; 2] = ["trip_end", "trip_end"];

const LEAVES: [&str; 2] = ["changed_geographies", "agency_pick_up"];

/// Over the profile.
pub const PROFILED: &[Case] = rows! {
    // a trip ends with a low battery
    (ENDS_LOW, 2, Admit(OnTrip, NonOperational, None)),
    (ENDS_LOW, 2, Forward(&[OnTrip], &[NonOperational])),
    (ENDS_LOW, 2, Openings(NonOperational, &[OnTrip])),
    (ENDS_LOW, 2, Chain(OnTrip, NonOperational, Some(&[OnTrip, Available, NonOperational]))),
    // a vehicle is heard of again, and its trip ends
    (BACK_AND_ENDS, 2, Admit(NonContactable, Available, None)),
    (BACK_AND_ENDS, 1, Forward(&[NonContactable], &[Removed, Available, NonOperational, Reserved, OnTrip, Elsewhere])),
    (BACK_AND_ENDS, 2, Forward(&[NonContactable], &[Available])),
    (BACK_AND_ENDS, 2, Chain(NonContactable, Available, Some(&[NonContactable, OnTrip, Available]))),
    // it's heard of again, and lost again
    (BACK_AND_LOST, 2, Admit(NonContactable, NonContactable, None)),
    (BACK_AND_LOST, 2, Chain(NonContactable, NonContactable, Some(&[NonContactable, Removed, NonContactable]))),
    (["comms_lost"; 2], 1, Openings(NonContactable, &[Removed, Available, NonOperational, Reserved, OnTrip, Elsewhere])),
    // the order of types matters
    (CHARGED_AND_LOW, 2, Admit(Available, Available, Some(0))),
    (CHARGED_AND_LOW, 2, Chain(Available, Available, None)),
    (LOW_AND_CHARGED, 2, Admit(Available, Available, None)),
    // a type twice, and once
    (LOW_TWICE, 2, Admit(Available, NonOperational, Some(1))),
    (LOW_TWICE, 1, Admit(Available, Available, Some(1))),
    // many types
    (LOW_AND_CHARGED, 64, Admit(Available, Available, None)),
    (LOW_AND_CHARGED, 80, Admit(Available, Available, None)),
    (LOW_AND_CHARGED, 80, Admit(Available, NonOperational, Some(80))),
    // openings without a registration
    (ENDS_TWICE, 1, Openings(Available, &[OnTrip])),
    (ENDS_TWICE, 1, Openings(Reserved, &[])),
    (LEAVES, 1, Openings(Elsewhere, &[Available, NonOperational])),
    (ENDS_TWICE, 1, Admit(Removed, Available, Some(0))),
    (LEAVES, 1, Admit(Available, Elsewhere, None)),
    // from any state a trip can end, and then no other
    (ENDS_TWICE, 1, Stuck(&State::ALL, 1)),
    (ENDS_TWICE, 2, Stuck(&State::ALL, 1)),
    (ENDS_TWICE, 2, Stuck(&[Reserved], 0)),
    (ENDS_TWICE, 2, Stuck(&[], 0)),
    // no types
    (LOW_TWICE, 0, Forward(&[Missing, Removed], &[Removed, Missing])),
    (LOW_TWICE, 0, Openings(Reserved, &[Reserved])),
    (LOW_TWICE, 0, Admit(OnTrip, OnTrip, None)),
    (LOW_TWICE, 0, Admit(OnTrip, Available, Some(0))),
    // a state that no row has
    (LOW_TWICE, 1, Admit(Available, InDepot, Some(1))),
    (LOW_TWICE, 1, Admit(InDepot, InDepot, Some(0))),
    (LOW_TWICE, 1, Openings(InDepot, &[])),
    (LOW_TWICE, 1, Forward(&[InDepot], &[])),
};

const WAKE_AND_STORE: [&str; 2] = ["wake", "store"];

const GO_AND_STORE: [&str; 2] = ["go", "store"];

const GO_TWICE: [&str; 2] = ["go", "go"];

const STORE_TWICE: [&str; 2] = ["store", "store"];

/// Out of the depot and into it, with the most types that an event has.
const THERE_AND_BACK: &[State] = rows! {
    InDepot,
    Available, InDepot, Available, InDepot, Available, InDepot, Available, InDepot, Available, InDepot, Available, InDepot,
    Available, InDepot, Available, InDepot, Available, InDepot, Available, InDepot, Available, InDepot, Available, InDepot,
    Available, InDepot, Available, InDepot, Available, InDepot, Available, InDepot, Available, InDepot, Available, InDepot,
    Available, InDepot, Available, InDepot, Available, InDepot, Available, InDepot, Available, InDepot, Available, InDepot,
    Available, InDepot, Available, InDepot, Available, InDepot, Available, InDepot, Available, InDepot, Available, InDepot,
    Available, InDepot, Available, InDepot,
};

/// Over the table of the depot.
pub const STORED: &[Case] = rows! {
    (WAKE_AND_STORE, 2, Admit(Removed, InDepot, None)),
    (WAKE_AND_STORE, 2, Openings(InDepot, &[Removed])),
    (STORE_TWICE, 1, Openings(InDepot, &[Available])),
    (GO_AND_STORE, 1, Forward(&[InDepot], &[Available])),
    (GO_AND_STORE, 64, Admit(InDepot, InDepot, None)),
    (GO_AND_STORE, 64, Forward(&[InDepot], &[InDepot])),
    (GO_AND_STORE, 64, Openings(InDepot, &[InDepot])),
    (GO_AND_STORE, 64, Chain(InDepot, InDepot, Some(THERE_AND_BACK))),
    (GO_AND_STORE, 64, Chain(InDepot, Available, None)),
    (GO_TWICE, 2, Admit(InDepot, Available, Some(1))),
    (GO_TWICE, 2, Stuck(&State::ALL, 1)),
};

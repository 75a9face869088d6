//! Histories of a shard, what its callers noted, and the place of the fault.
use mds_core::Outcome::{self, Done, Refused, Seen};
use mds_core::Refusal::{Late, Repeated, Unregistered};
use mds_table::State::{Available, NonOperational, Removed};
use test_fixtures::Ask::{self, Look, Register, Report};
use test_fixtures::{A, B, C, E1, E2, E3, E4, rows};
use test_steps::{
    AVAILABLE, DROPPED_OFF, NEW, Noted, PROFILE, STUCK_AVAILABLE, STUCK_REMOVED, WAKE_THEN_REST,
};

/// A name, a file of tables or `None` for the profile, the number of a shard, what it holds, what its callers noted,
/// and the place of the fault, if there is one.
pub type Case = (
    &'static str,
    Option<&'static str>,
    usize,
    &'static [Ask],
    &'static [&'static [Noted]],
    Option<usize>,
);

const UNREGISTERED: Outcome = Refused(Unregistered);

/// An event of A that is late behind the first one.
const LATE: Ask = Report(A, E2, &["battery_low"], NonOperational, 999);

/// A wakes one millisecond before the second table starts, and rests then too.
const A_WAKES: Ask = Report(A, E1, &["wake"], Available, 1999);

const A_RESTS_BEFORE: Ask = Report(A, E2, &["rest"], Removed, 1999);

/// It rests when that table starts, and wakes then again.
const A_RESTS: Ask = Report(A, E3, &["rest"], Removed, 2000);

const A_WAKES_AFTER: Ask = Report(A, E4, &["wake"], Available, 2000);

/// C wakes, before all that.
const C_WAKES: Ask = Report(C, E1, &["wake"], Available, 1000);

/// One vehicle is registered; two are; one has an event too.
const A_ALONE: &[Ask] = &[Register(A)];

const A_AND_C: &[Ask] = &[Register(A), Register(C)];

const A_DROPPED_OFF: &[Ask] = &[Register(A), DROPPED_OFF];

/// The accepted registration of A, the first in its shard, and that of C, the second.
const A_FIRST: Noted = (0, Register(A), 0, Done);

const C_SECOND: Noted = (0, Register(C), 1, Done);

/// Lawful histories: each of the five reasons of a fault alone, and some together.
pub const LAWFUL: &[Case] = rows! {
    ("nothing was accepted, and nothing noted", PROFILE, 0, &[], &[], None),
    ("the one entry is noted", PROFILE, 0, A_ALONE, &[&[A_FIRST]], None),
    ("a look that didn't see the entry before it", PROFILE, 0, A_ALONE, &[&[A_FIRST, (0, Look(A), 1, UNREGISTERED)]],
        Some(1)),
    ("the entry isn't noted", PROFILE, 0, A_ALONE, &[&[]], Some(0)),
    ("a look from before its caller's own accepted call", PROFILE, 0, A_ALONE,
        &[&[A_FIRST, (0, Look(A), 0, UNREGISTERED)]], Some(0)),
    ("a look that was made before the call", PROFILE, 0, A_ALONE, &[&[(0, Look(A), 0, UNREGISTERED), A_FIRST]], None),
    ("two accepted notes at one place", PROFILE, 0, A_AND_C, &[&[A_FIRST, C_SECOND], &[C_SECOND]], Some(1)),
    ("a look past the end", PROFILE, 0, A_ALONE,
        &[&[A_FIRST], &[(0, Look(A), 1, Seen(NEW)), (0, Look(A), 2, Seen(NEW))]], Some(2)),
    ("an accepted note with another request, whose reply would be right", PROFILE, 0, A_AND_C,
        &[&[(0, Register(C), 0, Done)], &[C_SECOND]], Some(0)),
    ("a place that falls", PROFILE, 0, A_ALONE, &[&[(0, Look(A), 1, Seen(NEW)), A_FIRST]], Some(0)),
    ("the least of several: a late look before a wrong one", PROFILE, 0, A_AND_C,
        &[&[A_FIRST, C_SECOND, (0, Look(A), 1, Seen(NEW))], &[(0, Look(A), 2, UNREGISTERED)]], Some(1)),
    ("a look after an event, and two refusals", PROFILE, 0, A_DROPPED_OFF, &[
        &[A_FIRST, (0, DROPPED_OFF, 1, Done), (0, Look(A), 2, Seen(AVAILABLE))],
        &[(0, DROPPED_OFF, 2, Refused(Repeated)), (0, LATE, 2, Refused(Late { last: 1000 }))],
    ], None),
    ("notes of the other shard don't count, right or wrong", PROFILE, 0, A_ALONE,
        &[&[(1, Register(B), 0, Done), (1, Register(B), 0, Done), (1, Look(B), 9, UNREGISTERED), A_FIRST]], None),
    ("the other shard", PROFILE, 1, &[Register(B)],
        &[&[A_FIRST, (1, Register(B), 0, Done), (0, Look(A), 0, UNREGISTERED)]], None),
    ("around a start, and then an event from before it", WAKE_THEN_REST, 0,
        &[Register(A), Register(C), A_WAKES, A_RESTS, C_WAKES],
        &[
            &[
                A_FIRST, (0, A_WAKES, 2, Done), (0, A_RESTS_BEFORE, 3, STUCK_AVAILABLE), (0, A_RESTS, 3, Done),
                (0, A_WAKES_AFTER, 4, STUCK_REMOVED),
            ],
            &[C_SECOND, (0, C_WAKES, 4, Done)],
        ], None),
};

/// Histories that aren't lawful.
pub const UNLAWFUL: &[Case] = rows! {
    ("a vehicle registered twice", PROFILE, 0, &[Register(A), Register(A)], &[&[A_FIRST, (0, Register(A), 1, Done)]],
        Some(1)),
    ("a look as an entry", PROFILE, 0, &[Look(A)], &[&[(0, Look(A), 0, Done)]], Some(0)),
    ("accepted by the first table when the second starts", WAKE_THEN_REST, 0, &[Register(A), A_WAKES_AFTER],
        &[&[A_FIRST, (0, A_WAKES_AFTER, 1, Done)]], Some(1)),
};

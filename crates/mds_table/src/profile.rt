//! The table of this project's profile, as its printed lines.
ghost use Rattle.std.specs.Prelude.{◌≡◌, ◌++◌, map, true, OnOk, IfOk};
ghost use Rattle.std.specs.List.{flat_map, list_all};
ghost use Rattle.mds_table.specs.Row.{row_of};
ghost use Rattle.mds_table.specs.Profile.{line, rows_of_line, profile_rows};
ghost use Rattle.mds_table.specs.Printed.{rows_printed, has_type_name};

use crate::State::{
    Available, Elsewhere, Missing, NonContactable, NonOperational, OnTrip, Removed, Reserved,
};
use crate::{Row, State, TypeName};
use std::alloc::{AllocError, Global};

/// A printed line: it stands for all pairs of a state of `from` and a state of `to`.
#[derive(Clone, Copy)]
struct Line {
    kind: &'static str,
    from: &'static [State],
    to: &'static [State],
}

/// The states of a vehicle that is deployed and in no rider's hands.
const PARKED: &[State] = &[
    Available,
    NonOperational,
    Elsewhere,
    NonContactable,
    Missing,
];

/// The states in which a vehicle is heard of.
const HEARD: &[State] = &[
    Removed,
    Available,
    NonOperational,
    Reserved,
    OnTrip,
    Elsewhere,
];

/// The profile, line by line, in the order of its rows.
#[rattlefmt::skip]
const LINES: [Line; 29] = [
    Line { kind: "agency_drop_off", from: &[Removed], to: &[Available] },
    Line { kind: "agency_pick_up", from: PARKED, to: &[Removed] },
    Line { kind: "battery_charged", from: &[NonOperational], to: &[Available] },
    Line { kind: "battery_low", from: &[Available], to: &[NonOperational] },
    Line { kind: "changed_geographies", from: &[Available, NonOperational], to: &[Elsewhere] },
    Line { kind: "changed_geographies", from: &[Elsewhere], to: &[Available, NonOperational] },
    Line { kind: "comms_lost", from: HEARD, to: &[NonContactable] },
    Line { kind: "comms_restored", from: &[NonContactable], to: HEARD },
    Line { kind: "compliance_pick_up", from: PARKED, to: &[Removed] },
    Line { kind: "decommissioned", from: &[Removed, Available, NonOperational, Elsewhere, NonContactable, Missing], to: &[Removed] },
    Line { kind: "located", from: &[Missing], to: HEARD },
    Line { kind: "maintenance", from: &[Available], to: &[NonOperational] },
    Line { kind: "maintenance_pick_up", from: PARKED, to: &[Removed] },
    Line { kind: "not_located", from: &[Available, NonOperational, Reserved, OnTrip, Elsewhere, NonContactable], to: &[Missing] },
    Line { kind: "off_hours", from: &[Available], to: &[NonOperational] },
    Line { kind: "on_hours", from: &[NonOperational], to: &[Available] },
    Line { kind: "provider_drop_off", from: &[Removed], to: &[Available] },
    Line { kind: "rebalance_pick_up", from: PARKED, to: &[Removed] },
    Line { kind: "reservation_cancel", from: &[Reserved], to: &[Available] },
    Line { kind: "reservation_start", from: &[Available], to: &[Reserved] },
    Line { kind: "system_resume", from: &[NonOperational], to: &[Available] },
    Line { kind: "system_suspend", from: &[Available], to: &[NonOperational] },
    Line { kind: "trip_cancel", from: &[Reserved, OnTrip], to: &[Available] },
    Line { kind: "trip_end", from: &[OnTrip], to: &[Available] },
    Line { kind: "trip_enter_jurisdiction", from: &[Elsewhere], to: &[OnTrip] },
    Line { kind: "trip_leave_jurisdiction", from: &[OnTrip], to: &[Elsewhere] },
    Line { kind: "trip_start", from: &[Available, Reserved], to: &[OnTrip] },
    Line { kind: "unspecified", from: &[Available], to: &[NonOperational] },
    Line { kind: "unspecified", from: &[NonOperational], to: &[Available] },
];

/// How many rows the profile has.
const ROWS: usize = 74;

pub fn rows(alloc: Global) -> Result<Vec<Row>, AllocError>
    ensures { IfOk result (λ rows. rows.items ≡ profile_rows) }
{
    let mut rows = Vec::with_capacity(alloc, ROWS)?;
    add_lines(&mut rows, &LINES)?;
    Ok(rows)
}

fn add_lines(rows: &mut Vec<Row>, lines: &[Line]) -> Result<(), AllocError>
    requires { list_all has_type_name lines.now ≡ true }
    ensures { OnOk result (rows.new.items ≡ rows.old.items ++ flat_map rows_printed lines.now) }
{
    for line in lines {
        if let Ok(kind) = TypeName::new(line.kind) {
            add_line(rows, &kind, line.from, line.to)?;
        }
    }
    Ok(())
}

fn add_line(
    rows: &mut Vec<Row>,
    kind: &TypeName,
    from: &[State],
    to: &[State],
) -> Result<(), AllocError>
    ensures { OnOk result (rows.new.items
        ≡ rows.old.items ++ rows_of_line (line kind.now from.now to.now)) }
{
    for state in from {
        add_rows(rows, *state, kind, to)?;
    }
    Ok(())
}

fn add_rows(
    rows: &mut Vec<Row>,
    from: State,
    kind: &TypeName,
    to: &[State],
) -> Result<(), AllocError>
    ensures { OnOk result (rows.new.items ≡ rows.old.items ++ map (row_of from kind.now) to.now) }
{
    for state in to {
        rows.push(Row {
            from,
            kind: kind.copy(),
            to: *state,
        })?;
    }
    Ok(())
}

//! Printing what a journal comes to.
ghost use Rattle.std.specs.Prelude.{List, OnOk, OnErr};
ghost use Rattle.std.specs.Io.KnownBytes.{Appends};
ghost use Rattle.mds_table.specs.Tables.{Tables};
ghost use Rattle.mds_core.specs.declared.request.Request.{Request};
ghost use Rattle.mds_io.specs.Page.{AppendsFront, with_newline};
ghost use Rattle.mds_commands.specs.Roster.{IsRosterOf};
ghost use Rattle.mds_commands.specs.ListingText.{IsRosterOfSome, counts_line, listing_text, printed_text};

use crate::roster::Roster;
use crate::vehicles::lines::{CountsLine, TotalsLine, VehicleLine};
use crate::vehicles::taking::Taken;
use mds_io::{PrintError, add_line, end_page};
use std::alloc::Global;
use std::io::Write;

/// Prints a roster, and where it's asked for how many lines and groups the journal has.
///
/// At an error a front of that text went out, as of [`print_roster`].
pub fn print_taken<W: Write>(
    alloc: Global,
    writer: &mut W,
    taken: &Taken,
    check: bool,
) -> Result<(), PrintError>
    requires { IsRosterOfSome taken.now.roster }
    ensures ok { OnOk result ((tables : Tables) (history : List Request)
        → IsRosterOf tables history taken.now.roster
        → Appends (W.contents writer.old) (W.contents writer.new)
        (printed_text check history taken.now.lines taken.now.groups)) }
    ensures err { OnErr result ((tables : Tables) (history : List Request)
        → IsRosterOf tables history taken.now.roster
        → AppendsFront (W.contents writer.old) (W.contents writer.new)
        (printed_text check history taken.now.lines taken.now.groups)) }
{
    if !check {
        return print_roster(alloc, writer, &taken.roster);
    }
    print_roster(alloc, writer, &taken.roster)?;
    print_counts(alloc, writer, taken.lines, taken.groups)
}

fn print_counts<W: Write>(
    alloc: Global,
    writer: &mut W,
    lines: usize,
    groups: usize,
) -> Result<(), PrintError>
    ensures ok { OnOk result (Appends (W.contents writer.old) (W.contents writer.new)
        (with_newline (counts_line lines groups))) }
    ensures err { OnErr result (AppendsFront (W.contents writer.old) (W.contents writer.new)
        (with_newline (counts_line lines groups))) }
{
    let mut page = String::new(alloc);
    end_page(writer, &mut page, &CountsLine { lines, groups })
}

/// Prints a roster: a line a vehicle in the order of registration, and the totals.
///
/// At an error a front of its text went out: `Memory` where there was none to lay a line out, `Device` where the writer
/// failed.
fn print_roster<W: Write>(alloc: Global, writer: &mut W, roster: &Roster) -> Result<(), PrintError>
    requires { IsRosterOfSome roster.now }
    ensures ok { OnOk result ((tables : Tables) (history : List Request)
        → IsRosterOf tables history roster.now
        → Appends (W.contents writer.old) (W.contents writer.new) (listing_text history)) }
    ensures err { OnErr result ((tables : Tables) (history : List Request)
        → IsRosterOf tables history roster.now
        → AppendsFront (W.contents writer.old) (W.contents writer.new) (listing_text history)) }
{
    let mut page = String::new(alloc);
    let registrations = roster.registrations();
    for at in 0..registrations {
        let Some((key, standing)) = roster.vehicle(at) else {
            unreachable!();
        };
        add_line(writer, &mut page, &VehicleLine { key, standing })?;
    }
    let events = roster.events();
    let totals = TotalsLine {
        registrations,
        events,
    };
    end_page(writer, &mut page, &totals)
}

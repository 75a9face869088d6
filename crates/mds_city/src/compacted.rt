//! What is printed of a compaction.
ghost use Rattle.std.specs.Prelude.{◌++◌, Some, string_bytes, OnOk, OnErr};
ghost use Rattle.std.specs.Io.KnownBytes.{Appends};
ghost use Rattle.mds_io.specs.Page.{AppendsFront, Passes};
ghost use Rattle.mds_city.specs.CompactText.{compact_line, compacted_text, cut_line, cut_lines};

use mds_io::{PrintError, add_line, end_page};
use mds_retention::{Compacted, CutTotals, Totals};
use std::alloc::Global;
use std::fmt;
use std::io::Write;

/// The line that says how many events of a vehicle may stay, of how many.
#[derive(Clone, Copy)]
struct CutLine {
    cut: CutTotals,
}

impl fmt::Display for CutLine {
    ghost output = { λ line. Some (cut_line line.cut) };

    fn fmt<W: fmt::Write>(&self, f: &mut fmt::Formatter<W>) -> fmt::Result {
        let provider = self.cut.cut.key.provider;
        let device = self.cut.cut.key.device;
        let most = self.cut.cut.events;
        let events = self.cut.events;
        write!(f, "cut {provider} {device} {most} of {events}")
    }
}

/// The line that says how many registrations there are, and how many events stay of how many.
#[derive(Clone, Copy)]
pub(crate) struct CompactLine {
    /// What it says.
    pub totals: Totals,
}

impl fmt::Display for CompactLine {
    ghost output = { λ line. Some (compact_line line.totals) };

    fn fmt<W: fmt::Write>(&self, f: &mut fmt::Formatter<W>) -> fmt::Result {
        let registrations = self.totals.registrations;
        let kept = self.totals.kept;
        let events = self.totals.events;
        write!(f, "registrations {registrations} events {kept} of {events}")
    }
}

/// Prints what came of a compaction: a line for each cut, and the totals.
///
/// # Errors
///
/// `Memory` where there was none to lay a line out, `Device` where the writer failed; a front of the text went out.
pub(crate) fn print_compacted<W: Write>(
    alloc: Global,
    writer: &mut W,
    compacted: &Compacted,
) -> Result<(), PrintError>
    ensures ok { OnOk result (Appends (W.contents writer.old) (W.contents writer.new)
        (compacted_text compacted.now)) }
    ensures err { OnErr result (AppendsFront (W.contents writer.old) (W.contents writer.new)
        (compacted_text compacted.now)) }
{
    let mut page = String::new(alloc);
    add_cuts(writer, &mut page, &compacted.cuts)?;
    let totals = compacted.totals;
    end_page(writer, &mut page, &CompactLine { totals })
}

fn add_cuts<W: Write>(
    writer: &mut W,
    page: &mut String,
    cuts: &[CutTotals],
) -> Result<(), PrintError>
    ensures ok { OnOk result (Passes (W.contents writer.old) (W.contents writer.new)
        (string_bytes page.old ++ cut_lines cuts.now) (string_bytes page.new)) }
    ensures err { OnErr result (AppendsFront (W.contents writer.old) (W.contents writer.new)
        (string_bytes page.old ++ cut_lines cuts.now)) }
{
    for cut in cuts {
        add_line(writer, page, &CutLine { cut: *cut })?;
    }
    Ok(())
}

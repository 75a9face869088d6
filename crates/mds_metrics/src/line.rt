//! The lines of Prometheus' text form, version 0.0.4.
ghost use Rattle.std.specs.Prelude.{◌≡◌, ◌++◌, Some, OnOk, string_bytes};
ghost use Rattle.mds_metrics.specs.Text.{kind_word, line_text, lines_text, number_text};

use crate::figure::{Count, Gauge};
use std::alloc::AllocError;
use std::fmt::{self, Write as _};

/// What a family of series tells.
#[derive(Clone, Copy)]
pub enum Kind {
    /// A number that only rises.
    Counter,
    /// A number that rises and falls.
    Gauge,
    /// How many values were at most so large.
    Histogram,
}

impl fmt::Display for Kind {
    ghost output = { λ kind. Some (kind_word kind) };

    fn fmt<W: fmt::Write>(&self, f: &mut fmt::Formatter<W>) -> fmt::Result {
        f.write_str(match self {
            Kind::Counter => "counter",
            Kind::Gauge => "gauge",
            Kind::Histogram => "histogram",
        })
    }
}

/// How the number of a series is written.
#[derive(Clone, Copy)]
pub enum Unit {
    /// As it is.
    Whole,
    /// So many microseconds, as seconds.
    Micros,
}

/// Where the number of a series comes from.
#[derive(Clone, Copy)]
pub enum Source {
    /// It is 1.
    One,
    /// Of all workers.
    Counted(Count),
    /// Of all workers, from the first to the last one.
    CountedTo(Count, Count),
    /// It is set.
    Set(Gauge),
    /// They are set, from the first to the last one.
    SetTo(Gauge, Gauge),
    /// The vehicles that are held.
    Vehicles,
    /// The requests that are held.
    Requests,
    /// The time of the newest event.
    Newest,
}

/// One line of the text, or the two before a family of series.
#[derive(Clone, Copy)]
pub enum Line {
    /// What begins a family.
    Family {
        /// Its name.
        name: &'static str,
        /// What it tells.
        kind: Kind,
        /// The same in words.
        help: &'static str,
    },
    /// A series, by its name and labels.
    Sample {
        /// The name, with its labels in braces.
        series: &'static str,
        /// How its number is written.
        unit: Unit,
        /// Where its number comes from.
        source: Source,
    },
}

/// The number of a series.
#[derive(Clone, Copy)]
struct Number {
    unit: Unit,
    value: u64,
}

impl fmt::Display for Number {
    ghost output = { λ number. Some (number_text number.unit number.value) };

    fn fmt<W: fmt::Write>(&self, f: &mut fmt::Formatter<W>) -> fmt::Result {
        let value = self.value;
        match self.unit {
            Unit::Whole => write!(f, "{value}"),
            Unit::Micros => {
                let seconds = value / 1_000_000;
                let tenths = value / 100_000 % 10;
                let hundredths = value / 10_000 % 10;
                let millis = value / 1_000 % 10;
                let fourth = value / 100 % 10;
                let fifth = value / 10 % 10;
                let sixth = value % 10;
                write!(
                    f,
                    "{seconds}.{tenths}{hundredths}{millis}{fourth}{fifth}{sixth}"
                )
            }
        }
    }
}

fn add_line(text: &mut String, line: &Line, value: u64) -> Result<(), AllocError>
    ensures { OnOk result (string_bytes text.new
        ≡ string_bytes text.old ++ line_text line.now value) }
{
    match line {
        Line::Family { name, kind, help } => {
            write!(text, "# HELP {name} {help}\n# TYPE {name} {kind}\n")
        }
        Line::Sample { series, unit, .. } => {
            let number = Number { unit: *unit, value };
            write!(text, "{series} {number}\n")
        }
    }
}

/// Adds these lines with these numbers, one for each line.
///
/// # Errors
///
/// `AllocError` where there is no memory for the text, which may have some of the lines then.
pub fn add_lines(text: &mut String, lines: &[Line], values: &[u64]) -> Result<(), AllocError>
    ensures { OnOk result (string_bytes text.new
        ≡ string_bytes text.old ++ lines_text lines.now values.now) }
{
    let mut left = values;
    for line in lines {
        let Some((value, later)) = left.split_first() else {
            return Ok(());
        };
        add_line(text, line, *value)?;
        left = later;
    }
    Ok(())
}

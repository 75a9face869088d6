//! What is read of the figures at a time.
use crate::board::Board;
use crate::figure::Gauge;
use crate::line::Line;
use crate::lines::LINES;
use std::alloc::{AllocError, Global};

/// How many lines don't tell of a journal. They stand before the others.
const LINES_WITHOUT_JOURNAL: usize = 84;

/// Figures as they were read, a number for each line.
#[derive(Drop)]
pub struct Reading {
    /// The version of the program.
    pub version: &'static str,
    /// The lines.
    pub lines: &'static [Line],
    /// Their numbers. A line that begins a family has 0.
    pub values: Vec<u64>,
}

/// Whether the server is ready.
#[derive(Clone, Copy, Debug, PartialEq, Eq)]
pub enum Readiness {
    /// It reads its journal, and doesn't listen yet.
    Reading {
        /// So many bytes were read.
        read: u64,
        /// Of so many.
        of: u64,
    },
    /// It listens.
    Ready,
    /// It listens, and what is asked can't be recorded.
    NotKept,
}

impl Board {
    /// Whether the server is ready now.
    pub fn readiness(&self) -> Readiness {
        if self.get(Gauge::Listens) == 0 {
            Readiness::Reading {
                read: self.get(Gauge::ReadBytes),
                of: self.get(Gauge::AllBytes),
            }
        } else if self.get(Gauge::NotKept) == 0 {
            Readiness::Ready
        } else {
            Readiness::NotKept
        }
    }

    /// The figures now; those of a journal only where there is one.
    ///
    /// # Errors
    ///
    /// `AllocError` where there is no memory for them.
    pub fn reading(&self, alloc: Global) -> Result<Reading, AllocError> {
        let count = if self.get(Gauge::HasJournal) == 0 {
            LINES_WITHOUT_JOURNAL
        } else {
            LINES.len()
        };
        let lines = LINES.get(..count).unwrap_or(&LINES);
        let mut values = Vec::with_capacity(alloc, lines.len())?;
        for line in lines {
            values.push(self.number_of(line))?;
        }
        Ok(Reading {
            version: self.version(),
            lines,
            values,
        })
    }

    fn number_of(&self, line: &Line) -> u64 {
        match line {
            Line::Family { .. } => 0,
            Line::Sample { source, .. } => self.read(*source),
        }
    }
}

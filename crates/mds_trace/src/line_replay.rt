//! The replay of a stream's lines, which are fed in pieces.
ghost use Rattle.std.specs.Prelude.{◌≡◌, ◌++◌, [], List, Some, None, IfOk, IfErr, OnOk, Err};
ghost use Rattle.mds_batch.specs.declared.item.EventItem.{EventItem};
ghost use Rattle.mds_lines.specs.declared.line_fault.LineFault.{LineFault as Fault};
ghost use Rattle.mds_lines.specs.Stream.{HasEndedItems, HasLineFault, IsFaultyWith};
ghost use Rattle.mds_trace.specs.LineReport.{IsLineReport};

use crate::{Opening, Replayer, Report};
use mds_lines::{LineFault, LineReader};
use mds_table::Tables;
use std::alloc::Global;
use std::marker::Model;

/// A replay of a stream of lines, one item a line, which are fed in pieces: however the stream is cut, it comes to the
/// replay of the items of its lines, or to the stream's first fault.
///
/// It keeps the bytes that it was fed, and no item: each line's item is replayed as the line ends.
#[derive(Drop)]
pub struct LineReplay {
    replayer: Replayer,
    lines: LineReader,
}

impl Model for LineReplay {
    ghost use Rattle.mds_trace.specs.Feeding.{Feeding};
    ghost use Rattle.mds_trace.specs.LinesTaken.{AreReplayed};

    ghost Value = { Feeding };

    ghost view = { λ replay. record {
      tables = replay.replayer.tables;
      opening = replay.replayer.opening;
      stream = replay.lines;
    } };

    ghost invariant = { λ replay.
        AreReplayed replay.lines.fault replay.lines.bytes replay.replayer };
}

impl LineReplay {
    /// A replay of a stream of which nothing has come. It takes no memory.
    pub fn open(alloc: Global, tables: Tables, opening: Opening) -> LineReplay
        ensures { result ≡ record {
          tables = tables;
          opening = opening;
          stream = record { bytes = []; fault = None };
        } }
    {
        LineReplay {
            replayer: Replayer::open(alloc, tables, opening),
            lines: LineReader::open(alloc),
        }
    }

    /// Takes in the next bytes of the stream, and replays the lines that end in them.
    ///
    /// # Errors
    ///
    /// The first fault of the stream, as far as it has come: every stream that begins so has it. It is told as soon as
    /// its line has ended, or its byte has come, and by each later call. [`LineFault::Memory`] comes as soon as a
    /// growth is refused, and says nothing of the stream.
    pub fn feed(&mut self, piece: &[u8]) -> Result<(), LineFault>
        ensures fed { OnOk result (self.new ≡ record self.old {
          stream = record { bytes = self.old.stream.bytes ++ piece.now; fault = None };
        }) }
        ensures ended { OnOk result
            ((items : List EventItem) × HasEndedItems self.new.stream.bytes items) }
        ensures whole { OnOk result (self.old.stream.fault ≡ None) }
        ensures fault { IfErr result (IsFaultyWith (self.old.stream.bytes ++ piece.now)) }
        ensures kept { IfErr result (λ fault. self.new.stream.fault ≡ Some fault) }
        ensures again { (fault : Fault) → self.old.stream.fault ≡ Some fault
            → (result ≡ Err fault) × (self.new ≡ self.old) }
        ensures tables { self.new.tables ≡ self.old.tables }
        ensures opening { self.new.opening ≡ self.old.opening }
    {
        self.lines.feed(piece, &mut self.replayer)
    }

    /// The replay of the items of the stream's lines: the stream ends here.
    ///
    /// # Errors
    ///
    /// The first fault of the stream, the one that [`LineReplay::feed`] answered if it did; [`LineFault::Memory`] also
    /// where there is no memory for the replay.
    pub fn finish(self) -> Result<Report, LineFault>
        ensures report { IfOk result (IsLineReport self.opening self.tables self.stream.bytes) }
        ensures whole { OnOk result (self.stream.fault ≡ None) }
        ensures fault { IfErr result (HasLineFault self.stream.bytes) }
        ensures again { (fault : Fault) → self.stream.fault ≡ Some fault → result ≡ Err fault }
    {
        let mut replayer = self.replayer;
        self.lines.finish(&mut replayer)?;
        match replayer.finish() {
            Ok(report) => Ok(report),
            Err(_) => Err(LineFault::Memory),
        }
    }
}

//! Room ahead: bytes behind the closed gate, so that a group is written over what the file has already.
ghost use Rattle.std.specs.Prelude.{◌≡◌, ◌≤◌, length};
ghost use Rattle.mds_journal.specs.Device.{LeavesOnly};
ghost use Rattle.mds_journal.specs.Lines.{recovered_texts};
ghost use Rattle.mds_journal.specs.Journal.{IsSound, MayGoOn, IsKept};

use crate::group::LINE_FEED;
use crate::{Device, Journal};

/// How many bytes are written ahead: 1 MiB.
const ROOM_BYTES: usize = 1_048_576;

/// What is written ahead. They are line feeds, so that a reader of lines sees no long line and no byte of 0.
static ROOM: [u8; ROOM_BYTES] = [LINE_FEED; ROOM_BYTES];

fn line_feeds() -> &'static [u8]
    ensures { length result.now ≡ ROOM_BYTES }
{
    &ROOM
}

impl<D: Device> Journal<D> {
    /// Makes room for a group of so many bytes, where there is none. Behind the closed gate it counts for nothing, and the
    /// group's sync puts it on the disk.
    ///
    /// The first group has none: a file that names no form yet has to be known as one that was just made. Where the device
    /// makes no room the group goes without, and the next try is so many bytes further on.
    pub(crate) fn make_room(&mut self, size: usize)
        requires sound { IsSound D.seen D.may_leave D.may_be_used D.is_true self.old }
        requires ready { MayGoOn self.old }
        ensures sound { IsSound D.seen D.may_leave D.may_be_used D.is_true self.new }
        ensures ready { MayGoOn self.new }
        ensures end { self.new.end ≡ self.old.end }
        ensures same { D.is_true self.new.device
            → recovered_texts (D.seen self.new.device) ≡ recovered_texts (D.seen self.old.device) }

        // A crash at any moment leaves the same lines, and less than a group behind them.
        ensures any_moment { D.is_true self.new.device
            → LeavesOnly D.moment D.left_since self.old.device self.new.device
            (IsKept (recovered_texts (D.seen self.old.device))) }

        ensures later { D.faults self.old.device ≤ D.faults self.new.device }
        ensures was_true { D.is_true self.new.device → D.is_true self.old.device }
    {
        let is_first = self.end == 0;
        let is_there = size <= self.room.saturating_sub(self.end);
        if is_first || is_there || size > ROOM_BYTES {
            return;
        }
        self.room = self.end + 1 + ROOM_BYTES;
        let _ = self.device.write_at(self.end + 1, line_feeds());
    }
}

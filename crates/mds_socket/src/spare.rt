//! Room that nobody uses at a time, and that is kept.
use std::alloc::Global;

/// How much of a kind is kept at most: for each worker that there may be.
const MAX_SPARE: usize = 64;

/// For how many bytes a list that is kept has room at least: a look, or a report.
pub(crate) const LIST_BYTES: usize = 4_096;

/// For how many it has room at most: a batch of a hundred events.
const MAX_LIST_BYTES: usize = 32_768;

/// What is kept for requests. Each kind has places of its own: so neither takes those of the other.
#[derive(Drop)]
pub(crate) struct Spare {
    /// Room for bytes that come. It costs more to fill than a request to read.
    rooms: Vec<Vec<u8>>,
    /// Lists for the bytes of a request. Each has those of an earlier one.
    lists: Vec<Vec<u8>>,
}

impl Spare {
    /// Nothing yet.
    pub(crate) fn new(alloc: Global) -> Spare {
        Spare {
            rooms: Vec::new(alloc),
            lists: Vec::new(alloc),
        }
    }

    /// The last room, if there is one.
    pub(crate) fn take_room(&mut self) -> Option<Vec<u8>> {
        self.rooms.pop()
    }

    /// The last list, if there is one.
    pub(crate) fn take_list(&mut self) -> Option<Vec<u8>> {
        self.lists.pop()
    }

    /// Keeps a room, unless there are enough.
    pub(crate) fn keep_room(&mut self, room: Vec<u8>) {
        keep(&mut self.rooms, room);
    }

    /// Keeps a list, unless there are enough.
    pub(crate) fn keep_list(&mut self, list: Vec<u8>) {
        keep(&mut self.lists, list);
    }
}

fn keep(kept: &mut Vec<Vec<u8>>, one: Vec<u8>) {
    if kept.len() < MAX_SPARE {
        let _ = kept.push(one);
    }
}

/// Whether a list is worth being kept, by its room.
pub(crate) fn is_worth_keeping(list: &Vec<u8>) -> bool {
    LIST_BYTES <= list.capacity() && list.capacity() <= MAX_LIST_BYTES
}

//! What the tests of several crates share: the vehicles and the events of the worked cases, the profile, a gate at which two
//! workers meet, devices that fail, the room behind the lines of a journal, and the fences between which each growth of memory
//! is refused.
#![tactic(auto)]

/// The rows of a table of cases, one to a line.
#[macro_export]
macro_rules! rows {
    ($($row:expr),* $(,)?) => { &[$($row),*] };
}

/// What a call answers, or what it answers where it's made again, if the first answer was an error.
#[macro_export]
macro_rules! again {
    ($call:expr) => {
        match $call {
            Err(_) => $call,
            done => done,
        }
    };
}

mod asking;
mod devices;
mod gate;
mod growths;
mod room;

pub use asking::{
    A, Ask, B, C, DROP_OFF, E0, E1, E2, E3, E4, Lack, event_of, key, request_of, requests_of,
    type_of, types_of, uuid,
};
pub use devices::{ENDS, Expects, FAILS, Last, PAUSES, Pieces, Plan, Stream, ending, pieces_of};
pub use gate::MeetingGate;
pub use growths::{fence, profile, profile_again};
pub use room::room_behind;

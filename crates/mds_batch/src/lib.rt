//! Batches of JSON (RFC 8259), read into items: registrations of vehicles, and events; and the texts of what is told.
//!
//! A batch is a list of items; an object alone counts as a list of one. Each item is read by itself, so a faulty one
//! leaves its neighbours as they are, and answers its first faulty member. The members have the names of the
//! micromobility mode of the Mobility Data Specification (MDS) 2.0, but for `location_e7`, which is this project's own:
//! a position in ten-millionths of a degree. Every other member is ignored.
//!
//! Registrations, events, rows and tables have compact texts. The members of each object stand in ascending order of their
//! names, and identifiers are UUIDs, hyphenated and in lower case (RFC 9562). Texts are written piece by piece, and no tree of
//! JSON values is built. An answer over HTTP and a file's line have the same text of an event.
#![tactic(auto)]

mod asking;
mod batch;
mod event;
mod form;
mod item;
mod items;
mod kept;
pub mod laws;
mod list;
mod location;
mod member;
mod number;
mod reader;
mod slot;
mod taker;
mod texts;
mod tokens;
mod types;
mod vehicle;

pub use asking::BatchItems;
pub use batch::{BatchFault, MAX_ITEMS, each_event, read_event_items, read_events, read_vehicles};
pub use item::{BatchItem, EventItem, ItemFault, VehicleItem};
pub use items::EventItems;
pub use kept::{KeptEvent, KeptItem};
pub use member::Member;
pub use reader::{BatchReader, ItemReader, read_item};
pub use taker::TakesItems;
pub use texts::{Commas, Json, PositionText, Text};

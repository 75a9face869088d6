//! Lines of JSON (RFC 8259), read into items of events.
//!
//! Lines come as a stream that is fed in pieces. A line is one item. It ends with a line feed, or where the stream does. A
//! line of spaces, tabs and carriage returns alone holds no item, and is counted like the others. What a stream's items are,
//! or its first fault, is said of the whole stream: how it is cut into pieces changes nothing. Of a reader, lines are read
//! one by one, without a limit on how many there are.
#![tactic(auto)]

pub mod laws;
mod line_fault;
mod line_reader;
mod lines;
mod unlimited_items;
mod unlimited_lines;

pub use line_fault::LineFault;
pub use line_reader::LineReader;
pub use unlimited_items::{ItemsFault, UnlimitedItems};

//! The check of a group of lines, by which damage is found that no crash explains.
//!
//! Lines come in groups: some texts, and then a line of 20 bytes, the check of the texts' lines as
//! they stand in a file, with open gates. The check is the CRC-32 of ISO 3309, as zlib's `crc32` has
//! it. A [`GroupCheck`] takes lines one by one, and says of each whether it fits.
//!
//! What the checks find for certain is told by the [`laws`]: each change of one byte, and more.
#![tactic(auto)]

mod crc;
pub mod form;
mod group;
pub mod laws;
mod table;
#[cfg(test)]
mod tests;

pub use crc::{checksum, update, update_by_bytes};
pub use group::{GroupCheck, is_checked};

//! The states of shared vehicles, the types of their events, and the table of allowed transitions.
//!
//! A table is a set of rows, each a state, an event type and the state that it leads to. States and event types are
//! named after the micromobility mode of the Mobility Data Specification (MDS) 2.0, section "Vehicle States" and
//! "Event Types"; which rows the profile has is this project's own choice. A table is the profile's, or is read from
//! a table file, whose form is this project's own as well. Several tables may follow one another, each in force from a
//! stated time on.
#![tactic(auto)]

mod entry;
pub mod json;
pub mod laws;
pub mod mask;
mod moves;
mod profile;
mod row;
mod row_set;
mod state;
mod table;
mod table_file;
mod tables;
mod tables_fault;
mod tables_file;
mod type_name;

pub use json::{MAX_BYTES, MAX_TIME};
pub use row::Row;
pub use state::State;
pub use table::Table;
pub use table_file::{MAX_ROWS, MAX_TABLE_TYPES, TableFault};
pub use tables::{MAX_TABLES, Tables};
pub use tables_fault::TablesFault;
pub use type_name::{NameFault, TypeName};

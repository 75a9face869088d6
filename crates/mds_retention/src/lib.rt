//! Compaction of a journal: a new file of the lines of an old one that stay.
//!
//! The old journal is read again for each pass of a compaction: [`survey_of`], [`thinning_of`] and [`marks_of`] feed the requests
//! that its lines tell to the passes of `mds_compact`. [`kept_lines`] copies the texts that stay into a [`Draft`], which lays them
//! out in groups. [`compact`] does all of it, and gives the new file its name once it is whole. So the memory goes by the vehicles,
//! and by three bytes for each request. A journal of either version is read; the new one has version 2.
#![tactic(auto)]

mod compacting;
mod copying;
mod draft;
mod error;
mod lines;
mod new_journal;
mod passes;
mod place;
mod rest;
mod texts;
mod vehicle_events;

pub use compacting::{Compacted, CutTotals, Readings, compact};
pub use copying::kept_lines;
pub use draft::Draft;
pub use error::{CompactError, LinesError};
pub use lines::RequestLines;
pub use new_journal::{NewJournal, begin_journal, drop_journal, end_journal};
pub use passes::{Marked, Surveyed, Totals, marks_of, survey_of, thinning_of};
pub use place::Place;
pub use vehicle_events::events_of;

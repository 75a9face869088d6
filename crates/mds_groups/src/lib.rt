//! The groups of a journal's lines, each of which ends with its check.
//!
//! The first line of a journal names its form. In version 2 the lines stand in groups: the texts of what was written together, and
//! behind them a line of 20 bytes, the check of these texts' lines as they stand in the file, with open gates. A [`GroupStream`] takes
//! the lines of a journal one by one and hands on its groups, each once it's known to be whole. [`end_group`] puts the check behind the
//! texts of a group that is to be written. Version 1 has no checks, and each of its lines is a group.
//!
//! What is found of a journal that was changed is told by the [`laws`].
#![tactic(auto)]

mod ending;
mod fault;
mod form;
pub mod laws;
mod stream;

pub use ending::end_group;
pub use fault::GroupFault;
pub use form::{JournalForm, form_check};
pub use stream::{GroupError, GroupStream, WholeGroup};

//! Tests of compactions: of lists, and of journals.
#![tactic(auto)]

#[cfg(test)]
mod compaction;
#[cfg(test)]
mod files;
#[cfg(test)]
mod following;
#[cfg(test)]
mod reading;
#[cfg(test)]
mod retention;
#[cfg(test)]
mod texts;

//! Tests of journals: over files in memory, over devices that fail, and over files of the system; of their lines.
#![tactic(auto)]

#[cfg(test)]
mod ahead;
#[cfg(test)]
mod entries;
#[cfg(test)]
mod files;
#[cfg(test)]
mod frail;
#[cfg(test)]
mod groups;
#[cfg(test)]
mod lines;
#[cfg(test)]
mod streams;

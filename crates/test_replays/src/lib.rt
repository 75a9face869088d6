//! Tests of replays, of the sessions over what they accepted, of what the debugger prints of these, of rosters, and of the
//! commands and the words that ask for them.
#![tactic(auto)]

#[cfg(test)]
mod commands;
#[cfg(test)]
mod debugger;
#[cfg(test)]
mod line_replays;
#[cfg(test)]
mod replays;
#[cfg(test)]
mod rosters;
#[cfg(test)]
mod sessions;
#[cfg(test)]
mod told;
#[cfg(test)]
mod words;
#[cfg(test)]
mod workers;

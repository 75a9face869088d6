//! Tests of the shards, of packed pasts, of what callers note and how it is judged, and of the open gate.
#![tactic(auto)]

#[cfg(test)]
mod gates;
#[cfg(test)]
mod pasts;
#[cfg(test)]
mod settling;
#[cfg(test)]
mod shards;

//! Reading and writing in few calls, batches, and lines: over devices that give little, values from outside, and refused growths.
#![tactic(auto)]

#[cfg(test)]
mod batches;
#[cfg(test)]
mod devices;
#[cfg(test)]
mod lines;

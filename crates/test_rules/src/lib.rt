//! Tests of the rules: of the tables and their files, of sets of states, and of the machine over them.
#![tactic(auto)]

#[cfg(test)]
mod machine;
#[cfg(test)]
mod steps;
#[cfg(test)]
mod tables;

//! Tests of a journal over which a book is opened, and in which is recorded what it accepts.
#![tactic(auto)]

#[cfg(test)]
mod journals;

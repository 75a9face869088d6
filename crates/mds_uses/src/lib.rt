//! A proved call of each library: what a caller of it most likely wants, with what the caller may rely on.
#![tactic(auto)]

pub mod args;
pub mod batch;
pub mod book;
pub mod check;
pub mod commands;
pub mod compact;
pub mod entries;
pub mod face;
pub mod file;
pub mod follow;
pub mod groups;
pub mod http;
pub mod io;
pub mod journal;
pub mod known;
pub mod lines;
pub mod log;
pub mod metrics;
pub mod past;
pub mod pieces;
pub mod pool;
pub mod retention;
pub mod rules;
pub mod settle;
pub mod shard;
pub mod socket;
pub mod steps;
pub mod table;
pub mod trace;
pub mod waiting;

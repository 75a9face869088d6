//! The machine: the worked cases, its events, lists of them, growths that are refused, and calls that take no memory.
mod event_lists;
mod events;
mod fleets;
mod refused;

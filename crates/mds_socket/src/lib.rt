//! Connections over TCP, at an address of this machine.
#![tactic(auto)]

pub mod laws;
mod port;
mod retry;
mod socket;
mod spare;
mod system;
mod tables;
mod watch;

pub use mds_waiting::Given as SocketIn;
pub use port::WaitingPort;
pub use socket::{Listening, SocketOut, SocketPort, Sockets};
pub use system::{Ready, System};

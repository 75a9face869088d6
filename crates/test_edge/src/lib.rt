//! Tests of workers that serve a port side by side, of what comes of their connections, and of connections that wait.
#![tactic(auto)]

#[cfg(test)]
mod peers;
#[cfg(test)]
mod ports;
#[cfg(test)]
mod sockets;
#[cfg(test)]
mod waiting;
#[cfg(test)]
mod workers;

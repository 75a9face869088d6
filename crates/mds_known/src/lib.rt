//! What is known of vehicles: a value for each, in the order in which they came, and the names of their events.
//!
//! The listing of a journal's vehicles keeps this. Its value for a vehicle is where the vehicle stands.
#![tactic(auto)]

mod known_vehicles;
mod own_name;

pub use known_vehicles::KnownVehicles;

//! What holds of the definitions alone. Each law is a function that does nothing; its contract is the law.
ghost use Rattle.mds_face.specs.Laws.{FleetsRun, LooksRestOnTheirVehicle};

/// What a fleet answers to the items of a batch is a run of the machine from its history: over all requests where each call
/// finds memory, and else over those before the first that finds none. So the replies are determined by the requests and the
/// history.
#[tactic(auto, using(crate::proofs::FleetLemmas::fleet_runs))]
pub fn fleets_run()
    ensures { FleetsRun }
{}

/// The answer to a look, or to a question for a vehicle's events, rests on what was accepted of that vehicle alone: histories that
/// agree on it give the same bytes.
#[tactic(auto, using(crate::proofs::VehicleLemmas::rest_on_vehicle))]
pub fn looks_rest_on_their_vehicle()
    ensures { LooksRestOnTheirVehicle }
{}

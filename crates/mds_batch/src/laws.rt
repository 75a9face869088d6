//! What holds of the definitions alone: of items and of batches, whoever reads them. Each law is a function that does nothing; its
//! contract is the law.
ghost use Rattle.mds_batch.specs.Laws.{FaultsNameTheFirst, FaultyMembersAreTold, VehiclesGoByMembers, EventsGoByMembers, BatchesHaveOneListOfVehicles, BatchesHaveOneListOfEvents, BatchesHaveNoFault, BatchesHaveOneFault};

/// A fault that names a member names the first of those asked for that is absent or bad.
pub fn faults_name_the_first()
    ensures { FaultsNameTheFirst }
{}

/// An item of which a member is absent or bad has a fault.
pub fn faulty_members_are_told()
    ensures { FaultyMembersAreTold }
{}

/// Values that agree on the two members of a registration, and on being objects, are the same vehicle or have the same
/// fault, whatever else they hold.
#[tactic(auto, using(crate::proofs::ItemLaws::vehicles_go_by_members))]
pub fn vehicles_go_by_members()
    ensures { VehiclesGoByMembers }
{}

/// Values that agree on the seven members of an event, and on being objects, are the same event or have the same fault,
/// whatever else they hold.
#[tactic(auto, using(crate::proofs::ItemLaws::events_go_by_members))]
pub fn events_go_by_members()
    ensures { EventsGoByMembers }
{}

/// A batch of registrations has one list of items.
pub fn batches_have_one_list_of_vehicles()
    ensures { BatchesHaveOneListOfVehicles }
{}

/// A batch of events has one list of items.
pub fn batches_have_one_list_of_events()
    ensures { BatchesHaveOneListOfEvents }
{}

/// Bytes that have items have no fault of the whole, want of memory aside.
#[tactic(auto, using(crate::proofs::BatchLaws::batches_have_no_fault))]
pub fn batches_have_no_fault()
    ensures { BatchesHaveNoFault }
{}

/// Bytes have one first fault, want of memory aside.
#[tactic(auto, using(crate::proofs::BatchLaws::batches_have_one_fault))]
pub fn batches_have_one_fault()
    ensures { BatchesHaveOneFault }
{}

//! What holds of the definitions alone: of what streams ask for, whoever reads them, and of the answers to a POST, whoever
//! writes them. Each law is a function that does nothing; its contract is the law.
ghost use Rattle.mds_http.specs.PlanLaws.{PlansAreOne, InvalidDetermines, PartialDetermines, RejectedDetermines, CompleteDetermines, StatusesStay};
ghost use Rattle.mds_http.specs.VerdictLaws.{MemoryNamesTheNext, RepliesAreEnough, CountsAddUp};

/// A stream asks for one thing.
pub fn plans_are_one()
    ensures { PlansAreOne }
{}

/// Bytes with which no head begins, whatever follows them, determine what is asked for.
pub fn invalid_determines()
    ensures { InvalidDetermines }
{}

/// As many bytes as a head may have determine it, where they hold no head.
pub fn partial_determines()
    ensures { PartialDetermines }
{}

/// A head with a fault determines it.
pub fn rejected_determines()
    ensures { RejectedDetermines }
{}

/// A head without a fault determines it, together with a body of its length.
pub fn complete_determines()
    ensures { CompleteDetermines }
{}

/// Bytes that follow change nothing once a head is there, or can't come any more.
pub fn statuses_stay()
    ensures { StatusesStay }
{}

/// The item that is said to have found no memory is no fault, and before it stand as many items that are none as there are
/// replies.
pub fn memory_names_the_next()
    ensures { MemoryNamesTheNext }
{}

/// Where there is a reply for each item that is no fault, none is said to have found no memory.
pub fn replies_are_enough()
    ensures { RepliesAreEnough }
{}

/// Where there is one reply for each item that is no fault, and none shows a standing, each item is accepted or a
/// failure.
pub fn counts_add_up()
    ensures { CountsAddUp }
{}

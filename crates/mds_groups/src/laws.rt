//! What holds of the lines of journals, by the definitions alone. Each law is a function that does nothing; its contract is the law.
ghost use Rattle.mds_groups.specs.Laws.{ChangedGroupsAreFound, ChangedJournalsAreFound};
ghost use Rattle.mds_groups.specs.Laws.{JournalsBegin, JournalsGoOn, JournalsTellOnce, TextsAreNoChecks};

/// No request is laid out as a text that is as long as a check, so the length tells them apart.
#[tactic(auto, using(crate::proofs::LengthLemmas::texts_are_no_checks))]
pub fn texts_are_no_checks()
    ensures { TextsAreNoChecks }
{}

/// The lines before the first group are a journal with no groups.
#[tactic(auto, using(crate::proofs::JournalLemmas::journals_begin))]
pub fn journals_begin()
    ensures { JournalsBegin }
{}

/// Where a group is put behind the lines of a journal, these tell its texts too, behind those from before.
#[tactic(auto, using(crate::proofs::JournalLemmas::journals_go_on))]
pub fn journals_go_on()
    ensures { JournalsGoOn }
{}

/// The lines of a checked journal tell their groups in one way.
#[tactic(auto, using(crate::proofs::JournalLemmas::journals_tell_once))]
pub fn journals_tell_once()
    ensures { JournalsTellOnce }
{}

/// Where a byte of a line is changed in the file of a checked journal, it's the file of no journal.
#[tactic(auto, using(crate::proofs::ChangeLemmas::changed_journals_are_found))]
pub fn changed_journals_are_found()
    ensures { ChangedJournalsAreFound }
{}

/// The bytes of two groups, their checks and all gates and line feeds among them, don't differ in a run of at most 32 bits.
pub fn changed_groups_are_found()
    ensures { ChangedGroupsAreFound }
{}

//! What holds of the definitions alone. Each law is a function that does nothing; its contract is the law.
ghost use Rattle.mds_follow.specs.Disk.{TextsTellOneList};
ghost use Rattle.mds_follow.specs.Lives.{AnswersStandInTheNextLife, LooksStandInTheNextLife};

use crate::Record;

/// What an answer rested on in one life of a server is the beginning of the history in the next life, where a receipt covered it:
/// whatever crash came between, since it was recorded. So all lives have one history of each shard, that of the last one, and
/// each answer of each life was judged by a beginning of it, or of its vehicle's part of it.
pub fn answers_stand_in_the_next_life<F: Record>()
    ensures { AnswersStandInTheNextLife F.left_since }
{}

/// What an answer about one vehicle rested on in one life of a server begins what the next life has of that vehicle, where a
/// receipt covered it for the vehicle: whatever crash came between, since it was recorded.
pub fn looks_stand_in_the_next_life<F: Record>()
    ensures { LooksStandInTheNextLife F.left_since }
{}

/// The lines of a file tell no more than one list of requests: what a restart may read of a file that a crash left is that one.
pub fn lines_tell_one_list()
    ensures { TextsTellOneList }
{}

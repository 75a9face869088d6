//! What the checks find, by the definitions alone. Each law is a function that does nothing; its
//! contract is the law.
ghost use Rattle.mds_check.specs.Laws.{ChangesOfAByteAreFound, ChangesOfFourBytesAreFound};
ghost use Rattle.mds_check.specs.Laws.{RunsOf32BitsAreFound, ChecksAreApart, GroupsReadBack};
ghost use Rattle.mds_check.specs.Laws.{ChangedLinesAreFound, WrittenGroupsAreRead};
ghost use Rattle.mds_check.specs.Laws.{ChangedFilesAreFound, JoinedLinesAreFound};

/// A changed byte changes the check.
pub fn changes_of_a_byte_are_found()
    ensures { ChangesOfAByteAreFound }
{}

/// Up to four changed bytes in a row change the check.
pub fn changes_of_four_bytes_are_found()
    ensures { ChangesOfFourBytesAreFound }
{}

/// Changed bits change the check where the first and the last of them are at most 31 bits apart.
pub fn runs_of_32_bits_are_found()
    ensures { RunsOf32BitsAreFound }
{}

/// Different checks have different texts.
pub fn checks_are_apart()
    ensures { ChecksAreApart }
{}

/// The groups of lines that were laid out are those that were laid out.
pub fn groups_read_back()
    ensures { GroupsReadBack }
{}

/// Of two lists of lines that differ in one byte not both are checked.
pub fn changed_lines_are_found()
    ensures { ChangedLinesAreFound }
{}

/// A file of groups, whose end stands for nothing, is read as these groups, and is checked.
pub fn written_groups_are_read()
    ensures { WrittenGroupsAreRead }
{}

/// Of two files that differ in one byte of a line's text not both are checked.
pub fn changed_files_are_found()
    ensures { ChangedFilesAreFound }
{}

/// Of two files not both are checked where in one of them another byte stands in the place of the
/// line feed between two texts, unless the line that these become is as long as a check.
pub fn joined_lines_are_found()
    ensures { JoinedLinesAreFound }
{}

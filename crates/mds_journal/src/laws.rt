//! What a file of lines stands for, by the definitions alone. Each law is a function that does nothing; its contract is
//! the law.
ghost use Rattle.mds_journal.specs.Laws.{WholeLinesCount, TornLinesCountForNothing};
ghost use Rattle.mds_journal.specs.Laws.{NothingCountsBehindAClosedGate, LinesStandForTheirTexts};
ghost use Rattle.mds_journal.specs.Laws.{FilesAreLinesAndAnEnd, NoOtherTextsFit};
ghost use Rattle.mds_journal.specs.Laws.{FrontsOfEndsStandForNothing, TextsHaveNoFeed};

/// A whole open line in front adds its text.
pub fn whole_lines_count()
    ensures { WholeLinesCount }
{}

/// An open line with no line feed stands for nothing.
pub fn torn_lines_count_for_nothing()
    ensures { TornLinesCountForNothing }
{}

/// Behind a gate that isn't open nothing counts.
pub fn nothing_counts_behind_a_closed_gate()
    ensures { NothingCountsBehindAClosedGate }
{}

/// Open lines and a rest stand for the texts of the lines and for what the rest stands for.
pub fn lines_stand_for_their_texts()
    ensures { LinesStandForTheirTexts }
{}

/// Each file is open lines of what it stands for, and an end that stands for nothing.
pub fn files_are_lines_and_an_end()
    ensures { FilesAreLinesAndAnEnd }
{}

/// If a file is open lines and an end that stands for nothing, it stands for the texts of these lines and for no others.
pub fn no_other_texts_fit()
    ensures { NoOtherTextsFit }
{}

/// The front of an end that stands for nothing stands for nothing.
pub fn fronts_of_ends_stand_for_nothing()
    ensures { FrontsOfEndsStandForNothing }
{}

/// No text that counts has a line feed.
pub fn texts_have_no_feed()
    ensures { TextsHaveNoFeed }
{}

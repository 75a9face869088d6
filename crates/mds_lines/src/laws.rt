//! What holds of the definitions alone: of lines, whoever reads them. Each law is a function that does nothing; its contract is
//! the law.
ghost use Rattle.mds_lines.specs.LineLaws.{StreamsHaveOneListOfItems, StreamsWithItemsHaveNoFault, StreamsHaveOneFault};

/// The lines of a stream have one list of items.
pub fn streams_have_one_list_of_items()
    ensures { StreamsHaveOneListOfItems }
{}

/// A stream whose lines have items has no fault, want of memory aside.
pub fn streams_with_items_have_no_fault()
    ensures { StreamsWithItemsHaveNoFault }
{}

/// A stream has one first fault, want of memory aside.
pub fn streams_have_one_fault()
    ensures { StreamsHaveOneFault }
{}

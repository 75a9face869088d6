//! What holds of the definitions alone.
ghost use Rattle.mds_table.specs.Chain.{ChainsGoByPlaces};
ghost use Rattle.mds_table.specs.Timed.{LatestIsInForce};
ghost use Rattle.mds_table.specs.TableFile.{FilesHaveOneTable, TableFilesHaveNoFault, FilesHaveOneFault};
ghost use Rattle.mds_table.specs.TimedFile.{FilesHaveOneListOfTables, FilesOfTablesHaveNoFault, FilesHaveOneTablesFault};

/// A chain, which contracts define step by step, is a list of one more state than the event has types, which begins
/// with the state held, ends with the state reported, and has a row of the table for each of its steps, of the type at
/// that place.
pub fn chains_go_by_places()
    ensures { ChainsGoByPlaces }
{}

/// A table file, which contracts define as a relation between bytes and rows, stands for one list of rows.
pub fn files_have_one_table()
    ensures { FilesHaveOneTable }
{}

/// Bytes that stand for a table have no fault, want of memory aside.
pub fn table_files_have_no_fault()
    ensures { TableFilesHaveNoFault }
{}

/// As a table file, bytes have no more than one first fault, want of memory aside.
pub fn files_have_one_fault()
    ensures { FilesHaveOneFault }
{}

/// A file of tables that change at stated times, which contracts define as a relation between bytes and tables, stands for
/// one list of them; a table file for its one table, from 0 on.
pub fn files_have_one_list_of_tables()
    ensures { FilesHaveOneListOfTables }
{}

/// Bytes that stand for a list of tables have no fault, want of memory aside.
pub fn files_of_tables_have_no_fault()
    ensures { FilesOfTablesHaveNoFault }
{}

/// As a file of tables, bytes have no more than one first fault, want of memory aside.
pub fn files_have_one_tables_fault()
    ensures { FilesHaveOneTablesFault }
{}

/// Of tables that change at stated times, the rows in force at a time are those of the table with the greatest start that
/// isn't past it.
pub fn latest_is_in_force()
    ensures { LatestIsInForce }
{}

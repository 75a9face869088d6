//! Why what a book accepted isn't known to be recorded.

/// Why requests that a book accepted aren't known to be recorded, in a journal say.
#[derive(Clone, Copy, Debug, PartialEq, Eq)]
pub enum RecordFault {
    /// There was no memory. None is recorded, and the record may go on.
    Memory,
    /// A write failed. None is recorded, and the record may go on.
    NotKept,
    /// It is open whether they are recorded. Nothing more will be.
    Lost,
}

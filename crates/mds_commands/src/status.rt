//! How the program ends.
ghost use Rattle.std.specs.Prelude.{◌≡◌};

/// How the program ends.
#[derive(Clone, Copy, Debug, PartialEq, Eq)]
pub enum Status {
    /// All went well, or help was asked for.
    Done,
    /// An item of a replay was not accepted, or an event of the debugger's vehicle, or no event is of that vehicle.
    Refused,
    /// The words of the command line don't parse, or don't name a vehicle by identifiers.
    BadWords,
    /// A file can't be read, is no table or is no batch, an output failed, or a port can't be had.
    Fault,
    /// Memory was refused.
    NoMemory,
    /// The notes of accepted requests don't fit the histories.
    Torn,
}

impl Status {
    ghost use Rattle.mds_commands.specs.Status.{code_of};

    /// The number that the system is told, from 0 to 5 in the order of the variants.
    pub fn code(self) -> u8
        ensures { result ≡ code_of self }
    {
        match self {
            Status::Done => 0,
            Status::Refused => 1,
            Status::BadWords => 2,
            Status::Fault => 3,
            Status::NoMemory => 4,
            Status::Torn => 5,
        }
    }
}

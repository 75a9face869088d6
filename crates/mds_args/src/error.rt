//! Why words give no command.
ghost use Rattle.std.specs.Prelude.{◌≡◌};
ghost use Rattle.clap.specs.Words.{kind_of};
ghost use Rattle.mds_args.specs.Error.{kind_in, words_kind};

use clap::Error;
use clap::error::ErrorKind;
use std::{error, fmt};

/// What kind of error words came to.
#[derive(Debug, Clone, Copy, PartialEq, Eq)]
pub enum WordsErrorKind {
    /// Help was asked for, and the text is the help. It belongs on standard output.
    Help,
    /// The words are mistaken, and the text says how. It belongs on standard error.
    Mistake,
    /// There was no memory to read the words.
    Memory,
}

/// Why words give no command. Its `Display` is the text for the user, which ends with a line feed.
#[derive(Debug, Drop)]
pub struct WordsError {
    cause: Error,
}

impl WordsError {
    pub(crate) fn new(cause: Error) -> WordsError
        ensures { result.cause ≡ cause }
    {
        WordsError { cause }
    }

    /// What kind of error this is.
    pub fn kind(&self) -> WordsErrorKind
        ensures { result ≡ words_kind self.now }
    {
        kind_in(self.cause.kind())
    }
}

fn kind_in(kind: ErrorKind) -> WordsErrorKind
    ensures { result ≡ kind_in kind }
{
    match kind {
        ErrorKind::DisplayHelp | ErrorKind::DisplayVersion => WordsErrorKind::Help,
        ErrorKind::OutOfMemory => WordsErrorKind::Memory,
        _ => WordsErrorKind::Mistake,
    }
}

impl fmt::Display for WordsError {
    fn fmt<W: fmt::Write>(&self, f: &mut fmt::Formatter<W>) -> fmt::Result {
        let cause = &self.cause;
        write!(f, "{cause}")
    }
}

impl error::Error for WordsError {}

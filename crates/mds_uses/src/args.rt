//! A call of `mds_args`.
ghost use Rattle.std.specs.Prelude.{◌≡◌, IfErr, IfOk, None};
ghost use Rattle.mds_args.specs.Error.{words_kind};

use mds_args::{Command, WordsError, WordsErrorKind, parse_words};
use std::alloc::Global;

static WORDS: [&str; 2] = ["mds_city", "table"];

/// What the words `mds_city table` ask for. Only memory can be wanting.
pub fn command_of_words(alloc: Global) -> Result<Command<'static>, WordsError>
    ensures ok { IfOk result (λ command. command ≡ Command.Table None) }
    ensures err { IfErr result (λ error. words_kind error ≡ WordsErrorKind.Memory) }
{
    parse_words(alloc, WORDS.as_slice())
}

//! Single lines that a server prints.
ghost use Rattle.std.specs.Prelude.{Some, IfSome, OnOk, OnErr};
ghost use Rattle.std.specs.Io.KnownBytes.{Appends};
ghost use Rattle.mds_io.specs.Page.{AppendsFront, with_newline};
ghost use Rattle.mds_city.specs.Serve.{accepted_line, listening_line};

use mds_io::{PrintError, end_page};
use std::alloc::Global;
use std::fmt;
use std::io::Write;

/// The line that says where a server listens.
#[derive(Clone, Copy)]
pub struct ListeningLine {
    /// The number of its port.
    pub port: u16,
}

impl fmt::Display for ListeningLine {
    ghost output = { λ line. Some (listening_line line.port) };

    fn fmt<W: fmt::Write>(&self, f: &mut fmt::Formatter<W>) -> fmt::Result {
        let port = self.port;
        write!(f, "listening 127.0.0.1:{port}")
    }
}

/// The line that says how many requests a server accepted.
#[derive(Clone, Copy)]
pub struct AcceptedLine {
    /// How many.
    pub accepted: u128,
}

impl fmt::Display for AcceptedLine {
    ghost output = { λ line. Some (accepted_line line.accepted) };

    fn fmt<W: fmt::Write>(&self, f: &mut fmt::Formatter<W>) -> fmt::Result {
        let accepted = self.accepted;
        write!(f, "accepted {accepted}")
    }
}

/// Prints one line.
///
/// # Errors
///
/// `Memory` where there was none to lay it out, `Device` where the writer failed; a front of it went
/// out.
pub fn print_line<W: Write, D: fmt::Display>(
    alloc: Global,
    writer: &mut W,
    line: &D,
) -> Result<(), PrintError>
    ensures ok { OnOk result (IfSome (D.output line.now) (λ text.
        Appends (W.contents writer.old) (W.contents writer.new) (with_newline text))) }
    ensures err { OnErr result (IfSome (D.output line.now) (λ text.
        AppendsFront (W.contents writer.old) (W.contents writer.new) (with_newline text))) }
{
    let mut page = String::new(alloc);
    end_page(writer, &mut page, line)
}

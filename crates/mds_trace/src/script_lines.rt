//! The lines of a script, as they come.
use crate::{MAX_SCRIPT, ScriptCommand};
use mds_io::{MAX_CALLS, ReadError, read_more};
use std::alloc::{AllocError, Global};
use std::io::Read;

/// How many bytes one call of `read` asks for at most: more than a terminal gives at a time.
const CHUNK_BYTES: usize = 4096;

/// The lines of a script that is read as far as the next line goes. At most [`MAX_SCRIPT`] bytes of it are read; there, at the
/// reader's end, and at a read that fails, the script ends.
#[derive(Drop)]
pub struct ScriptLines {
    bytes: Vec<u8>,
    /// Where the next line begins.
    next: usize,
    has_ended: bool,
}

impl ScriptLines {
    /// A script of which nothing was read. It takes no memory.
    pub fn new(alloc: Global) -> ScriptLines {
        ScriptLines {
            bytes: Vec::new(alloc),
            next: 0,
            has_ended: false,
        }
    }

    /// What the next line says, a command or none, or `None` where no line is left. What is behind the last line feed is a line
    /// where it has a byte.
    ///
    /// # Errors
    ///
    /// `AllocError` where there is no memory for the line.
    pub fn next_command<R: Read>(
        &mut self,
        reader: &mut R,
    ) -> Result<Option<Option<ScriptCommand>>, AllocError> {
        for _ in 0..=MAX_SCRIPT {
            if let Some(command) = self.ended_command() {
                return Ok(Some(command));
            }
            if self.has_ended {
                return Ok(self.last_command());
            }
            self.read_on(reader)?;
        }
        Ok(None)
    }

    /// What the next line says, where it has ended.
    fn ended_command(&mut self) -> Option<Option<ScriptCommand>> {
        let from = self.next.min(self.bytes.len());
        let rest = &self.bytes[from..];
        let at = rest.iter().position(|byte| *byte == b'\n')?;
        let command = ScriptCommand::of_line(&rest[..at]);
        self.next = from + at + 1;
        Some(command)
    }

    /// What the line without a line feed says that the script ends with, if there is one.
    fn last_command(&mut self) -> Option<Option<ScriptCommand>> {
        let from = self.next.min(self.bytes.len());
        let rest = &self.bytes[from..];
        if rest.is_empty() {
            return None;
        }
        let command = ScriptCommand::of_line(rest);
        self.next = self.bytes.len();
        Some(command)
    }

    fn read_on<R: Read>(&mut self, reader: &mut R) -> Result<(), AllocError> {
        if self.bytes.len() >= MAX_SCRIPT {
            self.has_ended = true;
            return Ok(());
        }
        let mut room = [0u8; CHUNK_BYTES];
        let mut calls = MAX_CALLS;
        match read_more(reader, &mut self.bytes, &mut room, MAX_SCRIPT, &mut calls) {
            Ok(is_end) => self.has_ended = is_end,
            Err(ReadError::Device | ReadError::TooManyTurns) => self.has_ended = true,
            Err(ReadError::Memory) => return Err(AllocError),
        }
        Ok(())
    }
}

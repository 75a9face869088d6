//! Opening a file: its lines are read, and its end is repaired.
ghost use Rattle.std.specs.Prelude.{◌≡◌, ◌≢◌, ◌++◌, ◌+◌, ◌-◌, ◌^◌, ◌<◌, ◌≤◌, [], ◌∷◌, true, false};
ghost use Rattle.std.specs.Prelude.{length, IsErrOf, OnOk, OnErr, IfOk, IfErr, MatchBool};
ghost use Rattle.mds_journal.specs.Device.{LeavesOnly, Untouched};
ghost use Rattle.mds_journal.specs.Lines.{recovered_texts};
ghost use Rattle.mds_journal.specs.Opening.{IsReading, IsTooLong, IsFound, IfMore};
ghost use Rattle.mds_journal.specs.Opening.{unread_bytes, at_hand, place_of, limit_of, number_of, lines_in};

use crate::group::{OPEN_GATE, find_feed};
use crate::journal::MAX_BYTES;
use crate::{Device, DeviceError, MAX_GROUP_BYTES};
use std::alloc::{AllocError, Global};

/// How many bytes a read asks for.
pub(crate) const CHUNK_BYTES: usize = 65_536;

/// Why a file can't be opened.
#[derive(Clone, Copy, Debug, PartialEq, Eq)]
pub enum OpenError {
    /// There was no memory.
    Memory,
    /// A call of the device failed.
    Device(DeviceError),
    /// A line has more bytes than was allowed.
    TooLong,
    /// The lines are more than 2^62 bytes.
    Full,
    /// More stands behind the lines that count than a group that was cut off, so it isn't cut away.
    Damaged,
}

/// What bytes say of the line that they begin with.
#[derive(Clone, Copy, Debug, PartialEq, Eq)]
pub(crate) enum Found {
    /// It is open and whole, and its text has so many bytes.
    Line(usize),
    /// Its gate isn't open.
    Shut,
    /// There are too few bytes to say.
    More,
}

/// A file whose lines are read.
#[derive(Drop)]
pub struct Opening<D: Device> {
    /// The file.
    pub device: D,
    pub(crate) alloc: Global,
    pub(crate) longest: usize,
    pub(crate) end: usize,
    pub(crate) count: usize,
    pub(crate) bytes: Vec<u8>,
    pub(crate) next: usize,
}

impl<D: Device> Opening<D> {
    /// Begins to read a file whose lines have texts of at most `longest` bytes.
    ///
    /// It syncs first. A process that was killed may have left in memory what isn't on the disk yet.
    ///
    /// # Errors
    ///
    /// `Device` where the sync failed. The device comes back.
    pub fn start(alloc: Global, mut device: D, longest: usize) -> Result<Opening<D>, (OpenError, D)>
        requires usable { D.may_be_used device }
        requires limit { longest < 2 ^ 62 }
        ensures reading { IfOk result (IsReading D.seen D.may_leave D.may_be_used D.is_true) }
        ensures same { IfOk result (λ opening. D.is_true opening.device
            → D.seen opening.device ≡ D.seen device) }
        ensures all { IfOk result (λ opening. D.is_true opening.device
            → unread_bytes D.seen opening ≡ D.seen device) }
        ensures limit { IfOk result (λ opening. limit_of opening ≡ longest) }
        ensures number { IfOk result (λ opening. number_of opening ≡ 0) }

        // A crash at any moment leaves what one before might have left.
        ensures any_moment { IfOk result (λ opening. D.is_true opening.device
            → LeavesOnly D.moment D.left_since device opening.device (D.may_leave device)) }
        ensures any_moment_err { IfErr result (λ error. D.is_true error.1
            → LeavesOnly D.moment D.left_since device error.1 (D.may_leave device)) }

        ensures was_true { IfOk result (λ opening. D.is_true opening.device → D.is_true device) }
        ensures was_true_err { IfErr result (λ error. D.is_true error.1 → D.is_true device) }
        ensures cause { IfErr result (λ error. error.0 ≡ OpenError.Device DeviceError.Failed
            → D.faults device < D.faults error.1) }
    {
        match device.sync() {
            Ok(()) => Ok(Opening {
                device,
                alloc,
                longest,
                end: 0,
                count: 0,
                bytes: Vec::new(alloc),
                next: 0,
            }),
            Err(error) => Err((OpenError::Device(error), device)),
        }
    }

    /// Puts the text of the next line into `line`, or says `false` where no more lines count.
    ///
    /// # Errors
    ///
    /// `Device` where a read failed, `TooLong` where the text has more bytes than `longest`, `Full` where the lines are
    /// more than 2^62 bytes, `Memory`. The next call tries the same line again. `line` may then hold anything.
    pub fn next_line(&mut self, line: &mut Vec<u8>) -> Result<bool, OpenError>
        requires { IsReading D.seen D.may_leave D.may_be_used D.is_true self.old }
        ensures reading { IsReading D.seen D.may_leave D.may_be_used D.is_true self.new }
        ensures line { IfOk result (λ more. more ≡ true → D.is_true self.new.device
            → recovered_texts (unread_bytes D.seen self.old)
            ≡ line.new.items ∷ recovered_texts (unread_bytes D.seen self.new)) }
        ensures done { IfOk result (λ more. more ≡ false → D.is_true self.new.device
            → (recovered_texts (unread_bytes D.seen self.old) ≡ [])
            × (unread_bytes D.seen self.new ≡ unread_bytes D.seen self.old)) }
        ensures further { IfOk result (λ more. more ≡ true
            → place_of self.old < place_of self.new) }
        ensures within { IfOk result (λ more. more ≡ true
            → length line.new.items ≤ limit_of self.old) }
        ensures err { OnErr result (D.is_true self.new.device
            → unread_bytes D.seen self.new ≡ unread_bytes D.seen self.old) }
        ensures too_long { IsErrOf result OpenError.TooLong → D.is_true self.new.device
            → IsTooLong (limit_of self.old) (unread_bytes D.seen self.old) }
        ensures limit { limit_of self.new ≡ limit_of self.old }
        ensures number { number_of self.new ≡ number_of self.old + lines_in result }
        ensures untouched { D.is_true self.new.device → Untouched D.seen D.may_leave D.moment
            D.left_since self.old.device self.new.device }
        ensures was_true { D.is_true self.new.device → D.is_true self.old.device }
        ensures later { D.faults self.old.device ≤ D.faults self.new.device }
        ensures failed { IsErrOf result (OpenError.Device DeviceError.Failed)
            → D.faults self.old.device < D.faults self.new.device }
        ensures not_damaged { IsErrOf result OpenError.Damaged → ⊥ }
    {
        match self.find() {
            Ok(Found::Line(size)) => self.take_line(size, line),
            Ok(Found::Shut) => Ok(false),
            Ok(Found::More) => Ok(false),
            Err(error) => Err(error),
        }
    }

    /// What stands behind the lines, to the end of the file, once they were all handed out.
    ///
    /// # Errors
    ///
    /// `Damaged` where that is more than a group, `Device` where a read failed, `Memory`.
    pub fn rest(&mut self) -> Result<Vec<u8>, OpenError>
        requires { IsReading D.seen D.may_leave D.may_be_used D.is_true self.old }
        ensures reading { IsReading D.seen D.may_leave D.may_be_used D.is_true self.new }
        ensures rest { IfOk result (λ rest. D.is_true self.new.device
            → rest.items ≡ unread_bytes D.seen self.old) }
        ensures short { IfOk result (λ rest. length rest.items ≤ MAX_GROUP_BYTES) }
        ensures damaged { IsErrOf result OpenError.Damaged → D.is_true self.new.device
            → MAX_GROUP_BYTES < length (unread_bytes D.seen self.old) }
        ensures place { place_of self.new ≡ place_of self.old }
        ensures limit { limit_of self.new ≡ limit_of self.old }
        ensures number { number_of self.new ≡ number_of self.old }
        ensures untouched { D.is_true self.new.device → Untouched D.seen D.may_leave D.moment
            D.left_since self.old.device self.new.device }
        ensures was_true { D.is_true self.new.device → D.is_true self.old.device }
        ensures later { D.faults self.old.device ≤ D.faults self.new.device }
        ensures failed { IsErrOf result (OpenError.Device DeviceError.Failed)
            → D.faults self.old.device < D.faults self.new.device }
    {
        let mut rest = Vec::new(self.alloc);
        'reads: while rest.len() <= MAX_GROUP_BYTES {
            let mut room = [0u8; CHUNK_BYTES];
            let count = match self.device.read_at(self.end + rest.len(), &mut room) {
                Ok(count) => count,
                Err(error) => return Err(OpenError::Device(error)),
            };
            if count == 0 {
                return Ok(rest);
            }
            if rest.extend_from_slice(&room[..count]).is_err() {
                return Err(OpenError::Memory);
            }
        }
        Err(OpenError::Damaged)
    }

    /// The number of the line that comes next. The first one is 0.
    pub fn number(&self) -> usize
        ensures { result ≡ number_of self.now }
    {
        self.count
    }

    /// The file, as it is.
    pub fn into_device(self) -> D
        ensures { result ≡ self.device }
    {
        let Opening {
            device,
            alloc: _alloc,
            longest: _longest,
            end: _end,
            count: _count,
            bytes: _bytes,
            next: _next,
        } = self;
        device
    }

    /// Reads on until it can say what line comes next.
    fn find(&mut self) -> Result<Found, OpenError>
        requires { IsReading D.seen D.may_leave D.may_be_used D.is_true self.old }
        ensures reading { IsReading D.seen D.may_leave D.may_be_used D.is_true self.new }
        ensures found { IfOk result (λ found. IsFound (at_hand self.new) found) }
        ensures whole { IfOk result (λ found. IfMore found (D.is_true self.new.device
            → unread_bytes D.seen self.new ≡ at_hand self.new)) }
        ensures end { self.new.end ≡ self.old.end }
        ensures limit { self.new.longest ≡ self.old.longest }
        ensures number { self.new.count ≡ self.old.count }
        ensures too_long { IsErrOf result OpenError.TooLong → D.is_true self.new.device
            → IsTooLong self.old.longest (unread_bytes D.seen self.new) }
        ensures untouched { D.is_true self.new.device → Untouched D.seen D.may_leave D.moment
            D.left_since self.old.device self.new.device }
        ensures was_true { D.is_true self.new.device → D.is_true self.old.device }
        ensures later { D.faults self.old.device ≤ D.faults self.new.device }
        ensures failed { IsErrOf result (OpenError.Device DeviceError.Failed)
            → D.faults self.old.device < D.faults self.new.device }
        ensures not_damaged { IsErrOf result OpenError.Damaged → ⊥ }
    {
        'reads: loop {
            match find_line(&self.bytes[self.next..]) {
                Found::Line(size) => return Ok(Found::Line(size)),
                Found::Shut => return Ok(Found::Shut),
                Found::More => {}
            }
            if self.bytes.len() - self.next > self.longest + 1 {
                return Err(OpenError::TooLong);
            }
            match self.read_on() {
                Ok(true) => {}
                Ok(false) => return Ok(Found::More),
                Err(error) => return Err(error),
            }
        }
    }

    /// Reads what comes behind the bytes at hand, and says whether there was any.
    fn read_on(&mut self) -> Result<bool, OpenError>
        requires reading { IsReading D.seen D.may_leave D.may_be_used D.is_true self.old }
        requires few { length (at_hand self.old) ≤ self.old.longest + 1 }
        ensures reading { IsReading D.seen D.may_leave D.may_be_used D.is_true self.new }
        ensures more { IfOk result (λ more. MatchBool more
            (length (at_hand self.old) < length (at_hand self.new))
            (at_hand self.new ≡ at_hand self.old)) }
        ensures whole { IfOk result (λ more. more ≡ false → D.is_true self.new.device
            → unread_bytes D.seen self.new ≡ at_hand self.new) }
        ensures end { self.new.end ≡ self.old.end }
        ensures limit { self.new.longest ≡ self.old.longest }
        ensures number { self.new.count ≡ self.old.count }
        ensures untouched { D.is_true self.new.device → Untouched D.seen D.may_leave D.moment
            D.left_since self.old.device self.new.device }
        ensures was_true { D.is_true self.new.device → D.is_true self.old.device }
        ensures later { D.faults self.old.device ≤ D.faults self.new.device }
        ensures failed { IsErrOf result (OpenError.Device DeviceError.Failed)
            → D.faults self.old.device < D.faults self.new.device }
        ensures only { IfErr result (λ error. (error ≢ OpenError.TooLong)
            × (error ≢ OpenError.Damaged)) }
    {
        let mut room = [0u8; CHUNK_BYTES];
        let at = self.end + (self.bytes.len() - self.next);
        let count = match self.device.read_at(at, &mut room) {
            Ok(count) => count,
            Err(error) => return Err(OpenError::Device(error)),
        };
        if count == 0 {
            return Ok(false);
        }
        match join(self.alloc, &self.bytes[self.next..], &room[..count]) {
            Ok(bytes) => {
                self.bytes = bytes;
                self.next = 0;
                Ok(true)
            }
            Err(_) => Err(OpenError::Memory),
        }
    }

    fn take_line(&mut self, size: usize, line: &mut Vec<u8>) -> Result<bool, OpenError>
        requires reading { IsReading D.seen D.may_leave D.may_be_used D.is_true self.old }
        requires found { IsFound (at_hand self.old) (Found.Line size) }
        requires room { self.old.next + size + 2 ≤ length self.old.bytes.items }
        ensures reading { IsReading D.seen D.may_leave D.may_be_used D.is_true self.new }
        ensures ok { IfOk result (λ more. more ≡ true) }
        ensures line { OnOk result (D.is_true self.new.device
            → recovered_texts (unread_bytes D.seen self.old)
            ≡ line.new.items ∷ recovered_texts (unread_bytes D.seen self.new)) }
        ensures further { OnOk result (self.old.end < self.new.end) }
        ensures within { OnOk result (length line.new.items ≤ self.old.longest) }
        ensures device { self.new.device ≡ self.old.device }
        ensures limit { self.new.longest ≡ self.old.longest }
        ensures number { self.new.count ≡ self.old.count + lines_in result }
        ensures err { OnErr result (self.new.end ≡ self.old.end) }
        ensures too_long { IsErrOf result OpenError.TooLong → D.is_true self.old.device
            → IsTooLong self.old.longest (unread_bytes D.seen self.old) }
        ensures only { IfErr result (λ error. (error ≢ OpenError.Damaged)
            × (error ≢ OpenError.Device DeviceError.Failed)) }
    {
        if size > self.longest {
            return Err(OpenError::TooLong);
        }
        if self.end + size + 2 > MAX_BYTES {
            return Err(OpenError::Full);
        }
        let text = self.next + 1;
        line.clear();
        if line
            .extend_from_slice(&self.bytes[text..text + size])
            .is_err()
        {
            return Err(OpenError::Memory);
        }
        self.next += size + 2;
        self.end += size + 2;
        self.count += 1;
        Ok(true)
    }
}

pub(crate) fn find_line(bytes: &[u8]) -> Found
    ensures { IsFound bytes.now result }
{
    if bytes.is_empty() {
        return Found::More;
    }
    if bytes[0] != OPEN_GATE {
        return Found::Shut;
    }
    match find_feed(&bytes[1..]) {
        Some(size) => Found::Line(size),
        None => Found::More,
    }
}

pub(crate) fn join(alloc: Global, these: &[u8], those: &[u8]) -> Result<Vec<u8>, AllocError>
    ensures { IfOk result (λ all. all.items ≡ these.now ++ those.now) }
{
    let mut all = Vec::from_slice(alloc, these)?;
    all.extend_from_slice(those)?;
    Ok(all)
}

//! A new file, which gets its name once it is whole.
//!
//! It is written under another name beside its own, that with `.part` behind it. Then it gets its name, by a call that never
//! puts it over a file, and loses the other one. So a crash leaves nothing under its name, or all of it.
ghost use Rattle.std.specs.Prelude.{◌≡◌, ◌≢◌, ◌⊎◌, ◌∷◌, [], ℕ, Bool, List, Option, None, IfOk, IfErr, OnOk};
ghost use Rattle.mds_journal.specs.Device.{Only};
ghost use Rattle.mds_file.specs.NameCalls.{Answer, Free, IsOver, Link, Taken, name_calls_in};
ghost use Rattle.mds_file.specs.NewFile.{HasName, IsKeptTruly, IsNamedTruly, IsTaken, MayStand, WentOver, name_calls_of};

use crate::lock::{above_streams, may_be_opened, stands_at, sync_folder};
use crate::record::Record;
use crate::{DiskFile, Origin};
use mds_journal::{Device, DeviceError};
use std::alloc::{AllocError, Global};
use std::fs::{self, File, OpenOptions, TryLockError};
use std::io::{self, ErrorKind};

/// What stands behind a new file's name as long as it isn't whole.
const PART: &str = ".part";

/// Which call was made of a name, in a record.
const LOOK: u64 = 0;

const LINK: u64 = 1;

/// What was answered.
const FREE: u64 = 0;

const TAKEN: u64 = 1;

const FAILED: u64 = 2;

/// Why there is no new file.
#[derive(Clone, Copy, Debug, PartialEq, Eq)]
pub enum NewFileFault {
    /// Something stands under its name.
    IsThere,
    /// It can't be made or written, or doesn't get its name; or another process makes it.
    CannotWrite,
    /// There was no memory.
    Memory,
}

impl From<AllocError> for NewFileFault {
    ghost use Rattle.mds_file.specs.declared.new_file.NewFileFault.TheVariants.{Memory};

    ghost from_gives = { λ _ fault. fault ≡ Memory };

    fn from(_refused: AllocError) -> NewFileFault {
        NewFileFault::Memory
    }
}

impl From<DeviceError> for NewFileFault {
    ghost use Rattle.mds_file.specs.declared.new_file.NewFileFault.TheVariants.{IsThere};

    ghost from_gives = { λ _ fault. fault ≢ IsThere };

    fn from(error: DeviceError) -> NewFileFault {
        match error {
            DeviceError::Memory => NewFileFault::Memory,
            DeviceError::Failed => NewFileFault::CannotWrite,
        }
    }
}

impl From<io::Error> for NewFileFault {
    ghost use Rattle.mds_file.specs.declared.new_file.NewFileFault.TheVariants.{IsThere};

    ghost from_gives = { λ _ fault. fault ≢ IsThere };

    fn from(error: io::Error) -> NewFileFault {
        match error.kind() {
            ErrorKind::OutOfMemory => NewFileFault::Memory,
            _ => NewFileFault::CannotWrite,
        }
    }
}

impl From<TryLockError> for NewFileFault {
    ghost use Rattle.mds_file.specs.declared.new_file.NewFileFault.TheVariants.{IsThere};

    ghost from_gives = { λ _ fault. fault ≢ IsThere };

    fn from(error: TryLockError) -> NewFileFault {
        match error {
            TryLockError::WouldBlock => NewFileFault::CannotWrite,
            TryLockError::Error(error) => NewFileFault::from(error),
        }
    }
}

/// The name of a file that is to be made.
///
/// The clauses on what may stand under it hold as long as all answers of the file were those of a disk that keeps what it is
/// given: `is_true` says so. Those on what has it hold as long as all answers of the name were those of a system that keeps that:
/// `keeps` says so. Others may put something there until it is given; from then on it's the caller's to see that nobody does.
pub trait NewName {
    /// The file before it has the name.
    type File: Device + Drop;

    /// What may stand under the name where a crash comes at whichever moment so far, or none does: nothing of this process, or its
    /// file with these bytes.
    ghost may_stand: { Self → Option (List ℕ) → Type 0 };

    /// All answers of the file that was given the name were those of such a disk.
    ghost is_true: { Self → Type 0 };

    /// All answers of the name were those of such a system.
    ghost keeps: { Self → Type 0 };

    /// Something has the name by the next call of it.
    ghost is_taken: { Self → Type 0 };

    /// The name was given to a file in place of what had it.
    ghost is_over: { Self → Type 0 };

    /// Sees that nothing stands under the name.
    ///
    /// # Errors
    ///
    /// `IsThere` where something does; `CannotWrite` where that isn't known; `Memory`.
    fn is_free(&mut self) -> Result<(), NewFileFault>
        ensures free { OnOk result (keeps self.new → is_taken self.old → ⊥) }
        ensures there { IfErr result (λ fault. fault ≡ NewFileFault.IsThere → keeps self.new → is_taken self.old) }
        ensures stands { (found : Option (List ℕ)) → may_stand self.new found → may_stand self.old found }
        ensures over { is_over self.new → is_over self.old }
        ensures kept { keeps self.new → keeps self.old };

    /// Makes the file, under its other name. What an earlier process left there goes.
    ///
    /// # Errors
    ///
    /// `CannotWrite` where it can't be made, or another process makes it; `Memory`.
    fn draft(&mut self) -> Result<Self::File, NewFileFault>
        ensures usable { IfOk result Self.File.may_be_used }
        ensures other { IfErr result (λ fault. fault ≢ NewFileFault.IsThere) }
        ensures stands { (found : Option (List ℕ)) → may_stand self.new found → may_stand self.old found }
        ensures over { is_over self.new → is_over self.old }
        ensures kept { keeps self.new → keeps self.old };

    /// Gives the file its name, which is on the disk then. It has no other one afterwards. Nothing that has the name loses it.
    ///
    /// # Errors
    ///
    /// `IsThere` where something stands under the name; `CannotWrite` where it can't get it, or that isn't known to be on the
    /// disk; `Memory`.
    fn link(&mut self, file: Self::File) -> Result<(), NewFileFault>
        ensures stands { is_true self.new → (found : Option (List ℕ)) → may_stand self.new found
            → may_stand self.old found ⊎ HasName (Self.File.may_leave file) found }
        ensures done { OnOk result (is_true self.new → (found : Option (List ℕ))
            → may_stand self.new found → HasName (Self.File.may_leave file) found) }
        ensures there { IfErr result (λ fault. fault ≡ NewFileFault.IsThere → keeps self.new → is_taken self.old) }
        ensures over { keeps self.new → is_over self.new → is_over self.old }
        ensures was_true { is_true self.new → Self.File.is_true file }
        ensures kept { keeps self.new → keeps self.old };

    /// Takes the file away.
    fn discard(&mut self, file: Self::File)
        ensures stands { (found : Option (List ℕ)) → may_stand self.new found → may_stand self.old found }
        ensures over { is_over self.new → is_over self.old }
        ensures kept { keeps self.new → keeps self.old };
}

/// Makes a file of this name with these bytes. It stands there, with all of them, once this succeeds.
///
/// # Errors
///
/// `IsThere` where something stands under the name; `CannotWrite` where the file can't be made or written, or doesn't get its name;
/// `Memory`. The file isn't there then, but where that can't be known.
pub fn make_file<N: NewName>(name: &mut N, bytes: &[u8]) -> Result<(), NewFileFault>
    ensures made { OnOk result (N.is_true name.new → (found : Option (List ℕ))
        → N.may_stand name.new found → found ≡ Some bytes.now) }
    // Whatever crash ends it, also before this returns.
    ensures crash { N.is_true name.new → (found : Option (List ℕ)) → N.may_stand name.new found
        → N.may_stand name.old found ⊎ (found ≡ Some bytes.now) }
    // Nothing that had the name at any moment lost it; and where something has it from the start, no file is made.
    ensures over { N.keeps name.new → N.is_over name.new → N.is_over name.old }
    ensures free { OnOk result (N.keeps name.new → N.is_taken name.old → ⊥) }
    ensures there { IfErr result (λ fault. fault ≡ NewFileFault.IsThere → N.keeps name.new
        → (then : N) × N.keeps then × N.is_taken then) }
    ensures kept { N.keeps name.new → N.keeps name.old }
{
    name.is_free()?;
    let mut file = name.draft()?;
    match write_whole(&mut file, bytes) {
        Ok(()) => name.link(file),
        Err(error) => {
            name.discard(file);
            Err(NewFileFault::from(error))
        }
    }
}

/// Writes bytes in place of all that a file has, and syncs it.
fn write_whole<D: Device>(file: &mut D, bytes: &[u8]) -> Result<(), DeviceError>
    requires { D.may_be_used file.old }
    ensures { OnOk result (D.is_true file.new → Only bytes.now (D.may_leave file.new)) }
{
    file.cut(0)?;
    file.write_at(0, bytes)?;
    file.sync()
}

/// The name of a file of the system that is to be made.
#[derive(Drop)]
pub struct NewFile<O: Origin> {
    rt: HostRuntime,
    path: String,
    part: String,
    named: Option<DiskFile<O>>,
    is_kept: bool,
    calls: Record,
}

impl<O: Origin> NewFile<O> {
    /// The name that is this path. Nothing is done yet.
    ///
    /// # Errors
    ///
    /// `AllocError` where there is no memory for the path.
    pub fn at(rt: HostRuntime, alloc: Global, path: &str) -> Result<NewFile<O>, AllocError>
        ensures stands { IfOk result (λ name. (first : List ℕ) (left : ℕ → List ℕ)
            (found : Option (List ℕ)) → MayStand first left name found → found ≡ None) }
        ensures over { IfOk result (λ name. (taken : ℕ → Bool) → WentOver taken name → ⊥) }
    {
        let mut own = String::new(alloc);
        own.push_str(path)?;
        // It is had here, so that the file can be taken away where there is no memory.
        let mut part = String::new(alloc);
        part.push_str(path)?;
        part.push_str(PART)?;
        Ok(NewFile {
            rt,
            path: own,
            part,
            named: None,
            is_kept: false,
            calls: Record::new(),
        })
    }
}

impl<O: Origin> NewName for NewFile<O> {
    type File = DiskFile<O>;

    ghost may_stand = { λ name. MayStand O.first O.left name };

    ghost is_true = { λ name. IsNamedTruly O.first O.left name };

    ghost keeps = { λ name. IsKeptTruly O.taken name };

    ghost is_taken = { λ name. IsTaken O.taken name };

    ghost is_over = { λ name. WentOver O.taken name };

    fn is_free(&mut self) -> Result<(), NewFileFault> {
        match fs::symlink_metadata(&self.rt, self.path.as_str()) {
            Ok(_) => {
                self.calls.note(&[LOOK, TAKEN], &[]);
                Err(NewFileFault::IsThere)
            }
            Err(error) if error.kind() == ErrorKind::NotFound => {
                self.calls.note(&[LOOK, FREE], &[]);
                Ok(())
            }
            Err(error) => {
                self.calls.note(&[LOOK, FAILED], &[]);
                Err(NewFileFault::from(error))
            }
        }
    }

    fn draft(&mut self) -> Result<DiskFile<O>, NewFileFault> {
        let file = fresh_file(&self.rt, self.part.as_str())?;
        Ok(DiskFile::new(file))
    }

    fn link(&mut self, file: DiskFile<O>) -> Result<(), NewFileFault> {
        // Nobody writes to it any more, and it stays locked until the process ends.
        self.named = Some(file);
        let (part, path) = (self.part.as_str(), self.path.as_str());
        let given = give_name(&self.rt, part, path, &mut self.calls);
        // It may stay where that fails: the next process that makes such a file takes it away.
        let _ = fs::remove_file(&self.rt, self.part.as_str());
        given?;
        self.is_kept = true;
        Ok(())
    }

    fn discard(&mut self, _file: DiskFile<O>) {
        let _ = fs::remove_file(&self.rt, self.part.as_str());
    }
}

/// Gives a file another name, that of a path, by a call that never puts it over what has that, and notes the call. The name is on
/// the disk then.
fn give_name(
    rt: &HostRuntime,
    part: &str,
    path: &str,
    calls: &mut Record,
) -> Result<(), NewFileFault>
    ensures given { OnOk result (name_calls_in calls.new.made ≡ Link Free ∷ name_calls_in calls.old.made) }
    ensures why { IfErr result (λ fault. (answer : Answer)
        × (name_calls_in calls.new.made ≡ Link answer ∷ name_calls_in calls.old.made)
        × (fault ≡ NewFileFault.IsThere → answer ≡ Taken)) }
{
    match fs::hard_link(rt, part, path) {
        Ok(()) => {
            calls.note(&[LINK, FREE], &[]);
            Ok(sync_folder(rt, path)?)
        }
        Err(error) if error.kind() == ErrorKind::AlreadyExists => {
            calls.note(&[LINK, TAKEN], &[]);
            Err(NewFileFault::IsThere)
        }
        Err(error) => {
            calls.note(&[LINK, FAILED], &[]);
            Err(NewFileFault::from(error))
        }
    }
}

/// A new file at a path, under its lock. What stood there goes, unless another process has it locked: the file may have its name
/// already, so it isn't written over.
fn fresh_file(rt: &HostRuntime, path: &str) -> Result<File, NewFileFault>
    ensures { IfErr result (λ fault. fault ≢ NewFileFault.IsThere) }
{
    if !may_be_opened(rt, path)? {
        return Err(NewFileFault::CannotWrite);
    }
    // It is locked until the new one is, so that no two processes take the same one away.
    let _earlier = taken_away(rt, path)?;
    let file = OpenOptions::new()
        .read(true)
        .write(true)
        .create_new(true)
        .open(rt, path)?;
    let file = above_streams(file)?;
    file.try_lock()?;
    if !stands_at(rt, path, &file)? {
        return Err(NewFileFault::CannotWrite);
    }
    Ok(file)
}

/// The file that stood at a path, under its lock, once it is gone from there.
fn taken_away(rt: &HostRuntime, path: &str) -> Result<Option<File>, NewFileFault>
    ensures { IfErr result (λ fault. fault ≢ NewFileFault.IsThere) }
{
    let earlier = match fs::open(rt, path) {
        Ok(file) => file,
        Err(error) if error.kind() == ErrorKind::NotFound => return Ok(None),
        Err(error) => return Err(NewFileFault::from(error)),
    };
    earlier.try_lock()?;
    if !stands_at(rt, path, &earlier)? {
        return Err(NewFileFault::CannotWrite);
    }
    fs::remove_file(rt, path)?;
    Ok(Some(earlier))
}

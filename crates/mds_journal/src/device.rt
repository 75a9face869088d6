//! A file as the journal sees it: what a read returns, and what a crash may leave.
ghost use Rattle.std.specs.Prelude.{◌≡◌, ◌≤◌, List, ℕ, length, take, IfOk, OnOk, OnErr};
ghost use Rattle.mds_journal.specs.Device.{Only, Follows, Torn, Cut, Holds, Elapses};
ghost use Rattle.mds_journal.specs.Device.{HasCause, Reaches, ReadsAt, Untouched};

/// Why a device didn't do what it was asked.
#[derive(Clone, Copy, Debug, PartialEq, Eq)]
pub enum DeviceError {
    /// There was no memory for it. Nothing was done.
    Memory,
    /// The device failed.
    Failed,
}

/// One file on a disk that may crash at any moment.
///
/// The clauses on what the file has, on what a crash may leave and on the past hold as long as all answers of the device
/// were those of such a disk: `is_true` says so. Memory safety rests on none of them.
pub trait Device {
    /// The bytes that a read returns.
    ghost seen: { Self → List ℕ };

    /// What a crash at this moment may leave.
    ghost may_leave: { Self → List ℕ → Type 0 };

    /// The moment, as a number that doesn't fall.
    ghost moment: { Self → ℕ };

    /// What a crash at some moment from that one on might have left, during a call or between two.
    ghost left_since: { Self → ℕ → List ℕ → Type 0 };

    /// How often the device has failed.
    ghost faults: { Self → ℕ };

    /// No sync has failed. After one has, what was written may be lost with no further error.
    ghost may_be_used: { Self → Type 0 };

    /// All answers so far were those of such a disk. It may cease to hold at any call, and no code can tell.
    ghost is_true: { Self → Type 0 };

    /// The number of bytes in the file.
    fn size(&mut self) -> Result<usize, DeviceError>
        requires { may_be_used self.old }
        ensures size { IfOk result (λ n. is_true self.new → n ≡ length (seen self.old)) }
        ensures untouched { is_true self.new
            → Untouched seen may_leave moment left_since self.old self.new }
        ensures was_true { is_true self.new → is_true self.old }
        ensures usable { may_be_used self.new }
        ensures cause { HasCause (faults self.old) (faults self.new) result };

    /// Reads from an offset on into a buffer, as many bytes as it likes, and none only at the file's end. It says how many.
    fn read_at(&mut self, at: usize, buffer: &mut [u8]) -> Result<usize, DeviceError>
        requires { may_be_used self.old }
        ensures within { IfOk result (λ n. n ≤ length buffer.old) }
        ensures read { IfOk result (λ n. is_true self.new
            → ReadsAt (seen self.old) at buffer.old buffer.new n) }
        ensures untouched { is_true self.new
            → Untouched seen may_leave moment left_since self.old self.new }
        ensures was_true { is_true self.new → is_true self.old }
        ensures usable { may_be_used self.new }
        ensures cause { HasCause (faults self.old) (faults self.new) result };

    /// Writes over what is there, and past the end. Until a sync, a crash may leave any bytes in the range. Each content
    /// that a crash may leave has to reach to the offset: behind the end of a shorter one there would be a hole.
    fn write_at(&mut self, at: usize, bytes: &[u8]) -> Result<(), DeviceError>
        requires usable { may_be_used self.old }
        requires within { is_true self.old → at ≤ length (seen self.old) }
        requires reaches { is_true self.old → Reaches at (may_leave self.old) }
        ensures written { OnOk result (is_true self.new
            → Holds (seen self.old) at bytes.now (seen self.new)) }
        ensures torn { OnErr result (is_true self.new
            → Torn at (length bytes.now) (seen self.old) (seen self.new)) }
        ensures crash { is_true self.new
            → Follows (Torn at (length bytes.now)) (may_leave self.old) (may_leave self.new) }
        ensures time { is_true self.new → Elapses (moment self.old) (moment self.new)
            (left_since self.old) (left_since self.new) (may_leave self.new) }
        ensures was_true { is_true self.new → is_true self.old }
        ensures usable { may_be_used self.new }
        ensures cause { HasCause (faults self.old) (faults self.new) result };

    /// Cuts the file to a length. Until a sync, a crash may leave any length between.
    fn cut(&mut self, size: usize) -> Result<(), DeviceError>
        requires usable { may_be_used self.old }
        requires within { is_true self.old → size ≤ length (seen self.old) }
        ensures cut { OnOk result (is_true self.new → seen self.new ≡ take size (seen self.old)) }
        ensures crash { is_true self.new
            → Follows (Cut size) (may_leave self.old) (may_leave self.new) }
        ensures time { is_true self.new → Elapses (moment self.old) (moment self.new)
            (left_since self.old) (left_since self.new) (may_leave self.new) }
        ensures was_true { is_true self.new → is_true self.old }
        ensures usable { may_be_used self.new }
        ensures cause { HasCause (faults self.old) (faults self.new) result };

    /// After it, a crash leaves what a read returns. Once it has failed, nothing more may be asked of the device.
    fn sync(&mut self) -> Result<(), DeviceError>
        requires { may_be_used self.old }
        ensures durable { OnOk result (is_true self.new
            → Only (seen self.old) (may_leave self.new)) }
        ensures seen { OnOk result (is_true self.new → seen self.new ≡ seen self.old) }
        ensures crash { is_true self.new
            → (c : List ℕ) → may_leave self.new c → may_leave self.old c }
        ensures time { is_true self.new → Elapses (moment self.old) (moment self.new)
            (left_since self.old) (left_since self.new) (may_leave self.new) }
        ensures was_true { is_true self.new → is_true self.old }
        ensures usable { OnOk result (may_be_used self.new) }
        ensures cause { HasCause (faults self.old) (faults self.new) result };

    /// This moment is one of those since an earlier one.
    ghost counts_now: { (file : Self) (t : ℕ) (c : List ℕ)
        → t ≤ moment file → may_leave file c → left_since file t c };

    /// Since this moment there is no other.
    ghost only_now: { (file : Self) (c : List ℕ)
        → left_since file (moment file) c → may_leave file c };
}

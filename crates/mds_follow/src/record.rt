//! A file in which requests are recorded.
ghost use Rattle.std.specs.Prelude.{◌≡◌, ◌++◌, ℕ, List, OnOk, IfErr};
ghost use Rattle.mds_core.specs.declared.request.Request.{Request as Requested};
ghost use Rattle.mds_follow.specs.Record.{GoesOn, HasSame, IsBeforeOrAfter, Passes};

use mds_book::RecordFault;
use mds_core::Request;
use mds_log::{Logged, Tagged};
use std::marker::Brand;

/// A file in which requests are recorded, so that a restart reads them. Its tag is the moment: a number that doesn't fall.
///
/// The clauses on what stands in it and on the past hold as long as all answers of the system were those of a disk that keeps
/// what it has synced: `is_true` says so.
pub trait Record: Tagged {
    /// A restart reads these requests, also after a crash at this moment.
    ghost stands: { Self → List Requested → Type 0 };

    /// A restart may have read these requests after a crash at some moment from that one on.
    ghost left_since: { Self → ℕ → List Requested → Type 0 };

    /// No fault has left open what is recorded.
    ghost may_go_on: { Self → Type 0 };

    /// All answers of the system were those of such a disk. No code can tell.
    ghost is_true: { Self → Type 0 };

    /// It may be appended to, or it is known that it may not.
    ghost is_sound: { Self → Type 0 };

    /// Records a group of requests behind the others, all of them or none.
    ///
    /// # Errors
    ///
    /// `Memory` and `NotKept` where none of them is recorded; then the same call may be made again. `Lost` where that is open, and at
    /// each call after that.
    fn append(&mut self, group: &[Request]) -> Result<(), RecordFault>
        requires { is_sound self.old }
        ensures sound { is_sound self.new }
        ensures was_true { is_true self.new → is_true self.old }
        ensures goes_on { GoesOn result (may_go_on self.old) (may_go_on self.new) }
        ensures appended { OnOk result (is_true self.new → (told : List Requested)
            → stands self.old told → stands self.new (told ++ group.now)) }
        ensures unchanged { IfErr result (λ fault. HasSame fault → is_true self.new
            → (told : List Requested) → stands self.old told → stands self.new told) }
        ensures any_moment { is_true self.new → (told : List Requested)
            → (may_go_on self.old → stands self.old told)
            → Passes Self.tag left_since self.old self.new
            (λ c. may_go_on self.old × IsBeforeOrAfter told group.now c) };

    /// A crash at this moment leaves what stands in it.
    ghost only_now: { (file : Self) (told c : List Requested)
        → stands file told → left_since file (Self.tag file) c → c ≡ told };
}

/// Names the log of what is recorded. Whoever opens one picks the name, the moment of the file at which it begins, and what the
/// file tells then.
pub trait RecordLog: Logged {
    ghost use Rattle.std.specs.Prelude.{ℕ, List};
    ghost use Rattle.mds_core.specs.declared.request.Request.{Request as Requested};

    /// The moment at which it begins.
    ghost start: { ℕ };

    /// The file tells these requests at that moment.
    ghost held: { List Requested → Type 0 };
}

impl RecordLog for Brand {
    ghost start = { 0 };

    ghost held = { λ _. Unit {0} };
}

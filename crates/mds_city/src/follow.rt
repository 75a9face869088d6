//! The command that makes a new journal while a server goes on with the old one.
ghost use Rattle.std.specs.Prelude.{◌≡◌, ◌⊎◌, ℕ, List, Option, Some, None, ⊤, IfOk, IfErr, OnOk};
ghost use Rattle.mds_commands.specs.Change.{change_of};
ghost use Rattle.mds_retention.specs.declared.error.CompactError.{CompactError as Error};
ghost use Rattle.mds_retention.specs.Compacting.{AreReadings, IsOfNew, StandsWhole};
ghost use Rattle.mds_retention.specs.NewJournal.{HasSince, IsBeginFault, IsFollowed, IsFollowedTo, IsNewJournal, MayBeEnded};
ghost use Rattle.mds_retention.specs.Rest.{IsEndFault};
ghost use Rattle.mds_city.specs.Compact.{IsProblemOf};
ghost use Rattle.mds_city.specs.Follow.{CameFrom, CameToFollow, IsNotOpened, IsOpened, following_line};
ghost use Rattle.mds_city.specs.Outcome.{outcome_of};

use crate::compact::{CompactProblem, MakesFiles, problem_of, readings_of, tell_compact_problem};
use crate::compacted::CompactLine;
use crate::page::print_line;
use crate::program::Opens;
use mds_commands::{JournalProblem, Problem, Status, tell_journal_problem};
use mds_file::{Followed, NewName};
use mds_retention::{NewJournal, Readings, Totals, begin_journal, drop_journal, end_journal};
use std::alloc::Global;
use std::fmt;
use std::hash::RandomState;
use std::io::{Read, Write};
use std::random::RandomSource;
use std::sync::Wait;

/// What opens journals that another process may write.
pub trait FollowsJournals {
    /// Such a journal.
    type Followed: Followed + Drop;

    // what may come of opening the journal of this path
    ghost follows: { Self → List ℕ → Option Self.Followed → Type 0 } = { λ _ _ _. ⊤ };

    /// The journal of this path, or `None` where it can't be opened.
    fn follow(&self, path: &str) -> Option<Self::Followed>
        ensures { follows self.now path.now result };
}

/// What is asked of a compaction beside a server.
#[derive(Clone, Copy, Debug)]
pub struct FollowAsked<'a> {
    /// The path of the old journal.
    pub old: &'a str,
    /// The path of the new one.
    pub new: &'a str,
    /// The time from which on all events stay.
    pub before: u64,
}

/// What is opened for it.
#[derive(Drop)]
pub(crate) struct Opened<F, G, N> {
    /// The readings of the old journal.
    pub readings: Readings<F>,
    /// The old journal, which is read on.
    pub followed: G,
    /// The name of the new one.
    pub name: N,
    /// By random numbers of the system.
    pub hasher: RandomState,
}

/// The line that says that the new journal has what stays of the old one.
#[derive(Clone, Copy)]
struct FollowingLine;

impl fmt::Display for FollowingLine {
    ghost output = { λ _. Some following_line };

    fn fmt<W: fmt::Write>(&self, f: &mut fmt::Formatter<W>) -> fmt::Result {
        f.write_str("following")
    }
}

/// Makes a new journal of an old one, as [`compact_to`](crate::compact::compact_to) does, and waits until no server has the old
/// one: what came since is in the new one too. Once that has what stays of the old one, it prints `following`.
pub fn follow_to<
    R: Wait + RandomSource,
    O: Opens + MakesFiles + FollowsJournals,
    W: Write,
    E: Write,
>(rt: &R, alloc: Global, files: &O, asked: FollowAsked<'_>, out: &mut W, faults: &mut E) -> Status
    ensures { CameToFollow
        (record {
          opener = record { opens = O.opens files.now; bytes = O.File.remaining };
          maker = record {
            names = O.names_file files.now;
            may_stand = O.New.may_stand;
            is_true = O.New.is_true;
            keeps = O.New.keeps;
            is_taken = O.New.is_taken;
            is_over = O.New.is_over;
          };
        })
        (record {
          follows = O.follows files.now;
          content = O.Followed.content;
          is_all = O.Followed.is_all;
        })
        asked.entry
        (outcome_of result
        (change_of (W.contents out.old) (W.contents out.new))
        (change_of (E.contents faults.old) (E.contents faults.new))) }
{
    match open_all(rt, alloc, files, asked) {
        Ok(opened) => follow_opened(rt, alloc, opened, asked, out, faults),
        Err(problem) => tell_compact_problem(alloc, faults, problem),
    }
}

/// Opens what is needed.
fn open_all<'a, P: RandomSource, O: Opens + MakesFiles + FollowsJournals>(
    rt: &P,
    alloc: Global,
    files: &O,
    asked: FollowAsked<'a>,
) -> Result<Opened<O::File, O::Followed, O::New>, CompactProblem<'a>>
    ensures ok { IfOk result (IsOpened
        (record {
          opener = record { opens = O.opens files.now; bytes = O.File.remaining };
          maker = record {
            names = O.names_file files.now;
            may_stand = O.New.may_stand;
            is_true = O.New.is_true;
            keeps = O.New.keeps;
            is_taken = O.New.is_taken;
            is_over = O.New.is_over;
          };
        })
        (record {
          follows = O.follows files.now;
          content = O.Followed.content;
          is_all = O.Followed.is_all;
        }) asked.entry) }
    ensures err { IfErr result (IsNotOpened
        (record {
          opener = record { opens = O.opens files.now; bytes = O.File.remaining };
          maker = record {
            names = O.names_file files.now;
            may_stand = O.New.may_stand;
            is_true = O.New.is_true;
            keeps = O.New.keeps;
            is_taken = O.New.is_taken;
            is_over = O.New.is_over;
          };
        })
        (record {
          follows = O.follows files.now;
          content = O.Followed.content;
          is_all = O.Followed.is_all;
        }) asked.entry) }
{
    let Ok(hasher) = RandomState::new(rt) else {
        return Err(CompactProblem::from(Problem::Random));
    };
    let Some(readings) = readings_of(files, asked.old) else {
        return Err(CompactProblem::from(Problem::CannotRead(asked.old)));
    };
    let Some(followed) = files.follow(asked.old) else {
        return Err(CompactProblem::from(Problem::CannotRead(asked.old)));
    };
    let name = files.new_file(alloc, asked.new)?;
    Ok(Opened {
        readings,
        followed,
        name,
        hasher,
    })
}

/// Makes the new journal.
fn follow_opened<
    R: Wait,
    F: Read + Drop,
    G: Followed + Drop,
    N: NewName + Drop,
    W: Write,
    E: Write,
>(
    rt: &R,
    alloc: Global,
    opened: Opened<F, G, N>,
    asked: FollowAsked<'_>,
    out: &mut W,
    faults: &mut E,
) -> Status
    ensures { CameFrom (record {
      bytes = F.remaining;
      content = G.content;
      may_stand = N.may_stand;
      is_true = N.is_true;
      is_all = G.is_all;
      keeps = N.keeps;
      is_taken = N.is_taken;
      is_over = N.is_over;
    })
        asked.entry opened
        (outcome_of result
        (change_of (W.contents out.old) (W.contents out.new))
        (change_of (E.contents faults.old) (E.contents faults.new))) }
{
    let (mut followed, mut name) = (opened.followed, opened.name);
    let (readings, hasher) = (opened.readings, opened.hasher);
    let journal = match begin_to_follow(alloc, readings, &mut followed, asked, hasher, &mut name) {
        Ok(journal) => journal,
        Err(problem) => return tell_compact_problem(alloc, faults, problem),
    };
    if let Err(fault) = print_line(alloc, out, &FollowingLine) {
        drop_journal(journal, &mut name);
        return tell_journal_problem(alloc, faults, JournalProblem::from(fault));
    }
    match follow_to_end(rt, alloc, journal, &mut followed, asked, &mut name) {
        Ok(totals) => match print_line(alloc, out, &CompactLine { totals }) {
            Ok(()) => Status::Done,
            Err(fault) => tell_journal_problem(alloc, faults, JournalProblem::from(fault)),
        },
        Err(problem) => tell_compact_problem(alloc, faults, problem),
    }
}

/// Begins the new journal.
fn begin_to_follow<'a, F: Read + Drop, G: Followed, N: NewName>(
    alloc: Global,
    readings: Readings<F>,
    followed: &mut G,
    asked: FollowAsked<'a>,
    hasher: RandomState,
    name: &mut N,
) -> Result<NewJournal<N::File>, CompactProblem<'a>>
    ensures open { IfOk result (MayBeEnded N.File.seen N.File.may_leave N.File.is_true N.File.may_be_used) }
    ensures begun { IfOk result (λ journal. (first : List ℕ) → AreReadings F.remaining first readings
        → HasSince first (G.content followed.old) → IsNewJournal N.File.seen N.File.may_leave
        N.File.is_true asked.entry.before first (G.content followed.new) journal) }
    ensures stands { (found : Option (List ℕ)) → N.may_stand name.new found → N.may_stand name.old found }
    ensures over { N.is_over name.new → N.is_over name.old }
    ensures free { OnOk result (N.keeps name.new → N.is_taken name.old → ⊥) }
    ensures err { IfErr result (λ problem. (error : Error)
        × IsBeginFault F.remaining readings (G.content followed.old) (G.content followed.new) error
        × (N.keeps name.new → N.is_taken name.old → IsOfNew error)
        × IsProblemOf asked.entry.old.now asked.entry.new.now error problem) }
{
    match begin_journal(alloc, readings, followed, asked.before, hasher, name) {
        Ok(journal) => Ok(journal),
        Err(error) => Err(problem_of(error, asked.old, asked.new)),
    }
}

/// Ends it, once no server has the old one.
fn follow_to_end<'a, R: Wait, G: Followed, N: NewName>(
    rt: &R,
    alloc: Global,
    journal: NewJournal<N::File>,
    followed: &mut G,
    asked: FollowAsked<'a>,
    name: &mut N,
) -> Result<Totals, CompactProblem<'a>>
    requires { MayBeEnded N.File.seen N.File.may_leave N.File.is_true N.File.may_be_used journal }
    ensures made { IfOk result (λ totals. (from : ℕ) (first : List ℕ)
        → IsNewJournal N.File.seen N.File.may_leave N.File.is_true from first (G.content followed.old) journal
        → N.is_true name.new → (found : Option (List ℕ)) → N.may_stand name.new found
        → (last : List ℕ) × (G.content followed.new ≡ Some last)
        × StandsWhole (IsFollowedTo from first last totals) found) }
    ensures err { IfErr result (λ problem. (error : Error)
        × ((from : ℕ) (first : List ℕ)
        → IsNewJournal N.File.seen N.File.may_leave N.File.is_true from first (G.content followed.old) journal
        → IsEndFault (G.content followed.new) error)
        × IsProblemOf asked.entry.old.now asked.entry.new.now error problem) }
    ensures crash { (from : ℕ) (first : List ℕ)
        → IsNewJournal N.File.seen N.File.may_leave N.File.is_true from first (G.content followed.old) journal
        → N.is_true name.new → (found : Option (List ℕ)) → N.may_stand name.new found
        → N.may_stand name.old found ⊎ ((last : List ℕ) × (G.content followed.new ≡ Some last)
        × StandsWhole (IsFollowed from first last) found) }
    ensures all { OnOk result (G.is_all followed.new) }
    ensures over { N.keeps name.new → N.is_over name.new → N.is_over name.old }
    ensures kept { N.keeps name.new → N.keeps name.old }
{
    match end_journal(rt, alloc, journal, followed, name) {
        Ok(totals) => Ok(totals),
        Err(error) => Err(problem_of(error, asked.old, asked.new)),
    }
}

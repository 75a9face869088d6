//! The log, its keeper, and what others have seen of it.
ghost use Rattle.std.specs.Prelude.{◌≡◌, ◌<◌, ◌≤◌, ◌⊎◌, ◌++◌, ◌∷◌, ◌^◌, [], length, IfSome};
ghost use mathlib.Core.List.{IsPrefix};
ghost use Rattle.logbook.specs.Pages.{may_write};

use crate::mark::Nothing;
use crate::{Entry, Mark, Marked};
use logbook::{Offer, Pen, Plain, Play, Rule, Seen, Start, Word};
use mds_core::Request;
use std::marker::{Brand, Model, PhantomData};

/// The rule of the log: its word has the log's length, and a pen can add one entry.
pub struct LogRule;

impl Rule<Entry, u64> for LogRule {
    ghost use Rattle.std.specs.Prelude.{[]};
    ghost use base.Fml.{ftrue};
    ghost use Rattle.mds_log.specs.Rules.{IsKept};

    ghost holds = { λ cells log. IsKept cells log };

    ghost first = { [] };

    ghost hinted = { λ n log. Unit {0} };

    ghost shows = { λ log. [] };

    ghost keeps = { λ names log. ftrue };

    ghost moves = { λ ask before after answer. Unit {0} };
}

/// The step that makes the first pen, and the first entry, which only names it.
pub struct Begin;

impl Play<Entry, u64> for Begin {
    ghost use Rattle.mds_log.specs.Rules.{Begins};

    ghost then = { Begins };
}

/// The step that makes a pen.
pub struct Make;

impl Play<Entry, u64> for Make {
    ghost use Rattle.mds_log.specs.Rules.{Makes};

    ghost then = { Makes };
}

/// A step that asks for no entry.
impl Plain<(), Entry, u64> for Make {
    ghost use Rattle.std.specs.Prelude.{[], None};
    ghost use Rattle.mds_core.specs.declared.request.Request.TheVariants.{Look};

    ghost ask = { λ unit. record {
      tag = 0;
      request = Look (record { provider = []; device = [] });
      next = 0;
    } };

    ghost state = { λ unit. None };
}

/// The step that shows that the log is no longer than its keeper knows.
pub struct Check;

impl Play<Entry, u64> for Check {
    ghost use Rattle.mds_log.specs.Rules.{Checks};

    ghost then = { Checks };
}

/// The step that adds an entry.
pub struct Add;

impl Play<Entry, u64> for Add {
    ghost use Rattle.mds_log.specs.Rules.{Adds};

    ghost then = { Adds };
}

/// A value by which requests are added to a log.
pub trait Tagged {
    ghost use Rattle.std.specs.Prelude.{ℕ};

    /// Its tag, which exists in the proofs alone.
    ghost tag: { Self → ℕ };
}

impl<J: Marked> Tagged for Mark<J> {
    ghost tag = { λ mark. mark };
}

/// What is to be added: by which value, what, and the pen that may add the next entry.
#[derive(Clone, Copy)]
pub struct Addition<'a, T: Tagged> {
    by: &'a T,
    request: &'a Request,
    next: &'a Pen,
}

impl<'a, T: Tagged> Plain<Addition<'a, T>, Entry, u64> for Add {
    ghost use Rattle.std.specs.Prelude.{None};

    ghost ask = { λ new. record {
      tag = T.tag new.by.now;
      request = new.request.now;
      next = new.next.now.nib.key;
    } };

    ghost state = { λ new. None };
}

/// Names a log. Whoever opens one picks the name.
pub trait Logged {
    ghost use Rattle.logbook.specs.Pages.{Book};

    /// The log's book.
    ghost log: { Book };
}

impl Logged for Brand {
    ghost log = { record { number = 0; log_name = 0; cells_name = 0 } };
}

/// A log with nothing in it, which has no name yet. Contracts see it as its book.
#[derive(Drop)]
pub struct BlankLog {
    head: Word<Entry, u64, LogRule>,
    seen: Seen<Entry, u64, LogRule>,
}

impl Model for BlankLog {
    ghost use Rattle.std.specs.Prelude.{◌≡◌, []};
    ghost use Rattle.logbook.specs.Pages.{Book};
    ghost use Rattle.mds_log.specs.Rules.{head_of};

    ghost Value = { Book };

    ghost view = { λ blank. blank.seen.book };

    ghost invariant = { λ blank. (blank.head ≡ head_of blank.seen.book) × (blank.seen.log ≡ []) };
}

/// A beginning of a log, which was seen. Contracts see it as the acceptances in it. At run time it is their number.
#[derive(Drop)]
pub struct Front<J: Logged> {
    count: u64,
    seen: Seen<Entry, u64, LogRule>,
    of: PhantomData<J>,
}

impl<J: Logged> Model for Front<J> {
    ghost use Rattle.std.specs.Prelude.{◌≡◌, ◌+◌, List, length};
    ghost use Rattle.mds_log.specs.Log.{Acceptance, acceptances};

    ghost Value = { List Acceptance };

    ghost view = { λ front. acceptances front.seen.log };

    ghost invariant = { λ front. (length front.seen.log ≡ front.count + 1)
        × (front.seen.book ≡ J.log) };
}

/// The one that adds to a log, and so knows all of it. Contracts see it as the acceptances in the log. At run time it
/// is a word and their number.
#[derive(Drop)]
pub struct Keeper<J: Logged> {
    head: Word<Entry, u64, LogRule>,
    seen: Seen<Entry, u64, LogRule>,
    pen: Pen,
    count: u64,
    of: PhantomData<J>,
}

impl<J: Logged> Model for Keeper<J> {
    ghost use Rattle.std.specs.Prelude.{◌≡◌, ◌+◌, List, length};
    ghost use Rattle.logbook.specs.Pages.{may_write};
    ghost use Rattle.mds_log.specs.Log.{Acceptance, acceptances};
    ghost use Rattle.mds_log.specs.Rules.{IsKey, head_of};

    ghost Value = { List Acceptance };

    ghost view = { λ keeper. acceptances keeper.seen.log };

    ghost invariant = { λ keeper. (keeper.head ≡ head_of J.log)
        × (keeper.seen.book ≡ J.log)
        × (keeper.pen.book ≡ J.log)
        × (keeper.pen.nib.right ≡ may_write)
        × IsKey keeper.pen.nib.key keeper.seen.log
        × (length keeper.seen.log ≡ keeper.count + 1) };
}

impl BlankLog {
    /// A log with nothing in it. It takes no memory.
    pub fn new() -> BlankLog {
        let (seen, mut first, _second) = Seen::open(Start::alone(), 0, 0);
        BlankLog {
            head: Word::tracked(0, &mut first),
            seen,
        }
    }

    /// The keeper of the log, under a name, and a front that has seen nothing, at the cost of one atomic instruction.
    /// `None` would mean that another has written to the log: nobody does.
    pub fn with_name<J: Logged>(self) -> Option<(Keeper<J>, Front<J>)>
        requires { self ≡ J.log }
        ensures { IfSome result (λ opened. (opened.0 ≡ []) × (opened.1 ≡ [])) }
    {
        let BlankLog { head, mut seen } = self;
        let mut offer: Offer<Entry, u64, LogRule, Nothing> = seen.plain::<Nothing, (), Make>(&());
        let mut pen = seen.no_pen();
        let found = head.compare_exchange::<Begin, Nothing>(0, 1, &mut seen, &mut offer, &mut pen);
        if found != 0 {
            return None;
        }
        let _ = Word::<Entry, u64, LogRule>::tracked(0, &mut pen);
        let front = Front {
            count: 0,
            seen: seen.again(),
            of: PhantomData,
        };
        let keeper = Keeper {
            head,
            seen,
            pen,
            count: 0,
            of: PhantomData,
        };
        Some((keeper, front))
    }
}

impl<J: Logged> Front<J> {
    /// A copy. It takes no memory.
    pub fn again(&self) -> Front<J>
        ensures { result ≡ self.now }
    {
        Front {
            count: self.count,
            seen: self.seen.again(),
            of: PhantomData,
        }
    }

    /// How many requests it has seen.
    pub fn len(&self) -> u64
        ensures { result ≡ length self.now }
    {
        self.count
    }

    /// Tells that of two fronts of a log one is a beginning of the other. It does nothing at run time.
    pub fn tell_order(&self, other: &Front<J>)
        ensures { IsPrefix self.now other.now ⊎ IsPrefix other.now self.now }
    {
        let mut both = self.seen.again();
        both.learn(&other.seen);
    }
}

impl<J: Logged> Keeper<J> {
    /// A front that has seen the whole log.
    pub fn front(&self) -> Front<J>
        ensures { result ≡ self.now }
    {
        Front {
            count: self.count,
            seen: self.seen.again(),
            of: PhantomData,
        }
    }

    /// Shows the whole log to a front, which had seen a beginning of it. It compares two numbers and copies one: the
    /// atomic instruction stands in a branch that isn't taken, since a front is never longer than the log.
    pub fn show(&mut self, front: &mut Front<J>)
        requires room { length self.old < 2 ^ 63 }
        ensures same { self.new ≡ self.old }
        ensures begins { IsPrefix front.old self.old }
        ensures front { front.new ≡ self.old }
    {
        if front.count > self.count {
            self.check(front);
        } else {
            self.tell_prefix(front);
        }
        *front = self.front();
    }

    /// Tells that a front which is as long as the log has seen all of it. It does nothing at run time.
    pub fn tell_whole(&self, front: &Front<J>)
        requires { length front.now ≡ length self.now }
        ensures { front.now ≡ self.now }
    {
        self.tell_prefix(front);
    }

    fn tell_prefix(&self, front: &Front<J>)
        requires { length front.now ≤ length self.now }
        ensures { IsPrefix front.now self.now }
    {
        let mut both = self.seen.again();
        both.learn(&front.seen);
    }

    /// Shows, by an atomic instruction, that a front has seen a beginning of the log.
    fn check(&mut self, front: &Front<J>)
        requires room { length self.old < 2 ^ 63 }
        ensures same { self.new ≡ self.old }
        ensures begins { IsPrefix front.now self.old }
    {
        let mut known = self.seen.again();
        known.learn(&front.seen);
        let mut offer: Offer<Entry, u64, LogRule, Nothing> = known.plain::<Nothing, (), Make>(&());
        let length = self.count + 1;
        self.head
            .compare_exchange::<Check, Nothing>(
                length,
                length,
                &mut known,
                &mut offer,
                &mut self.pen,
            );
    }

    /// A pen that may write, for the entry after the next one.
    fn next_pen(&self) -> Pen
        requires room { length self.now < 2 ^ 63 }
        ensures book { result.book ≡ J.log }
        ensures right { result.nib.right ≡ may_write }
    {
        let mut seen = self.seen.again();
        let mut offer: Offer<Entry, u64, LogRule, Nothing> = seen.plain::<Nothing, (), Make>(&());
        let mut pen = seen.no_pen();
        let length = self.count + 1;
        self.head
            .compare_exchange::<Make, Nothing>(length, length, &mut seen, &mut offer, &mut pen);
        let _ = Word::<Entry, u64, LogRule>::tracked(0, &mut pen);
        pen
    }

    /// Adds a request that was accepted, under the tag of a value, at the cost of two atomic instructions on the
    /// keeper's own word.
    #[tactic(auto, using(crate::proofs::Lists::acceptances_push))]
    pub fn add<T: Tagged>(&mut self, by: &T, request: &Request)
        requires room { length self.old < 2 ^ 63 }
        ensures { self.new ≡ self.old ++ record { tag = T.tag by.now; request = request.now } ∷ [] }
    {
        let next = self.next_pen();
        let new = Addition {
            by,
            request,
            next: &next,
        };
        let mut offer: Offer<Entry, u64, LogRule, Nothing> = self
            .seen
            .plain::<Nothing, Addition<T>, Add>(&new);
        let length = self.count + 1;
        self.head.compare_exchange::<Add, Nothing>(
            length,
            length + 1,
            &mut self.seen,
            &mut offer,
            &mut self.pen,
        );
        self.pen = next;
        self.count = length;
    }
}

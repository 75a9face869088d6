//! The marks of callers, each of which is handed back once.
ghost use Rattle.std.specs.Prelude.{◌≡◌, []};
ghost use mathlib.Core.List.{IsPrefix};
ghost use Rattle.mds_log.specs.Marks.{Has, HasNot};

use logbook::{Gain, Offer, Pen, Plain, Play, Rule, Seen, Start, Word};
use std::marker::{Brand, Model, PhantomData};

/// The rule of the book of marks: a mark whose number stands in it is used up.
pub struct MarkRule;

impl Rule<u64, u64> for MarkRule {
    ghost use Rattle.std.specs.Prelude.{[]};
    ghost use base.Fml.{ftrue};
    ghost use Rattle.mds_log.specs.Marks.{IsRolled};

    ghost holds = { λ cells log. IsRolled cells log };

    ghost first = { [] };

    ghost hinted = { λ n log. Unit {0} };

    ghost shows = { λ log. [] };

    ghost keeps = { λ names log. ftrue };

    ghost moves = { λ ask before after answer. Unit {0} };
}

/// What those who make steps gain besides: nothing.
pub struct Nothing;

impl<E, A> Gain<E, A> for Nothing {
    ghost use base.Fml.{ftrue};

    ghost after = { λ names about answer. ftrue };
}

/// The step that makes a mark.
pub struct MakeMark;

impl Play<u64, u64> for MakeMark {
    ghost use Rattle.mds_log.specs.Marks.{MakesMark};

    ghost then = { MakesMark };
}

/// The step that takes a mark back.
pub struct Retire;

impl Play<u64, u64> for Retire {
    ghost use Rattle.mds_log.specs.Marks.{Retires};

    ghost then = { Retires };
}

/// It asks for the mark's number to be written.
impl Plain<Pen, u64, u64> for Retire {
    ghost use Rattle.std.specs.Prelude.{None};

    ghost ask = { λ pen. pen.nib.key };

    ghost state = { λ pen. None };
}

/// Names a book of marks. Whoever opens one picks the name.
pub trait Marked {
    ghost use Rattle.logbook.specs.Pages.{Book};

    /// The marks' book.
    ghost marks: { Book };
}

impl Marked for Brand {
    ghost marks = { record { number = 0; log_name = 0; cells_name = 0 } };
}

/// A book of marks with nothing in it, which has no name yet. Contracts see it as its book.
#[derive(Drop)]
pub struct BlankMarks {
    head: Word<u64, u64, MarkRule>,
    seen: Seen<u64, u64, MarkRule>,
}

impl Model for BlankMarks {
    ghost use Rattle.std.specs.Prelude.{◌≡◌, []};
    ghost use Rattle.logbook.specs.Pages.{Book};
    ghost use Rattle.mds_log.specs.Rules.{head_of};

    ghost Value = { Book };

    ghost view = { λ blank. blank.seen.book };

    ghost invariant = { λ blank. (blank.head ≡ head_of blank.seen.book) × (blank.seen.log ≡ []) };
}

/// The mark of one caller: no other has its number. Contracts see it as this number, which exists in the proofs alone.
/// It has no bytes.
#[derive(Drop)]
pub struct Mark<J: Marked> {
    pub(crate) pen: Pen,
    of: PhantomData<J>,
}

impl<J: Marked> Model for Mark<J> {
    ghost use Rattle.std.specs.Prelude.{◌≡◌, ℕ};
    ghost use Rattle.logbook.specs.Pages.{may_write};

    ghost Value = { ℕ };

    ghost view = { λ mark. mark.pen.nib.key };

    ghost invariant = { λ mark. (mark.pen.book ≡ J.marks) × (mark.pen.nib.right ≡ may_write) };
}

/// Makes marks and takes them back. Contracts see it as the numbers of the marks that were handed back. At run time it
/// is a word.
#[derive(Drop)]
pub struct Marks<J: Marked> {
    head: Word<u64, u64, MarkRule>,
    seen: Seen<u64, u64, MarkRule>,
    of: PhantomData<J>,
}

impl<J: Marked> Model for Marks<J> {
    ghost use Rattle.std.specs.Prelude.{◌≡◌, List, ℕ};
    ghost use Rattle.mds_log.specs.Rules.{head_of};

    ghost Value = { List ℕ };

    ghost view = { λ marks. marks.seen.log };

    ghost invariant = { λ marks. (marks.head ≡ head_of J.marks) × (marks.seen.book ≡ J.marks) };
}

impl BlankMarks {
    /// A book of marks with nothing in it. It takes no memory.
    pub fn new() -> BlankMarks {
        let (seen, mut first, _second) = Seen::open(Start::alone(), 0, 0);
        BlankMarks {
            head: Word::tracked(0, &mut first),
            seen,
        }
    }

    /// The marks under a name. None was handed back.
    pub fn with_name<J: Marked>(self) -> Marks<J>
        requires { self ≡ J.marks }
        ensures { result ≡ [] }
    {
        let BlankMarks { head, seen } = self;
        Marks {
            head,
            seen,
            of: PhantomData,
        }
    }
}

impl<J: Marked> Marks<J> {
    /// A new mark, at the cost of one atomic instruction.
    pub fn mark(&self) -> Mark<J> {
        let mut seen = self.seen.again();
        let mut pen = seen.no_pen();
        let mut offer: Offer<u64, u64, MarkRule, Nothing> = seen.plain::<Nothing, Pen, Retire>(
            &pen,
        );
        self.head
            .compare_exchange::<MakeMark, Nothing>(0, 0, &mut seen, &mut offer, &mut pen);
        let _ = Word::<u64, u64, MarkRule>::tracked(0, &mut pen);
        Mark {
            pen,
            of: PhantomData,
        }
    }

    /// Takes a mark back, at the cost of one atomic instruction. It had not been handed back before.
    pub fn retire(&mut self, mark: Mark<J>)
        ensures begins { IsPrefix self.old self.new }
        ensures fresh { HasNot self.old mark }
        ensures now { Has self.new mark }
    {
        let Mark { mut pen, of: _ } = mark;
        let mut offer: Offer<u64, u64, MarkRule, Nothing> = self
            .seen
            .plain::<Nothing, Pen, Retire>(&pen);
        self.head
            .compare_exchange::<Retire, Nothing>(0, 0, &mut self.seen, &mut offer, &mut pen);
    }
}

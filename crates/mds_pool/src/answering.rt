//! A connection, from the port that gave it to its answer, and the count of those that a worker answered.
ghost use Rattle.std.specs.Prelude.{◌≡◌, ◌↔◌, ◌+◌, ◌<◌, ◌^◌, Err, IfOk, IfErr, IsOkAnd, IsTrue};
ghost use Rattle.mds_face.specs.Exchange.{exchange_of, record_rules_of, rules_of};
ghost use Rattle.mds_face.specs.Reading.{ReadsNoFurther};
ghost use Rattle.mds_face.specs.Kept.{IsServedKept, StopsKept};

use crate::counting::Counter;
use crate::{Ending, Port, PortFault};
use mds_face::{Face, KeptDesk, KeptFault, Room, ServeFault, Served, serve_kept, serve_whole};
use std::alloc::Global;
use std::marker::Model;

/// The status of an answer to a request that was read to its end and granted (RFC 9110, section 15.3.1).
const OK: u16 = 200;

/// A connection that was taken from a port, and isn't answered yet. [`Connection::take`] alone makes one, of both ends that the
/// port gave.
#[derive(Drop)]
pub(crate) struct Connection<P: Port> {
    input: P::In,
    output: P::Out,
}

/// A connection that was answered, and what came of it. [`Connection::answer_at`] alone makes one.
#[derive(Drop)]
pub(crate) struct Answer<P: Port> {
    input: P::In,
    output: P::Out,
    served: Result<Served, KeptFault>,
}

impl<P: Port> Connection<P> {
    /// Waits for the next connection of the port, and takes it.
    ///
    /// # Errors
    ///
    /// [`PortFault`] where no further connection can be taken.
    pub(crate) fn take(port: &P) -> Result<Connection<P>, PortFault> {
        match port.accept() {
            Ok((input, output)) => Ok(Connection { input, output }),
            Err(fault) => Err(fault),
        }
    }

    /// Answers it at a desk, once what the answer rests on is recorded. One that ends with a fault counts as answered.
    pub(crate) fn answer_at<D: KeptDesk>(
        self,
        alloc: Global,
        face: &Face,
        port: &P,
        room: &mut Room,
        desk: &mut D,
    ) -> Answer<P>
        ensures served { IfOk result.served (IsServedKept
            (rules_of D.calls D.gives_events D.gives_rows) (record_rules_of D.is_kept D.keeps)
            (P.In.remaining self.input)
            (exchange_of desk.old desk.new
            (P.Out.contents self.output) (P.Out.contents result.output))) }
        ensures stopped { IfErr result.served (StopsKept
            (rules_of D.calls D.gives_events D.gives_rows) (record_rules_of D.is_kept D.keeps)
            (P.In.remaining self.input)
            (exchange_of desk.old desk.new
            (P.Out.contents self.output) (P.Out.contents result.output))) }
        ensures no_further { ReadsNoFurther
            (P.In.remaining self.input) (P.In.remaining result.input) }
    {
        let Connection {
            mut input,
            mut output,
        } = self;
        let served = match port.whole_of(&input) {
            Some((bytes, head)) => serve_whole(alloc, room, bytes, &head, &mut output, desk),
            None => serve_kept(alloc, face, &mut input, &mut output, desk),
        };
        Answer {
            input,
            output,
            served,
        }
    }
}

impl<P: Port> Answer<P> {
    /// How the connection ends: at once where its request was granted, since it was then read to its end.
    fn ending(&self) -> Ending
        ensures { result ≡ Ending.AtOnce
            ↔ IsOkAnd self.now.served (λ served. served.status ≡ 200) }
    {
        match &self.served {
            Ok(Served { status: OK, .. }) => Ending::AtOnce,
            Ok(_) | Err(_) => Ending::InStages,
        }
    }

    /// Counts the fixed answer that went out in place of one, if one did.
    pub(crate) fn count_instead(&self, counter: &Counter<'_>) {
        match &self.served {
            Err(KeptFault::Serve(ServeFault::Memory { .. }) | KeptFault::NotKept { .. }) => {
                counter.count_unavailable();
            }
            Ok(_) | Err(KeptFault::Serve(_) | KeptFault::Lost) => {}
        }
    }

    /// Whether it stays open what is recorded: no more answers that rest on it can be given.
    pub(crate) fn is_lost(&self) -> bool
        ensures { IsTrue result ↔ (self.now.served ≡ Err KeptFault.Lost) }
    {
        matches!(&self.served, Err(KeptFault::Lost))
    }
}

/// How many connections a worker answered. It rises by an [`Answer`] alone, and can't be copied.
#[derive(Drop)]
pub struct AnswerCount {
    answers: usize,
}

impl Model for AnswerCount {
    ghost use Rattle.std.specs.Prelude.{ℕ};

    ghost Value = { ℕ };

    ghost view = { λ count. count.answers };
}

impl AnswerCount {
    /// No connection.
    pub(crate) fn new() -> AnswerCount
        ensures { result ≡ 0 }
    {
        AnswerCount { answers: 0 }
    }

    /// Ends a connection that was answered, and counts it.
    pub(crate) fn add<P: Port>(&mut self, port: &P, answer: Answer<P>)
        requires { self.old + 1 < 2 ^ 64 }
        ensures { self.new ≡ self.old + 1 }
    {
        let ending = answer.ending();
        let Answer {
            input,
            output,
            served: _,
        } = answer;
        port.end(input, output, ending);
        self.answers += 1;
    }

    /// The count as a number.
    pub fn get(&self) -> usize
        ensures { result ≡ self.now }
    {
        self.answers
    }
}

//! How long a client may take for its part of a connection.
ghost use Rattle.std.specs.Prelude.{◌≡◌};
ghost use Rattle.mds_waiting.specs.Limits.{call_millis, limit_millis, until};

/// How long a head may take to come, in milliseconds.
const HEAD_MILLIS: u64 = 10_000;

/// How long a whole request may take to come.
const REQUEST_MILLIS: u64 = 60_000;

/// How long an answer may take to be taken.
const ANSWER_MILLIS: u64 = 60_000;

/// How long the last bytes of a client may take to come, after its answer.
const LAST_MILLIS: u64 = 10_000;

/// How long a client may do nothing.
const CALL_MILLIS: u64 = 30_000;

/// How long it may do nothing after its answer.
const LAST_CALL_MILLIS: u64 = 2_000;

/// What a client has to do in time.
#[derive(Clone, Copy, Debug, PartialEq, Eq)]
pub enum Part {
    /// It sends the head of its request.
    Head,
    /// It sends its request, the head and the body.
    Request,
    /// It takes the answer.
    Answer,
    /// It ends, after its answer.
    Last,
}

impl Part {
    /// How long it may take in all.
    fn limit(self) -> u64
        ensures { result ≡ limit_millis self }
    {
        match self {
            Part::Head => HEAD_MILLIS,
            Part::Request => REQUEST_MILLIS,
            Part::Answer => ANSWER_MILLIS,
            Part::Last => LAST_MILLIS,
        }
    }

    /// How long it may stop.
    fn call(self) -> u64
        ensures { result ≡ call_millis self }
    {
        match self {
            Part::Head | Part::Request | Part::Answer => CALL_MILLIS,
            Part::Last => LAST_CALL_MILLIS,
        }
    }

    /// When its time is over, where it began then, and the client did something at last now. Both are milliseconds of a clock.
    pub fn until(self, begun: u64, now: u64) -> u64
        ensures { result ≡ until self begun now }
    {
        let end = begun.saturating_add(self.limit());
        end.min(now.saturating_add(self.call()))
    }
}

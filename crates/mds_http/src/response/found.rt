//! What was found of what a request asks for.
ghost use Rattle.std.specs.Prelude.{◌≡◌, option_map};
ghost use Rattle.mds_http.specs.Found.{finding_in, replies_in, standing_seen, standing_in, events_in, tables_in, tables_of, accepted_in};

use mds_core::{EventList, Outcome, Reply, Standing};
use mds_table::Row;

/// What a desk found of what a request asks for.
#[derive(Debug, Drop)]
pub enum Found {
    /// Nothing was looked for: the request is answered by a fault.
    Nothing,
    /// The replies to the items of a POST that aren't faults, in their order, up to the first that found no memory.
    Replies(Vec<Reply>),
    /// The reply to a look at a vehicle.
    One(Reply),
    /// The accepted events of a vehicle, or `None` where it isn't registered.
    History(Option<EventList>),
    /// The tables in order of time: each one's starting time, in milliseconds since the Unix epoch, and its rows.
    Rows(Vec<(u64, Vec<Row>)>),
}

impl Found {
    /// How many requests were accepted: the replies to items that are [`Outcome::Done`].
    pub fn accepted(&self) -> usize
        ensures { result ≡ accepted_in (replies_in (finding_in self.now)) }
    {
        count_accepted(self.replies())
    }

    pub(crate) fn replies(&self) -> &[Reply]
        ensures { result.now ≡ replies_in (finding_in self.now) }
    {
        match self {
            Found::Replies(replies) => replies,
            _ => &[],
        }
    }

    pub(crate) fn standing(&self) -> Option<Standing>
        ensures { result ≡ standing_in (finding_in self.now) }
    {
        match self {
            Found::One(reply) => standing_seen(reply.outcome),
            _ => None,
        }
    }

    pub(crate) fn events(&self) -> Option<&EventList>
        ensures { option_map (λ list. list.now.events) result ≡ events_in (finding_in self.now) }
    {
        match self {
            Found::History(Some(list)) => Some(list),
            _ => None,
        }
    }

    pub(crate) fn tables(&self) -> &[(u64, Vec<Row>)]
        ensures { tables_of result.now ≡ tables_in (finding_in self.now) }
    {
        match self {
            Found::Rows(tables) => tables,
            _ => &[],
        }
    }
}

fn standing_seen(outcome: Outcome) -> Option<Standing>
    ensures { result ≡ standing_seen outcome }
{
    match outcome {
        Outcome::Seen(standing) => Some(standing),
        Outcome::Done | Outcome::Refused(_) => None,
    }
}

pub(crate) fn count_accepted(replies: &[Reply]) -> usize
    ensures { result ≡ accepted_in replies.now }
{
    replies
        .iter()
        .filter(|reply| matches!(reply.outcome, Outcome::Done))
        .count()
}

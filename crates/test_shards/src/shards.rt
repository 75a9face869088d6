//! What no clause says: the worked cases, that each call can succeed, and that a shard of many vehicles is as a fleet.
mod cases;
mod many;
mod refused;

use mds_core::Reply;
use mds_shard::{KeptForm, Shard};
use test_fixtures::{Lack, request_of};
use test_steps::Step;

/// The place of the first step in which the shard replies otherwise.
fn first_other<K: KeptForm>(shard: &mut Shard<K>, steps: &[Step]) -> Result<Option<usize>, Lack> {
    for (at, (asked, place, outcome)) in steps.iter().enumerate() {
        let request = request_of(asked).ok_or(Lack::Case)?;
        let expected = Reply {
            place: *place,
            outcome: *outcome,
        };
        if shard.step(&request)? != expected {
            return Ok(Some(at));
        }
    }
    Ok(None)
}

//! Positions, read from an object's members.
ghost use Rattle.std.specs.Prelude.{◌≡◌, None, IfOk, Err};
ghost use Rattle.serde_json.specs.Data.{Members, no_members, object};
ghost use Rattle.mds_batch.specs.Reading.{value_at, Reads};
ghost use Rattle.mds_batch.specs.Forms.{position_of};
ghost use Rattle.mds_batch.specs.Items.{position_or_null};
ghost use Rattle.mds_batch.specs.Filled.{HoldsLocation};
ghost use Rattle.mds_batch.specs.declared.tokens.ReadFault.TheVariants.{NotJson as not_json};

use crate::form::read_whole;
use crate::slot::Slot;
use crate::tokens::{Fields, Head, ReadFault, Tokens, begin, pass, pass_items, read_members};
use mds_core::Position;

/// The members of a position: `lat` and `lng`, in ten-millionths of a degree.
#[derive(Drop)]
struct LocationFields {
    lat: Slot<i64>,
    lng: Slot<i64>,
}

impl LocationFields {
    fn new() -> LocationFields
        ensures { HoldsLocation no_members result }
    {
        LocationFields {
            lat: Slot::Absent,
            lng: Slot::Absent,
        }
    }

    fn position(&self) -> Option<Position>
        ensures { (found : Members) → HoldsLocation found self.now
            → result ≡ position_of (object found) }
    {
        match (self.lat, self.lng) {
            (Slot::Good(lat), Slot::Good(lng)) => Position::new(lat, lng),
            _ => None,
        }
    }
}

impl Fields for LocationFields {
    ghost use Rattle.mds_batch.specs.Filled.{HoldsLocation};

    ghost holds = { HoldsLocation };

    fn take(&mut self, name: &str, tokens: &mut Tokens<'_>, depth: usize) -> Result<(), ReadFault> {
        match name {
            "lat" => self.lat = Slot::of(read_whole(tokens, depth)?),
            "lng" => self.lng = Slot::of(read_whole(tokens, depth)?),
            _ => {
                pass(tokens, depth)?;
            }
        }
        Ok(())
    }
}

/// The inner `None` is that of null.
pub(crate) fn read_position(
    tokens: &mut Tokens<'_>,
    depth: usize,
) -> Result<Option<Option<Position>>, ReadFault>
    ensures read { IfOk result (Reads position_or_null depth tokens.old tokens.new) }
    ensures fault { result ≡ Err not_json → value_at depth tokens.old ≡ None }
{
    match begin(tokens, depth)? {
        Head::Null => Ok(Some(None)),
        Head::Object => {
            let mut fields = LocationFields::new();
            read_members(&mut fields, tokens, depth - 1)?;
            Ok(fields.position().map(Some))
        }
        Head::Array => {
            pass_items(tokens, depth - 1)?;
            Ok(None)
        }
        _ => Ok(None),
    }
}

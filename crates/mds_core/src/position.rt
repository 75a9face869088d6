//! Positions on the Earth.
ghost use Rattle.std.specs.Prelude.{◌≡◌, ◌↔◌, IsSome, IfSome};
ghost use Rattle.mds_core.specs.Position.{IsOnEarth};

/// The most ten-millionths of a degree of latitude, north or south.
pub const MAX_LATITUDE: i64 = 900_000_000;

/// The most ten-millionths of a degree of longitude, east or west.
pub const MAX_LONGITUDE: i64 = 1_800_000_000;

/// A latitude and a longitude, in ten-millionths of a degree. Their limits fit in 32 bits each.
#[derive(Clone, Copy, Debug, PartialEq, Eq)]
pub struct Position {
    lat: i32,
    lng: i32,
}

impl Position {
    /// The position at this latitude and longitude, or `None` where one of them is past its limit.
    pub fn new(lat: i64, lng: i64) -> Option<Position>
        ensures exact { IsSome result ↔ IsOnEarth lat lng }
        ensures position { IfSome result (λ position. position ≡ record { lat = lat; lng = lng }) }
    {
        if lat < -MAX_LATITUDE || MAX_LATITUDE < lat {
            return None;
        }
        if lng < -MAX_LONGITUDE || MAX_LONGITUDE < lng {
            return None;
        }
        Some(Position {
            lat: lat as i32,
            lng: lng as i32,
        })
    }

    /// The latitude, in ten-millionths of a degree, north of the equator.
    pub fn lat(self) -> i64
        ensures { result ≡ self.lat }
    {
        i64::from(self.lat)
    }

    /// The longitude, in ten-millionths of a degree, east of Greenwich.
    pub fn lng(self) -> i64
        ensures { result ≡ self.lng }
    {
        i64::from(self.lng)
    }
}

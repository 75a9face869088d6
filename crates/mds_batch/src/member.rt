//! The members of an item.
ghost use Rattle.std.specs.Prelude.{◌≡◌, Some, bytes_eq};
ghost use Rattle.mds_batch.specs.Member.{member_name};

use std::fmt;

/// A member of an item, in the order in which faults are looked for.
#[derive(Clone, Copy, Debug, PartialEq, Eq)]
pub enum Member {
    /// The provider of the vehicle: a UUID (RFC 9562) in one of its text forms.
    ProviderId,
    /// The device on the vehicle: a UUID.
    DeviceId,
    /// The identifier of the event: a UUID.
    EventId,
    /// The state that the event leads to: the name of one.
    VehicleState,
    /// The types of the event: a list of 1 to [`MAX_EVENT_TYPES`](mds_core::MAX_EVENT_TYPES) type names.
    EventTypes,
    /// The time of the event: whole milliseconds since the Unix epoch.
    Timestamp,
    /// Where the vehicle was, if the event says so: an object with `lat` and `lng`, in ten-millionths of a degree.
    LocationE7,
}

impl Member {
    /// The name of the member, as an item has it.
    pub fn name(self) -> &'static str
        ensures { result.now ≡ member_name self }
    {
        match self {
            Member::ProviderId => "provider_id",
            Member::DeviceId => "device_id",
            Member::EventId => "event_id",
            Member::VehicleState => "vehicle_state",
            Member::EventTypes => "event_types",
            Member::Timestamp => "timestamp",
            Member::LocationE7 => "location_e7",
        }
    }

    /// Whether a text is the name of the member. Most texts that aren't have another length, and are told by that alone. It
    /// compares the bytes of both, which takes a tenth of what comparing short texts does.
    pub(crate) fn is_named(self, name: &str) -> bool
        ensures { result ≡ bytes_eq name.now (member_name self) }
    {
        let own = self.name();
        name.len() == own.len() && name.as_bytes() == own.as_bytes()
    }
}

impl fmt::Display for Member {
    ghost output = { λ member. Some (member_name member) };

    fn fmt<W: fmt::Write>(&self, f: &mut fmt::Formatter<W>) -> fmt::Result {
        f.write_str(self.name())
    }
}

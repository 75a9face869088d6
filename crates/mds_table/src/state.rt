//! The states of a vehicle.
ghost use Rattle.std.specs.Prelude.{◌≡◌, ◌≢◌, Some, IfSome, IfNone, slice_get};
ghost use Rattle.mds_table.specs.declared.state.State.TheVariants.{Removed};
ghost use Rattle.mds_table.specs.State.{code_of, name_of};

use std::fmt;

/// The state of a vehicle, after MDS 2.0, "Vehicle States", but for [`State::InDepot`], which is this project's own. States
/// are ordered by their codes.
#[derive(Clone, Copy, Debug, PartialEq, Eq, PartialOrd, Ord)]
pub enum State {
    /// Off the street: not deployed, or taken away.
    Removed,
    /// For hire on the street.
    Available,
    /// On the street, and not for hire.
    NonOperational,
    /// Held for a rider who has not set off yet.
    Reserved,
    /// In a rider's use.
    OnTrip,
    /// Outside the city.
    Elsewhere,
    /// Out of touch: its provider gets no message from it.
    NonContactable,
    /// Not to be found.
    Missing,
    /// In a depot of its provider: off the street, and kept to come back.
    InDepot,
}

impl State {
    /// The number of states.
    pub const COUNT: usize = 9;

    /// Every state, in the order of codes.
    pub const ALL: [State; State::COUNT] = [
        State::Removed,
        State::Available,
        State::NonOperational,
        State::Reserved,
        State::OnTrip,
        State::Elsewhere,
        State::NonContactable,
        State::Missing,
        State::InDepot,
    ];

    /// The code of the state: its place in [`State::ALL`], from 0.
    pub fn code(self) -> u8
        ensures code { result ≡ code_of self }
        ensures place { slice_get State.ALL result ≡ Some self }
    {
        self as u8
    }

    /// The name of the state, in lower case.
    pub fn name(self) -> &'static str
        ensures { result.now ≡ name_of self }
    {
        match self {
            State::Removed => "removed",
            State::Available => "available",
            State::NonOperational => "non_operational",
            State::Reserved => "reserved",
            State::OnTrip => "on_trip",
            State::Elsewhere => "elsewhere",
            State::NonContactable => "non_contactable",
            State::Missing => "missing",
            State::InDepot => "in_depot",
        }
    }

    /// The state of this name, or `None` where no state has it.
    pub fn of_name(name: &str) -> Option<State>
        ensures found { IfSome result (λ state. name_of state ≡ name.now) }
        ensures none { IfNone result ((state : State) → name_of state ≢ name.now) }
    {
        // The two names of 15 bytes cost less as texts than byte by byte.
        if name.len() == 15 {
            return match name {
                "non_operational" => Some(State::NonOperational),
                "non_contactable" => Some(State::NonContactable),
                _ => None,
            };
        }
        match name.as_bytes() {
            b"removed" => Some(State::Removed),
            b"available" => Some(State::Available),
            b"reserved" => Some(State::Reserved),
            b"on_trip" => Some(State::OnTrip),
            b"elsewhere" => Some(State::Elsewhere),
            b"missing" => Some(State::Missing),
            b"in_depot" => Some(State::InDepot),
            _ => None,
        }
    }
}

impl Default for State {
    ghost is_default = { λ state. state ≡ Removed };

    /// The state of a vehicle before its first event: removed.
    fn default() -> State {
        State::Removed
    }
}

impl fmt::Display for State {
    ghost output = { λ state. Some (name_of state) };

    fn fmt<W: fmt::Write>(&self, f: &mut fmt::Formatter<W>) -> fmt::Result {
        f.write_str(self.name())
    }
}

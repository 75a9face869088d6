//! What requests are about.

/// What a request is about, by its route: the items that it posts, or what it looks at. `V` stands for the vehicle that a
/// request looks at: its key, or `()` where only the route is known.
#[derive(Clone, Copy, Debug, PartialEq, Eq)]
pub enum Aim<V> {
    /// `POST /vehicles`: registrations.
    Vehicles,
    /// `POST /events`: events.
    Events,
    /// `GET /vehicles/{provider}/{device}`: a vehicle.
    One(V),
    /// `GET /vehicles/{provider}/{device}/events`: the accepted events of a vehicle.
    History(V),
    /// `GET /table`: the tables, by their rows.
    Rows,
}

/// A route: what its requests are about, whatever vehicle they name.
pub(crate) type Route = Aim<()>;

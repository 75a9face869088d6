//! Events, read from an object's members.
ghost use Rattle.std.specs.Prelude.{◌≡◌, ◌≤◌, Some, None, IfOk, IfErr};
ghost use Rattle.mds_table.specs.Json.{max_time};
ghost use Rattle.serde_json.specs.Data.{Members, object};
ghost use Rattle.mds_batch.specs.Items.{position_in, fault_at, fault_of, event_members, IsEventOf};
ghost use Rattle.mds_core.specs.Reported.{MayBeReported};
ghost use Rattle.mds_batch.specs.declared.item.EventItem.TheVariants.{Event as Reports};
ghost use Rattle.mds_batch.specs.Told.{reported_by};
ghost use Rattle.mds_batch.specs.Filled.{HoldsEvent};

use crate::form::{read_state, read_time, read_uuid};
use crate::list::ItemFields;
use crate::location::read_position;
use crate::slot::Slot;
use crate::tokens::{Fields, ReadFault, Tokens};
use crate::types::{TypeList, read_types};
use crate::vehicle::VehicleFields;
use crate::{EventItem, ItemFault, Member};
use mds_core::{Event, Key, Position};
use mds_table::{State, TypeName};
use uuid::Uuid;

/// The members of an event.
#[derive(Drop)]
pub(crate) struct EventFields {
    vehicle: VehicleFields,
    id: Slot<Uuid>,
    state: Slot<State>,
    has_types: Slot<()>,
    types: TypeList,
    time: Slot<u64>,
    position: Slot<Option<Position>>,
}

/// What an event says beside its types.
#[derive(Clone, Copy, Debug)]
pub(crate) struct Told {
    key: Key,
    id: Uuid,
    state: State,
    time: u64,
    position: Option<Position>,
}

impl Told {
    /// What an event says beside its types.
    pub(crate) fn of(event: &Event) -> Told
        ensures event { reported_by result event.now.types ≡ event.now }
        ensures in_range { result.time ≤ max_time }
    {
        Told {
            key: *event.key(),
            id: event.id(),
            state: event.state(),
            time: event.time(),
            position: event.position(),
        }
    }

    /// The vehicle that it is about.
    pub(crate) fn key(&self) -> &Key
        ensures { result.now ≡ self.now.key }
    {
        &self.key
    }

    /// The event of what is told and of these types.
    pub(crate) fn event(self, types: &[TypeName]) -> Event
        requires { MayBeReported types.now self.time }
        ensures { result ≡ reported_by self types.now }
    {
        let Told {
            key,
            id,
            state,
            time,
            position,
        } = self;
        Event::new(key, id, state, types, time, position).unwrap()
    }

    /// Makes the event of what is told and of these types, in the place of another one.
    pub(crate) fn put(self, event: &mut Event, types: &[TypeName])
        requires { MayBeReported types.now self.time }
        ensures { event.new ≡ reported_by self types.now }
    {
        let Told {
            key,
            id,
            state,
            time,
            position,
        } = self;
        event.assign(key, id, state, types, time, position).unwrap();
    }
}

/// Makes the event of what is told and of these types, in the place of an item.
fn put_event(item: &mut EventItem, told: Told, types: &[TypeName])
    requires { MayBeReported types.now told.time }
    ensures { item.new ≡ Reports (reported_by told types.now) }
{
    match item {
        EventItem::Event(event) => told.put(event, types),
        EventItem::Fault(_) => *item = EventItem::Event(told.event(types)),
    }
}

impl EventFields {
    fn told_fields(&self) -> Result<Told, ItemFault>
        ensures event { (found : Members) → HoldsEvent found self.now
            → IfOk result (λ told.
            IsEventOf (object found) (reported_by told self.now.types.names.items)) }
        ensures fault { (found : Members) → HoldsEvent found self.now
            → IfErr result (λ fault. fault_of event_members (object found) ≡ Some fault) }
    {
        let key = self.vehicle.key()?;
        let id = self.id.require(Member::EventId)?;
        let state = self.state.require(Member::VehicleState)?;
        self.has_types.require(Member::EventTypes)?;
        let time = self.time.require(Member::Timestamp)?;
        let position = self.position()?;
        Ok(Told {
            key,
            id,
            state,
            time,
            position,
        })
    }

    fn position(&self) -> Result<Option<Position>, ItemFault>
        ensures position { (found : Members) → HoldsEvent found self.now
            → IfOk result (λ position. position_in (object found) ≡ Some position) }
        ensures fault { (found : Members) → HoldsEvent found self.now
            → IfErr result (λ fault. (position_in (object found) ≡ None)
            × (fault_at (object found) Member.LocationE7 ≡ fault)) }
    {
        match self.position {
            Slot::Absent => Ok(None),
            Slot::Bad => Err(ItemFault::Bad(Member::LocationE7)),
            Slot::Good(position) => Ok(position),
        }
    }
}

impl Fields for EventFields {
    ghost use Rattle.mds_batch.specs.Filled.{HoldsEvent};

    ghost holds = { HoldsEvent };

    fn take(&mut self, name: &str, tokens: &mut Tokens<'_>, depth: usize) -> Result<(), ReadFault> {
        if Member::EventId.is_named(name) {
            self.id = Slot::of(read_uuid(tokens, depth)?);
        } else if Member::VehicleState.is_named(name) {
            self.state = Slot::of(read_state(tokens, depth)?);
        } else if Member::EventTypes.is_named(name) {
            self.has_types = Slot::of(read_types(&mut self.types, tokens, depth)?);
        } else if Member::Timestamp.is_named(name) {
            self.time = Slot::of(read_time(tokens, depth)?);
        } else if Member::LocationE7.is_named(name) {
            self.position = Slot::of(read_position(tokens, depth)?);
        } else {
            self.vehicle.take(name, tokens, depth)?;
        }
        Ok(())
    }
}

impl ItemFields for EventFields {
    ghost use Rattle.mds_batch.specs.Items.{IsEventItem};

    type Item = EventItem;

    ghost is_item = { IsEventItem };

    fn new() -> EventFields {
        EventFields {
            vehicle: VehicleFields::new(),
            id: Slot::Absent,
            state: Slot::Absent,
            has_types: Slot::Absent,
            types: TypeList::new(),
            time: Slot::Absent,
            position: Slot::Absent,
        }
    }

    fn clear(&mut self) {
        self.vehicle.clear();
        self.id = Slot::Absent;
        self.state = Slot::Absent;
        self.has_types = Slot::Absent;
        self.time = Slot::Absent;
        self.position = Slot::Absent;
    }

    #[tactic(auto, unfolding(crate::specs::Items::IsEventItem))]
    fn fill(&self, item: &mut EventItem) {
        match self.told_fields() {
            Ok(told) => put_event(item, told, self.types.names()),
            Err(fault) => *item = EventItem::Fault(fault),
        }
    }

    #[tactic(auto, unfolding(crate::specs::Items::IsEventItem))]
    fn no_object() -> EventItem {
        EventItem::Fault(ItemFault::NotObject)
    }
}

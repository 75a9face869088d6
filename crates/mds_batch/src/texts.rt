//! Texts of JSON (RFC 8259).
ghost use Rattle.std.specs.Prelude.{Some};
ghost use Rattle.mds_batch.specs.Texts.{with_commas, quoted_text, position_text, registration_text, event_text, row_text, table_text};

use mds_core::{Event, Key, Position};
use mds_table::{Row, TypeName};
use std::fmt::{self, Display, Formatter};

/// A value that has a text of JSON.
pub trait Json {
    ghost use Rattle.std.specs.Prelude.{ℕ, List, Some};
    ghost use Rattle.std.specs.Fmt.{DisplaysOnOk};

    /// Its text.
    ghost json: { Self → List ℕ };

    /// Writes its text.
    fn write_json<W: fmt::Write>(&self, f: &mut Formatter<W>) -> fmt::Result
        ensures { DisplaysOnOk W.write_str_gives f.old result (Some (json self.now)) f.new };
}

/// The text of a value.
#[derive(Clone, Copy)]
pub struct Text<'a, T> {
    /// The value.
    pub value: &'a T,
}

impl<T: Json> Display for Text<'_, T> {
    ghost output = { λ text. Some (T.json text.value.now) };

    fn fmt<W: fmt::Write>(&self, f: &mut Formatter<W>) -> fmt::Result {
        self.value.write_json(f)
    }
}

/// Some values, with a comma between.
#[derive(Clone, Copy)]
pub struct Commas<'a, T> {
    /// The values.
    pub items: &'a [T],
}

impl<T: Json> Display for Commas<'_, T> {
    ghost output = { λ commas. Some (with_commas T.json commas.items.now) };

    fn fmt<W: fmt::Write>(&self, f: &mut Formatter<W>) -> fmt::Result {
        let Some((first, rest)) = self.items.split_first() else {
            return Ok(());
        };
        first.write_json(f)?;
        for item in rest {
            f.write_str(",")?;
            item.write_json(f)?;
        }
        Ok(())
    }
}

impl Json for TypeName {
    ghost json = { quoted_text };

    fn write_json<W: fmt::Write>(&self, f: &mut Formatter<W>) -> fmt::Result {
        write!(f, "\"{self}\"")
    }
}

/// A position, or null where there is none.
#[derive(Clone, Copy)]
pub struct PositionText {
    /// The position.
    pub position: Option<Position>,
}

impl Display for PositionText {
    ghost output = { λ text. Some (position_text text.position) };

    fn fmt<W: fmt::Write>(&self, f: &mut Formatter<W>) -> fmt::Result {
        let Some(position) = self.position else {
            return f.write_str("null");
        };
        let lat = position.lat();
        let lng = position.lng();
        write!(f, "{{\"lat\":{lat},\"lng\":{lng}}}")
    }
}

/// A registration, by the vehicle that it names.
impl Json for Key {
    ghost json = { registration_text };

    fn write_json<W: fmt::Write>(&self, f: &mut Formatter<W>) -> fmt::Result {
        let Key { provider, device } = *self;
        write!(
            f,
            "{{\"device_id\":\"{device}\",\"provider_id\":\"{provider}\"}}"
        )
    }
}

impl Json for Event {
    ghost json = { event_text };

    fn write_json<W: fmt::Write>(&self, f: &mut Formatter<W>) -> fmt::Result {
        let Key { provider, device } = *self.key();
        let id = self.id();
        let state = self.state();
        let types = Commas {
            items: self.types(),
        };
        let time = self.time();
        let position = PositionText {
            position: self.position(),
        };
        write!(
            f,
            "{{\"device_id\":\"{device}\",\"event_id\":\"{id}\",\"event_types\":[{types}]"
        )?;
        write!(
            f,
            ",\"location_e7\":{position},\"provider_id\":\"{provider}\",\"timestamp\":{time},\"vehicle_state\":\"{state}\"}}"
        )
    }
}

impl Json for Row {
    ghost json = { row_text };

    fn write_json<W: fmt::Write>(&self, f: &mut Formatter<W>) -> fmt::Result {
        let from = self.from;
        let to = self.to;
        let kind = &self.kind;
        write!(
            f,
            "{{\"from\":\"{from}\",\"to\":\"{to}\",\"type\":\"{kind}\"}}"
        )
    }
}

/// A table by its starting time and its rows.
impl Json for (u64, Vec<Row>) {
    ghost json = { λ table. table_text (table.0, table.1.items) };

    fn write_json<W: fmt::Write>(&self, f: &mut Formatter<W>) -> fmt::Result {
        let (start, rows) = self;
        let rows = Commas { items: rows };
        write!(f, "{{\"from_time\":{start},\"rows\":[{rows}]}}")
    }
}

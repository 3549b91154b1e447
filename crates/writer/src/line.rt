// The line of an event in parts, whatever the radio: CR LF and the name, the fields, and CR LF or the data. It is checked whole before a byte is
// changed.
ghost use Rattle.std.specs.Prelude.{◌≡◌, List, ◌+◌, ◌-◌, ◌≤◌, true, Some, SomeIff, length};
ghost use Rattle.std.specs.List.{list_all};
ghost use Rattle.text.specs.Put.{after};
ghost use Rattle.at.specs.Event.{Row};
ghost use Rattle.at.specs.TableSteps.{Tabled};
ghost use Rattle.at.specs.Parts.{value_of, together};
ghost use Rattle.writer.specs.Line.{after_name};
ghost use Rattle.writer.specs.Write.{writable_field, parts_for, Writes};
ghost use Rattle.writer.specs.Steps.{texts, ends, bytes_of, can_be_written, write_as};

use crate::EventWriteError;
use crate::item::{data_writable, item_len, item_writable, put_item};
use at::parts::{Parts, Value};
use at::table::{kinds_at, name_at};
use text::put::put;

// What a line says: a name, the fields, and the data of a binary event. Texts and data are places in `src`.
#[derive(Clone, Copy)]
struct Line<'a> {
    src: &'a [u8],
    name: &'a [u8],
    fields: &'a [Value],
    data: Option<Value>,
}

fn fields_writable(src: &[u8], fields: &[Value], marked: bool) -> bool
    ensures { result ≡ list_all (λ v. writable_field marked src.now (value_of v)) fields.now }
{
    fields
        .iter()
        .all(|field| item_writable(src, *field, marked))
}

// The room after the fields, each with the colon or comma in front of it.
fn room_after_fields(src: &[u8], fields: &[Value], room: usize) -> Option<usize>
    ensures { SomeIff result (length (after_name (texts src.now fields.now)) ≤ room) (room - length (after_name (texts src.now fields.now))) }
{
    let mut left = room;
    for field in fields {
        left = left.checked_sub(1)?.checked_sub(item_len(src, *field))?;
    }
    Some(left)
}

// The fields at a place of the buffer, each after its colon or comma; the place past them.
fn put_fields(buf: &mut [u8], at: usize, src: &[u8], fields: &[Value]) -> Option<usize>
    requires { at + length (after_name (texts src.now fields.now)) ≤ length buf.old }
    ensures { (result ≡ Some (at + length (after_name (texts src.now fields.now)))) × (buf.new ≡ after buf.old at (after_name (texts src.now fields.now))) }
{
    let mut to = at;
    let mut separator = b':';
    for field in fields {
        to = put(buf, to, &[separator])?;
        to = put_item(buf, to, src, *field)?;
        separator = b',';
    }
    Some(to)
}

impl<'a> Line<'a> {
    fn is_writable(self) -> bool
        ensures { result ≡ can_be_written self.entry }
    {
        match self.data {
            Some(data) => {
                fields_writable(self.src, self.fields, true) && data_writable(self.src, data)
            }
            None => fields_writable(self.src, self.fields, false),
        }
    }

    // What is left of a room after the line.
    fn room_after(self, room: usize) -> Option<usize>
        ensures { SomeIff result (length (bytes_of self.entry) ≤ room) (room - length (bytes_of self.entry)) }
    {
        let head = room.checked_sub(2)?.checked_sub(self.name.len())?;
        let left = room_after_fields(self.src, self.fields, head)?;
        match self.data {
            Some(data) => left.checked_sub(3)?.checked_sub(item_len(self.src, data)),
            None => left.checked_sub(2),
        }
    }

    // CR LF, or the marker and the data, at a place of the buffer; the place past it.
    fn put_ending(self, buf: &mut [u8], at: usize) -> Option<usize>
        requires { (can_be_written self ≡ true) × (at + length (ends self) ≤ length buf.old) }
        ensures { (result ≡ Some (at + length (ends self.entry))) × (buf.new ≡ after buf.old at (ends self.entry)) }
    {
        match self.data {
            Some(data) => {
                let [high, low] = (item_len(self.src, data) as u16).to_be_bytes();
                let to = put(buf, at, &[1, high, low])?;
                put_item(buf, to, self.src, data)
            }
            None => put(buf, at, b"\r\n"),
        }
    }

    // The whole line, in a buffer that has room for it; its length.
    fn put(self, buf: &mut [u8]) -> Option<usize>
        requires { (can_be_written self ≡ true) × (length (bytes_of self) ≤ length buf.old) }
        ensures { (result ≡ Some (length (bytes_of self.entry))) × (buf.new ≡ after buf.old 0 (bytes_of self.entry)) }
    {
        let mut to = put(buf, 0, b"\r\n")?;
        to = put(buf, to, self.name)?;
        to = put_fields(buf, to, self.src, self.fields)?;
        self.put_ending(buf, to)
    }

    fn write(self, buf: &mut [u8]) -> Result<usize, EventWriteError>
        ensures { Writes buf.old (write_as (length buf.old) self.entry) result buf.new }
    {
        if !self.is_writable() {
            return Err(EventWriteError::FieldNotWritable);
        }
        if self.room_after(buf.len()).is_none() {
            return Err(EventWriteError::EventBufferTooSmall);
        }
        self.put(buf).ok_or(EventWriteError::EventBufferTooSmall)
    }
}

// The line of the event in these parts, by the table of its radio. As many of the values are fields as the row has kinds, and one after them is the
// data.
pub(crate) fn write_parts(
    buf: &mut [u8],
    src: &[u8],
    table: &[u8],
    p: Parts,
) -> Result<usize, EventWriteError>
    ensures { (rows : List Row) → Tabled rows table.now → Writes buf.old (parts_for (length buf.old) src.now (together rows p)) result buf.new }
{
    if table.len() / 20 <= p.row {
        return Err(EventWriteError::FieldNotWritable);
    }
    let values = &p.values[..p.value_count()];
    let (fields, later) = values.split_at(kinds_at(table, p.row).len().min(values.len()));
    let line = Line {
        src,
        name: name_at(table, p.row),
        fields,
        data: later.first().copied(),
    };
    line.write(buf)
}

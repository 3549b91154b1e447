// The slots into which an accepted input is cut.
ghost use Rattle.std.specs.Prelude.{◌≡◌, ◌<◌, length, map, slice_get, OnSome};
ghost use Rattle.checks.specs.Slot.{span_of, slot as slotFor, fixed as fixedFor, marked_tail, name_slot, shape_slots, slots_of};

use crate::part::{PartName, Shape};
use text::bytes::part;
use text::find::first_byte;

// So many bytes; all but the last ones; or those before the first byte of a value, of all but the last ones.
#[derive(Clone, Copy)]
pub(crate) enum Span {
    Exactly(usize),
    AllBut(usize),
    UpTo(u8, usize),
}

impl Span {
    // How many of these bytes it takes.
    #[tactic(auto, using(crate::proofs::SlotLaws::spans))]
    pub(crate) fn of(self, t: &[u8]) -> usize
        ensures { result ≡ span_of self t.now }
    {
        match self {
            Self::Exactly(n) => part(t, 0, n).len(),
            Self::AllBut(n) => t.len().saturating_sub(n),
            Self::UpTo(b, n) => {
                let u = part(t, 0, t.len().saturating_sub(n));
                first_byte(u, 0, b).unwrap_or(u.len())
            }
        }
    }
}

// What is passed over, the name of the field, and what it takes.
#[derive(Clone, Copy)]
pub(crate) struct Slot {
    pub pass: Span,
    pub name: PartName,
    pub len: Span,
}

// The fields before the payload of a frame, and their lengths.
static HEAD: [(PartName, usize); 3] = [
    (PartName::StartByte, 1),
    (PartName::Length, 2),
    (PartName::Identifier, 2),
];

// Those of a connect event, which has the remote end first.
static CONNECT: [(PartName, usize); 7] = [
    (PartName::Channel, 1),
    (PartName::ConnectType, 1),
    (PartName::Protocol, 1),
    (PartName::RemoteAddress, 4),
    (PartName::RemotePort, 2),
    (PartName::LocalAddress, 4),
    (PartName::LocalPort, 2),
];

// The last byte, wherever the slots of the payload ended.
const END: Slot = Slot {
    pass: Span::AllBut(1),
    name: PartName::EndByte,
    len: Span::Exactly(1),
};

// So many bytes, right away.
fn fixed(name: PartName, n: usize) -> Slot
    ensures { result ≡ fixedFor name n }
{
    Slot {
        pass: Span::Exactly(0),
        name,
        len: Span::Exactly(n),
    }
}

// All but the last bytes, right away.
fn rest_slot(name: PartName, but: usize) -> Slot
    ensures { result ≡ slotFor (Span.Exactly 0) name (Span.AllBut but) }
{
    Slot {
        pass: Span::Exactly(0),
        name,
        len: Span::AllBut(but),
    }
}

// The name of an event, after the first two bytes of its line and up to the colon.
fn name_slot(but: usize) -> Slot
    ensures { result ≡ name_slot but }
{
    Slot {
        pass: Span::Exactly(2),
        name: PartName::Name,
        len: Span::UpTo(b':', but),
    }
}

// A field of an event, after its colon or comma.
fn field_slot(i: u8, stop: u8, but: usize) -> Slot
    ensures { result ≡ slotFor (Span.Exactly 1) (PartName.Field i) (Span.UpTo stop but) }
{
    Slot {
        pass: Span::Exactly(1),
        name: PartName::Field(i),
        len: Span::UpTo(stop, but),
    }
}

// The slot with a number, counted from 0, of fields with known lengths.
fn fixed_slot(fields: &[(PartName, usize)], i: usize) -> Option<Slot>
    ensures { result ≡ slice_get (map (λ f. fixedFor f.0 f.1) fields.now) i }
{
    let (name, n) = *fields.get(i)?;
    Some(fixed(name, n))
}

#[tactic(auto, using(crate::proofs::SlotLaws::numbered))]
fn event_slot(fields: u8, but: usize, i: usize) -> Option<Slot>
    ensures { result ≡ slice_get (shape_slots (Shape.Event fields but)) i }
{
    if i == 0 {
        Some(name_slot(but))
    } else if i <= usize::from(fields) {
        Some(field_slot(i as u8, b',', but))
    } else {
        None
    }
}

// What follows the fields of a binary event. The data depends on the input, so that these are no table.
fn marked_slot(but: usize, i: usize) -> Option<Slot>
    ensures { result ≡ slice_get (marked_tail but) i }
{
    match i {
        0 => Some(fixed(PartName::Marker, 1)),
        1 => Some(fixed(PartName::DataLength, 2)),
        2 => Some(rest_slot(PartName::Data, but)),
        _ => None,
    }
}

#[tactic(auto, using(crate::proofs::SlotLaws::numbered))]
fn binary_slot(fields: u8, but: usize, i: usize) -> Option<Slot>
    ensures { result ≡ slice_get (shape_slots (Shape.Binary fields but)) i }
{
    let n = usize::from(fields);
    if i == 0 {
        Some(name_slot(but))
    } else if i < n {
        Some(field_slot(i as u8, b',', but))
    } else if i == n {
        Some(field_slot(i as u8, 1, but))
    } else {
        marked_slot(but, i - n - 1)
    }
}

// The slot with a number, counted from 0.
fn shape_slot(shape: Shape, i: usize) -> Option<Slot>
    ensures { result ≡ slice_get (shape_slots shape) i }
{
    match shape {
        Shape::Connect => fixed_slot(&CONNECT, i),
        Shape::Disconnect => (i == 0).then_some(fixed(PartName::Channel, 1)),
        Shape::Data => match i {
            0 => Some(fixed(PartName::Channel, 1)),
            1 => Some(rest_slot(PartName::Data, 1)),
            _ => None,
        },
        Shape::Request => (i == 0).then_some(rest_slot(PartName::Text, 1)),
        Shape::Response { skip, len } => (i == 0).then_some(Slot {
            pass: Span::Exactly(skip),
            name: PartName::Text,
            len: Span::Exactly(len),
        }),
        Shape::Bare => None,
        Shape::Event { fields, but } => event_slot(fields, but, i),
        Shape::Binary { fields, but } => binary_slot(fields, but, i),
    }
}

// How many slots there are.
#[tactic(auto, using(crate::proofs::SlotLaws::counted))]
fn shape_count(shape: Shape) -> usize
    ensures count { result ≡ length (shape_slots shape) }
    ensures few { result < 512 }
{
    match shape {
        Shape::Connect => CONNECT.len(),
        Shape::Data => 2,
        Shape::Disconnect | Shape::Request | Shape::Response { .. } => 1,
        Shape::Bare => 0,
        Shape::Event { fields, .. } => usize::from(fields) + 1,
        Shape::Binary { fields, .. } => usize::from(fields) + 4,
    }
}

// The slot with a number, counted from 0. A frame has the last byte after those of its payload.
#[tactic(auto, using(crate::proofs::SlotLaws::framed), unfolding(crate::specs::Slot::slots_of))]
pub(crate) fn slot_at(framed: bool, shape: Shape, i: usize) -> Option<Slot>
    ensures slot { result ≡ slice_get (slots_of framed shape) i }
    ensures few { OnSome result (i < 1024) }
{
    let n = shape_count(shape);
    if !framed {
        return shape_slot(shape, i);
    }
    let Some(j) = i.checked_sub(HEAD.len()) else {
        return fixed_slot(&HEAD, i);
    };
    if j == n {
        Some(END)
    } else {
        shape_slot(shape, j)
    }
}

// The fields of an accepted input, one after the other: a walk by value.
ghost use Rattle.std.specs.Prelude.{◌≡◌};
ghost use Rattle.checks.specs.Part.{left, shown};

use crate::slot::slot_at;
use text::bytes::part;

// What a field is. An event's fields are counted from 1.
#[derive(Clone, Copy)]
pub enum PartName {
    StartByte,
    Length,
    Identifier,
    Channel,
    ConnectType,
    Protocol,
    RemoteAddress,
    RemotePort,
    LocalAddress,
    LocalPort,
    Data,
    Text,
    Name,
    Field(u8),
    Marker,
    DataLength,
    EndByte,
}

// What an accepted input consists of. `but` is how many bytes of the input follow the text, or the data of a binary event.
#[derive(Clone, Copy)]
pub enum Shape {
    Connect,
    Disconnect,
    Data,
    Request,
    Response { skip: usize, len: usize },
    Bare,
    Event { fields: u8, but: usize },
    Binary { fields: u8, but: usize },
}

// The walk stands at a place of the input, before the slot of its turn. `framed` is a flag, since `left` (specs/Part.antt) cuts by it any shape.
#[derive(Clone, Copy)]
pub struct PartWalk {
    pub framed: bool,
    pub shape: Shape,
    pub turn: usize,
    pub at: usize,
}

// A field of `len` bytes from `start` on, and the walk that remains.
#[derive(Clone, Copy)]
pub struct PartStep {
    pub name: PartName,
    pub start: usize,
    pub len: usize,
    pub rest: PartWalk,
}

impl PartWalk {
    // The walk over all fields of an input that starts at a place.
    pub(crate) fn over(framed: bool, shape: Shape, at: usize) -> Self
        ensures { result ≡ record { framed = framed; shape = shape; turn = 0; at = at } }
    {
        Self {
            framed,
            shape,
            turn: 0,
            at,
        }
    }

    // The next field of the input `s`.
    #[tactic(auto, using(crate::proofs::SlotLaws::walked))]
    pub fn next(self, s: &[u8]) -> Option<PartStep>
        ensures { shown s.now result ≡ left s.now self }
    {
        let slot = slot_at(self.framed, self.shape, self.turn)?;
        let t = part(s, self.at, s.len());
        let over = slot.pass.of(t);
        let len = slot.len.of(part(t, over, t.len()));
        let start = self.at + over;
        Some(PartStep {
            name: slot.name,
            start,
            len,
            rest: Self {
                turn: self.turn + 1,
                at: start + len,
                ..self
            },
        })
    }
}

// The true reason: which check of document 01 refused a frame, a line or a response, and at which byte; or, of an accepted one, which bytes each
// field came from. Every place counts from the start of the slice that was lent.
#![tactic(auto)]

ghost use Rattle.std.specs.Prelude.{◌≡◌};

pub mod binary;
mod field;
pub mod frame;
mod line;
pub mod part;
pub mod refusal;
pub mod response;
mod slot;
pub mod w26;
pub mod w36;

use crate::part::PartWalk;

// The checks of document 01 by name, in its order: of frames, of lines, of responses, of binary events. A field is counted from 1.
#[derive(Clone, Copy, PartialEq, Eq)]
pub enum CheckName {
    FrameOfTwo,
    StartByte,
    EndByte,
    FrameOfSix,
    FrameLength,
    Identifier,
    ConnectOfTwo,
    ConnectType,
    ConnectSize,
    DisconnectSize,
    DataChannel,
    RequestUtf8,
    Utf8,
    LineOfTwo,
    PlaceTwo,
    LineEnd,
    EventName,
    FieldThere(u8),
    FieldEmpty(u8),
    FieldByte(u8),
    FieldLarge(u8),
    FieldListed(u8),
    FieldType(u8),
    FirstLineEnd,
    LastLineEnd,
    Marker,
    LengthBytes,
    DataBytes,
}

// What a reader accepted, and the walk over the fields that it came from.
#[derive(Clone, Copy)]
pub struct Accepted<A> {
    pub answer: A,
    pub fields: PartWalk,
}

// Why a reader refused, the check that does not hold, and the byte that shows it.
#[derive(Clone, Copy)]
pub struct Refused<E> {
    pub error: E,
    pub check: CheckName,
    pub byte: usize,
}

// The check that does not hold, and the byte that shows it.
#[derive(Clone, Copy)]
pub(crate) struct Reason {
    pub check: CheckName,
    pub byte: usize,
}

impl CheckName {
    // This check, which does not hold, and the byte that shows it.
    fn shown_at(self, byte: usize) -> Reason
        ensures { result ≡ record { check = self; byte = byte } }
    {
        Reason { check: self, byte }
    }
}

impl Reason {
    // The refusal that has this reason.
    fn refuses<E>(self, error: E) -> Refused<E>
        ensures { result ≡ record { error = error; check = self.check; byte = self.byte } }
    {
        Refused {
            error,
            check: self.check,
            byte: self.byte,
        }
    }
}

// Answers with the field that a refusal carries, and with the reason.
ghost use Rattle.std.specs.Prelude.{◌++◌};
ghost use Rattle.at.specs.Refusal as events;
ghost use Rattle.at.specs.Refusal.{answered};
ghost use Rattle.at.specs.Event.{read_as};
ghost use Rattle.at.specs.W36.{shown_binary};
ghost use Rattle.edm.specs.Refusal as frames;
ghost use Rattle.edm.specs.Packet.{shown};
ghost use Rattle.render.specs.Print.{Prints};
ghost use Rattle.render.specs.Why.{reason_word, field_word, carried_line, why_line, why_tried_line, why_frame_line};

use crate::event::RadioEvent;
use crate::word::{number, word};
use at::w36::ATEvent;
use at::{AtPacketError, FieldError, ReadEvent};
use edm::{EdmPacket, EdmPacketError};
use text::number::NumberError;

fn reason(buf: &mut [u8], at: usize, why: FieldError) -> usize
    ensures { Prints buf.old at (reason_word why) result buf.new }
{
    match why {
        FieldError::NoNumber(NumberError::Empty) => word(buf, at, b" empty"),
        FieldError::NoNumber(NumberError::Byte) => word(buf, at, b" byte"),
        FieldError::NoNumber(NumberError::Large) => word(buf, at, b" large"),
        FieldError::NotListed => word(buf, at, b" list"),
    }
}

fn field_number(buf: &mut [u8], at: usize, field: u8) -> usize
    ensures { Prints buf.old at (field_word field) result buf.new }
{
    let at = word(buf, at, b" field ");
    number(buf, at, field as u64)
}

fn wrong_field(buf: &mut [u8], at: usize, field: u8, why: FieldError) -> usize
    ensures { Prints buf.old at (field_word field ++ reason_word why) result buf.new }
{
    let at = field_number(buf, at, field);
    reason(buf, at, why)
}

// What a refusal carries; the others carry nothing.
fn of_at(buf: &mut [u8], at: usize, e: AtPacketError) -> usize
    ensures { Prints buf.old at (carried_line (events.refusal_of e)) result buf.new }
{
    match e {
        AtPacketError::TypeDecodeParameterMissing { field } => field_number(buf, at, field),
        AtPacketError::TypeDecodeParameterDataTypeInvalid { field, why } => {
            wrong_field(buf, at, field, why)
        }
        _ => at,
    }
}

fn of_frame(buf: &mut [u8], at: usize, e: EdmPacketError) -> usize
    ensures { Prints buf.old at (carried_line (frames.refusal_of e)) result buf.new }
{
    match e {
        EdmPacketError::AtPacketError(inner) => of_at(buf, at, inner),
        _ => at,
    }
}

pub fn event<E: RadioEvent>(
    buf: &mut [u8],
    at: usize,
    src: &[u8],
    a: Result<ReadEvent<E>, AtPacketError>,
) -> usize
    ensures { Prints buf.old at (why_line E.cases src.now (answered (read_as E.says) a)) result buf.new }
{
    let at = crate::event::answer(buf, at, src, a);
    match a {
        Ok(_) => at,
        Err(e) => of_at(buf, at, e),
    }
}

pub fn binary(
    buf: &mut [u8],
    at: usize,
    src: &[u8],
    a: Result<Option<ReadEvent<ATEvent>>, AtPacketError>,
) -> usize
    ensures { Prints buf.old at (why_tried_line src.now (shown_binary a)) result buf.new }
{
    let at = crate::w36::binary_answer(buf, at, src, a);
    match a {
        Ok(_) => at,
        Err(e) => of_at(buf, at, e),
    }
}

pub fn frame(buf: &mut [u8], at: usize, src: &[u8], a: Result<EdmPacket, EdmPacketError>) -> usize
    ensures { Prints buf.old at (why_frame_line src.now (shown a)) result buf.new }
{
    let at = crate::frame::answer(buf, at, src, a);
    match a {
        Ok(_) => at,
        Err(e) => of_frame(buf, at, e),
    }
}

// The fields of an event: where one starts, and the check that its wrong form breaks.
ghost use Rattle.std.specs.Prelude.{◌≡◌, ◌+◌, ◌-◌, length, drop};
ghost use Rattle.text.specs.FieldSteps.{left};
ghost use Rattle.at.specs.Refusal.{refusal_of};
ghost use Rattle.at.specs.Line.{fields_after};
ghost use Rattle.checks.specs.Steps.{told, start_no, form_check, text_reason};

use crate::{CheckName, Reason};
use at::{AtPacketError, FieldError};
use text::bytes::part;
use text::find::first_byte;
use text::number::NumberError;
use text::walk::field_at;

fn form_check(field: u8, why: FieldError) -> CheckName
    ensures { result ≡ form_check field why }
{
    match why {
        FieldError::NoNumber(NumberError::Empty) => CheckName::FieldEmpty(field),
        FieldError::NoNumber(NumberError::Byte) => CheckName::FieldByte(field),
        FieldError::NoNumber(NumberError::Large) => CheckName::FieldLarge(field),
        FieldError::NotListed => CheckName::FieldListed(field),
    }
}

// Where the field with a number starts, of those from `start` on; the first has the number 1.
fn nth_start(s: &[u8], start: usize, field: u8) -> usize
    ensures { result ≡ start_no (field - 1) (left s.now (record { at = start })) }
{
    let mut at = start;
    for _ in 1..field {
        let Some(next) = field_at(s, at) else {
            return 0;
        };
        at = next.rest.at;
    }
    match field_at(s, at) {
        Some(next) => next.start,
        None => 0,
    }
}

// Where the fields of a text begin, which goes from `start` to the end of `s`: after its first colon, or past the end.
#[tactic(auto, using(crate::proofs::StartLaws::colons))]
pub(crate) fn fields_after(s: &[u8], start: usize) -> usize
    ensures { left s.now (record { at = result }) ≡ fields_after start (drop start s.now) }
{
    first_byte(s, start, b':').unwrap_or(s.len()) + 1
}

// The reason for which a text is refused, which goes from `start` to the end of `s` and has its fields from `at` on.
#[tactic(auto, using(crate::proofs::StartLaws::cuts))]
pub(crate) fn text_reason(s: &[u8], start: usize, at: usize, e: AtPacketError) -> Reason
    ensures { told result (refusal_of e) ≡ text_reason start (start + length (drop start s.now)) (left s.now (record { at = at })) (refusal_of e) }
{
    match e {
        AtPacketError::TypeDecodeParameterMissing { field } => CheckName::FieldThere(
            field,
        ).shown_at(start + part(s, start, s.len()).len()),
        AtPacketError::TypeDecodeParameterDataTypeInvalid { field, why } => form_check(
            field, why,
        ).shown_at(nth_start(s, at, field)),
        AtPacketError::EventUnknown => CheckName::EventName.shown_at(start),
        // The type of a peer stands in the second field. The last two are not said of a text.
        AtPacketError::TypeDecodeUnsupported
        | AtPacketError::Utf8DecodeFailed
        | AtPacketError::FramingDecodeFailed => CheckName::FieldType(2).shown_at(nth_start(
            s, at, 2,
        )),
    }
}

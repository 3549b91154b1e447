// The reason for which an event line is refused, for either radio.
ghost use Rattle.std.specs.Prelude.{◌≡◌, ◌+◌, ◌≤◌, ◌⊎◌, List, length, take, drop};
ghost use Rattle.at.specs.Refusal.{Refusal, refusal_of, answered};
ghost use Rattle.at.specs.Event.{Event, Row, read_as};
ghost use Rattle.at.specs.Line.{Radio, read_line};
ghost use Rattle.at.specs.Parts.{Apart};
ghost use Rattle.at.specs.W26.{w26};
ghost use Rattle.at.specs.W36.{w36};
ghost use Rattle.checks.specs.Line.{inner, line_checks};
ghost use Rattle.checks.specs.Part.{event_shape, line_shape, parts_by};
ghost use Rattle.checks.specs.Explained.{Explains, shown};
ghost use Rattle.checks.specs.Steps.{told, framing_reason, line_reason};

use crate::field::{fields_after, text_reason};
use crate::part::{PartWalk, Shape};
use crate::{Accepted, CheckName, Reason, Refused};
use at::parts::Parts;
use at::{AtPacketError, ReadEvent};
use text::bytes::part;
use text::utf8::{inside_character, valid_up_to};

// An event of a radio, and what differs between the radios: how a line is read, and what is kept of it.
pub(crate) trait Line: Copy {
    ghost radio: { Radio };

    ghost event_of: { Self → Event };

    // The rows of the table by which an event is taken apart.
    ghost rows: { List Row };

    // The line that starts at `from`.
    fn read(s: &[u8], from: usize) -> Result<ReadEvent<Self>, AtPacketError>
        ensures { answered (read_as event_of) result ≡ read_line radio from (drop from s.now) };

    fn parts(self) -> Parts
        ensures { Apart rows (event_of self) result };

    // Where the text of the line that starts at `from` ends.
    fn text_end(s: &[u8], from: usize) -> usize
        ensures { 2 ≤ length (drop from s.now) → drop (from + 2) (take result s.now) ≡ radio.kept (inner (drop from s.now)) };

    ghost known: { (radio ≡ w26) ⊎ (radio ≡ w36) };
}

// The line that starts at `from` and is refused with 12.
#[tactic(auto, using(crate::proofs::StartLaws::cuts), unfolding(crate::specs::Steps::framing_reason))]
fn framing_reason(s: &[u8], from: usize) -> Reason
    ensures { (n : Refusal) → told result n ≡ framing_reason from (drop from s.now) n }
{
    let line = part(s, from, s.len());
    if line.len() < 2 {
        CheckName::LineOfTwo.shown_at(from + line.len())
    } else if inside_character(line, 2) {
        CheckName::PlaceTwo.shown_at(from + 2)
    } else {
        CheckName::LineEnd.shown_at(from + line.len())
    }
}

// The line that starts at `from`.
#[tactic(auto, using(crate::proofs::StartLaws::cuts), unfolding(crate::specs::Steps::line_reason))]
pub(crate) fn line_reason<E: Line>(s: &[u8], from: usize, e: AtPacketError) -> Reason
    ensures { told result (refusal_of e) ≡ line_reason from (drop from s.now) (E.radio.kept (inner (drop from s.now))) (refusal_of e) }
{
    let line = part(s, from, s.len());
    match e {
        AtPacketError::Utf8DecodeFailed => CheckName::Utf8.shown_at(from + valid_up_to(line)),
        AtPacketError::FramingDecodeFailed => framing_reason(s, from),
        _ if line.len() < 2 => framing_reason(s, from),
        _ => {
            let text = part(s, 0, E::text_end(s, from));
            text_reason(text, from + 2, fields_after(text, from + 2), e)
        }
    }
}

// The shape of a line whose text is followed by `but` bytes.
#[tactic(auto, using(crate::proofs::SlotLaws::shapes))]
pub(crate) fn shape_of<E: Line>(event: E, but: usize) -> Shape
    ensures { result ≡ event_shape but (E.event_of event) }
{
    Shape::Event {
        fields: event.parts().value_count() as u8,
        but,
    }
}

// The line that starts at `from`.
pub(crate) fn explain_line<E: Line>(
    s: &[u8],
    from: usize,
) -> Result<Accepted<ReadEvent<E>>, Refused<AtPacketError>>
    ensures { Explains (line_checks E.radio from (drop from s.now)) (read_line E.radio from (drop from s.now)) (λ e. parts_by (line_shape (length s.now) e) s.now from) (shown (read_as E.event_of) refusal_of s.now result) }
{
    match E::read(s, from) {
        Ok(answer) => {
            let shape = shape_of(answer.event, (s.len() + 2).saturating_sub(answer.past));
            Ok(Accepted {
                answer,
                fields: PartWalk::over(false, shape, from),
            })
        }
        Err(error) => Err(line_reason::<E>(s, from, error).refuses(error)),
    }
}

// W36 binary events.
ghost use Rattle.std.specs.Prelude.{◌≡◌, ◌+◌, length, drop};
ghost use Rattle.at.specs.Refusal.{Refusal, refusal_of};
ghost use Rattle.at.specs.Event.{event_to};
ghost use Rattle.at.specs.Binary.{try_rows};
ghost use Rattle.at.specs.W36.{binary_table, event_of};
ghost use Rattle.checks.specs.Binary.{binary_checks};
ghost use Rattle.checks.specs.Part.{binary_shape, parts_by};
ghost use Rattle.checks.specs.Explained.{ExplainsBinary, shown_binary};
ghost use Rattle.checks.specs.Steps.{told, data_reason, body_reason, binary_reason};

use crate::field::text_reason;
use crate::part::{PartWalk, Shape};
use crate::{Accepted, CheckName, Reason, Refused};
use at::parts::Parts;
use at::w36::{ATEvent, try_parse_binary};
use at::{AtPacketError, ReadEvent};
use text::bytes::{part, starts_at};
use text::find::first_byte;
use text::utf8::valid_up_to;

// The shape of an event that ends at `past` of an input of `n` bytes. Its data is the last of its values.
#[tactic(auto, using(crate::proofs::SlotLaws::shapes))]
fn shape_of(event: ATEvent, n: usize, past: usize) -> Shape
    ensures { result ≡ binary_shape n (event_to (event_of event) past) }
{
    Shape::Binary {
        fields: Parts::from(event).value_count().saturating_sub(1) as u8,
        but: n.saturating_sub(past),
    }
}

// The bytes after the marker, of an input that ends at `end`.
#[tactic(auto, unfolding(crate::specs::Steps::data_reason))]
fn data_reason(t: &[u8], end: usize) -> Reason
    ensures { (n : Refusal) → told result n ≡ data_reason end t.now n }
{
    if t.len() < 2 {
        CheckName::LengthBytes.shown_at(end)
    } else {
        CheckName::DataBytes.shown_at(end)
    }
}

// What follows the colon, from `start` on.
#[tactic(auto, using(crate::proofs::StartLaws::cuts))]
fn body_reason(s: &[u8], start: usize, e: AtPacketError) -> Reason
    ensures { told result (refusal_of e) ≡ body_reason start (drop start s.now) (refusal_of e) }
{
    let t = part(s, start, s.len());
    let end = start + t.len();
    let Some(m) = first_byte(t, 0, 1) else {
        return CheckName::Marker.shown_at(end);
    };
    match e {
        AtPacketError::Utf8DecodeFailed => CheckName::Utf8.shown_at(
            start + valid_up_to(part(t, 0, m)),
        ),
        AtPacketError::FramingDecodeFailed => data_reason(part(t, m + 1, t.len()), end),
        _ => text_reason(part(s, 0, start + m), start, start, e),
    }
}

// The event that starts at `from`, by its name.
fn reason_of(s: &[u8], from: usize, e: AtPacketError) -> Reason
    ensures { told result (refusal_of e) ≡ binary_reason binary_table from (drop from s.now) (refusal_of e) }
{
    if starts_at(s, from, b"\r\n+UESODB:") {
        body_reason(s, from + 10, e)
    } else if starts_at(s, from, b"\r\n+UESODBF:") {
        body_reason(s, from + 11, e)
    } else {
        CheckName::Marker.shown_at(from)
    }
}

// The event that starts at `from`; `None` where no binary event does.
pub fn explain(
    s: &[u8],
    from: usize,
) -> Result<Option<Accepted<ReadEvent<ATEvent>>>, Refused<AtPacketError>>
    ensures { ExplainsBinary (binary_checks binary_table from (drop from s.now)) (try_rows binary_table from (drop from s.now)) (λ e. parts_by (binary_shape (length s.now) e) s.now from) (shown_binary s.now result) }
{
    match try_parse_binary(s, from) {
        Ok(None) => Ok(None),
        Ok(Some(answer)) => {
            let shape = shape_of(answer.event, s.len(), answer.past);
            Ok(Some(Accepted {
                answer,
                fields: PartWalk::over(false, shape, from),
            }))
        }
        Err(error) => Err(reason_of(s, from, error).refuses(error)),
    }
}

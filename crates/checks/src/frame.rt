// EDM frames.
ghost use Rattle.std.specs.Prelude.{◌≡◌, ◌+◌, ◌*◌, cond, length};
ghost use Rattle.at.specs.Refusal.{Refusal, refusal_of as atRefusal};
ghost use Rattle.edm.specs.Refusal.{refusal_of};
ghost use Rattle.edm.specs.Packet.{packet_of};
ghost use Rattle.edm.specs.Payload.{byte as byteIn, word};
ghost use Rattle.edm.specs.Frame.{payload as payloadIn, read_frame};
ghost use Rattle.checks.specs.Frame.{carried_by, frame_checks};
ghost use Rattle.checks.specs.Part.{packet_shape, frame_parts};
ghost use Rattle.checks.specs.Explained.{Explains, shown_frame};
ghost use Rattle.checks.specs.Steps.{told, is_connect, is_response, delimiter_reason, size_reason, at_reason, frame_reason};

use crate::line::{self, line_reason};
use crate::part::{PartWalk, Shape};
use crate::response::{self, response_reason};
use crate::{Accepted, CheckName, Reason, Refused};
use at::AtPacketError;
use at::w26::ATEvent;
use edm::frame::read;
use edm::{EdmPacket, EdmPacketError};
use text::bytes::part;
use text::utf8::valid_up_to;

// The byte at a place; 0 past the end.
fn byte(s: &[u8], i: usize) -> u8
    ensures { result ≡ byteIn s.now i }
{
    s.get(i).copied().unwrap_or(0)
}

fn identifier(s: &[u8]) -> u16
    ensures { result ≡ word s.now 3 }
{
    u16::from_be_bytes([byte(s, 3), byte(s, 4)])
}

#[tactic(auto, using(crate::proofs::PlaceLaws::payloads))]
fn payload(s: &[u8]) -> &[u8]
    ensures { result.now ≡ payloadIn s.now }
{
    part(part(s, 0, s.len().saturating_sub(1)), 5, s.len())
}

// No AA first, no 55 last, or not even two bytes.
#[tactic(auto, unfolding(crate::specs::Steps::delimiter_reason))]
fn delimiter_reason(s: &[u8]) -> Reason
    ensures { (n : Refusal) → told result n ≡ delimiter_reason s.now n }
{
    let n = s.len();
    if n < 2 {
        CheckName::FrameOfTwo.shown_at(n)
    } else if s[0] == 0xAA {
        CheckName::EndByte.shown_at(n - 1)
    } else {
        CheckName::StartByte.shown_at(0)
    }
}

// A frame, or the payload of a connect or a data event, that is too short.
#[tactic(auto, unfolding(crate::specs::Steps::size_reason))]
fn size_reason(s: &[u8]) -> Reason
    ensures { (n : Refusal) → told result n ≡ size_reason s.now n }
{
    let n = s.len();
    if n < 6 {
        return CheckName::FrameOfSix.shown_at(n);
    }
    let byte = 5 + payload(s).len();
    match identifier(s) {
        0x0011 => CheckName::ConnectOfTwo.shown_at(byte),
        _ => CheckName::DataChannel.shown_at(byte),
    }
}

// A response or a W26 line that the AT layer refuses.
fn at_reason(s: &[u8], e: AtPacketError) -> Reason
    ensures { told result (atRefusal e) ≡ at_reason s.now (atRefusal e) }
{
    let t = part(s, 0, s.len().saturating_sub(1));
    match identifier(s) {
        0x0045 => response_reason(t, 5, e),
        _ => line_reason::<ATEvent>(t, 5, e),
    }
}

#[tactic(auto, using(crate::proofs::StartLaws::cuts), unfolding(crate::specs::Steps::frame_reason))]
fn reason_of(s: &[u8], e: EdmPacketError) -> Reason
    ensures { told result (refusal_of e) ≡ frame_reason s.now (refusal_of e) }
{
    let t = payload(s);
    let end = 5 + t.len();
    match e {
        EdmPacketError::PacketDecodeFramingInvalid => delimiter_reason(s),
        EdmPacketError::PacketDecodeTargetMemorySizeInvalid => size_reason(s),
        EdmPacketError::PacketTypeDecodeLengthMismatch => CheckName::FrameLength.shown_at(1),
        EdmPacketError::PayloadTypeUnknown => CheckName::Identifier.shown_at(3),
        EdmPacketError::ConnectEventUnsupported => CheckName::ConnectType.shown_at(6),
        EdmPacketError::ConnectEventDecodeError => CheckName::ConnectSize.shown_at(end),
        EdmPacketError::DisconnectEventDecodeError => CheckName::DisconnectSize.shown_at(end),
        EdmPacketError::AtRequestEventDecodeError => {
            CheckName::RequestUtf8.shown_at(5 + valid_up_to(t))
        }
        // No reader answers these two.
        EdmPacketError::PacketEncodeTypeUnknown | EdmPacketError::PacketEncodePayloadSizeInvalid =>
            CheckName::Identifier.shown_at(3),
        EdmPacketError::AtPacketError(a) => at_reason(s, a),
    }
}

fn shape_of(packet: EdmPacket) -> Shape
    ensures { result ≡ packet_shape (packet_of packet) }
{
    match packet {
        EdmPacket::ConnectEvent { .. } => Shape::Connect,
        EdmPacket::DisconnectEvent { .. } => Shape::Disconnect,
        EdmPacket::DataEvent { .. } | EdmPacket::DataCommand { .. } => Shape::Data,
        EdmPacket::ATRequest(_) => Shape::Request,
        EdmPacket::ATResponse(r) => response::shape_of(r, 5),
        EdmPacket::ATEvent(e) => line::shape_of(e, 3),
        EdmPacket::ResendConnectEvents | EdmPacket::StartEvent => Shape::Bare,
    }
}

pub fn explain(s: &[u8]) -> Result<Accepted<EdmPacket>, Refused<EdmPacketError>>
    ensures { Explains (frame_checks s.now) (read_frame s.now) (frame_parts s.now) (shown_frame s.now result) }
{
    match read(s) {
        Ok(answer) => Ok(Accepted {
            answer,
            fields: PartWalk::over(true, shape_of(answer), 0),
        }),
        Err(error) => Err(reason_of(s, error).refuses(error)),
    }
}

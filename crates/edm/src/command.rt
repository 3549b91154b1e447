// A command packet, written as an EDM frame.
ghost use Rattle.std.specs.Prelude.{◌≡◌, [], ◌∷◌, ◌++◌, ◌+◌, ◌≤◌, length, leb, true, false, MatchResult};
ghost use Rattle.text.specs.Bytes.{part as part_of};
ghost use Rattle.at.specs.Refusal.{good};
ghost use Rattle.edm.specs.Command.{command, request_of, room_of, to_send, to_write, Writes};

use crate::{Channel, EdmPacket, EdmPacketError};
use at::Text;
use text::bytes::{has_part, part};
use text::put::put;
use text::utf8::is_utf8;

// How many bytes of payload a buffer has room for, and at most 4,093.
fn room_in(buf: &[u8]) -> Result<usize, EdmPacketError>
    ensures { result ≡ room_of (length buf.now) }
{
    let room = buf
        .len()
        .checked_sub(6)
        .ok_or(EdmPacketError::PacketDecodeTargetMemorySizeInvalid)?;
    Ok(room.min(4093))
}

// The bytes of a place in the source.
fn in_source<'a>(src: &'a [u8], place: Text) -> Result<&'a [u8], EdmPacketError>
    ensures { MatchResult result (λ t. (leb (place.start + place.len) (length src.now) ≡ true) × (t.now ≡ part_of src.now place.start place.len)) (λ e. (leb (place.start + place.len) (length src.now) ≡ false) × (e ≡ EdmPacketError.PacketEncodePayloadSizeInvalid)) }
{
    if has_part(src, place.start, place.len) {
        Ok(part(src, place.start, place.len))
    } else {
        Err(EdmPacketError::PacketEncodePayloadSizeInvalid)
    }
}

// The frame of an identifier whose payload is `before`, `body` and `tail`.
fn write_frame(
    buf: &mut [u8],
    identifier: u8,
    before: &[u8],
    body: &[u8],
    tail: &[u8],
) -> Result<usize, EdmPacketError>
    requires { length before.now + length tail.now ≤ 1 }
    ensures { Writes buf.old (to_send (length buf.old) (good (command identifier (before.now ++ body.now ++ tail.now)))) result buf.new }
{
    let room = room_in(buf)?;
    let n = before.len() + body.len() + tail.len();
    if room < n {
        return Err(EdmPacketError::PacketEncodePayloadSizeInvalid);
    }
    let [high, low] = (n as u16 + 2).to_be_bytes();
    put(buf, 0, &[0xAA, high, low, 0, identifier]);
    put(buf, 5, before);
    put(buf, 5 + before.len(), body);
    put(buf, 5 + before.len() + body.len(), tail);
    put(buf, 5 + n, &[0x55]);
    Ok(n + 6)
}

// The frame of a data command.
pub fn write_data(buf: &mut [u8], channel: Channel, data: &[u8]) -> Result<usize, EdmPacketError>
    ensures { Writes buf.old (to_send (length buf.old) (good (command 0x36 (channel.0 ∷ «data».now)))) result buf.new }
{
    write_frame(buf, 0x36, &[channel.0], data, &[])
}

// The frame of an AT request.
pub fn write_request(buf: &mut [u8], text: &[u8]) -> Result<usize, EdmPacketError>
    ensures { Writes buf.old (to_send (length buf.old) (request_of text.now)) result buf.new }
{
    // Tested here too, since it goes before 8.
    room_in(buf)?;
    if !is_utf8(text) {
        return Err(EdmPacketError::AtRequestEventDecodeError);
    }
    write_frame(buf, 0x44, &[], text, b"\r")
}

// The frame that asks for the connect events again.
pub fn write_resend(buf: &mut [u8]) -> Result<usize, EdmPacketError>
    ensures { Writes buf.old (to_send (length buf.old) (good (command 0x56 []))) result buf.new }
{
    write_frame(buf, 0x56, &[], &[], &[])
}

// The frame of a command packet, whose text or data is a place in `src`.
pub fn write(buf: &mut [u8], src: &[u8], p: EdmPacket) -> Result<usize, EdmPacketError>
    ensures { Writes buf.old (to_write (length buf.old) src.now p) result buf.new }
{
    // Tested here too, since it goes before 9 and before a place past the end.
    room_in(buf)?;
    match p {
        EdmPacket::DataCommand { channel, data } => write_data(buf, channel, in_source(src, data)?),
        EdmPacket::ATRequest(t) => write_request(buf, in_source(src, t)?),
        EdmPacket::ResendConnectEvents => write_resend(buf),
        EdmPacket::ConnectEvent { .. }
        | EdmPacket::DisconnectEvent { .. }
        | EdmPacket::DataEvent { .. }
        | EdmPacket::ATResponse(_)
        | EdmPacket::ATEvent(_)
        | EdmPacket::StartEvent => Err(EdmPacketError::PacketEncodeTypeUnknown),
    }
}

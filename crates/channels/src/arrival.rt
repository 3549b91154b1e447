// What a frame says about a channel.
ghost use Rattle.std.specs.Prelude.{◌≡◌, get_or};
ghost use Rattle.edm.specs.Packet.{shown};
ghost use Rattle.edm.specs.Frame.{read_frame};
ghost use Rattle.channels.specs.Machine.{brings, four_bytes};
ghost use Rattle.channels.specs.Steps.{arrival_of, channel_of};

use crate::cell::Row;
use edm::{Channel, EdmPacket, EdmPacketError};
use text::bytes::part;

#[derive(Clone, Copy)]
pub(crate) enum Arrival {
    Connect(Channel, Row),
    Disconnect(Channel),
    Data(Channel),
    Other,
    Refused,
}

// The byte at a place, 0 past the end.
fn byte(s: &[u8], i: usize) -> u8
    ensures { result ≡ get_or s.now i 0 }
{
    s.get(i).copied().unwrap_or(0)
}

// Four bytes as a number, high first.
fn number(s: &[u8]) -> u64
    ensures { result ≡ four_bytes s.now }
{
    u64::from(u32::from_be_bytes([byte(s, 0), byte(s, 1), byte(s, 2), byte(s, 3)]))
}

// What a packet says; its places are in `s`.
fn brought(s: &[u8], a: Result<EdmPacket, EdmPacketError>) -> Arrival
    ensures { arrival_of result ≡ brings s.now (shown a) }
{
    let Ok(p) = a else {
        return Arrival::Refused;
    };
    match p {
        EdmPacket::ConnectEvent { channel, event } => {
            let t = event.remote_addr;
            let row = Row {
                kind: 2,
                high: 0,
                low: number(part(s, t.start, t.len)),
                port: event.remote_port,
            };
            Arrival::Connect(channel, row)
        }
        EdmPacket::DisconnectEvent { channel } => Arrival::Disconnect(channel),
        EdmPacket::DataEvent { channel, data: _ } => Arrival::Data(channel),
        EdmPacket::DataCommand {
            channel: _,
            data: _,
        } => Arrival::Other,
        EdmPacket::ATRequest(_) => Arrival::Other,
        EdmPacket::ATResponse(_) => Arrival::Other,
        EdmPacket::ATEvent(_) => Arrival::Other,
        EdmPacket::ResendConnectEvents => Arrival::Other,
        EdmPacket::StartEvent => Arrival::Other,
    }
}

pub(crate) fn read(s: &[u8]) -> Arrival
    ensures { arrival_of result ≡ brings s.now (read_frame s.now) }
{
    brought(s, edm::frame::read(s))
}

// The channel that an arrival is about, or 0, whose row then stays as it is.
pub(crate) fn channel_of(a: Arrival) -> u8
    ensures { result ≡ channel_of (arrival_of a) }
{
    match a {
        Arrival::Connect(c, _) => c.0,
        Arrival::Disconnect(c) => c.0,
        Arrival::Data(c) => c.0,
        Arrival::Other => 0,
        Arrival::Refused => 0,
    }
}

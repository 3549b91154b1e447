// Packets put into a row, and a command taken out of one.
ghost use Rattle.std.specs.Prelude.{◌≡◌, [], ◌∷◌, ◌+◌, ◌≤◌, length};
ghost use Rattle.at.specs.Event.{num, at as place_of};
ghost use Rattle.edm.specs.Packet as edm-packet;
ghost use Rattle.abi.specs.Row.{packet_numbers, values_numbers, over};
ghost use Rattle.abi.specs.Given.{text_at, data_command_in, of_identifier, packet_in};
ghost use Rattle.abi.specs.Steps.{packet_of};

use crate::given::RowError;
use crate::row::{put, put_response, put_w26};
use at::Text;
use edm::{Channel, EdmPacket};

pub(crate) fn put_packet(row: &mut [u64], p: EdmPacket)
    requires { 17 ≤ length row.old }
    ensures { row.new ≡ over row.old (0 ∷ packet_numbers (edm-packet.packet_of p)) }
{
    match p {
        EdmPacket::ConnectEvent { channel, event } => put(
            row,
            0,
            [
                0,
                0x11,
                u64::from(channel.0),
                u64::from(event.protocol),
                event.remote_addr.start as u64,
                event.remote_addr.len as u64,
                u64::from(event.remote_port),
                event.local_addr.start as u64,
                event.local_addr.len as u64,
                u64::from(event.local_port),
            ],
        ),
        EdmPacket::DisconnectEvent { channel } => put(row, 0, [0, 0x21, u64::from(channel.0)]),
        EdmPacket::DataEvent { channel, data } => put_data(row, 0x31, channel, data),
        EdmPacket::DataCommand { channel, data } => put_data(row, 0x36, channel, data),
        EdmPacket::ATRequest(t) => put(row, 0, [0, 0x44, t.start as u64, t.len as u64]),
        EdmPacket::ATResponse(a) => {
            put(row, 0, [0, 0x45]);
            put_response(row, 2, a)
        }
        EdmPacket::ATEvent(e) => {
            put(row, 0, [0, 0x41]);
            put_w26(row, 2, e);
        }
        EdmPacket::ResendConnectEvents => put(row, 0, [0, 0x56]),
        EdmPacket::StartEvent => put(row, 0, [0, 0x71]),
    }
}

fn put_data(row: &mut [u64], identifier: u64, channel: Channel, t: Text)
    requires { 17 ≤ length row.old }
    ensures { row.new ≡ over row.old (0 ∷ identifier ∷ values_numbers (num channel.0 ∷ place_of t ∷ [])) }
{
    put(
        row,
        0,
        [
            0,
            identifier,
            u64::from(channel.0),
            t.start as u64,
            t.len as u64,
        ],
    )
}

fn text_at(row: &[u64], at: usize) -> Text
    requires { at + 2 ≤ length row.now }
    ensures { result ≡ text_at row.now at }
{
    Text {
        start: row[at] as usize,
        len: row[at + 1] as usize,
    }
}

fn data_command(row: &[u64]) -> Result<EdmPacket, RowError>
    requires { 17 ≤ length row.now }
    ensures { packet_of result ≡ data_command_in row.now }
{
    let channel = u8::try_from(row[2]).map_err(|_| RowError::Invalid)?;
    Ok(EdmPacket::DataCommand {
        channel: Channel(channel),
        data: text_at(row, 3),
    })
}

// The packet of an identifier.
fn packet_by(row: &[u64], id: u64) -> Result<EdmPacket, RowError>
    requires { 17 ≤ length row.now }
    ensures { packet_of result ≡ of_identifier row.now id }
{
    match id {
        0x36 => data_command(row),
        0x44 => Ok(EdmPacket::ATRequest(text_at(row, 2))),
        0x56 => Ok(EdmPacket::ResendConnectEvents),
        0x11 | 0x21 | 0x31 | 0x41 | 0x45 | 0x71 => Ok(EdmPacket::StartEvent),
        _ => Err(RowError::Invalid),
    }
}

pub(crate) fn packet_in(row: &[u64]) -> Result<EdmPacket, RowError>
    ensures { packet_of result ≡ packet_in row.now }
{
    if row.len() < 17 {
        return Err(RowError::TooShort);
    }
    if row[0] != 0 {
        return Err(RowError::Invalid);
    }
    packet_by(row, row[1])
}

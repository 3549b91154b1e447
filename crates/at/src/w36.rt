// W36 AT events, in text and in binary.
ghost use Rattle.std.specs.Prelude.{◌≡◌, ◌<◌, length, drop};
ghost use Rattle.text.specs.FieldSteps.{left};
ghost use Rattle.at.specs.Refusal.{good};
ghost use Rattle.at.specs.Event.{up_to};
ghost use Rattle.at.specs.Line.{read_line, read_text};
ghost use Rattle.at.specs.Binary.{read_body, try_rows};
ghost use Rattle.at.specs.W36.{table, binary_table, rows36, w36, event_of, shown, shown_binary, UESODB as uesodb_row, UESODBF as uesodbf_row};
ghost use Rattle.at.specs.Table.{spelled};
ghost use Rattle.at.specs.Parts.{row_no, Apart};
ghost use Rattle.at.specs.Steps.{with_fields, read_found};

use crate::binary::{address_fields, data_at, find_marker, no_number};
use crate::field::{Field, take_fields};
use crate::line::{first_line_end, frame_line, head_of};
use crate::parts::Value::Place;
use crate::parts::{Parts, Value};
use crate::table::{letters, row_named};
use crate::w36_table::{TABLE, W36};
use crate::{AtPacketError, ReadEvent, SocketId, Text};
use text::bytes::{part, starts_at};
use text::field::Fields;
use text::find::first_byte;
use text::number::read as read_number;

#[derive(Clone, Copy)]
pub enum ATEvent {
    SocketConnected {
        socket_id: SocketId,
    },
    SocketClosed {
        socket_id: SocketId,
    },
    SocketDataAvailable {
        socket_id: SocketId,
        length: u16,
    },
    SocketDataBinary {
        socket_id: SocketId,
        data: Text,
    },
    SocketDataBinaryFrom {
        socket_id: SocketId,
        remote_ip: Text,
        remote_port: u16,
        data: Text,
    },
    WifiLinkUp {
        wlan_handle: u16,
        bssid: Text,
        channel: u16,
    },
    WifiLinkDown {
        wlan_handle: u16,
        reason: u16,
    },
    WifiAccessPointUp,
    WifiAccessPointDown,
    WifiAccessPointStationAssociated {
        mac_addr: Text,
    },
    WifiAccessPointStationDisassociated {
        mac_addr: Text,
    },
    StationNetworkUp,
    StationNetworkDown,
    AccessPointNetworkUp,
    AccessPointNetworkDown,
}

// The rows of the table, in its order: those of text, then those of binary.
const UESOC: usize = 0;

const UESOCL: usize = 1;

const UESODA: usize = 2;

const UEWLU: usize = 3;

const UEWLD: usize = 4;

const UEWAPSA: usize = 5;

const UEWAPSDA: usize = 6;

const UEWAPU: usize = 7;

const UEWAPD: usize = 8;

const UEWSNU: usize = 9;

const UEWSND: usize = 10;

const UEWAPNU: usize = 11;

const UEWAPND: usize = 12;

const UESODB: usize = 13;

const UESODBF: usize = 14;

// The same rows in bytes (table.rt), lent where they stand.
pub fn rows() -> &'static [u8]
    ensures { result.now ≡ spelled rows36 }
{
    &TABLE
}

// The event of a row of text, from the fields that were taken for it. No row comes to the last arm.
fn event_of(row: usize, fields: &[Field; 7]) -> ATEvent
    ensures { row < length table → good (event_of result) ≡ with_fields (row_no table row) fields.now }
{
    let first = fields[0];
    let second = fields[1];
    let third = fields[2];
    let socket_id = SocketId(first.byte());
    let wlan_handle = first.word();
    let number = second.word();
    let channel = third.word();
    let mac_addr = first.text();
    let bssid = second.text();
    match row {
        UESOC => ATEvent::SocketConnected { socket_id },
        UESOCL => ATEvent::SocketClosed { socket_id },
        UESODA => ATEvent::SocketDataAvailable {
            socket_id,
            length: number,
        },
        UEWLU => ATEvent::WifiLinkUp {
            wlan_handle,
            bssid,
            channel,
        },
        UEWLD => ATEvent::WifiLinkDown {
            wlan_handle,
            reason: number,
        },
        UEWAPSA => ATEvent::WifiAccessPointStationAssociated { mac_addr },
        UEWAPSDA => ATEvent::WifiAccessPointStationDisassociated { mac_addr },
        UEWAPU => ATEvent::WifiAccessPointUp,
        UEWAPD => ATEvent::WifiAccessPointDown,
        UEWSNU => ATEvent::StationNetworkUp,
        UEWSND => ATEvent::StationNetworkDown,
        UEWAPNU => ATEvent::AccessPointNetworkUp,
        UEWAPND => ATEvent::AccessPointNetworkDown,
        _ => ATEvent::StationNetworkUp,
    }
}

// The row of an event and its values, of a binary event the data last.
impl From<ATEvent> for Parts {
    ghost from_gives = { λ e p. Apart rows36 (event_of e) p };

    fn from(e: ATEvent) -> Self {
        match e {
            ATEvent::SocketConnected { socket_id } => Self::new(UESOC, [Value::from(socket_id.0)]),
            ATEvent::SocketClosed { socket_id } => Self::new(UESOCL, [Value::from(socket_id.0)]),
            ATEvent::SocketDataAvailable { socket_id, length } => {
                Self::new(UESODA, [Value::from(socket_id.0), Value::from(length)])
            }
            ATEvent::WifiLinkUp {
                wlan_handle,
                bssid,
                channel,
            } => Self::new(
                UEWLU,
                [Value::from(wlan_handle), Place(bssid), Value::from(channel)],
            ),
            ATEvent::WifiLinkDown {
                wlan_handle,
                reason,
            } => Self::new(UEWLD, [Value::from(wlan_handle), Value::from(reason)]),
            ATEvent::WifiAccessPointStationAssociated { mac_addr } => Self::new(
                UEWAPSA,
                [Place(mac_addr)],
            ),
            ATEvent::WifiAccessPointStationDisassociated { mac_addr } => Self::new(
                UEWAPSDA,
                [Place(mac_addr)],
            ),
            ATEvent::WifiAccessPointUp => Self::new(UEWAPU, []),
            ATEvent::WifiAccessPointDown => Self::new(UEWAPD, []),
            ATEvent::StationNetworkUp => Self::new(UEWSNU, []),
            ATEvent::StationNetworkDown => Self::new(UEWSND, []),
            ATEvent::AccessPointNetworkUp => Self::new(UEWAPNU, []),
            ATEvent::AccessPointNetworkDown => Self::new(UEWAPND, []),
            ATEvent::SocketDataBinary { socket_id, data } => {
                Self::new(UESODB, [Value::from(socket_id.0), Place(data)])
            }
            ATEvent::SocketDataBinaryFrom {
                socket_id,
                remote_ip,
                remote_port,
                data,
            } => Self::new(
                UESODBF,
                [
                    Value::from(socket_id.0),
                    Place(remote_ip),
                    Value::from(remote_port),
                    Place(data),
                ],
            ),
        }
    }
}

// The event of a row, from its fields; `past` is the place just past it.
fn event_by(
    row: usize,
    s: &[u8],
    w: Fields,
    past: usize,
) -> Result<ReadEvent<ATEvent>, AtPacketError>
    requires { row < length table }
    ensures { shown result ≡ up_to past (read_found (row_no table row) (left s.now w)) }
{
    let mut fields = Field::none();
    take_fields(&mut fields, letters::<W36>(row), s, w)?;
    Ok(ReadEvent {
        event: event_of(row, &fields),
        past,
    })
}

// The event of the text from `start` to the end of `s`, as in w26.rt.
fn event_in(s: &[u8], start: usize, past: usize) -> Result<ReadEvent<ATEvent>, AtPacketError>
    ensures { shown result ≡ up_to past (read_text table start (drop start s.now)) }
{
    let h = head_of(s, start);
    let Some(row) = row_named::<W36>(part(s, start, h.len)) else {
        return Err(AtPacketError::EventUnknown);
    };
    event_by(row, s, h.fields, past)
}

// The text event of the line that starts at `from`: it ends with the next CR LF.
pub fn read(s: &[u8], from: usize) -> Result<ReadEvent<ATEvent>, AtPacketError>
    ensures { shown result ≡ read_line w36 from (drop from s.now) }
{
    let body = frame_line(s, from)?;
    let end = first_line_end(s, body.start);
    event_in(part(s, 0, end), body.start, end + 2)
}

// The event +UESODB whose one field starts at `start`: the whole text up to the marker, which no comma cuts. A number is UTF-8 as it stands.
fn socket_data(s: &[u8], start: usize) -> Result<ReadEvent<ATEvent>, AtPacketError>
    ensures { shown result ≡ read_body uesodb_row start (drop start s.now) }
{
    let Some(marker) = first_byte(s, start, 1) else {
        return Err(AtPacketError::FramingDecodeFailed);
    };
    let field = part(s, start, marker - start);
    let socket = match read_number::<u8>(field) {
        Ok(n) => n,
        Err(e) => return Err(no_number(field, e)),
    };
    let data = data_at(s, marker + 1)?;
    Ok(ReadEvent {
        event: ATEvent::SocketDataBinary {
            socket_id: SocketId(socket),
            data,
        },
        past: data.start + data.len,
    })
}

// The event +UESODBF whose fields start at `start`.
fn socket_data_from(s: &[u8], start: usize) -> Result<ReadEvent<ATEvent>, AtPacketError>
    ensures { shown result ≡ read_body uesodbf_row start (drop start s.now) }
{
    let len = find_marker(s, start)?;
    let address = address_fields(part(s, 0, start + len), start)?;
    let data = data_at(s, start + len + 1)?;
    Ok(ReadEvent {
        event: ATEvent::SocketDataBinaryFrom {
            socket_id: SocketId(address.socket),
            remote_ip: address.ip,
            remote_port: address.port,
            data,
        },
        past: data.start + data.len,
    })
}

// The binary event that starts at `from`; none where what starts there is not binary.
pub fn try_parse_binary(s: &[u8], from: usize) -> Result<Option<ReadEvent<ATEvent>>, AtPacketError>
    ensures { shown_binary result ≡ try_rows binary_table from (drop from s.now) }
{
    if starts_at(s, from, b"\r\n+UESODB:") {
        return Ok(Some(socket_data(s, from + 10)?));
    }
    if starts_at(s, from, b"\r\n+UESODBF:") {
        return Ok(Some(socket_data_from(s, from + 11)?));
    }
    Ok(None)
}

// W26 AT events.
ghost use Rattle.std.specs.Prelude.{◌≡◌, ◌<◌, false, cond, eqb, length, drop};
ghost use Rattle.text.specs.FieldSteps.{left};
ghost use Rattle.at.specs.Event.{up_to};
ghost use Rattle.at.specs.Line.{read_line, read_text};
ghost use Rattle.at.specs.W26.{table, w26, shown, profile_no, reason_no};
ghost use Rattle.at.specs.Table.{spelled};
ghost use Rattle.at.specs.Steps.{is_unsupported, read_peer};

use crate::field::{Field, take_fields};
use crate::line::{frame_line, head_of};
use crate::table::{letters, row_named};
use crate::w26_event::event_of;
use crate::w26_table::{TABLE, W26};
use crate::{AtPacketError, ConnHandle, PeerHandle, ReadEvent, Text};
use text::bytes::part;
use text::field::Fields;

#[derive(Clone, Copy)]
pub enum WifiLinkDisconnectedReason {
    Unknown,
    RemoteClose,
    OutOfRange,
    Roaming,
    SecurityProblems,
    NetworkDisabled,
}

impl From<WifiLinkDisconnectedReason> for u32 {
    ghost from_gives = { λ r n. n ≡ reason_no r };

    fn from(r: WifiLinkDisconnectedReason) -> u32 {
        match r {
            WifiLinkDisconnectedReason::Unknown => 0,
            WifiLinkDisconnectedReason::RemoteClose => 1,
            WifiLinkDisconnectedReason::OutOfRange => 2,
            WifiLinkDisconnectedReason::Roaming => 3,
            WifiLinkDisconnectedReason::SecurityProblems => 4,
            WifiLinkDisconnectedReason::NetworkDisabled => 5,
        }
    }
}

#[derive(Clone, Copy)]
pub enum PeerConnectedProfile {
    TCP,
    UDP,
    MQTT,
}

impl From<PeerConnectedProfile> for u32 {
    ghost from_gives = { λ p n. n ≡ profile_no p };

    fn from(p: PeerConnectedProfile) -> u32 {
        match p {
            PeerConnectedProfile::TCP => 1,
            PeerConnectedProfile::UDP => 2,
            PeerConnectedProfile::MQTT => 6,
        }
    }
}

#[derive(Clone, Copy)]
pub enum ATEvent {
    PeerConnectedIP {
        peer_handle: PeerHandle,
        is_ipv6: bool,
        protocol: PeerConnectedProfile,
        local_address: Text,
        local_port: u16,
        remote_address: Text,
        remote_port: u16,
    },
    PeerDisconnected {
        peer_handle: PeerHandle,
    },
    WifiLinkConnected {
        conn_id: u16,
        bssid: Text,
        channel: u16,
    },
    WifiLinkDisconnected {
        conn_id: u16,
        reason: WifiLinkDisconnectedReason,
    },
    WifiAccessPointUp {
        id: u16,
    },
    WifiAccessPointDown {
        id: u16,
    },
    WifiAccessPointStationConnected {
        id: u16,
        mac_addr: Text,
    },
    WifiAccessPointStationDisconnected {
        id: u16,
    },
    EthernetLinkUp,
    EthernetLinkDown,
    NetworkUp {
        interface_id: u16,
    },
    NetworkDown {
        interface_id: u16,
    },
    NetworkError {
        interface_id: u16,
        code: u16,
    },
    DataAvailable {
        peer: PeerHandle,
        length: u16,
    },
    PeerConnectedBluetooth {
        peer_handle: PeerHandle,
        profile: u8,
        address: Text,
        frame_size: u16,
    },
    BondEvent {
        bd_addr: Text,
        status: u8,
    },
    UserConfirmation {
        bd_addr: Text,
        value: u32,
    },
    UserPasskeyDisplay {
        bd_addr: Text,
        passkey: u32,
    },
    UserPasskeyEntry {
        bd_addr: Text,
    },
    ACLConnected {
        conn_handle: ConnHandle,
        type_: u8,
        bd_addr: Text,
    },
    ACLDisconnected {
        conn_handle: ConnHandle,
    },
    GATTRequestToRead {
        conn_handle: ConnHandle,
        char_handle: u16,
    },
    GATTRequestToWrite {
        conn_handle: ConnHandle,
        char_handle: u16,
        value: Text,
        options: u8,
    },
    GATTIndicationConfirmation {
        conn_handle: ConnHandle,
        char_handle: u16,
    },
    GATTNotification {
        conn_handle: ConnHandle,
        value_handle: u16,
        hex_data: Text,
    },
    GATTIndication {
        conn_handle: ConnHandle,
        value_handle: u16,
        hex_data: Text,
    },
}

// The rows of the table, in its order. Numbers, since a row's number is what `Parts` and the rows of the C interface hold.
pub(crate) const UUDPC: usize = 0;

pub(crate) const UUDPD: usize = 1;

pub(crate) const UUWLE: usize = 2;

pub(crate) const UUWLD: usize = 3;

pub(crate) const UUWAPU: usize = 4;

pub(crate) const UUWAPD: usize = 5;

pub(crate) const UUWAPSTAC: usize = 6;

pub(crate) const UUWAPSTAD: usize = 7;

pub(crate) const UUETHLU: usize = 8;

pub(crate) const UUETHLD: usize = 9;

pub(crate) const UUNU: usize = 10;

pub(crate) const UUND: usize = 11;

pub(crate) const UUNERR: usize = 12;

pub(crate) const UUDATA: usize = 13;

pub(crate) const UUBTB: usize = 14;

pub(crate) const UUBTUC: usize = 15;

pub(crate) const UUBTUPD: usize = 16;

pub(crate) const UUBTUPE: usize = 17;

pub(crate) const UUBTACLC: usize = 18;

pub(crate) const UUBTACLD: usize = 19;

pub(crate) const UUBTGRR: usize = 20;

pub(crate) const UUBTGRW: usize = 21;

pub(crate) const UUBTGIC: usize = 22;

pub(crate) const UUBTGN: usize = 23;

pub(crate) const UUBTGI: usize = 24;

pub(crate) const UUDPC_BT: usize = 25;

// The same rows in bytes (table.rt), which are what `rows` promises: a table of names and kinds as values would stand beside them. They are lent where
// they stand, so that no caller makes a copy.
pub fn rows() -> &'static [u8]
    ensures { result.now ≡ spelled table }
{
    &TABLE
}

// Whether a line is left to the second row of its name, since the first has not its type.
fn is_left(row: usize, taken: Result<(), AtPacketError>) -> bool
    ensures { result ≡ cond (eqb row 0) (is_unsupported taken) false }
{
    row == UUDPC && matches!(taken, Err(AtPacketError::TypeDecodeUnsupported))
}

// The event of a row, from its fields; `past` is the place just past it.
fn event_by(
    row: usize,
    s: &[u8],
    w: Fields,
    past: usize,
) -> Result<ReadEvent<ATEvent>, AtPacketError>
    requires { row < length table }
    ensures { shown result ≡ up_to past (read_peer row (left s.now w)) }
{
    let mut fields = Field::none();
    let mut by = row;
    let mut taken = take_fields(&mut fields, letters::<W26>(row), s, w);
    if is_left(row, taken) {
        by = UUDPC_BT;
        taken = take_fields(&mut fields, letters::<W26>(UUDPC_BT), s, w);
    }
    taken?;
    Ok(ReadEvent {
        event: event_of(by, &fields),
        past,
    })
}

// The event of the text from `start` to the end of `s`. W36 has one too: a trait for what a radio does with a row would be longer than both.
fn event_in(s: &[u8], start: usize, past: usize) -> Result<ReadEvent<ATEvent>, AtPacketError>
    ensures { shown result ≡ up_to past (read_text table start (drop start s.now)) }
{
    let h = head_of(s, start);
    let Some(row) = row_named::<W26>(part(s, start, h.len)) else {
        return Err(AtPacketError::EventUnknown);
    };
    event_by(row, s, h.fields, past)
}

// The event of the line that starts at `from`, which takes up the rest of the buffer.
pub fn read(s: &[u8], from: usize) -> Result<ReadEvent<ATEvent>, AtPacketError>
    ensures { shown result ≡ read_line w26 from (drop from s.now) }
{
    let body = frame_line(s, from)?;
    event_in(part(s, 0, body.end), body.start, s.len())
}

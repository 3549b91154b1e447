// The events of both radios: their names in words, and the kinds of their fields.
use at::table::{kinds_at, name_at};

// Of each W26 event its name in words, then its fields, in the order of the table in `at`.
const W26_WORDS: &str =
    "peer connected over IP,peer handle,type,protocol,local address,local port,remote address,remote port\n\
    peer disconnected,peer handle\n\
    Wi-Fi link connected,connection id,BSSID,channel\n\
    Wi-Fi link disconnected,connection id,reason\n\
    Wi-Fi access point up,id\n\
    Wi-Fi access point down,id\n\
    Wi-Fi access point: station connected,id,MAC address\n\
    Wi-Fi access point: station disconnected,id\n\
    Ethernet link up\n\
    Ethernet link down\n\
    network up,interface id\n\
    network down,interface id\n\
    network error,interface id,code\n\
    data available,peer handle,length\n\
    Bluetooth bond,Bluetooth address,status\n\
    user confirmation,Bluetooth address,value\n\
    user passkey display,Bluetooth address,passkey\n\
    user passkey entry,Bluetooth address\n\
    ACL connected,connection handle,type,Bluetooth address\n\
    ACL disconnected,connection handle\n\
    GATT request to read,connection handle,characteristic handle\n\
    GATT request to write,connection handle,characteristic handle,value,options\n\
    GATT indication confirmation,connection handle,characteristic handle\n\
    GATT notification,connection handle,value handle,hex data\n\
    GATT indication,connection handle,value handle,hex data\n\
    peer connected over Bluetooth,peer handle,type,profile,address,frame size";

// Likewise of each W36 event. The last two are binary.
const W36_WORDS: &str = "socket connected,socket id\n\
    socket closed,socket id\n\
    socket data available,socket id,length\n\
    Wi-Fi link up,WLAN handle,BSSID,channel\n\
    Wi-Fi link down,WLAN handle,reason\n\
    Wi-Fi access point: station associated,MAC address\n\
    Wi-Fi access point: station disassociated,MAC address\n\
    Wi-Fi access point up\n\
    Wi-Fi access point down\n\
    station network up\n\
    station network down\n\
    access point network up\n\
    access point network down\n\
    socket data,socket id\n\
    socket data with its sender,socket id,remote IP,remote port";

// How many events each table has.
const W26_ROWS: usize = 26;

const W36_ROWS: usize = 15;

// The rows of a peer that connected, over IP and over Bluetooth.
const UUDPC_IP: usize = 0;

const UUDPC_BT: usize = 25;

// The rows of the binary events.
const UESODB: usize = 13;

const UESODBF: usize = 14;

// What a field is read as: a number of 8, 16 or 32 bits, the type of a peer, a protocol, a reason, or a text.
#[derive(Clone, Copy, PartialEq, Eq)]
pub(crate) enum FieldKind {
    Byte,
    Word,
    Long,
    PeerType,
    Protocol,
    Reason,
    Text,
}

impl FieldKind {
    // By its letter (field.rt of `at`).
    fn by_letter(letter: u8) -> FieldKind {
        match letter {
            b'b' => FieldKind::Byte,
            b'w' => FieldKind::Word,
            b'l' => FieldKind::Long,
            b'i' | b't' => FieldKind::PeerType,
            b'p' => FieldKind::Protocol,
            b'r' => FieldKind::Reason,
            _ => FieldKind::Text,
        }
    }
}

// An event, by its row in the table of its radio.
#[derive(Clone, Copy)]
pub(crate) enum Event {
    W26(usize),
    W36(usize),
}

impl Event {
    // The W26 event with a name. Two have the name of the first, and the type of the peer tells them apart.
    pub(crate) fn w26(name: &[u8], peer_type: &[u8]) -> Option<Event> {
        let rows = at::w26::rows();
        let row = (0..W26_ROWS).find(|row| name_at(rows, *row) == name)?;
        if row == UUDPC_IP && peer_type == b"1".as_slice() {
            return Some(Event::W26(UUDPC_BT));
        }
        Some(Event::W26(row))
    }

    pub(crate) fn w36(name: &[u8]) -> Option<Event> {
        let rows = at::w36::rows();
        let row = (0..W36_ROWS).find(|row| name_at(rows, *row) == name)?;
        Some(Event::W36(row))
    }

    // The name of a field in words, counted from 1; of the event itself with 0.
    pub(crate) fn words(self, i: usize) -> &'static str {
        let (rows, row) = match self {
            Event::W26(row) => (W26_WORDS, row),
            Event::W36(row) => (W36_WORDS, row),
        };
        rows.lines()
            .nth(row)
            .and_then(|words| words.split(',').nth(i))
            .unwrap_or("")
    }

    // The kind of a field, counted from 1, where there is one.
    pub(crate) fn kind_of(self, i: u8) -> Option<FieldKind> {
        let before = usize::from(i).checked_sub(1)?;
        let letter = match self {
            Event::W26(row) => kinds_at(at::w26::rows(), row).get(before).copied(),
            Event::W36(row) => kinds_at(at::w36::rows(), row).get(before).copied(),
        };
        letter.map(FieldKind::by_letter)
    }

    // Whether a field is the one before the marker of a binary event, which no comma ends.
    pub(crate) fn is_before_marker(self, i: u8) -> bool {
        matches!(
            (self, i),
            (Event::W36(UESODB), 1) | (Event::W36(UESODBF), 3)
        )
    }
}

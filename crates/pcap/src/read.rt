// A capture's header and its records, read one at a time.
ghost use Rattle.std.specs.Prelude.{◌≡◌, ◌≤◌, length, take, drop};
ghost use Rattle.pcap.specs.Layout.{header, matches, exactly};
ghost use Rattle.pcap.specs.Read.{read_header, read_record, header_shown, record_shown};

use crate::number::Ordered;
use crate::{ByteOrder, CaptureError, Header, Record};
use text::bytes::part;

impl<'a> Ordered<'a> {
    #[tactic(auto, unfolding(crate::specs::Layout::matches))]
    fn is_header(self) -> bool
        requires { 24 ≤ length self.bytes.now }
        ensures { result ≡ matches self.entry.order self.entry.bytes.now 0 header }
    {
        self.number_at(0, 4) == 0xA1B2C3D4
            && self.number_at(4, 2) == 2
            && self.number_at(6, 2) == 4
            && self.number_at(20, 4) == 147
    }

    // Whether the values that a header need not have are those that are written: zone, accuracy and snap length.
    #[tactic(auto, unfolding(crate::specs::Layout::matches))]
    fn is_ours(self) -> bool
        requires { 24 ≤ length self.bytes.now }
        ensures { result ≡ matches self.entry.order self.entry.bytes.now 8 (exactly (take 3 (drop 3 header))) }
    {
        self.number_at(8, 4) == 0 && self.number_at(12, 4) == 0 && self.number_at(16, 4) == 4099
    }
}

// The header of the file that begins with these bytes.
pub fn read_header(s: &[u8]) -> Result<Header, CaptureError>
    ensures { header_shown result ≡ read_header s.now }
{
    if s.len() < 24 {
        return Err(CaptureError::CaptureHeaderInvalid);
    }
    let little = Ordered {
        order: ByteOrder::Little,
        bytes: s,
    };
    let big = Ordered {
        order: ByteOrder::Big,
        bytes: s,
    };
    let file = if little.is_header() {
        little
    } else if big.is_header() {
        big
    } else {
        return Err(CaptureError::CaptureHeaderInvalid);
    };
    Ok(Header {
        order: file.order,
        is_ours: file.is_ours(),
    })
}

// The record that begins at a place; `None`: no byte is left there.
pub fn read_record(order: ByteOrder, s: &[u8], at: usize) -> Result<Option<Record>, CaptureError>
    ensures { record_shown result ≡ read_record order s.now at }
{
    let left = Ordered {
        order,
        bytes: part(s, at, s.len()),
    };
    let n = left.bytes.len();
    if n == 0 {
        return Ok(None);
    }
    if n < 16 {
        return Err(CaptureError::CaptureRecordInvalid);
    }
    let microseconds = left.number_at(4, 4);
    let in_file = left.number_at(8, 4);
    let len = in_file as usize;
    if 999999 < microseconds || in_file != left.number_at(12, 4) || 4099 < in_file || n < 16 + len {
        return Err(CaptureError::CaptureRecordInvalid);
    }
    let start = at + 16;
    Ok(Some(Record {
        seconds: left.number_at(0, 4),
        microseconds,
        start,
        len,
        next: start + len,
    }))
}

// A capture's header and its records, written one at a time to the front of a lent buffer.
ghost use Rattle.std.specs.Prelude.{length};
ghost use Rattle.pcap.specs.Write.{header_out, record_out, Writes};

use crate::CaptureError;
use text::put::put;

pub fn write_header(buf: &mut [u8]) -> Result<usize, CaptureError>
    ensures { Writes buf.old (header_out (length buf.old)) result buf.new }
{
    let head = [
        0xD4u8, 0xC3, 0xB2, 0xA1, 2, 0, 4, 0, 0, 0, 0, 0, 0, 0, 0, 0, 3, 16, 0, 0, 147, 0, 0, 0,
    ];
    put(buf, 0, &head).ok_or(CaptureError::CaptureBufferTooSmall)
}

pub fn write_record(
    buf: &mut [u8],
    seconds: u32,
    microseconds: u32,
    frame: &[u8],
) -> Result<usize, CaptureError>
    ensures { Writes buf.old (record_out (length buf.old) seconds microseconds frame.now) result buf.new }
{
    let n = frame.len();
    if 999999 < microseconds || 4099 < n {
        return Err(CaptureError::CaptureRecordInvalid);
    }
    if buf.len() < 16 + n {
        return Err(CaptureError::CaptureBufferTooSmall);
    }
    let mut head = [0u8; 16];
    head[..4].copy_from_slice(&seconds.to_le_bytes());
    head[4..8].copy_from_slice(&microseconds.to_le_bytes());
    head[8..12].copy_from_slice(&(n as u32).to_le_bytes());
    head[12..].copy_from_slice(&(n as u32).to_le_bytes());
    put(buf, 0, &head);
    put(buf, 16, frame);
    Ok(16 + n)
}

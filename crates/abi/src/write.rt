// Writes of what is given as a row of numbers, with its texts and data as places in a source.
ghost use Rattle.std.specs.Prelude.{◌≡◌, length};
ghost use Rattle.writer.specs.Write as lines;
ghost use Rattle.abi.specs.Code.{frame_base, line_base, write_code, Sends};
ghost use Rattle.abi.specs.Given.{packet_in, frame_for, event_in26, event_in36, line_for};

use crate::given::event_in;
use crate::packet::packet_in;
use crate::written;
use at::{w26, w36};
use writer::EventWriteError;

// The frame of a command packet.
#[unsafe(no_mangle)]
pub extern "C" fn mirvoncle_write_packet(buf: &mut [u8], src: &[u8], row: &[u64]) -> usize
    ensures { Sends frame_base buf.old (frame_for (length buf.old) src.now (packet_in row.now)) result buf.new }
{
    match packet_in(row) {
        Ok(p) => written(edm::command::write(buf, src, p)),
        Err(e) => 65536 + usize::from(u8::from(e)),
    }
}

fn line_written(a: Result<usize, EventWriteError>) -> usize
    ensures { result ≡ write_code line_base (lines.shown a) }
{
    match a {
        Ok(n) => n,
        Err(EventWriteError::FieldNotWritable) => 9223372036854775808 + 17,
        Err(EventWriteError::EventBufferTooSmall) => 9223372036854775808 + 18,
    }
}

// The line of an event.
#[unsafe(no_mangle)]
pub extern "C" fn mirvoncle_write_w26(buf: &mut [u8], src: &[u8], row: &[u64]) -> usize
    ensures { Sends line_base buf.old (line_for (length buf.old) src.now (event_in26 row.now)) result buf.new }
{
    match event_in(row, w26::rows(), 26) {
        Ok(p) => line_written(writer::write_parts::<w26::ATEvent>(buf, src, p)),
        Err(e) => 9223372036854775808 + usize::from(u8::from(e)),
    }
}

#[unsafe(no_mangle)]
pub extern "C" fn mirvoncle_write_w36(buf: &mut [u8], src: &[u8], row: &[u64]) -> usize
    ensures { Sends line_base buf.old (line_for (length buf.old) src.now (event_in36 row.now)) result buf.new }
{
    match event_in(row, w36::rows(), 13) {
        Ok(p) => line_written(writer::write_parts::<w36::ATEvent>(buf, src, p)),
        Err(e) => 9223372036854775808 + usize::from(u8::from(e)),
    }
}

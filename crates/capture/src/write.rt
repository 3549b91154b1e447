// `capture write`: lines on standard input, and a capture of their records.
ghost use Rattle.std.specs.Prelude.{◌≡◌, ◌+◌, ◌≤◌, length};
ghost use Rattle.text.specs.Put.{placed};
ghost use Rattle.pcap.specs.Layout.{record_bytes};
ghost use Rattle.pcap.specs.declared.ByteOrder.TheVariants.{Little};
ghost use Rattle.capture.specs.Line.{said_in};
ghost use Rattle.capture.specs.Put.{Puts};

use crate::line::{Stamp, record_in};
use lines::output::{Out, with_room};
use lines::session::{Answers, run};
use pcap::write::{write_header, write_record};
use std::io::Read;
use text::bytes::part;

// A line with more bytes is too long.
const LONGEST: usize = 65536;

// Puts a record at a place of the output, and answers the place past it.
fn put_record(output: &mut [u8], at: usize, time: Stamp, frame: &[u8]) -> usize
    requires { (at ≤ 114000) × (131072 ≤ length output.old) × (time.microseconds ≤ 999999) × (length frame.now ≤ 4099) }
    ensures { (result ≡ at + length (record_bytes Little time.seconds time.microseconds frame.now)) × (output.new ≡ placed output.old at (record_bytes Little time.seconds time.microseconds frame.now)) }
{
    match write_record(&mut output[at..], time.seconds, time.microseconds, frame) {
        Ok(n) => at + n,
        // There is room for any record.
        Err(_) => at,
    }
}

// Puts the record of a line, or says what is wrong with the line.
fn put_line(
    rt: &(impl Print + Eprint),
    output: &mut [u8],
    frame: &mut [u8],
    line: &[u8],
    number: u64,
    o: Out,
) -> Out
    requires { (length frame.old ≡ 4099) × (131072 ≤ length output.old) }
    ensures { Puts output.old o (said_in line.now) result output.new }
{
    let said = match record_in(frame, line) {
        Ok(said) => said,
        Err(fault) => {
            let _ = eprintln!(rt; "capture: line {number}: {fault}");
            return o;
        }
    };
    let Some(said) = said else {
        return o;
    };
    let mut out = with_room(rt, output, o);
    out.count = put_record(output, out.count, said.time, part(frame, 0, said.len));
    out
}

// The buffer of a line's frame, and the number of the next line.
#[derive(Drop)]
struct Writing<'a> {
    frame: &'a mut [u8],
    number: u64,
}

impl<'a> Answers for Writing<'a> {
    const LONGEST: usize = LONGEST;

    const CANNOT_READ: &'static str = "capture: cannot read standard input";

    const CANNOT_WRITE: &'static str = "capture: cannot write standard output";

    ghost ready = { λ w n. (131072 ≤ n) × (length w.frame.now ≡ 4099) };

    // Puts the record of the next line, unless the line is too long.
    fn answer<P: Print + Eprint>(
        &mut self,
        rt: &P,
        output: &mut [u8],
        line: &[u8],
        is_too_long: bool,
        out: Out,
    ) -> Out {
        let number = self.number;
        self.number = number.wrapping_add(1);
        if is_too_long || LONGEST < line.len() {
            let _ = eprintln!(rt; "capture: line {number}: more than 65536 bytes");
            return out;
        }
        put_line(rt, output, self.frame, line, number, out)
    }
}

// A capture begins with its header, for which there is room. Where nothing can be read at first, nothing is written.
pub(crate) fn write(
    rt: &(impl Print + Eprint),
    from: &mut impl Read,
    input: &mut [u8],
    output: &mut [u8],
)
    requires { 131072 ≤ length output.old }
{
    let mut frame = [0u8; 4099];
    let mut writing = Writing {
        frame: &mut frame,
        number: 1,
    };
    if let Ok(count) = write_header(output) {
        run(rt, from, input, output, &mut writing, count);
    }
}

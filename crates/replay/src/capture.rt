// Every record of one capture.
ghost use Rattle.pcap.specs.File.{run_at, read_file};
ghost use Rattle.render.specs.Print.{Prints};
ghost use Rattle.render.specs.Capture.{run_line};

use pcap::ByteOrder;
use render::word::word;

// The records up to the end or a refusal. Each leads to a later place, so there are no more of them than bytes.
fn records(output: &mut [u8], place: usize, src: &[u8], order: ByteOrder) -> usize
    ensures { Prints output.old place (run_line (run_at order src.now 24)) result output.new }
{
    let mut at = 24;
    let mut to = place;
    loop {
        let a = pcap::read::read_record(order, src, at);
        to = render::capture::answer(output, to, at, a);
        let Some(r) = a.unwrap_or(None) else {
            return to;
        };
        to = word(output, to, b" ; ");
        at = r.next;
    }
}

pub(crate) fn every_record(output: &mut [u8], place: usize, src: &[u8]) -> usize
    ensures { Prints output.old place (run_line (read_file src.now)) result output.new }
{
    match pcap::read::read_header(src) {
        Ok(header) => records(output, place, src, header.order),
        Err(e) => render::refusal::refused_at(output, place, e, 0),
    }
}

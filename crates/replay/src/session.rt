// What answers the lines of the input.
ghost use Rattle.std.specs.Prelude.{◌≡◌, ◌+◌, ◌≤◌, length};
ghost use Rattle.text.specs.Put.{placed};
ghost use Rattle.replay.specs.Reply.{answer_line};
ghost use Rattle.replay.specs.Buffers.{Buffers};

use crate::answer::answer;
use lines::input::without_cr;
use lines::output::{Out, with_room_below};
use lines::session::Answers;
use render::word::word;

// A line with more bytes is too long.
const LONGEST: usize = 262144;

// From this place on the output may lack room for the longest answer: one is at most 475,135 bytes long (`reply-room`), and a line end follows.
const NEARLY_FULL: usize = 49152;

// The answer to a line and a line end, all of it: the output has room for the longest one. The bytes of a line that is too long may be gone.
pub(crate) fn reply(
    output: &mut [u8],
    place: usize,
    line: &[u8],
    n: u64,
    gone: bool,
    bytes: &mut [u8],
    target: &mut [u8],
) -> usize
    requires { (place ≤ 49152) × Buffers output.old bytes.old target.old }
    ensures { (result ≡ place + length (answer_line gone n line.now)) × (output.new ≡ placed output.old place (answer_line gone n line.now)) }
{
    if gone || LONGEST < line.len() {
        return word(output, place, b"too long\n");
    }
    let next = answer(output, place, without_cr(line), n, bytes, target);
    word(output, next, b"\n")
}

// The buffers that an answer takes, and the number of the next line.
#[derive(Drop)]
pub(crate) struct Replies<'a> {
    pub bytes: &'a mut [u8],
    pub target: &'a mut [u8],
    pub number: u64,
}

impl<'a> Answers for Replies<'a> {
    const LONGEST: usize = LONGEST;

    const CANNOT_READ: &'static str = "replay: cannot read standard input";

    const CANNOT_WRITE: &'static str = "replay: cannot write standard output";

    ghost ready = { λ r n. (n ≡ 524288) × (length r.bytes.now ≡ 131072) × (length r.target.now ≡ 131072) };

    fn answer<P: Print + Eprint>(
        &mut self,
        rt: &P,
        output: &mut [u8],
        line: &[u8],
        is_too_long: bool,
        out: Out,
    ) -> Out {
        let mut out = with_room_below(rt, output, out, NEARLY_FULL);
        out.count = reply(
            output,
            out.count,
            line,
            self.number,
            is_too_long,
            self.bytes,
            self.target,
        );
        self.number = self.number.wrapping_add(1);
        out
    }
}

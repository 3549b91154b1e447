// What answers the lines of the input.
ghost use Rattle.std.specs.Prelude.{◌≤◌, ◌≡◌, length};
ghost use Rattle.lines.specs.Output.{Holds};
ghost use Rattle.channels.specs.View.{view};
ghost use Rattle.commission.specs.Question.{asked_in};
ghost use Rattle.commission.specs.Reply.{answer_line, after};

use crate::answer::{LONGEST, answer};
use channels::Channels;
use lines::output::{Out, with_room};
use lines::session::Answers;
use render::word::word;

// One line, answered, after what is to be written. The bytes of one that is too long may be gone.
pub(crate) fn answered(
    rt: &impl Print,
    output: &mut [u8],
    frame: &mut [u8],
    table: &mut Channels,
    line: &[u8],
    gone: bool,
    o: Out,
) -> Out
    requires { (131072 ≤ length output.old) × (length frame.old ≡ 8192) }
    ensures { Holds output.old o (answer_line (view table.old) (asked_in gone line.now)) result output.new
        × (view table.new ≡ after (view table.old) (asked_in gone line.now)) }
{
    let mut out = with_room(rt, output, o);
    let place = answer(output, out.count, frame, line, gone, table);
    out.count = word(output, place, b"\n");
    out
}

// The table, and the buffer of the bytes that a line spells.
#[derive(Drop)]
pub(crate) struct Desk<'a> {
    pub frame: &'a mut [u8],
    pub table: Channels,
}

impl<'a> Answers for Desk<'a> {
    const LONGEST: usize = LONGEST;

    const CANNOT_READ: &'static str = "commission: cannot read standard input";

    const CANNOT_WRITE: &'static str = "commission: cannot write standard output";

    ghost ready = { λ d n. (131072 ≤ n) × (length d.frame.now ≡ 8192) };

    fn answer<P: Print + Eprint>(
        &mut self,
        rt: &P,
        output: &mut [u8],
        line: &[u8],
        is_too_long: bool,
        out: Out,
    ) -> Out {
        answered(
            rt,
            output,
            self.frame,
            &mut self.table,
            line,
            is_too_long,
            out,
        )
    }
}

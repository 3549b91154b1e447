// A program that answers the lines of its input, one after the other.
ghost use Rattle.std.specs.Prelude.{ℕ, length};

use crate::input::{line_end, move_to_front, read_after};
use crate::output::{Out, say_failure, write_out};
use std::io::Read;
use text::bytes::part;

// What answers the lines of a program.
pub trait Answers {
    // A line with more bytes is too long.
    const LONGEST: usize;

    // What is said where standard input cannot be read, and where standard output cannot be written.
    const CANNOT_READ: &'static str;

    const CANNOT_WRITE: &'static str;

    // It can answer into an output of so many bytes.
    ghost ready: { Self → ℕ → Type 0 };

    // The answer to a line, put after what is to be written. The bytes of a line that is too long may be gone.
    fn answer<P: Print + Eprint>(
        &mut self,
        rt: &P,
        output: &mut [u8],
        line: &[u8],
        is_too_long: bool,
        out: Out,
    ) -> Out
        requires { ready self.old (length output.old) }
        ensures { ready self.new (length output.new) };
}

// What is kept from one read to the next: how many bytes at the start of the input are those of a line whose end was not read yet, whether
// that line is too long and its bytes are gone, and what is to be written.
#[derive(Clone, Copy)]
struct Session {
    kept: usize,
    is_too_long: bool,
    out: Out,
}

// The session after some lines, and where the line after them starts.
#[derive(Clone, Copy)]
struct Rest {
    start: usize,
    session: Session,
}

impl Session {
    // A line whose end was not read yet has so many bytes. One that is too long is not kept.
    fn unfinished(mut self, kept: usize, longest: usize) -> Self {
        self.is_too_long = self.is_too_long || longest < kept;
        self.kept = if self.is_too_long { 0 } else { kept };
        self
    }

    // Where nothing can be written, nothing more is read.
    fn written<P: Print + Eprint>(mut self, rt: &P, output: &[u8], failure: &str) -> Option<Self> {
        self.out = write_out(rt, output, self.out);
        if self.out.failed.is_some() {
            say_failure(rt, failure, self.out.failed);
            return None;
        }
        Some(self)
    }
}

// Answers each line that ends in `input`, of which the kept bytes hold no line end. It goes by places, since where the last whole line ends is carried over.
fn lines<P: Print + Eprint, A: Answers>(
    rt: &P,
    input: &[u8],
    output: &mut [u8],
    a: &mut A,
    s: Session,
) -> Rest
    requires { A.ready a.old (length output.old) }
    ensures { A.ready a.new (length output.new) }
{
    let mut session = s;
    let mut start = 0;
    let mut end = line_end(input, s.kept);
    while end < input.len() {
        session.out = a.answer(
            rt,
            output,
            part(input, start, end - start),
            session.is_too_long,
            session.out,
        );
        session.is_too_long = false;
        start = end + 1;
        end = line_end(input, start);
    }
    Rest { start, session }
}

// The last line may have no line end.
fn last<P: Print + Eprint, A: Answers>(
    rt: &P,
    input: &mut [u8],
    output: &mut [u8],
    a: &mut A,
    s: Session,
)
    requires { A.ready a.old (length output.old) }
    ensures { A.ready a.new (length output.new) }
{
    let mut session = s;
    let kept = s.kept;
    if kept < input.len() && (s.is_too_long || 0 < kept) {
        input[kept] = b'\n';
        session = lines(rt, part(input, 0, kept + 1), output, a, s).session;
    }
    session.written(rt, output, A::CANNOT_WRITE);
}

// Reads once, answers the lines that are then whole, and writes the answers out. `None`: the input has ended, and its last line was answered, or nothing
// can be read or written any more. Where the system fails to read, the line whose end was not read yet is not answered.
fn turn<P: Print + Eprint, R: Read, A: Answers>(
    rt: &P,
    from: &mut R,
    input: &mut [u8],
    output: &mut [u8],
    a: &mut A,
    s: Session,
) -> Option<Session>
    requires { A.ready a.old (length output.old) }
    ensures { A.ready a.new (length output.new) }
{
    let count = match read_after(from, input, s.kept) {
        Ok(n) => n,
        Err(e) => {
            say_failure(rt, A::CANNOT_READ, Some(e.why));
            return None;
        }
    };
    if count <= s.kept {
        last(rt, input, output, a, s);
        return None;
    }
    let rest = lines(rt, part(input, 0, count), output, a, s);
    let kept = move_to_front(input, rest.start, count);
    rest.session
        .unfinished(kept, A::LONGEST)
        .written(rt, output, A::CANNOT_WRITE)
}

// Answers every line. The input has room for a longest line and what is read after it; `count` bytes of the output are to be written first.
// A proved loop has to end, and nothing says that the input does. So the turns are counted, to a number that no run uses up.
pub fn run<P: Print + Eprint, R: Read, A: Answers>(
    rt: &P,
    from: &mut R,
    input: &mut [u8],
    output: &mut [u8],
    a: &mut A,
    count: usize,
)
    requires { A.ready a.old (length output.old) }
    ensures { A.ready a.new (length output.new) }
{
    let mut s = Session {
        kept: 0,
        is_too_long: false,
        out: Out::new(count),
    };
    for _ in 0..u64::MAX {
        let Some(next) = turn(rt, from, input, output, a, s) else {
            break;
        };
        s = next;
    }
}

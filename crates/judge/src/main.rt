// Judges the first 4,100 bytes of standard input as one EDM frame, and prints what it is as one line.
#![tactic(auto)]

ghost use Rattle.std.specs.Prelude.{◌≤◌, ◌≡◌, length, take};
ghost use Rattle.judge.specs.Judgement.{judgement};

use lines::args::has_argument;
use lines::input::read_full;
use lines::output::say_failure;
use render::word::word;
use std::env::Env;
use std::io::Read;
use text::bytes::part;

// Puts the line at the start of `line`, and answers its length. Each byte of the frame is two digits at most, and the rest of a line, with its
// line end, is at most 151 bytes (`frame-room`).
fn judge(line: &mut [u8], input: &[u8]) -> usize
    requires { 8351 ≤ length line.old }
    ensures { take result line.new ≡ judgement input.now }
{
    let frame = part(input, 0, 4100);
    let end = render::frame::answer(line, 0, frame, edm::frame::read(frame));
    word(line, end, b"\n")
}

fn run(rt: &(impl Print + Eprint + Env), from: &mut impl Read) {
    // A name of a file would go unread, and the line would then be about other bytes.
    if has_argument(rt, 1) {
        let _ = eprintln!(rt; "judge: takes no argument, reads the frame from standard input");
        return;
    }
    let mut input = [0u8; 4100];
    let count = match read_full(from, &mut input, 0) {
        Ok(n) => n,
        Err(e) => {
            say_failure(rt, "judge: cannot read standard input", Some(e.why));
            return;
        }
    };
    let mut line = [0u8; 8400];
    let n = judge(&mut line, part(&input, 0, count));
    if let Err(e) = rt.write_all(part(&line, 0, n)) {
        say_failure(rt, "judge: cannot write standard output", Some(e));
    }
}

fn main(rt: HostRuntime) {
    run(&rt, &mut rt.stdin());
}

// Reads questions from standard input, a line each, and prints an answer for each: what a frame or a line of a radio means, or what is
// written for a command or an event.
#![tactic(auto)]

mod answer;
mod capture;
mod dump;
mod question;
mod session;
mod walk;

use crate::session::Replies;
use lines::args::has_argument;
use lines::session::run;

// The input holds a longest line and what is read after it, the output an answer to a longest line and those before it. The bytes that a
// line spells are half as many as its digits, and a written frame or event has no more than the largest SIZE.
fn main(rt: HostRuntime) {
    if has_argument(&rt, 1) {
        let _ = eprintln!(rt; "replay: takes no argument, reads lines from standard input");
        return;
    }
    let mut input = [0u8; 524288];
    let mut output = [0u8; 524288];
    let mut bytes = [0u8; 131072];
    let mut target = [0u8; 131072];
    let mut replies = Replies {
        bytes: &mut bytes,
        target: &mut target,
        number: 1,
    };
    run(
        &rt,
        &mut rt.stdin(),
        &mut input,
        &mut output,
        &mut replies,
        0,
    );
}

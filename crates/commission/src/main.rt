// What a commissioning page asks: which channel is open, to which remote end, and what was counted. Reads lines from standard input, of which
// some are frames that are fed in, and prints an answer for each.
#![tactic(auto)]

mod answer;
mod put;
mod question;
mod session;

use crate::session::Desk;
use lines::args::has_argument;
use lines::session::run;

// The input holds a longest line and what is read after it, the output the answer to a longest line and those before it. The bytes that a line
// spells are half as many as its digits.
fn main(rt: HostRuntime) {
    if has_argument(&rt, 1) {
        let _ = eprintln!(rt; "commission: takes no argument, reads lines from standard input");
        return;
    }
    let mut input = [0u8; 65536];
    let mut output = [0u8; 131072];
    let mut frame = [0u8; 8192];
    let mut desk = Desk {
        frame: &mut frame,
        table: channels::fresh(),
    };
    run(&rt, &mut rt.stdin(), &mut input, &mut output, &mut desk, 0);
}

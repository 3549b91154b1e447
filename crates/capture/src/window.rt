// What of standard input is at hand.
use lines::input::{move_to_front, read_after};
use lines::output::say_failure;
use std::io::Read;
use text::bytes::part;

// The bytes of a buffer from `start` up to `end` are at hand. It is open as long as more may follow them.
#[derive(Clone, Copy)]
pub(crate) struct Window {
    pub start: usize,
    pub end: usize,
    pub is_open: bool,
}

impl Window {
    pub(crate) fn new() -> Self {
        Window {
            start: 0,
            end: 0,
            is_open: true,
        }
    }

    // What follows a place in the bytes at hand.
    pub(crate) fn after(mut self, used: usize) -> Self {
        self.start = self.start.wrapping_add(used);
        self
    }
}

pub(crate) fn at_hand(input: &[u8], w: Window) -> &[u8] {
    part(part(input, 0, w.end), w.start, w.end)
}

// Reads once more, after what is at hand. Where the system fails to read, that is said, and what is at hand is not used.
pub(crate) fn refill(
    rt: &impl Eprint,
    from: &mut impl Read,
    input: &mut [u8],
    w: Window,
) -> Option<Window> {
    let kept = move_to_front(input, w.start, w.end);
    match read_after(from, input, kept) {
        Ok(end) => Some(Window {
            start: 0,
            end,
            is_open: kept < end,
        }),
        Err(e) => {
            say_failure(rt, "capture: cannot read standard input", Some(e.why));
            None
        }
    }
}

// The answer to a line.
ghost use Rattle.std.specs.Prelude.{◌≤◌, ◌≡◌, length};
ghost use Rattle.channels.specs.View.{view};
ghost use Rattle.commission.specs.Question.{feeds, asked_in};
ghost use Rattle.commission.specs.Reply.{Replies};
ghost use Rattle.commission.specs.Steps.{asked_of};

use crate::put::{put_counts, put_row, put_rows};
use crate::question::{Question, question_of};
use channels::Channels;
use lines::input::without_cr;
use render::word::word;
use text::bytes::part;

// A line with more bytes is too long.
pub(crate) const LONGEST: usize = 16384;

// The frame is fed in, and the answer is what it means.
fn feed(output: &mut [u8], place: usize, s: &[u8], table: &mut Channels) -> usize
    requires { length s.now ≤ 8192 }
    ensures { Replies (view table.old) (feeds s.now) output.old place (view table.new) result output.new }
{
    channels::feed(table, s);
    render::frame::answer(output, place, s, edm::frame::read(s))
}

// What is answered to a question, and the place just past it; the frame's bytes are at the start of `frame`.
fn replied(
    output: &mut [u8],
    place: usize,
    frame: &[u8],
    question: Option<Question>,
    table: &mut Channels,
) -> usize
    requires { length frame.now ≤ 8192 }
    ensures { Replies (view table.old) (asked_of frame.now question) output.old place (view table.new) result output.new }
{
    let Some(question) = question else {
        return word(output, place, b"what?");
    };
    match question {
        Question::Frame(n) => feed(output, place, part(frame, 0, n), table),
        Question::Row(channel) => put_row(output, place, channel, channels::row(table, channel)),
        Question::Rows => put_rows(output, place, table),
        Question::Counts => put_counts(output, place, channels::counts(table)),
    }
}

// The answer to a line. The bytes of one that is too long may be gone.
pub(crate) fn answer(
    output: &mut [u8],
    place: usize,
    frame: &mut [u8],
    line: &[u8],
    gone: bool,
    table: &mut Channels,
) -> usize
    requires { length frame.old ≡ 8192 }
    ensures { Replies (view table.old) (asked_in gone line.now) output.old place (view table.new) result output.new }
{
    if gone || LONGEST < line.len() {
        return replied(output, place, frame, None, table);
    }
    let question = question_of(frame, without_cr(line));
    replied(output, place, frame, question, table)
}

// What a line asks.
ghost use Rattle.std.specs.Prelude.{ℕ, ◌*◌, ◌≤◌, ◌≡◌, List, length};
ghost use Rattle.text.specs.Bytes.{bytes};
ghost use Rattle.lines.specs.Cut.{cut_at};
ghost use Rattle.lines.specs.Hex.{bytes_in};
ghost use Rattle.lines.specs.Number.{number_in};
ghost use Rattle.commission.specs.Question.{of_hex, of_number, with_rest, asked};
ghost use Rattle.commission.specs.Steps.{asked_of};

use edm::Channel;
use lines::cut::cut_at;
use lines::hex::decode;
use lines::number::decimal;
use text::bytes::same;

// The frame's bytes, so many of them, were put at the start of a buffer.
#[derive(Clone, Copy)]
pub(crate) enum Question {
    Frame(usize),
    Row(Channel),
    Rows,
    Counts,
}

// The buffer holds what the longest line spells.
fn frame_in(frame: &mut [u8], s: &[u8]) -> Option<Question>
    requires { length s.now ≤ 2 * length frame.old }
    ensures { asked_of frame.new result ≡ of_hex (bytes_in s.now) }
{
    match decode(frame, s) {
        Ok(n) => Some(Question::Frame(n)),
        Err(_) => None,
    }
}

fn channel_in(s: &[u8]) -> Option<Question>
    ensures { (buffer : List ℕ) → asked_of buffer result ≡ of_number (number_in s.now) }
{
    let n = u8::try_from(decimal(s)?).ok()?;
    Some(Question::Row(Channel(n)))
}

// A word that takes something, which stands after a space.
fn with_rest(frame: &mut [u8], line: &[u8]) -> Option<Question>
    requires { length line.now ≤ 2 * length frame.old }
    ensures { asked_of frame.new result ≡ with_rest (cut_at (bytes " ") line.now) }
{
    let (word, rest) = cut_at(line, b' ')?;
    if same(word, b"frame") {
        return frame_in(frame, rest);
    }
    if same(word, b"row") {
        return channel_in(rest);
    }
    None
}

// `None`: the line asks nothing.
pub(crate) fn question_of(frame: &mut [u8], line: &[u8]) -> Option<Question>
    requires { length line.now ≤ 2 * length frame.old }
    ensures { asked_of frame.new result ≡ asked line.now }
{
    if same(line, b"rows") {
        return Some(Question::Rows);
    }
    if same(line, b"counts") {
        return Some(Question::Counts);
    }
    with_rest(frame, line)
}

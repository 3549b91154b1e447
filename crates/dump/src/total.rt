// What was counted of a dump.
ghost use Rattle.std.specs.Prelude.{◌≡◌};
ghost use Rattle.render.specs.Print.{Prints};
ghost use Rattle.dump.specs.Total.{is_refused, counted_frame, counted_skipped, hundredths as share, percent_line, frames_line, total_line};

use render::word::{number, word};

#[derive(Clone, Copy)]
pub(crate) struct Totals {
    pub kept: u64,
    pub refused: u64,
    pub skipped: u64,
}

fn is_refused(frame: &[u8]) -> bool
    ensures { result ≡ is_refused frame.now }
{
    edm::frame::read(frame).is_err()
}

// A frame more. No dump is so long that a count starts again at 0.
pub(crate) fn count_frame(t: Totals, frame: &[u8]) -> Totals
    ensures { result ≡ counted_frame t frame.now }
{
    let mut r = t;
    r.kept = t.kept.wrapping_add(1);
    if is_refused(frame) {
        r.refused = t.refused.wrapping_add(1);
    }
    r
}

pub(crate) fn count_skipped(t: Totals, n: usize) -> Totals
    ensures { result ≡ counted_skipped t n }
{
    let mut r = t;
    r.skipped = t.skipped.wrapping_add(n as u64);
    r
}

// Hundredths of a percent, rounded down. Where a part is too large to be multiplied, the whole is divided first.
fn hundredths(part: u64, whole: u64) -> u64
    ensures { result ≡ share part whole }
{
    if whole == 0 {
        return 0;
    }
    match part.checked_mul(10000) {
        Some(n) => n / whole,
        None => part / (whole / 10000 + 1),
    }
}

fn percent(buf: &mut [u8], at: usize, n: u64) -> usize
    ensures { Prints buf.old at (percent_line n) result buf.new }
{
    let digits = [
        b'.',
        b'0' + (n / 10 % 10) as u8,
        b'0' + (n % 10) as u8,
        b'%',
    ];
    let next = number(buf, at, n / 100);
    word(buf, next, &digits)
}

fn frames(buf: &mut [u8], at: usize, t: Totals) -> usize
    ensures { Prints buf.old at (frames_line t) result buf.new }
{
    let a = word(buf, at, b"total: kept ");
    let b = number(buf, a, t.kept);
    let c = word(buf, b, b", ");
    let d = number(buf, c, t.refused);
    word(buf, d, b" of them refused; skipped ")
}

// The line of the counts, with how many bytes there are in all.
pub(crate) fn total_line(buf: &mut [u8], at: usize, t: Totals, bytes: u64) -> usize
    ensures { Prints buf.old at (total_line t bytes) result buf.new }
{
    let a = frames(buf, at, t);
    let b = number(buf, a, t.skipped);
    let c = word(buf, b, b" of ");
    let d = number(buf, c, bytes);
    let e = word(buf, d, b" bytes (");
    let f = percent(buf, e, hundredths(t.skipped, bytes));
    word(buf, f, b")\n")
}

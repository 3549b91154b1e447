// Standard output, collected in a buffer, and what is said of a failure.
ghost use Rattle.std.specs.Prelude.{◌≤◌, ◌≡◌, IsSome, None};
ghost use Rattle.lines.specs.Output.{goes_on_below, goes_on_at};

use std::io;
use text::bytes::part;

// From this place on a buffer of 131,072 bytes may lack room for what is put next, which has at most 17,072 bytes.
const NEARLY_FULL: usize = 114000;

// So many bytes of the buffer are to be written, and why writing does not work any more, where it failed.
#[derive(Clone, Copy)]
pub struct Out {
    pub count: usize,
    pub failed: Option<io::Error>,
}

impl Out {
    // So many bytes are to be written first.
    pub fn new(count: usize) -> Self
        ensures { (result.count ≡ count) × (result.failed ≡ None) }
    {
        Out {
            count,
            failed: None,
        }
    }
}

// Writes them. After a write that failed there is none, and the reason is kept.
pub fn write_out<P: Print>(to: &P, output: &[u8], o: Out) -> Out
    ensures { (result.count ≡ 0) × (IsSome o.failed → result.failed ≡ o.failed) }
{
    let failed = match o.failed {
        Some(e) => Some(e),
        None => to.write_all(part(output, 0, o.count)).err(),
    };
    Out { count: 0, failed }
}

// Sees that there is room for what is put next, where there may be none past a place of the buffer.
pub fn with_room_below<P: Print>(to: &P, output: &[u8], o: Out, limit: usize) -> Out
    ensures { (result.count ≡ goes_on_below limit o.count) × (result.count ≤ limit) × (IsSome o.failed → result.failed ≡ o.failed) }
{
    if limit < o.count {
        write_out(to, output, o)
    } else {
        o
    }
}

// Sees that there is room for what is put next.
pub fn with_room<P: Print>(to: &P, output: &[u8], o: Out) -> Out
    ensures { (result.count ≡ goes_on_at o.count) × (result.count ≤ 114000) × (IsSome o.failed → result.failed ≡ o.failed) }
{
    with_room_below(to, output, o, NEARLY_FULL)
}

// Says on standard error, as one line, what failed and why. Where that cannot be written either, there is nobody left to tell.
pub fn say_failure<E: Eprint>(to: &E, what: &str, failed: Option<io::Error>) {
    let _ = match failed {
        Some(e) => eprintln!(to; "{what}: {e}"),
        None => eprintln!(to; "{what}"),
    };
}

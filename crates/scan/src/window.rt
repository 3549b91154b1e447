// Dumps that are longer than one call takes, or that come in pieces: what of a window is decided, whatever follows it.
ghost use Rattle.std.specs.Prelude.{◌≡◌};
ghost use Rattle.scan.specs.Window.{decided_places, decided_bytes};

use crate::listed::Listed;

// A run has at most 4,099 bytes, so the last 4,098 places of a window have to wait for what follows it.
const WAITING: usize = 4098;

// How many places at the front of a window of `len` bytes are decided. Where the dump ends with the window, all are.
pub fn decided_places(len: usize, is_end: bool) -> usize
    ensures { result ≡ decided_places len is_end }
{
    if is_end {
        len
    } else {
        len.saturating_sub(WAITING)
    }
}

// How many bytes at the front of a range of the window are decided: of a kept one all or none. The next window begins after them.
pub fn decided_bytes(r: Listed, places: usize) -> usize
    ensures { result ≡ decided_bytes r places }
{
    let room = places.saturating_sub(r.start);
    if !r.kept {
        r.len.min(room)
    } else if 0 < room {
        r.len
    } else {
        0
    }
}

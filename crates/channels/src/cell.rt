// A row and the counts, and what one frame makes of them.
ghost use Rattle.std.specs.Prelude.{◌≡◌};
ghost use Rattle.channels.specs.Machine.{up as countUp};
ghost use Rattle.channels.specs.Steps.{arrival_of, next_cell};

use crate::arrival::Arrival;

// A channel's row: of the kind 0 it is closed, and every other number is 0. Else it is open, the kind is the type of its connect event (2 is
// IPv4), and the rest is the remote end. The address is a number, its first byte highest; `high` has what is above 64 bits.
#[derive(Clone, Copy)]
pub struct Row {
    pub kind: u8,
    pub high: u64,
    pub low: u64,
    pub port: u16,
}

// How often a channel was connected while it was open, disconnected while it was closed, or had data while it was closed, and how many frames
// were refused.
#[derive(Clone, Copy)]
pub struct Counts {
    pub reopened: u32,
    pub reclosed: u32,
    pub stray: u32,
    pub refused: u32,
}

#[derive(Clone, Copy)]
pub(crate) struct Cell {
    pub row: Row,
    pub counts: Counts,
}

// One more, and no more than 4,294,967,295.
fn up(n: u32) -> u32
    ensures { result ≡ countUp n }
{
    n.saturating_add(1)
}

const CLOSED: Row = Row {
    kind: 0,
    high: 0,
    low: 0,
    port: 0,
};

// The row of the channel that an arrival is about, and the counts, after it.
pub(crate) fn next(cell: Cell, a: Arrival) -> Cell
    ensures { result ≡ next_cell cell (arrival_of a) }
{
    let row = cell.row;
    let mut counts = cell.counts;
    let is_closed = row.kind == 0;
    match a {
        Arrival::Connect(_, new) => {
            if is_closed {
                return Cell { row: new, counts };
            }
            counts.reopened = up(counts.reopened);
            Cell { row: new, counts }
        }
        Arrival::Disconnect(_) => {
            if is_closed {
                counts.reclosed = up(counts.reclosed);
            }
            Cell {
                row: CLOSED,
                counts,
            }
        }
        Arrival::Data(_) => {
            if is_closed {
                counts.stray = up(counts.stray);
            }
            Cell { row, counts }
        }
        Arrival::Other => cell,
        Arrival::Refused => {
            counts.refused = up(counts.refused);
            Cell { row, counts }
        }
    }
}

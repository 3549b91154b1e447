// The table by its fields: plain arrays and numbers.
ghost use Rattle.std.specs.Prelude.{◌≡◌};
ghost use Rattle.channels.specs.Machine.{step};
ghost use Rattle.channels.specs.View.{row_in, counts_of, machine_of};
ghost use Rattle.channels.specs.Steps.{Whole};

use crate::arrival::{channel_of, read};
use crate::cell::{Cell, Counts, Row, next};
use edm::Channel;

pub(crate) fn row_at<'a>(
    kind: &'a [u8; 256],
    high: &'a [u64; 256],
    low: &'a [u64; 256],
    port: &'a [u16; 256],
    c: Channel,
) -> Row
    ensures { result ≡ row_in kind.now high.now low.now port.now c.0 }
{
    let i = usize::from(c.0);
    Row {
        kind: kind[i],
        high: high[i],
        low: low[i],
        port: port[i],
    }
}

pub(crate) fn counts_in<'a>(
    reopened: &'a u32,
    reclosed: &'a u32,
    stray: &'a u32,
    refused: &'a u32,
) -> Counts
    ensures { result ≡ counts_of reopened.now reclosed.now stray.now refused.now }
{
    Counts {
        reopened: *reopened,
        reclosed: *reclosed,
        stray: *stray,
        refused: *refused,
    }
}

// Whatever the frame says, one row is read and written, and the counts.
pub(crate) fn fed<'a, 's>(
    kind: &'a mut [u8; 256],
    high: &'a mut [u64; 256],
    low: &'a mut [u64; 256],
    port: &'a mut [u16; 256],
    reopened: &'a mut u32,
    reclosed: &'a mut u32,
    stray: &'a mut u32,
    refused: &'a mut u32,
    frame: &'s [u8],
)
    ensures { Whole kind.old high.old low.old port.old → machine_of kind.new high.new low.new port.new (counts_of reopened.new reclosed.new stray.new refused.new)
        ≡ step (machine_of kind.old high.old low.old port.old (counts_of reopened.old reclosed.old stray.old refused.old)) frame.now }
{
    let a = read(frame);
    let i = usize::from(channel_of(a));
    let old = Cell {
        row: Row {
            kind: kind[i],
            high: high[i],
            low: low[i],
            port: port[i],
        },
        counts: Counts {
            reopened: *reopened,
            reclosed: *reclosed,
            stray: *stray,
            refused: *refused,
        },
    };
    let new = next(old, a);
    let row = new.row;
    let counts = new.counts;
    kind[i] = row.kind;
    high[i] = row.high;
    low[i] = row.low;
    port[i] = row.port;
    *reopened = counts.reopened;
    *reclosed = counts.reclosed;
    *stray = counts.stray;
    *refused = counts.refused;
}

// Which probe holds which channel: a table of 256 channels, lent to each call and updated where it stands.
// The calls lend the table's fields on to functions over plain arrays; one row and the counts are changed by value (`cell`).
#![tactic(auto)]

mod arrival;
pub mod cell;
mod fields;

ghost use Rattle.std.specs.Prelude.{◌≡◌};
ghost use Rattle.channels.specs.Machine.{step, fresh as freshMachine};
ghost use Rattle.channels.specs.View.{view};

use cell::{Counts, Row};
use edm::Channel;
use fields::{counts_in, fed, row_at};

// A flat array for each field of a row, and the counts. `kind`, `high`, `low` and `port` of a channel make its row.
#[derive(Drop)]
pub struct Channels {
    kind: [u8; 256],
    high: [u64; 256],
    low: [u64; 256],
    port: [u16; 256],
    reopened: u32,
    reclosed: u32,
    stray: u32,
    refused: u32,
}

// All channels are closed, and all counts are 0.
pub fn fresh() -> Channels
    ensures { view result ≡ freshMachine }
{
    Channels {
        kind: [0; 256],
        high: [0; 256],
        low: [0; 256],
        port: [0; 256],
        reopened: 0,
        reclosed: 0,
        stray: 0,
        refused: 0,
    }
}

// One frame, accepted or refused: one step of the machine.
pub fn feed(table: &mut Channels, frame: &[u8])
    ensures { view table.new ≡ step (view table.old) frame.now }
{
    fed(
        &mut table.kind,
        &mut table.high,
        &mut table.low,
        &mut table.port,
        &mut table.reopened,
        &mut table.reclosed,
        &mut table.stray,
        &mut table.refused,
        frame,
    )
}

// The row of a channel.
pub fn row(table: &Channels, channel: Channel) -> Row
    ensures { result ≡ (view table.now).rows channel.0 }
{
    row_at(&table.kind, &table.high, &table.low, &table.port, channel)
}

pub fn counts(table: &Channels) -> Counts
    ensures { result ≡ (view table.now).counts }
{
    counts_in(
        &table.reopened,
        &table.reclosed,
        &table.stray,
        &table.refused,
    )
}

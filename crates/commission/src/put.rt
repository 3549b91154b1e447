// The table in words.
ghost use Rattle.std.specs.Prelude.{◌≤◌, ◌++◌, length};
ghost use Rattle.text.specs.Bytes.{bytes};
ghost use Rattle.render.specs.Print.{Prints};
ghost use Rattle.channels.specs.View.{view};
ghost use Rattle.commission.specs.Reply.{dotted, remote_line, row_line, open_row, open_rows, changes_line, counts_line};

use channels::Channels;
use channels::cell::{Counts, Row};
use edm::Channel;
use render::word::{number, word};

// An IPv4 address.
fn put_dotted(output: &mut [u8], at: usize, address: u64) -> usize
    ensures { Prints output.old at (dotted address) result output.new }
{
    let a = number(output, at, address / 16777216 % 256);
    let b = word(output, a, b".");
    let c = number(output, b, address / 65536 % 256);
    let d = word(output, c, b".");
    let e = number(output, d, address / 256 % 256);
    let f = word(output, e, b".");
    number(output, f, address % 256)
}

fn put_remote(output: &mut [u8], at: usize, row: Row) -> usize
    ensures { Prints output.old at (remote_line row) result output.new × (length (remote_line row) ≤ 31) }
{
    let a = word(output, at, b"open ipv4 ");
    let b = put_dotted(output, a, row.low);
    let c = word(output, b, b" ");
    number(output, c, row.port as u64)
}

pub(crate) fn put_row(output: &mut [u8], at: usize, channel: Channel, row: Row) -> usize
    ensures { Prints output.old at (row_line channel.0 row) result output.new × (length (row_line channel.0 row) ≤ 35) }
{
    let a = number(output, at, channel.0 as u64);
    let b = word(output, a, b" ");
    if row.kind == 0 {
        return word(output, b, b"closed");
    }
    put_remote(output, b, row)
}

// A row with a line end, unless the channel is closed.
fn put_open(output: &mut [u8], at: usize, channel: Channel, row: Row) -> usize
    ensures { Prints output.old at (open_row channel.0 row) result output.new × (length (open_row channel.0 row) ≤ 36) }
{
    if row.kind == 0 {
        return at;
    }
    let next = put_row(output, at, channel, row);
    word(output, next, b"\n")
}

// The rows of all open channels.
pub(crate) fn put_rows(output: &mut [u8], at: usize, table: &Channels) -> usize
    ensures { Prints output.old at (open_rows (view table.now) 256 ++ bytes "end") result output.new × (length (open_rows (view table.now) 256) ≤ 9216) }
{
    let mut to = at;
    for i in 0..256usize {
        let channel = Channel(i as u8);
        to = put_open(output, to, channel, channels::row(table, channel));
    }
    word(output, to, b"end")
}

// What frames did to channels in another state than they should have been.
fn put_changes(output: &mut [u8], at: usize, counts: Counts) -> usize
    ensures { Prints output.old at (changes_line counts) result output.new × (length (changes_line counts) ≤ 37) }
{
    let a = word(output, at, b"reopened ");
    let b = number(output, a, counts.reopened as u64);
    let c = word(output, b, b" closed ");
    number(output, c, counts.reclosed as u64)
}

pub(crate) fn put_counts(output: &mut [u8], at: usize, counts: Counts) -> usize
    ensures { Prints output.old at (counts_line counts) result output.new × (length (counts_line counts) ≤ 73) }
{
    let a = put_changes(output, at, counts);
    let b = word(output, a, b" stray ");
    let c = number(output, b, counts.stray as u64);
    let d = word(output, c, b" refused ");
    number(output, d, counts.refused as u64)
}

// Frames out of a noisy serial dump: the dump as ranges of bytes, kept or skipped.
#![tactic(auto)]

mod fill;
pub mod listed;
mod run;
pub mod window;

ghost use Rattle.scan.specs.Scan.{Scans};

use crate::fill::{count, fill};

#[derive(Clone, Copy)]
pub enum ScanError {
    RangeListFull,
    DumpTooLong,
}

// How many ranges the dump has. The caller lends the list, since nothing here allocates: three numbers a range, start, length, kept (1) or
// skipped (0). Entries after the last range stay as they were.
pub fn scan(dump: &[u8], list: &mut [u32]) -> Result<usize, ScanError>
    ensures { Scans dump.now list.old result list.new }
{
    if 65536 < dump.len() {
        return Err(ScanError::DumpTooLong);
    }
    let n = count(dump);
    if list.len() < n * 3 {
        return Err(ScanError::RangeListFull);
    }
    fill(dump, list);
    Ok(n)
}

// A table of events in bytes. A row has twenty: the length of its name, the number of its fields, eleven for the name and seven for a letter a
// field, both filled up with spaces.
ghost use Rattle.std.specs.Prelude.{List, ◌≡◌, ◌≤◌, ◌<◌, ◌+◌, ◌*◌, length, get_or, false};
ghost use Rattle.text.specs.Bytes.{same as sameBytes, part as part_of};
ghost use Rattle.at.specs.Event.{Row};
ghost use Rattle.at.specs.Table.{spelled, name_at, letters_at};
ghost use Rattle.at.specs.Parts.{row_no};
ghost use Rattle.at.specs.TableSteps.{Tabled};
ghost use Rattle.at.specs.Steps.{Finds, FindsBetween, letters_in};

use text::bytes::part;

// A text of a row: the byte `len` of the row is its length, and it begins with the byte `start`. Empty where there is no such row.
fn text_of(table: &[u8], row: usize, len: usize, start: usize) -> &[u8]
    requires { (len < 20) × (start < 20) }
    ensures { result.now ≡ part_of table.now (row * 20 + start) (get_or table.now (row * 20 + len) 0) }
{
    if table.len() / 20 < row {
        return part(table, 0, 0);
    }
    let at = row * 20;
    if at + len < table.len() {
        part(table, at + start, usize::from(table[at + len]))
    } else {
        part(table, 0, 0)
    }
}

// The name of the row with a number, counted from 0; empty where there is no such row.
pub fn name_at(table: &[u8], row: usize) -> &[u8]
    ensures { result.now ≡ name_at table.now row }
{
    text_of(table, row, 0, 2)
}

// The letters of its fields' kinds; none where there is no such row.
pub fn kinds_at(table: &[u8], row: usize) -> &[u8]
    ensures { result.now ≡ letters_at table.now row }
{
    text_of(table, row, 1, 13)
}

// The rows of a radio, in bytes.
pub(crate) trait Rows {
    ghost rows: { List Row };

    fn bytes() -> &'static [u8]
        ensures { Tabled rows result.now };
}

// Whether a name stands at a place. A call of its own, so that the loop over the rows holds only their lengths, which the compiler knows.
#[inline(never)]
fn stands_at<R: Rows>(at: usize, name: &[u8]) -> bool
    requires { at + length name.now ≤ length (spelled R.rows) }
    ensures { result ≡ sameBytes name.now (part_of (spelled R.rows) at (length name.now)) }
{
    name == &R::bytes()[at..at + name.len()]
}

// Whether a name may stand at a place: the last letter is the same. In line, so that it is held against a letter which the compiler knows.
#[inline(always)]
fn ends_alike<R: Rows>(at: usize, name: &[u8]) -> bool
    requires { at + length name.now ≤ length (spelled R.rows) }
    ensures { result ≡ false → sameBytes name.now (part_of (spelled R.rows) at (length name.now)) ≡ false }
{
    let n = name.len();
    if n == 0 {
        return true;
    }
    name[n - 1] == R::bytes()[at + n - 1]
}

// The first row that has a name, of those from one up to another. Most rows differ in length, so it is looked at first, and most of one length in their
// last letter.
#[inline(always)]
fn row_between<R: Rows>(name: &[u8], from: usize, to: usize) -> Option<usize>
    requires { (from ≤ to) × (to ≤ length R.rows) }
    ensures { FindsBetween R.rows name.now from to result }
{
    let table = R::bytes();
    for row in from..to {
        let at = row * 20;
        if name.len() == usize::from(table[at])
            && ends_alike::<R>(at + 2, name)
            && stands_at::<R>(at + 2, name)
        {
            return Some(row);
        }
    }
    None
}

// The number of the row that has a name. Each half of the rows is short enough for the compiler to write it out row by row.
pub(crate) fn row_named<R: Rows>(name: &[u8]) -> Option<usize>
    ensures { Finds R.rows name.now result }
{
    let rows = R::bytes().len() / 20;
    match row_between::<R>(name, 0, rows / 2) {
        Some(row) => Some(row),
        None => row_between::<R>(name, rows / 2, rows),
    }
}

// The letters of a row's kinds.
pub(crate) fn letters<R: Rows>(row: usize) -> &'static [u8]
    requires { row < length R.rows }
    ensures { result.now ≡ letters_in (row_no R.rows row) }
{
    kinds_at(R::bytes(), row)
}

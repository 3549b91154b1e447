// An event taken out of a row that is given: each number is checked against its field's kind.
ghost use Rattle.std.specs.Prelude.{◌≡◌, List, true, cond, ◌+◌, ◌≤◌, length, get_or};
ghost use Rattle.at.specs.Event.{Row, text, is_protocol};
ghost use Rattle.at.specs.Parts.{part_of, parts_of};
ghost use Rattle.at.specs.Typed.{holds};
ghost use Rattle.at.specs.Steps.{kind_of, kinds_in};
ghost use Rattle.abi.specs.Given.{number, width as width_of, value_at, values_at, all_hold, event_in};
ghost use Rattle.abi.specs.Steps.{kinds_for, row_error_no, Gives, Few, SomeFew};

use at::Text;
use at::parts::{Parts, Value};
use at::table::kinds_at;

// Why a row is not taken: it has not the 17 numbers, or what it holds is no event or packet.
#[derive(Clone, Copy)]
pub(crate) enum RowError {
    TooShort,
    Invalid,
}

impl From<RowError> for u8 {
    ghost from_gives = { λ e n. n ≡ row_error_no e };

    fn from(e: RowError) -> u8 {
        match e {
            RowError::TooShort => 254,
            RowError::Invalid => 253,
        }
    }
}

fn is_protocol(n: u64) -> bool
    ensures { result ≡ is_protocol n }
{
    n == 1 || n == 2 || n == 6
}

fn fits(kind: u8, n: u64) -> bool
    ensures { result ≡ holds (kind_of kind) n }
{
    match kind {
        b'b' => n < 256,
        b'w' => n < 65536,
        b'l' => n < 4294967296,
        b'i' => n == 2 || n == 3,
        b't' => n == 1,
        b'p' => is_protocol(n),
        b'r' => n <= 5,
        _ => true,
    }
}

// How many numbers a value of a kind takes.
fn width(kind: u8) -> usize
    ensures { result ≡ width_of (kind_of kind) }
{
    match kind {
        b'b' => 1,
        b'w' => 1,
        b'l' => 1,
        b'i' => 1,
        b't' => 1,
        b'p' => 1,
        b'r' => 1,
        _ => 2,
    }
}

// The letter of a value; data after the fields are like a text.
fn letter_at(kinds: &[u8], i: usize) -> u8
    ensures { kind_of result ≡ get_or (kinds_in kinds.now) i text }
{
    if i < kinds.len() { kinds[i] } else { b's' }
}

// The value at a place, whose number fits its kind.
fn value_in(row: &[u64], at: usize, kind: u8) -> Value
    requires { (at + 2 ≤ length row.now) × (holds (kind_of kind) (number row.now at) ≡ true) }
    ensures { result ≡ part_of (value_at (kind_of kind) row.now at) }
{
    if width(kind) == 2 {
        Value::Place(Text {
            start: row[at] as usize,
            len: row[at + 1] as usize,
        })
    } else {
        Value::Number(row[at] as u32)
    }
}

// The event of a case with so many values, by the letters of its fields.
fn of_kinds(row: &[u64], case: usize, kinds: &[u8], count: usize) -> Result<Parts, RowError>
    requires { (17 ≤ length row.now) × (count ≤ length kinds.now + 1) × (count ≤ 7) }
    ensures { result ≡ cond (all_hold (kinds_for kinds.now count) row.now 2) (Ok (parts_of case (values_at (kinds_for kinds.now count) row.now 2))) (Err RowError.Invalid) }
{
    let mut values = [Value::Number(0); 7];
    let mut at = 2;
    let mut i = 0;
    while i < count {
        let kind = letter_at(kinds, i);
        if fits(kind, row[at]) {
            values[i] = value_in(row, at, kind);
        } else {
            return Err(RowError::Invalid);
        }
        at += width(kind);
        i += 1;
    }
    Ok(Parts {
        row: case,
        count,
        values,
    })
}

// The event of a row, by the table of its radio, of which the first `texts` rows are those of events in text.
pub(crate) fn event_in(row: &[u64], table: &[u8], texts: usize) -> Result<Parts, RowError>
    requires { SomeFew texts table.now }
    ensures { (rows : List Row) → Few texts rows table.now → Gives rows result (event_in texts rows row.now) }
{
    if row.len() < 17 {
        return Err(RowError::TooShort);
    }
    if row[0] != 0 {
        return Err(RowError::Invalid);
    }
    let case = row[1] as usize;
    if table.len() / 20 <= case {
        return Err(RowError::Invalid);
    }
    let kinds = kinds_at(table, case);
    if case < texts {
        of_kinds(row, case, kinds, kinds.len())
    } else {
        of_kinds(row, case, kinds, kinds.len() + 1)
    }
}

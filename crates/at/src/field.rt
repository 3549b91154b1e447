// The fields of an event, taken from a walk one after the other by the letters of their kinds: each is first there, then of its form. `b` is a
// number of 8 bits, `w` of 16, `l` of 32, `i` the type of an IP peer, `t` of a Bluetooth peer, `p` a protocol, `r` a reason, and any other letter a
// text.
ghost use Rattle.std.specs.Prelude.{◌≡◌, ℕ, ◌+◌, ◌%◌, ◌^◌, ◌<◌, ◌≤◌, length};
ghost use Rattle.text.specs.FieldSteps.{left};
ghost use Rattle.at.specs.Event.{read_field, take_kinds, bits, ip_type, bt_type, protocol, reason};
ghost use Rattle.at.specs.Refusal.{refusal_of};
ghost use Rattle.at.specs.declared.FieldError.TheVariants.{NoNumber};
ghost use Rattle.at.specs.declared.field.Fault.TheVariants.{Invalid};
ghost use Rattle.at.specs.Steps.{kind_of, kinds_in, text_of, fault_of, one_of, Took};

use crate::{AtPacketError, FieldError, Text};
use text::bytes::{part, same};
use text::field::Fields;
use text::number::{NumberError, Width, read};
use text::walk::field_at;

// A field that was taken: a number, or the place and the length of a text.
#[derive(Clone, Copy)]
pub(crate) struct Field {
    pub value: usize,
    pub len: usize,
}

impl Field {
    // Fields of which none is taken yet. No row has more than seven.
    pub(crate) fn none() -> [Self; 7] {
        [Self { value: 0, len: 0 }; 7]
    }

    // The number of each width, where the field was read as one of that width.
    pub(crate) fn byte(self) -> u8
        ensures { result ≡ self.value % 2 ^ 8 }
    {
        (self.value % 256) as u8
    }

    pub(crate) fn word(self) -> u16
        ensures { result ≡ self.value % 2 ^ 16 }
    {
        (self.value % 65536) as u16
    }

    pub(crate) fn long(self) -> u32
        ensures { result ≡ self.value % 2 ^ 32 }
    {
        (self.value % 4294967296) as u32
    }

    pub(crate) fn text(self) -> Text
        ensures { result ≡ text_of self }
    {
        Text {
            start: self.value,
            len: self.len,
        }
    }
}

// Why one field is refused, whichever field it is.
#[derive(Clone, Copy)]
enum Fault {
    Unsupported,
    Invalid(FieldError),
}

impl From<NumberError> for Fault {
    ghost from_gives = { λ e f. f ≡ Invalid (NoNumber e) };

    fn from(e: NumberError) -> Self {
        Self::Invalid(FieldError::NoNumber(e))
    }
}

impl Fault {
    // The refusal of the field with a number.
    fn of_field(self, field: u8) -> AtPacketError
        ensures { refusal_of result ≡ fault_of field self }
    {
        match self {
            Self::Unsupported => AtPacketError::TypeDecodeUnsupported,
            Self::Invalid(why) => AtPacketError::TypeDecodeParameterDataTypeInvalid { field, why },
        }
    }
}

// A number that a field of some width spells, as `Field` holds it.
trait Wide: Width {
    fn wide(self) -> usize
        ensures { result ≡ Self.value self };
}

impl Wide for u8 {
    fn wide(self) -> usize {
        usize::from(self)
    }
}

impl Wide for u16 {
    fn wide(self) -> usize {
        usize::from(self)
    }
}

impl Wide for u32 {
    fn wide(self) -> usize {
        self as usize
    }
}

fn number(value: usize) -> Field
    ensures { result ≡ record { value = value; len = 0 } }
{
    Field { value, len: 0 }
}

fn number_field<T: Wide>(field: &[u8]) -> Result<Field, Fault>
    ensures { (i p : ℕ) → one_of i (bits T.bits) result ≡ read_field i (bits T.bits) p field.now }
{
    Ok(number(read::<T>(field)?.wide()))
}

// The type of an IP peer: exactly `2` or `3`.
fn ip_type_field(field: &[u8]) -> Result<Field, Fault>
    ensures { (i p : ℕ) → one_of i ip_type result ≡ read_field i ip_type p field.now }
{
    if same(field, b"2") {
        return Ok(number(2));
    }
    if same(field, b"3") {
        return Ok(number(3));
    }
    Err(Fault::Unsupported)
}

// The type of a Bluetooth peer: exactly `1`.
fn bt_type_field(field: &[u8]) -> Result<Field, Fault>
    ensures { (i p : ℕ) → one_of i bt_type result ≡ read_field i bt_type p field.now }
{
    if same(field, b"1") {
        return Ok(number(1));
    }
    Err(Fault::Unsupported)
}

fn protocol_field(field: &[u8]) -> Result<Field, Fault>
    ensures { (i p : ℕ) → one_of i protocol result ≡ read_field i protocol p field.now }
{
    match read::<u8>(field)? {
        1 => Ok(number(1)),
        2 => Ok(number(2)),
        6 => Ok(number(6)),
        _ => Err(Fault::Invalid(FieldError::NotListed)),
    }
}

fn reason_field(field: &[u8]) -> Result<Field, Fault>
    ensures { (i p : ℕ) → one_of i reason result ≡ read_field i reason p field.now }
{
    let n = read::<u8>(field)?;
    if n <= 5 {
        Ok(number(n.wide()))
    } else {
        Err(Fault::Invalid(FieldError::NotListed))
    }
}

// A field that starts at `start`, by the letter of its kind, since letters are what `table::kinds_at` promises.
fn field_of(kind: u8, start: usize, field: &[u8]) -> Result<Field, Fault>
    ensures { (i : ℕ) → one_of i (kind_of kind) result ≡ read_field i (kind_of kind) start field.now }
{
    match kind {
        b'b' => number_field::<u8>(field),
        b'w' => number_field::<u16>(field),
        b'l' => number_field::<u32>(field),
        b'i' => ip_type_field(field),
        b't' => bt_type_field(field),
        b'p' => protocol_field(field),
        b'r' => reason_field(field),
        _ => Ok(Field {
            value: start,
            len: field.len(),
        }),
    }
}

// The number of the field after the first `i`, of which there are at most seven.
fn counted(i: usize) -> u8
    requires { i < 7 }
    ensures { result ≡ i + 1 }
{
    (i + 1) as u8
}

// The fields of a row by the letters of its kinds, left to right. They are lent, so that they lie on the stack once.
pub(crate) fn take_fields(
    fields: &mut [Field; 7],
    kinds: &[u8],
    s: &[u8],
    w: Fields,
) -> Result<(), AtPacketError>
    requires { length kinds.now ≤ 7 }
    ensures { Took (kinds_in kinds.now) (take_kinds 1 (kinds_in kinds.now) (left s.now w)) fields.new result }
{
    let mut at = w.at;
    for i in 0..kinds.len() {
        let Some(next) = field_at(s, at) else {
            let field = counted(i);
            return Err(AtPacketError::TypeDecodeParameterMissing { field });
        };
        match field_of(kinds[i], next.start, part(s, next.start, next.len)) {
            Ok(field) => fields[i] = field,
            Err(fault) => return Err(fault.of_field(counted(i))),
        }
        at = next.rest.at;
    }
    Ok(())
}

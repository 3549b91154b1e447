// An event taken apart: the number of its row, and its values in the order of the line.
ghost use Rattle.std.specs.Prelude.{◌≡◌, ◌≤◌, length, map, get_or};
ghost use Rattle.at.specs.Event.{num};
ghost use Rattle.at.specs.Parts.{value_of, values_of, parts_of};
ghost use Rattle.at.specs.declared.parts.Value.TheVariants.{Number, Place};

use crate::Text;

#[derive(Clone, Copy)]
pub enum Value {
    Number(u32),
    Place(Text),
}

impl From<u8> for Value {
    ghost from_gives = { λ n v. v ≡ Number n };

    fn from(n: u8) -> Self {
        Self::Number(u32::from(n))
    }
}

impl From<u16> for Value {
    ghost from_gives = { λ n v. v ≡ Number n };

    fn from(n: u16) -> Self {
        Self::Number(u32::from(n))
    }
}

// The first `count` of the seven are values. One after the row's fields is the data of a binary event.
#[derive(Clone, Copy)]
pub struct Parts {
    pub row: usize,
    pub count: usize,
    pub values: [Value; 7],
}

impl Parts {
    // The values that are not given are the number 0. A loop, since with `copy_from_slice` each array that is given has a place of its own on the
    // stack, and an event is taken apart in a frame of 320 bytes in place of 72.
    pub(crate) fn new<const N: usize>(row: usize, given: [Value; N]) -> Self
        requires { N ≤ 7 }
        ensures { result ≡ parts_of row (map value_of given.entry) }
    {
        let mut values = [Value::Number(0); 7];
        for i in 0..N {
            values[i] = given[i];
        }
        Self {
            row,
            count: N,
            values,
        }
    }

    pub fn value_count(self) -> usize
        ensures { result ≡ length (values_of self) }
    {
        self.count.min(7)
    }

    // A value by its place; 0 where there is none.
    pub fn value_at(self, i: usize) -> Value
        ensures { value_of result ≡ get_or (values_of self) i (num 0) }
    {
        if i < self.value_count() {
            self.values[i]
        } else {
            Value::Number(0)
        }
    }
}

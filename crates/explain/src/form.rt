// The forms of a page. Each part of it is written by one method.
use crate::fields::Row;
use crate::marks::Owners;
use std::fmt;
use std::fmt::{Display, Write};

pub(crate) trait Form {
    // All that stands before the bytes of the input.
    fn top<W: Write, D: Display + Copy>(to: &mut W, title: D) -> fmt::Result;

    fn paragraph<W: Write, D: Display + Drop>(to: &mut W, words: D) -> fmt::Result;

    // What stands between two parts.
    fn gap<W: Write>(to: &mut W) -> fmt::Result;

    // The bytes of the input, 16 a line, with their places, as hex and as characters, and of each byte the field or the refusal that it has.
    fn bytes<W: Write>(to: &mut W, s: &[u8], owners: &Owners) -> fmt::Result;

    // Why an input was refused, and at which byte.
    fn reason<W: Write, D: Display + Drop>(to: &mut W, byte: usize, words: D) -> fmt::Result;

    fn list_start<W: Write>(to: &mut W, heading: &str) -> fmt::Result;

    fn item<W: Write, D: Display + Drop>(to: &mut W, words: D) -> fmt::Result;

    fn list_end<W: Write>(to: &mut W) -> fmt::Result;

    fn table_start<W: Write>(to: &mut W) -> fmt::Result;

    fn row<W: Write>(to: &mut W, row: Row) -> fmt::Result;

    fn table_end<W: Write>(to: &mut W) -> fmt::Result;

    fn bottom<W: Write>(to: &mut W) -> fmt::Result;
}

// The page as text.
use crate::fields::Row;
use crate::form::Form;
use crate::marks::{Owner, Owners};
use crate::show::{readable, write_hex};
use std::fmt;
use std::fmt::{Display, Formatter, InlineText, Write};
use text::bytes::part;

pub(crate) struct TextPage;

// A line of bytes, and the line under it, have fewer columns.
const COLUMNS: usize = 96;

// The bytes of a line in hex, filled up to 16.
#[derive(Clone, Copy)]
struct HexColumns<'a>(&'a [u8]);

impl<'a> Display for HexColumns<'a> {
    fn fmt<W: Write>(&self, f: &mut Formatter<W>) -> fmt::Result {
        for i in 0..16usize {
            match self.0.get(i) {
                Some(b) => {
                    write_hex(f, *b)?;
                    f.write_str(" ")?;
                }
                None => f.write_str("   ")?,
            }
        }
        Ok(())
    }
}

#[derive(Clone, Copy)]
struct Characters<'a>(&'a [u8]);

impl<'a> Display for Characters<'a> {
    fn fmt<W: Write>(&self, f: &mut Formatter<W>) -> fmt::Result {
        for b in self.0 {
            f.write_char(readable(*b))?;
        }
        Ok(())
    }
}

// Under each of 16 places a bracket that holds its field, or a mark at the one that was refused.
#[derive(Clone, Copy)]
struct Under<'a> {
    owners: &'a Owners,
    start: usize,
}

fn write_bracket<W: Write>(f: &mut Formatter<W>, owners: &Owners, place: usize) -> fmt::Result {
    f.write_str(if owners.goes_back(place) { "-" } else { "[" })?;
    f.write_str(if owners.goes_on(place) { "--" } else { "] " })
}

impl<'a> Display for Under<'a> {
    fn fmt<W: Write>(&self, f: &mut Formatter<W>) -> fmt::Result {
        f.write_str("      ")?;
        for place in (self.start..).take(16) {
            match self.owners.at(place) {
                Owner::Nobody => f.write_str("   ")?,
                Owner::Field(_) => write_bracket(f, self.owners, place)?,
                Owner::Refused => write!(f, "^^ byte {place}")?,
            }
        }
        Ok(())
    }
}

fn write_line<W: Write>(to: &mut W, row: &[u8], start: usize) -> fmt::Result {
    let hex = HexColumns(row);
    let characters = Characters(row);
    let line = InlineText::<COLUMNS>::of(format_args!("{start:>4}  {hex} {characters}"));
    writeln!(to, "{}", line.as_str().trim_end())
}

// Nothing where no place of the line has a mark.
fn write_under<W: Write>(to: &mut W, owners: &Owners, start: usize) -> fmt::Result {
    let line = InlineText::<COLUMNS>::of(Under { owners, start });
    let marks = line.as_str().trim_end();
    if marks.is_empty() {
        return Ok(());
    }
    writeln!(to, "{marks}")
}

impl Form for TextPage {
    fn top<W: Write, D: Display + Copy>(to: &mut W, title: D) -> fmt::Result {
        write!(to, "{title}\n\n")
    }

    fn paragraph<W: Write, D: Display + Drop>(to: &mut W, words: D) -> fmt::Result {
        writeln!(to, "{words}")
    }

    fn gap<W: Write>(to: &mut W) -> fmt::Result {
        to.write_str("\n")
    }

    fn bytes<W: Write>(to: &mut W, s: &[u8], owners: &Owners) -> fmt::Result {
        to.write_str("byte   0  1  2  3  4  5  6  7  8  9 10 11 12 13 14 15\n")?;
        for start in (0..owners.shown_end(s)).step_by(16) {
            write_line(to, part(s, start, 16), start)?;
            write_under(to, owners, start)?;
        }
        Ok(())
    }

    fn reason<W: Write, D: Display + Drop>(to: &mut W, byte: usize, words: D) -> fmt::Result {
        write!(to, "Refused at byte {byte}:\n  {words}\n")
    }

    fn list_start<W: Write>(to: &mut W, heading: &str) -> fmt::Result {
        writeln!(to, "{heading}:")
    }

    fn item<W: Write, D: Display + Drop>(to: &mut W, words: D) -> fmt::Result {
        writeln!(to, "  {words}")
    }

    fn list_end<W: Write>(_to: &mut W) -> fmt::Result {
        Ok(())
    }

    fn table_start<W: Write>(to: &mut W) -> fmt::Result {
        to.write_str("byte  bytes  field                  meaning\n")
    }

    fn row<W: Write>(to: &mut W, row: Row) -> fmt::Result {
        let Row {
            number: _,
            start,
            len,
            name,
            meaning,
        } = row;
        writeln!(to, "{start:>4}  {len:>5}  {name:<23}{meaning}")
    }

    fn table_end<W: Write>(_to: &mut W) -> fmt::Result {
        Ok(())
    }

    fn bottom<W: Write>(_to: &mut W) -> fmt::Result {
        Ok(())
    }
}

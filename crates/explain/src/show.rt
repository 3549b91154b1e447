// How bytes and counts are shown on a page.
use std::fmt;

const DIGITS: [u8; 16] = *b"0123456789ABCDEF";

// A byte in hex. Digit by digit: to print it as a number takes several times as long, and a page has thousands of them.
pub(crate) fn write_hex<W: fmt::Write>(to: &mut W, b: u8) -> fmt::Result {
    to.write_char(char::from(DIGITS[usize::from(b / 16)]))?;
    to.write_char(char::from(DIGITS[usize::from(b % 16)]))
}

// Bytes in hex, one after the other.
#[derive(Clone, Copy)]
pub(crate) struct Hex<'a>(pub &'a [u8]);

impl<'a> fmt::Display for Hex<'a> {
    fn fmt<W: fmt::Write>(&self, f: &mut fmt::Formatter<W>) -> fmt::Result {
        for b in self.0 {
            write_hex(f, *b)?;
        }
        Ok(())
    }
}

fn is_readable(b: u8) -> bool {
    matches!(b, b' '..=b'~')
}

// A byte as a character; a dot where it has none.
pub(crate) fn readable(b: u8) -> char {
    if is_readable(b) { char::from(b) } else { '.' }
}

// Whether a byte stands for itself between quotes.
fn is_plain(b: u8) -> bool {
    is_readable(b) && b != b'"' && b != b'\\'
}

// A text in quotes, cut where it needs more columns. Two dots after the quotes say that it goes on.
#[derive(Clone, Copy)]
pub(crate) struct Quoted<'a> {
    pub text: &'a [u8],
    pub columns: usize,
}

impl<'a> Quoted<'a> {
    // How many bytes fit into the columns: one that does not stand for itself takes four.
    fn fitting(&self) -> usize {
        let mut left = self.columns;
        self.text
            .iter()
            .position(|b| {
                let width = if is_plain(*b) { 1 } else { 4 };
                if left < width {
                    return true;
                }
                left -= width;
                false
            })
            .unwrap_or(self.text.len())
    }
}

impl<'a> fmt::Display for Quoted<'a> {
    fn fmt<W: fmt::Write>(&self, f: &mut fmt::Formatter<W>) -> fmt::Result {
        let n = self.fitting();
        f.write_str("\"")?;
        for b in self.text.iter().take(n) {
            if is_plain(*b) {
                f.write_char(char::from(*b))?;
            } else {
                f.write_str("\\x")?;
                write_hex(f, *b)?;
            }
        }
        f.write_str(if n < self.text.len() { "\".." } else { "\"" })
    }
}

// How many there are of what is counted, in the plural where it is not one.
#[derive(Clone, Copy)]
pub(crate) struct Counted {
    pub n: usize,
    pub of: &'static str,
}

impl fmt::Display for Counted {
    fn fmt<W: fmt::Write>(&self, f: &mut fmt::Formatter<W>) -> fmt::Result {
        let n = self.n;
        let of = self.of;
        write!(f, "{n} {of}")?;
        f.write_str(if n == 1 { "" } else { "s" })
    }
}

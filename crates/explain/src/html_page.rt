// The page as HTML, which needs no other file.
use crate::fields::Row;
use crate::form::Form;
use crate::marks::{Owner, Owners};
use crate::show::{readable, write_hex};
use crate::style::{COLOURS, DUMP_LAYOUT, LAYOUT};
use std::fmt;
use std::fmt::{Display, Formatter, Write};

pub(crate) struct HtmlPage;

fn entity(c: char) -> Option<&'static str> {
    match c {
        '&' => Some("&amp;"),
        '<' => Some("&lt;"),
        '>' => Some("&gt;"),
        '"' => Some("&quot;"),
        _ => None,
    }
}

// Writes what passes so that HTML shows it as it is.
#[derive(Drop)]
struct Escaped<'a, W> {
    to: &'a mut W,
}

impl<'a, W: Write> Write for Escaped<'a, W> {
    fn write_str(&mut self, s: &str) -> fmt::Result {
        for c in s.chars() {
            match entity(c) {
                Some(name) => self.to.write_str(name)?,
                None => self.to.write_char(c)?,
            }
        }
        Ok(())
    }
}

fn write_escaped<W: Write, D: Display + Drop>(to: &mut W, words: D) -> fmt::Result {
    let mut escaped = Escaped { to };
    write!(escaped, "{words}")
}

// The byte at a place; the place just past the input has none.
fn write_byte<W: Write>(to: &mut W, byte: Option<u8>) -> fmt::Result {
    let Some(b) = byte else {
        return to.write_str("end<span> </span>");
    };
    write_hex(to, b)?;
    to.write_str("<span>")?;
    let shown = readable(b);
    match entity(shown) {
        Some(name) => to.write_str(name)?,
        None => to.write_char(shown)?,
    }
    to.write_str("</span>")
}

fn write_cell<W: Write>(to: &mut W, byte: Option<u8>, owner: Owner, place: usize) -> fmt::Result {
    match owner {
        Owner::Nobody => {
            if byte.is_none() {
                return Ok(());
            }
            write!(to, "<i title=\"byte {place}\">")?;
            write_byte(to, byte)?;
            to.write_str("</i>")
        }
        Owner::Field(n) => {
            let colour = n % 8;
            write!(
                to,
                "<i class=\"f{colour}\" title=\"byte {place}, field {n}\">"
            )?;
            write_byte(to, byte)?;
            write!(to, "<small>{n}</small></i>")
        }
        Owner::Refused => {
            write!(
                to,
                "<i class=\"refused\" role=\"img\" aria-label=\"byte {place}, refused\" title=\"byte {place}, refused\">"
            )?;
            write_byte(to, byte)?;
            to.write_str("<small>^</small></i>")
        }
    }
}

fn write_half<W: Write>(to: &mut W, s: &[u8], owners: &Owners, start: usize) -> fmt::Result {
    write!(to, "<span><em>{start}</em>")?;
    for place in (start..).take(8) {
        write_cell(to, s.get(place).copied(), owners.at(place), place)?;
    }
    to.write_str("</span>")
}

// Two halves, which a narrow screen shows one below the other.
fn write_line<W: Write>(to: &mut W, s: &[u8], owners: &Owners, start: usize) -> fmt::Result {
    let second = start.saturating_add(8);
    to.write_str("<p>")?;
    write_half(to, s, owners, start)?;
    if second < owners.shown_end(s) {
        write_half(to, s, owners, second)?;
    }
    to.write_str("</p>\n")
}

impl Form for HtmlPage {
    fn top<W: Write, D: Display + Copy>(to: &mut W, title: D) -> fmt::Result {
        to.write_str(
            "<!DOCTYPE html>\n<html lang=\"en\">\n<head>\n<meta charset=\"utf-8\">\n\
            <meta name=\"viewport\" content=\"width=device-width, initial-scale=1\">\n<title>",
        )?;
        write_escaped(to, title)?;
        to.write_str("</title>\n<style>\n")?;
        to.write_str(COLOURS)?;
        to.write_str(LAYOUT)?;
        to.write_str(DUMP_LAYOUT)?;
        to.write_str("</style>\n</head>\n<body>\n<h1>")?;
        write_escaped(to, title)?;
        to.write_str("</h1>\n")
    }

    fn paragraph<W: Write, D: Display + Drop>(to: &mut W, words: D) -> fmt::Result {
        to.write_str("<p>")?;
        write_escaped(to, words)?;
        to.write_str("</p>\n")
    }

    fn gap<W: Write>(_to: &mut W) -> fmt::Result {
        Ok(())
    }

    fn bytes<W: Write>(to: &mut W, s: &[u8], owners: &Owners) -> fmt::Result {
        to.write_str("<div class=\"dump\">\n")?;
        for start in (0..owners.shown_end(s)).step_by(16) {
            write_line(to, s, owners, start)?;
        }
        to.write_str("</div>\n")
    }

    fn reason<W: Write, D: Display + Drop>(to: &mut W, byte: usize, words: D) -> fmt::Result {
        write!(to, "<p class=\"why\">Refused at byte {byte}: ")?;
        write_escaped(to, words)?;
        to.write_str("</p>\n")
    }

    fn list_start<W: Write>(to: &mut W, heading: &str) -> fmt::Result {
        write!(to, "<h2>{heading}</h2>\n<ul>\n")
    }

    fn item<W: Write, D: Display + Drop>(to: &mut W, words: D) -> fmt::Result {
        to.write_str("<li>")?;
        write_escaped(to, words)?;
        to.write_str("</li>\n")
    }

    fn list_end<W: Write>(to: &mut W) -> fmt::Result {
        to.write_str("</ul>\n")
    }

    fn table_start<W: Write>(to: &mut W) -> fmt::Result {
        to.write_str(
            "<table>\n<thead><tr><th>byte</th><th>bytes</th><th>field</th><th>meaning</th></tr></thead>\n<tbody>\n",
        )
    }

    // The number of a field is the one by which the bytes name it.
    fn row<W: Write>(to: &mut W, row: Row) -> fmt::Result {
        let Row {
            number,
            start,
            len,
            name,
            meaning,
        } = row;
        let colour = number % 8;
        write!(to, "<tr><td>{start}</td><td>{len}</td>")?;
        write!(to, "<td><b class=\"f{colour}\">{number}</b>{name}</td><td>")?;
        write_escaped(to, meaning)?;
        to.write_str("</td></tr>\n")
    }

    fn table_end<W: Write>(to: &mut W) -> fmt::Result {
        to.write_str("</tbody>\n</table>\n")
    }

    fn bottom<W: Write>(to: &mut W) -> fmt::Result {
        to.write_str("</body>\n</html>\n")
    }
}

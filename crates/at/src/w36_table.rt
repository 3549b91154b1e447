// The table of W36 events in bytes (table.rt): the rows of text, and then those of binary.
ghost use Rattle.at.specs.W36.{table};

use crate::table::Rows;

pub(crate) static TABLE: [u8; 300] = *b"\
    \x06\x01+UESOC     b      \
    \x07\x01+UESOCL    b      \
    \x07\x02+UESODA    bw     \
    \x06\x03+UEWLU     wsw    \
    \x06\x02+UEWLD     ww     \
    \x08\x01+UEWAPSA   s      \
    \x09\x01+UEWAPSDA  s      \
    \x07\x00+UEWAPU           \
    \x07\x00+UEWAPD           \
    \x07\x00+UEWSNU           \
    \x07\x00+UEWSND           \
    \x08\x00+UEWAPNU          \
    \x08\x00+UEWAPND          \
    \x07\x01+UESODB    b      \
    \x08\x03+UESODBF   bsw    ";

// The rows of text.
pub(crate) struct W36;

impl Rows for W36 {
    ghost rows = { table };

    fn bytes() -> &'static [u8] {
        &TABLE[..260]
    }
}

// The table of W26 events in bytes (table.rt).
ghost use Rattle.at.specs.W26.{table};

use crate::table::Rows;

pub(crate) static TABLE: [u8; 520] = *b"\
    \x06\x07+UUDPC     wipswsw\
    \x06\x01+UUDPD     w      \
    \x06\x03+UUWLE     wsw    \
    \x06\x02+UUWLD     wr     \
    \x07\x01+UUWAPU    w      \
    \x07\x01+UUWAPD    w      \
    \x0a\x02+UUWAPSTAC ws     \
    \x0a\x01+UUWAPSTAD w      \
    \x08\x00+UUETHLU          \
    \x08\x00+UUETHLD          \
    \x05\x01+UUNU      w      \
    \x05\x01+UUND      w      \
    \x07\x02+UUNERR    ww     \
    \x07\x02+UUDATA    ww     \
    \x06\x02+UUBTB     sb     \
    \x07\x02+UUBTUC    sl     \
    \x08\x02+UUBTUPD   sl     \
    \x08\x01+UUBTUPE   s      \
    \x09\x03+UUBTACLC  wbs    \
    \x09\x01+UUBTACLD  w      \
    \x08\x02+UUBTGRR   ww     \
    \x08\x04+UUBTGRW   wwsb   \
    \x08\x02+UUBTGIC   ww     \
    \x07\x03+UUBTGN    wws    \
    \x07\x03+UUBTGI    wws    \
    \x06\x05+UUDPC     wtbsw  ";

pub(crate) struct W26;

impl Rows for W26 {
    ghost rows = { table };

    fn bytes() -> &'static [u8] {
        &TABLE
    }
}

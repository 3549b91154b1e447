// Classic pcap captures of EDM frames: microseconds, version 2.4, link type 147 (USER0). They are read in either byte order and written little-endian.
// One call reads or writes the header or one record, so a caller needs to hold no more than one record of 4,115 bytes.
#![tactic(auto)]

mod number;
pub mod read;
pub mod write;

#[derive(Clone, Copy)]
pub enum CaptureError {
    CaptureHeaderInvalid,
    CaptureRecordInvalid,
    CaptureBufferTooSmall,
}

#[derive(Clone, Copy)]
pub enum ByteOrder {
    Little,
    Big,
}

// The byte order of a file, and whether all values of its header are those that `write_header` writes.
#[derive(Clone, Copy)]
pub struct Header {
    pub order: ByteOrder,
    pub is_ours: bool,
}

// The frame is the `len` bytes from `start` on; the next record begins at `next`.
#[derive(Clone, Copy)]
pub struct Record {
    pub seconds: u32,
    pub microseconds: u32,
    pub start: usize,
    pub len: usize,
    pub next: usize,
}

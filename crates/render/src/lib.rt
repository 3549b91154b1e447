// Answers as lines of text: the names of the Rust, then the fields in its order, split by single spaces. Each function prints at a place of a
// lent buffer, as many bytes as fit, and answers the place just past them.
//
// The buffer and the place go apart: a pen that holds both would have to promise, line by line, that it still holds the same buffer, and the
// programs, which keep their output and its count apart, would make one and take it apart at each call. Names are bytes: a derived `Debug` states
// no byte of what it writes, and a `Display` would be the same matches with a sink and a formatter around them.
#![tactic(auto)]

pub mod capture;
pub mod event;
pub mod explained;
mod field;
pub mod frame;
mod hex;
mod label;
pub mod range;
pub mod refusal;
pub mod response;
mod w26;
pub mod w36;
pub mod why;
pub mod word;
pub mod written;

// What lines of text say, for programs that read them: bytes in hex, numbers, arguments, and standard input and output in pieces.
#![tactic(auto)]

pub mod args;
pub mod cut;
pub mod hex;
pub mod input;
pub mod number;
pub mod output;
pub mod session;

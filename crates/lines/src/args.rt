// What a program was given beside its name. No clause says what the system answers.
use std::env::{Env, FillError};
use text::bytes::{part, same};

// Whether there is an argument with this number. The first one beside the program's name has number 1.
pub fn has_argument(rt: &impl Env, i: usize) -> bool {
    let mut given = [0u8; 1];
    !matches!(rt.arg(i, &mut given), Err(FillError::NotPresent))
}

// Whether the argument with this number is a word, which has at most 16 bytes. A missing one is none.
pub fn is_word(rt: &impl Env, i: usize, word: &[u8]) -> bool {
    let mut given = [0u8; 16];
    rt.arg(i, &mut given)
        .is_ok_and(|n| same(part(&given, 0, n), word))
}

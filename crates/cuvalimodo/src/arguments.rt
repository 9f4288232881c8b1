// The row of words: the default ones, and the program's arguments behind them, each ended by a byte 0.
use std::env::FillError;
use std::rt::Env;

// Puts the default words at the front of the row.
fn put_defaults(words: &mut [u8]) {
    for (k, byte) in words.iter_mut().enumerate() {
        *byte = commandline::default_byte(k);
    }
}

// Puts argument i at a place of the row, ended by the 0 that stands behind it; gives the next place, or the row's end where it has no room.
// (No Option for the row's end: the next argument has no room there either, so that one comparison serves both.)
fn put_argument(rt: &impl Env, words: &mut [u8], at: usize, i: usize) -> usize {
    let length = words.len();
    if length <= at {
        return length;
    }
    match rt.arg(i, &mut words[at..]) {
        Ok(bytes) if bytes < length - at => at + bytes + 1,
        _ => length,
    }
}

// Whether there is an argument i.
fn has_argument(rt: &impl Env, i: usize) -> bool {
    let mut byte = [0u8; 1];
    !matches!(rt.arg(i, &mut byte), Err(FillError::NotPresent))
}

// Puts all arguments behind the default words; gives where they end.
fn put_arguments(rt: &impl Env, words: &mut [u8]) -> usize {
    let mut at = commandline::ARGUMENTS;
    for i in 1..usize::MAX {
        if !has_argument(rt, i) {
            break;
        }
        at = put_argument(rt, words, at, i);
    }
    at
}

// A byte of an argument as it is taken and shown: a question mark for a control character, so that a message is one line.
fn shown(byte: u8) -> u8 {
    match byte {
        1..b' ' => b'?',
        _ => byte,
    }
}

// Puts the default words and all arguments as they are shown (the 0 behind a word stays); gives where they end, the row's end where it has no
// room for all.
pub fn put_words(rt: &impl Env, words: &mut [u8]) -> usize {
    put_defaults(words);
    let end = put_arguments(rt, words);
    for byte in words.iter_mut() {
        *byte = shown(*byte);
    }
    end
}

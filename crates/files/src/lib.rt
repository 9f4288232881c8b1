// Files: read whole into a lent buffer, by name or from where the program itself lies; and the checksum by which a person compares two of them.
#![tactic(auto)]

ghost use Rattle.std.specs.Prelude.{◌≡◌, ◌+◌, ◌≤◌, length, take, MatchResult};

pub mod checksum; // CRC-32

use std::io;
use std::io::Read;
use std::rt::{Env, Files};

// The longest path that the system takes, with a 0 behind it.
const PATH: usize = 4096;

// The system's number for text that is not UTF-8 (EILSEQ).
const NO_TEXT: i32 = 84;

// Why a file was not read whole: it is larger than the buffer, or a read failed.
#[derive(Clone, Copy)]
pub enum Fault {
    TooLarge,
    Failed(io::Error),
}

// A file that was not read whole: how many of its bytes were, and why no more.
#[derive(Clone, Copy)]
pub struct Unread {
    pub bytes: usize,
    pub fault: Fault,
}

// Reads once into the buffer from `done` on; gives how many bytes came, 0 at the input's end and where the read fails.
// (`transcript` has the same line for its window: it does not stand on this crate, and one line is no reason to.)
fn read_behind(input: &mut impl Read, buffer: &mut [u8], done: usize) -> usize
    requires { done ≤ length buffer.old }
    ensures { done + result ≤ length buffer.new }
{
    input.read(&mut buffer[done..]).unwrap_or(0)
}

// Reads until the buffer is full, the input ends or a read fails; gives how many bytes were put at the start of the buffer.
pub fn read_full(input: &mut impl Read, buffer: &mut [u8]) -> usize
    ensures in_bounds { result ≤ length buffer.new }
    ensures prefix { result ≡ length (take result buffer.new) }
{
    let mut done = 0;
    // (No `for`: it goes on by as many bytes as a read brings, which only the read tells.)
    while done < buffer.len() {
        let n = read_behind(input, buffer, done);
        if n == 0 {
            return done;
        }
        done += n;
    }
    done
}

// Reads an open file to its end into the buffer, and gives how many bytes it has. One more read shows that it ends there.
pub fn read_whole(file: &mut impl Read, buffer: &mut [u8]) -> Result<usize, Unread>
    ensures in_bounds { MatchResult result (λ bytes. bytes ≤ length buffer.new) (λ unread. unread.bytes ≤ length buffer.new) }
    ensures prefix { MatchResult result (λ bytes. bytes ≡ length (take bytes buffer.new)) (λ unread. unread.bytes ≡ length (take unread.bytes buffer.new)) }
{
    let bytes = read_full(file, buffer);
    let fault = match file.read(&mut [0]) {
        Ok(0) => return Ok(bytes),
        Ok(_) => Fault::TooLarge,
        Err(error) => Fault::Failed(error),
    };
    Err(Unread { bytes, fault })
}

// The place behind the last slash of the first bytes of a path; 0 where there is none.
fn behind_slash(path: &[u8], bytes: usize) -> usize {
    for k in (0..bytes).rev() {
        if columns::column(path, k) == b'/' {
            return k + 1;
        }
    }
    0
}

// Writes a byte into a path, where there is room; gives the place behind it, which is on the path.
fn put_byte(path: &mut [u8], at: usize, byte: u8) -> usize
    ensures { result ≤ length path.old }
{
    if at < path.len() {
        path[at] = byte;
        return at + 1;
    }
    path.len()
}

// Writes text into a path from a place on, as much as there is room for; gives the place behind it, which is on the path.
fn put_text(path: &mut [u8], at: usize, text: &[u8]) -> usize
    ensures { at ≤ length path.old → result ≤ length path.old }
{
    let mut next = at;
    for byte in text {
        next = put_byte(path, next, *byte);
    }
    next
}

// Opens a file for reading, by the bytes of its name. The library opens by text alone: a name that is none is not opened.
pub fn open_read<R: Files>(rt: &R, name: &[u8]) -> io::Result<R::File> {
    match std::str::from_utf8(name) {
        Ok(text) => std::fs::open(rt, text),
        Err(_) => Err(io::Error::from_raw_os_error(NO_TEXT)),
    }
}

// Opens a file that lies two folders above the program's own.
fn open_above<R: Files + Env>(rt: &R, name: &[u8]) -> io::Result<R::File> {
    let mut path = [0u8; PATH];
    let bytes = rt.arg(0, &mut path).unwrap_or(0);
    let slash = behind_slash(&path, bytes);
    if slash == 0 {
        return open_read(rt, name);
    }
    let above = put_text(&mut path, slash, b"../../");
    let end = put_text(&mut path, above, name);
    open_read(rt, columns::part(&path, 0, end))
}

// Opens a file of the program's own data, in the current folder or else two folders above the program.
pub fn open_own<R: Files + Env>(rt: &R, name: &[u8]) -> io::Result<R::File> {
    open_read(rt, name).or_else(|_| open_above(rt, name))
}

// Reading standard input by lines and by counts of bytes, in one lent buffer.
ghost use Rattle.std.specs.Prelude.{◌≡◌, ◌+◌, ◌-◌, ◌%◌, ◌^◌, ◌<◌, ◌≤◌, ◌==◌, count_by, length, IfSome};
ghost use Rattle.transcript.specs.inner.Window.{Within, Ends, feeds_from};

use std::io::Read;
use std::num::wrapping_add_u64;

// (The input and the buffer travel beside the window and are no fields of it: two fields behind a reference cannot be lent at once, as a read does.)
//
// What is read and not yet taken: the bytes of the buffer from `from` to `to`. `line` is the input line, from 1, on which the first of them stands.
#[derive(Clone, Copy)]
pub struct Window {
    pub from: usize,
    pub to: usize,
    pub line: u64,
    pub ended: bool,
}

// Nothing is read yet.
pub fn start() -> Window
    ensures { Within 0 result }
{
    Window {
        from: 0,
        to: 0,
        line: 1,
        ended: false,
    }
}

// Moves the bytes from `from` to `to` to the front of the buffer; gives where they end.
fn to_front(buffer: &mut [u8], from: usize, to: usize) -> usize
    requires { (from ≤ to) × (to ≤ length buffer.old) }
    ensures { result ≡ to - from }
{
    buffer.copy_within(from..to, 0);
    to - from
}

// Reads once into the buffer from `to` on; gives how many bytes came: none where the read fails.
// (`files` has the same line: this crate does not stand on it, and one line is no reason to.)
fn read_behind(input: &mut impl Read, buffer: &mut [u8], to: usize) -> usize
    requires { to ≤ length buffer.old }
    ensures { to + result ≤ length buffer.old }
{
    input.read(&mut buffer[to..]).unwrap_or(0)
}

// Adds to the window what one more read brings. Where that is nothing, the input has ended or the buffer is full.
pub fn more(input: &mut impl Read, buffer: &mut [u8], window: &mut Window)
    requires { Within (length buffer.old) window.old }
    ensures within { Within (length buffer.old) window.new }
    ensures line_value { window.new.line ≡ window.old.line }
{
    let to = to_front(buffer, window.from, window.to);
    let got = read_behind(input, buffer, to);
    window.from = 0;
    window.to = to + got;
    window.ended = got == 0;
}

// The place of the first LF from `from` on and before `to`, if there is one.
fn line_feed(buffer: &[u8], from: usize, to: usize) -> Option<usize>
    requires { (from ≤ to) × (to ≤ length buffer.now) }
    ensures { IfSome result (λ end. (from ≤ end) × (end < to)) }
{
    let place = buffer[from..to].iter().position(|b| *b == b'\n')?;
    Some(from + place)
}

// Where the line ends that begins where the window does, with as much read as it takes: at its LF, if the input does not end before and the buffer holds it.
pub fn next_line(input: &mut impl Read, buffer: &mut [u8], window: &mut Window) -> Option<usize>
    requires { Within (length buffer.old) window.old }
    ensures ends { Ends (length buffer.old) window.new result }
    ensures line_value { window.new.line ≡ window.old.line }
{
    // Each turn brings a byte or ends the input, so that a turn for each byte of the buffer and one more are enough.
    for _turn in 0..buffer.len() + 1 {
        let end = line_feed(buffer, window.from, window.to);
        if end.is_some() || window.ended {
            return end;
        }
        more(input, buffer, window);
    }
    line_feed(buffer, window.from, window.to)
}

// Reads until the window has at least so many bytes, the input ends or the buffer is full.
pub fn gather(input: &mut impl Read, buffer: &mut [u8], window: &mut Window, bytes: usize)
    requires { Within (length buffer.old) window.old }
    ensures { Within (length buffer.old) window.new }
{
    for _turn in 0..buffer.len() + 1 {
        if bytes <= window.to - window.from || window.ended {
            return;
        }
        more(input, buffer, window);
    }
}

// Moves the window behind the LF at `end`, which ends the line of a number.
pub fn behind(window: &mut Window, end: usize, line: u64)
    requires { end < window.old.to }
    ensures from_value { (window.new.from ≡ end + 1) × (window.new.to ≡ window.old.to) }
    ensures line_value { window.new.line ≡ (line + 1) % 2 ^ 64 }
{
    window.from = end + 1;
    window.line = wrapping_add_u64(line, 1);
}

// How many bytes are LF.
fn line_feeds(bytes: &[u8]) -> usize
    ensures { result ≡ count_by (λ b. b == 10) bytes.now }
{
    bytes.iter().filter(|b| **b == b'\n').count()
}

// How many of the bytes from `from` on and before `to` are LF.
pub fn feeds(buffer: &[u8], from: usize, to: usize) -> u64
    requires { (from ≤ to) × (to ≤ length buffer.now) }
    ensures { result ≡ feeds_from buffer.now from (to - from) }
{
    line_feeds(&buffer[from..to]) as u64
}

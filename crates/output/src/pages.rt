// A page that is written on: what is put stands on it until it is full, or flushed, and goes to standard output then.
ghost use Rattle.std.specs.Prelude.{◌≡◌, ◌-◌, ◌<◌, ◌≤◌, length, get_or, decimal, IfOk};
ghost use Rattle.output.specs.Pages.{EndsWith};

use std::io;

// How many bytes a page has.
pub const SIZE: usize = 4_096;

// A page, and the place behind what was put last.
#[derive(Drop)]
pub struct Page {
    bytes: [u8; SIZE],
    at: usize,
    ghost within: { at ≤ length bytes },
}

impl Page {
    // An empty page.
    pub fn new() -> Page
        ensures { result.at ≡ 0 }
    {
        Page {
            bytes: [0; SIZE],
            at: 0,
        }
    }

    // Puts a byte; a full page is written out before.
    pub fn put(&mut self, rt: &impl Print, byte: u8) -> io::Result<()>
        ensures { IfOk result (λ _. (0 < self.new.at) × (get_or self.new.bytes (self.new.at - 1) 0 ≡ byte)) }
    {
        if self.at == SIZE {
            self.flush(rt)?;
        }
        self.bytes[self.at] = byte;
        self.at += 1;
        Ok(())
    }

    // Puts bytes one after another.
    pub fn put_bytes(&mut self, rt: &impl Print, bytes: &[u8]) -> io::Result<()>
        ensures { IfOk result (λ _. EndsWith self.new.bytes self.new.at bytes.now) }
    {
        for byte in bytes {
            self.put(rt, *byte)?;
        }
        Ok(())
    }

    // Puts a number in decimal.
    pub fn put_number(&mut self, rt: &impl Print, number: u64) -> io::Result<()>
        ensures { IfOk result (λ _. EndsWith self.new.bytes self.new.at (decimal number)) }
    {
        let mut text = itoa::Buffer::new();
        self.put_bytes(rt, text.format(number).as_bytes())
    }

    // Puts a number of a size in decimal, with a minus where it is negative.
    pub fn put_size(&mut self, rt: &impl Print, negative: bool, size: u64) -> io::Result<()>
        ensures { IfOk result (λ _. EndsWith self.new.bytes self.new.at (decimal size)) }
    {
        if negative {
            self.put(rt, b'-')?;
        }
        self.put_number(rt, size)
    }

    // Writes out what stands on the page, which is then empty.
    pub fn flush(&mut self, rt: &impl Print) -> io::Result<()>
        ensures { IfOk result (λ _. self.new.at ≡ 0) }
    {
        rt.write_all(&self.bytes[..self.at])?;
        self.at = 0;
        Ok(())
    }
}

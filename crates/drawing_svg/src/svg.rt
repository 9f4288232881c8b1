// The pieces that an SVG drawing is written of, put on a page: forms with numbers in them, and text as XML has it.

use crate::markup;
use output::pages::Page;
use std::io;

// Puts a form: its bytes as they are, and for its blanks @ $ ~ ^ the first number to the fourth; 0 for one that is not there.
pub fn put_form(rt: &impl Print, page: &mut Page, form: &[u8], numbers: &[u64]) -> io::Result<()> {
    for byte in form {
        if markup::is_blank(*byte) {
            page.put_number(rt, markup::number_for(*byte, numbers))?;
        } else {
            page.put(rt, *byte)?;
        }
    }
    Ok(())
}

// Begins a group of texts of a size, each in the middle of its place.
pub fn put_group(rt: &impl Print, page: &mut Page, size: u64) -> io::Result<()> {
    put_form(
        rt,
        page,
        b"<g text-anchor=\"middle\" font-size=\"@\">\n",
        &[size],
    )
}

// Ends a group.
pub fn end_group(rt: &impl Print, page: &mut Page) -> io::Result<()> {
    page.put_bytes(rt, b"</g>\n")
}

// Puts an ASCII character of text as XML has it.
fn put_character(rt: &impl Print, page: &mut Page, byte: u8) -> io::Result<()> {
    page.put_bytes(rt, markup::written(byte, &mut [0]))
}

// How many bytes pass as they are, from the first of a text on, where so many were left to pass.
fn passing(text: &[u8], left: usize) -> usize {
    if left == 0 {
        return markup::sequence(text);
    }
    left
}

// Puts text so that it is text in XML, whatever its bytes: as they are those that belong to a character beyond ASCII.
pub fn put_escaped(rt: &impl Print, page: &mut Page, text: &[u8]) -> io::Result<()> {
    let mut left: usize = 0;
    for (i, byte) in text.iter().enumerate() {
        let pass = passing(&text[i..], left);
        if pass == 0 {
            put_character(rt, page, *byte)?;
        } else {
            page.put(rt, *byte)?;
        }
        left = pass.saturating_sub(1);
    }
    Ok(())
}

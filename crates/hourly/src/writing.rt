// Hourly cards written into lent bytes, each field at its columns.
ghost use Rattle.std.specs.Prelude.{◌≡◌, ◌+◌, ◌*◌, ◌≤◌, pos, length, replicate};
ghost use Rattle.std.proofs.lemmas.List.Edits.{sets};
ghost use Rattle.hourly.specs.Card.{value};
ghost use Rattle.hourly.specs.Format.{heights_a_card};
ghost use Rattle.hourly.specs.Writing.{decimal, entry_written, card_written, cards_written};
ghost use Rattle.hourly.specs.inner.Hours.{card_at, cards_after};
ghost use Rattle.hourly.specs.inner.Fields.{Fitting, AllFitting, heights_written, heading_length, heading_written, card_length};

use crate::centimetres::{HEIGHTS, centimetres};

// The columns before the heights.
pub const HEADING: usize = 20;

// What a month's cards have in common.
#[derive(Clone, Copy)]
pub struct Heading {
    pub station: u32,
    pub year: u32,
    pub month: u32,
}

// Writes so many blanks.
fn put_blanks(out: &mut [u8], at: usize, count: usize)
    requires { at + count ≤ length out.old }
    ensures { out.new ≡ sets out.old at (replicate count 32) }
{
    // No `fill`: it calls std's code, which `has-the-clock` of claim_runs can't have.
    for byte in &mut out[at..at + count] {
        *byte = b' ';
    }
}

// How many digits a number has in decimal, or `most` where it has more.
fn digit_count(most: usize, number: u64) -> usize
    ensures { result ≡ length (decimal most number) }
{
    if most == 0 {
        return 0;
    }
    if number < 10 {
        return 1;
    }
    digit_count(most - 1, number / 10) + 1
}

// Writes a number in decimal; gives the place after it.
fn put_decimal(out: &mut [u8], at: usize, most: usize, number: u64) -> usize
    requires { at + length (decimal most number) ≤ length out.old }
    ensures out_after { out.new ≡ sets out.old at (decimal most number) }
    ensures value { result ≡ at + length (decimal most number) }
{
    if most == 0 {
        return at;
    }
    if number < 10 {
        out[at] = b'0' + number as u8;
        return at + 1;
    }
    let next = put_decimal(out, at, most - 1, number / 10);
    out[next] = b'0' + (number % 10) as u8;
    next + 1
}

// Writes a number in a field of a width.
fn put_natural(out: &mut [u8], at: usize, width: usize, number: u64)
    requires { at + width ≤ length out.old }
    ensures { out.new ≡ sets out.old at (entry_written width (value (pos number))) }
{
    let blanks = width - digit_count(width, number);
    put_blanks(out, at, blanks);
    put_decimal(out, at + blanks, width, number);
}

// Writes a number in a field of a width that holds it.
fn put_number(out: &mut [u8], at: usize, width: usize, number: i64)
    requires { (at + width ≤ length out.old) × Fitting width number }
    ensures { out.new ≡ sets out.old at (entry_written width (value number)) }
{
    let size = angles::size(number);
    if number < 0 {
        let blanks = width - 1 - digit_count(width, size);
        put_blanks(out, at, blanks);
        out[at + blanks] = b'-';
        put_decimal(out, at + blanks + 1, width, size);
    } else {
        put_natural(out, at, width, size);
    }
}

// Writes the twelve heights from an hour on, in fields of a width; gives the place after them.
fn put_heights(out: &mut [u8], at: usize, width: usize, hours: &[i64], first: usize) -> usize
    requires { (at + heights_a_card * width ≤ length out.old) × ((first + heights_a_card ≤ length hours.now) × AllFitting width hours.now) }
    ensures out_after { out.new ≡ sets out.old at (heights_written width hours.now first) }
    ensures value { result ≡ at + heights_a_card * width }
{
    let mut next = at;
    for hour in &hours[first..first + HEIGHTS] {
        put_number(out, next, width, centimetres(*hour));
        next += width;
    }
    next
}

// Writes the fields of card i, from 0, that stand before the heights.
fn put_heading(out: &mut [u8], at: usize, heading: Heading, i: usize)
    requires { at + heading_length ≤ length out.old }
    ensures { out.new ≡ sets out.old at (heading_written heading.station heading.year heading.month i) }
{
    put_natural(out, at, 1, (i % 2 + 1) as u64);
    put_blanks(out, at + 1, 1);
    put_natural(out, at + 2, 5, heading.station as u64);
    put_blanks(out, at + 7, 7);
    put_natural(out, at + 14, 2, (i / 2 + 1) as u64);
    put_natural(out, at + 16, 2, heading.month as u64);
    put_natural(out, at + 18, 2, (heading.year % 100) as u64);
}

// Writes card i, from 0, with heights of a width; gives the place after it.
fn put_card(
    out: &mut [u8],
    at: usize,
    width: usize,
    heading: Heading,
    hours: &[i64],
    i: usize,
) -> usize
    requires { (at + card_length width ≤ length out.old) × ((heights_a_card * i + heights_a_card ≤ length hours.now) × AllFitting width hours.now) }
    ensures out_after { out.new ≡ sets out.old at (card_written width (card_at hours.now heading.station heading.year heading.month i)) }
    ensures value { result ≡ at + card_length width }
{
    put_heading(out, at, heading, i);
    let next = put_heights(out, at + HEADING, width, hours, HEIGHTS * i);
    out[next] = b'\n';
    next + 1
}

// Writes so many cards, the first at the first byte, with heights of a width.
pub fn put_cards(out: &mut [u8], width: usize, heading: Heading, hours: &[i64], cards: usize)
    requires { (cards * card_length width ≤ length out.old) × ((heights_a_card * cards ≤ length hours.now) × AllFitting width hours.now) }
    ensures { out.new ≡ sets out.old 0 (cards_written width (cards_after hours.now heading.station heading.year heading.month 0 cards)) }
{
    let mut at = 0;
    for i in 0..cards {
        at = put_card(out, at, width, heading, hours, i);
    }
}

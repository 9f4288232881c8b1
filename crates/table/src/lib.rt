// The table that a card file gives, in flat arrays of rows, and what stands at a place of it. Types are so narrow that no sum over the table can overflow.
#![tactic(auto)]

ghost use Rattle.std.specs.Prelude.{◌≡◌, ◌+◌, ◌≤◌, length, get_or};
ghost use Rattle.std.proofs.lemmas.List.Edits.{sets};
ghost use Rattle.table.specs.Table.{no_cards};
ghost use Rattle.table.specs.inner.View.{table_of};

use limits::{FREQUENCIES, MAINS, SATELLITES, SHALLOWS};

pub mod entries; // a number of a row
pub mod definitions; // what stands at a place

// The rows of the table's arrays, one behind the other: names of five bytes; three numbers and seven angles a main; four angles and two
// numbers a satellite; six numbers and four coefficients a shallow-water constituent.
pub const NAMES: usize = 5 * FREQUENCIES;

pub const MAIN_CARDS: usize = 3 * MAINS;

pub const MAIN_ANGLES: usize = 7 * MAINS;

pub const SATELLITE_ANGLES: usize = 4 * SATELLITES;

pub const SATELLITE_RATIOS: usize = 2 * SATELLITES;

pub const SHALLOW_CARDS: usize = 6 * SHALLOWS;

pub const COEFFICIENTS: usize = 4 * SHALLOWS;

// 01's table; `specs/inner/View.antt` says what each row holds.
#[repr(C)]
#[derive(Clone, Copy)]
pub struct Table {
    pub frequencies: usize,
    pub names: [u8; NAMES],
    pub speeds: [u64; FREQUENCIES],
    pub longitudes: [u64; 5],
    pub increases: [u64; 5],
    pub mains: usize,
    pub maincards: [u16; MAIN_CARDS],
    pub mainangles: [i8; MAIN_ANGLES],
    pub satelliteangles: [i8; SATELLITE_ANGLES],
    pub satelliteratios: [u32; SATELLITE_RATIOS],
    pub shallows: usize,
    pub shallowcards: [u16; SHALLOW_CARDS],
    pub coefficients: [i8; COEFFICIENTS],
}

// A table with no entry.
pub fn no_cards() -> Table
    ensures { table_of result ≡ no_cards }
{
    Table {
        frequencies: 0,
        names: [0u8; NAMES],
        speeds: [0u64; FREQUENCIES],
        longitudes: [0u64; 5],
        increases: [0u64; 5],
        mains: 0,
        maincards: [0u16; MAIN_CARDS],
        mainangles: [0i8; MAIN_ANGLES],
        satelliteangles: [0i8; SATELLITE_ANGLES],
        satelliteratios: [0u32; SATELLITE_RATIOS],
        shallows: 0,
        shallowcards: [0u16; SHALLOW_CARDS],
        coefficients: [0i8; COEFFICIENTS],
    }
}

// Number i, or `missing` past the end.
pub fn at<'a, T>(xs: &'a [T], i: usize, missing: &'a T) -> &'a T
    ensures { result.now ≡ get_or xs.now i missing.now }
{
    if i < xs.len() { &xs[i] } else { missing }
}

// Writes a row over the numbers from number `at` on.
// (Three of them: one function over a `T: Copy` calls std's code, which claim_runs' `has-the-clock` has no table of.)
pub fn put_u16(xs: &mut [u16], at: usize, row: &[u16])
    requires { at + length row.now ≤ length xs.old }
    ensures { xs.new ≡ sets xs.old at row.now }
{
    for (j, x) in row.iter().enumerate() {
        xs[at + j] = *x;
    }
}

// Writes a row over the numbers from number `at` on.
pub fn put_u32(xs: &mut [u32], at: usize, row: &[u32])
    requires { at + length row.now ≤ length xs.old }
    ensures { xs.new ≡ sets xs.old at row.now }
{
    for (j, x) in row.iter().enumerate() {
        xs[at + j] = *x;
    }
}

// Writes a row over the numbers from number `at` on.
pub fn put_i8(xs: &mut [i8], at: usize, row: &[i8])
    requires { at + length row.now ≤ length xs.old }
    ensures { xs.new ≡ sets xs.old at row.now }
{
    for (j, x) in row.iter().enumerate() {
        xs[at + j] = *x;
    }
}

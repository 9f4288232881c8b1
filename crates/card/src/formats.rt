// The number fields of each card of the card file, as 01's formats have them, and the columns where its names begin. Columns are counted from 0.
ghost use Rattle.std.specs.Prelude.{◌≡◌, ◌<◌};
ghost use Rattle.limits.specs.Limits.{satellites_a_card};
ghost use Rattle.card.specs.inner.Fields.{RowGood};
ghost use Rattle.card.specs.Formats.{fault_in, frequency_field, five_field, doodson_field, main_phase_field, satellite_count_field, difference_field, satellite_phase_field, ratio_field, mark_column, row_field, part_count_field, coefficient_field, part_name};

use crate::faults::{Fault, Trouble, What};
use fields::Format;
use limits::FREQUENCY;

// Where a constituent's own name begins: in part 1, and in parts 3 and 4.
pub const FREQUENCY_NAME: usize = 4;

pub const MAIN_NAME: usize = 6;

pub const SHALLOW_NAME: usize = 6;

// "ratio, 0 to 2.0000", in ten-thousandths.
pub const RATIO: u32 = 20_000;

// A number field: what it holds and which of several, from 1 (none: there is one only); its first column, width and format; its range.
#[derive(Clone, Copy)]
pub struct NumberField {
    pub what: What,
    pub which: Option<usize>,
    pub from: usize,
    pub width: usize,
    pub format: Format,
    pub low: i64,
    pub high: i64,
}

// What is wrong with the number in a field.
pub fn fault_in(f: NumberField, trouble: Trouble) -> Fault
    ensures { result ≡ fault_in f trouble }
{
    Fault {
        what: f.what,
        which: f.which,
        trouble,
    }
}

// Part 1: a frequency.
// (A function and no constant, here and for the fields below that take no parameter: its clause ties it to `frequency_field`, and a constant has no clause.)
pub fn frequency() -> NumberField
    ensures { result ≡ frequency_field }
{
    NumberField {
        what: What::Frequency,
        which: None,
        from: 12,
        width: 13,
        format: Format::Fixed(10),
        low: 0,
        high: FREQUENCY as i64,
    }
}

// Part 2: its two cards of five numbers.
#[derive(Clone, Copy)]
pub enum FiveCard {
    Longitudes,
    Increases,
}

// Number k of such a card, from 0.
pub fn five_field(card: FiveCard, k: usize) -> NumberField
    requires { k < 5 }
    ensures { result ≡ five_field card k }
{
    match card {
        FiveCard::Longitudes => NumberField {
            what: What::Longitude,
            which: Some(k + 1),
            from: 13 * k,
            width: 13,
            format: Format::Fixed(10),
            low: 0,
            high: 9_999_999_999,
        },
        FiveCard::Increases => NumberField {
            what: What::Increase,
            which: Some(k + 1),
            from: 13 * k,
            width: 13,
            format: Format::Fixed(10),
            low: 0,
            high: 200_000_000_000,
        },
    }
}

// Part 3: a main constituent's Doodson number k, from 0.
fn doodson(k: usize) -> NumberField
    requires { k < 6 }
    ensures { result ≡ doodson_field k }
{
    NumberField {
        what: What::Doodson,
        which: Some(k + 1),
        from: 12 + 3 * k,
        width: 3,
        format: Format::Whole,
        low: -12,
        high: 12,
    }
}

// Its phase.
pub fn main_phase() -> NumberField
    ensures { result ≡ main_phase_field }
{
    NumberField {
        what: What::Phase,
        which: None,
        from: 30,
        width: 5,
        format: Format::Fixed(2),
        low: -100,
        high: 100,
    }
}

// Its satellite count.
pub fn satellite_count() -> NumberField
    ensures { result ≡ satellite_count_field }
{
    NumberField {
        what: What::SatelliteCount,
        which: None,
        from: 35,
        width: 4,
        format: Format::Whole,
        low: 0,
        high: 16,
    }
}

// A satellite card: difference k of its satellite j, both from 0.
fn difference(j: usize, k: usize) -> NumberField
    requires { (j < satellites_a_card) × (k < 6) }
    ensures { result ≡ difference_field j k }
{
    NumberField {
        what: What::Difference,
        which: Some(j + 1),
        from: 11 + 23 * j + 3 * k,
        width: 3,
        format: Format::Whole,
        low: -9,
        high: 9,
    }
}

// Its phase.
pub fn satellite_phase(j: usize) -> NumberField
    requires { j < satellites_a_card }
    ensures { result ≡ satellite_phase_field j }
{
    NumberField {
        what: What::SatellitePhase,
        which: Some(j + 1),
        from: 11 + 23 * j + 9,
        width: 4,
        format: Format::Fixed(2),
        low: -100,
        high: 100,
    }
}

// Its ratio.
pub fn ratio(j: usize) -> NumberField
    requires { j < satellites_a_card }
    ensures { result ≡ ratio_field j }
{
    NumberField {
        what: What::Ratio,
        which: Some(j + 1),
        from: 11 + 23 * j + 13,
        width: 7,
        format: Format::Fixed(4),
        low: 0,
        high: RATIO as i64,
    }
}

// The column of its latitude mark.
pub fn mark_column(j: usize) -> usize
    requires { j < satellites_a_card }
    ensures { result ≡ mark_column j }
{
    11 + 23 * j + 21
}

// A row of small numbers, and no closure for its fields, as the definition `row_field` has it: a main's six Doodson numbers, or the three differences of a card's satellite.
#[derive(Clone, Copy)]
pub enum Row {
    Doodson,
    Differences(usize),
}

// Number k of a row, from 0.
pub fn row_field(row: Row, k: usize) -> NumberField
    requires { RowGood row × (k < 6) }
    ensures { result ≡ row_field row k }
{
    match row {
        Row::Doodson => doodson(k),
        Row::Differences(j) => difference(j, k),
    }
}

// Part 4: the number of a shallow-water constituent's parts.
pub fn part_count() -> NumberField
    ensures { result ≡ part_count_field }
{
    NumberField {
        what: What::PartCount,
        which: None,
        from: 11,
        width: 1,
        format: Format::Whole,
        low: 1,
        high: 4,
    }
}

// The coefficient of its part j, from 0.
pub fn coefficient(j: usize) -> NumberField
    requires { j < 4 }
    ensures { result ≡ coefficient_field j }
{
    NumberField {
        what: What::Coefficient,
        which: Some(j + 1),
        from: 14 + 15 * j,
        width: 5,
        format: Format::Fixed(2),
        low: -900,
        high: 900,
    }
}

// The column where that part's name begins.
pub fn part_name(j: usize) -> usize
    requires { j < 4 }
    ensures { result ≡ part_name j }
{
    14 + 15 * j + 5
}

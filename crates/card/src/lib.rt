// One card of the card file: the columns and ranges of its number fields, what is wrong with it, its numbers narrowed to the types that the
// table keeps, how it opens, and the places of its names.
#![tactic(auto)]

ghost use Rattle.std.specs.Prelude.{◌≡◌, ◌≤◌, ◌<◌, length, take, nat_abs, pos, IfOk};
ghost use Rattle.limits.specs.Limits.{satellites_a_card};
ghost use Rattle.card.specs.Formats as spec;
ghost use Rattle.card.specs.Card.{field_on, number, numbers};
ghost use Rattle.card.specs.inner.Fields.{IsSmall, IsNatural, RowGood};
ghost use Rattle.card.specs.inner.Answers.{card_gives};

pub mod faults; // what is wrong with a card
pub mod formats; // the columns of each card
pub mod lines; // walking down the lines
pub mod places; // the places of constituents

use faults::{Fault, Trouble};
use fields::FieldError;
use formats::{NumberField, RATIO, Row, fault_in};

// What stands in a field of the line.
pub fn field_on(line: &[u8], f: NumberField) -> Result<i64, FieldError>
    ensures { result ≡ field_on line.now f }
{
    fields::ranged_field(line, f.from, f.width, f.format, f.low, f.high)
}

// The number in a field of the line, or what is wrong with it.
fn number(line: &[u8], f: NumberField) -> Result<i64, Fault>
    ensures { card_gives (λ v. v) result ≡ number line.now f }
{
    // No `map_err`: `has-the-clock` of claim_runs cannot have std's code.
    match field_on(line, f) {
        Ok(value) => Ok(value),
        Err(error) => Err(fault_in(f, Trouble::from(error))),
    }
}

// The number in a field whose range eight bits hold.
// (Not one with `natural_field` by `TryFrom`: `has-the-clock` of claim_runs cannot have std's code.)
pub fn small_field(line: &[u8], f: NumberField) -> Result<i8, Fault>
    requires { IsSmall f }
    ensures { card_gives (λ v. v) result ≡ number line.now f }
{
    // No `?`: `has-the-clock` of claim_runs cannot have std's code.
    match number(line, f) {
        Ok(value) => Ok(value as i8),
        Err(fault) => Err(fault),
    }
}

// The number in a field whose range does not go below 0.
pub fn natural_field(line: &[u8], f: NumberField) -> Result<u64, Fault>
    requires { IsNatural f }
    ensures result_value { card_gives pos result ≡ number line.now f }
    ensures natural_within { IfOk result (λ n. n ≤ nat_abs f.high) }
{
    // No `?`: `has-the-clock` of claim_runs cannot have std's code.
    match number(line, f) {
        Ok(value) => Ok(value as u64),
        Err(fault) => Err(fault),
    }
}

// The ratio of a card's satellite j: its range check hands it out in the 32 bits that it keeps.
pub fn ratio_on(line: &[u8], j: usize) -> Result<u32, Fault>
    requires { j < satellites_a_card }
    ensures result_value { card_gives pos result ≡ number line.now (spec.ratio_field j) }
    ensures ratio_within { IfOk result (λ n. n ≤ 20_000) }
{
    let f = formats::ratio(j);
    // No `map_err`: `has-the-clock` of claim_runs cannot have std's code.
    match fields::narrow_field(line, f.from, f.width, f.format, RATIO) {
        Ok(ratio) => Ok(ratio),
        Err(error) => Err(fault_in(f, Trouble::from(error))),
    }
}

// The first `count` numbers of a row of fields, up to six.
pub fn small_row(line: &[u8], row: Row, count: usize) -> Result<[i8; 6], Fault>
    requires { RowGood row × (count ≤ 6) }
    ensures values_value { card_gives (take count) result ≡ numbers line.now (spec.row_field row) count }
    ensures values_len { IfOk result (λ values. length values ≡ 6) }
{
    let mut values = [0i8; 6];
    for k in 0..count {
        // No `?`: `has-the-clock` of claim_runs cannot have std's code.
        match small_field(line, formats::row_field(row, k)) {
            Ok(value) => values[k] = value,
            Err(fault) => return Err(fault),
        }
    }
    Ok(values)
}

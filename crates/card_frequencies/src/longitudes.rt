// Part 2 of the card file: the two cards of five numbers.
ghost use Rattle.std.specs.Prelude.{◌≡◌, drop, IfOk};
ghost use Rattle.card.specs.Formats.{five_field};
ghost use Rattle.card_frequencies.specs.Longitudes.{five_card, five_from};
ghost use Rattle.card.specs.inner.Answers.{card_gives};
ghost use Rattle.columns.specs.Lines.{lines_of};
ghost use Rattle.card.specs.inner.Lines.{reading_gives, WithinFile};

use card::faults::{Fault, Trouble, What, bad_line, only};
use card::formats::FiveCard;
use card::lines::{Misread, Reached, after_line, line_at};
use card::{formats, natural_field};

// The numbers of a card (5F13.10).
// (A loop of its own beside `small_row`: one for both would take each field's reader as a closure and say by its clauses what one line says here.)
pub fn five_card(line: &[u8], card: FiveCard) -> Result<[u64; 5], Fault>
    ensures { card_gives (λ values. values) result ≡ five_card (five_field card) line.now }
{
    let mut values = [0u64; 5];
    for k in 0..5 {
        // No `?`: `has-the-clock` of claim_runs cannot have std's code.
        match natural_field(line, formats::five_field(card, k)) {
            Ok(value) => values[k] = value,
            Err(fault) => return Err(fault),
        }
    }
    Ok(values)
}

// What a card of five numbers gives, and where it ends.
#[derive(Clone, Copy)]
pub struct FiveRead {
    pub reached: Reached,
    pub values: [u64; 5],
}

// The card (5F13.10) that starts at a byte and a line of the file.
pub fn read_five(file: &[u8], from: Reached, card: FiveCard) -> Result<FiveRead, Misread>
    requires { WithinFile file.now from }
    ensures values_value { reading_gives file.now (λ r. r.reached) (λ r. r.values) result ≡ five_from (five_field card) (lines_of (drop from.at file.now)) from.line }
    ensures within_file { IfOk result (λ r. WithinFile file.now r.reached) }
{
    let Reached { at, line: n } = from;
    if file.len() <= at {
        return Err(Misread {
            fault: only(What::File, Trouble::EndedInLongitudes),
            line: n,
        });
    }
    let line = line_at(file, at);
    if columns::line_good(line) {
        let next = after_line(file, at, line.len());
        // No `map_err`: `has-the-clock` of claim_runs cannot have std's code.
        return match five_card(line, card) {
            Ok(values) => Ok(FiveRead {
                reached: Reached {
                    at: next,
                    line: n + 1,
                },
                values,
            }),
            Err(fault) => Err(Misread { fault, line: n }),
        };
    }
    Err(Misread {
        fault: bad_line(line),
        line: n,
    })
}

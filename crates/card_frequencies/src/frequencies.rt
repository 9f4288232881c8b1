// Part 1 of the card file: frequencies.
ghost use Rattle.std.specs.Prelude.{◌≡◌, [], ◌+◌, ◌*◌, ◌≤◌, ◌<◌, IfOk};
ghost use Rattle.std.proofs.lemmas.List.Edits.{sets};
ghost use Rattle.limits.specs.Limits.{most_columns, most_frequencies};
ghost use Rattle.columns.specs.Columns.{columns};
ghost use Rattle.columns.specs.Lines.{lines_of};
ghost use Rattle.columns.specs.Names.{names_from};
ghost use Rattle.table.specs.inner.View.{listed, frequency_of};
ghost use Rattle.card_frequencies.specs.Frequencies.{frequency_card, next_frequency, frequencies_from};
ghost use Rattle.card_frequencies.specs.inner.Answers.{frequency_on};
ghost use Rattle.card.specs.inner.Answers.{card_gives};
ghost use Rattle.card.specs.inner.Lines.{next_gives, reading_gives, WithinFile};

use card::faults::{Fault, Trouble, What, only};
use card::formats::FREQUENCY_NAME;
use card::lines::{Misread, Opening, Reached, after_line, begins, line_at};
use card::{formats, natural_field};
use columns::names;
use limits::FREQUENCIES;
use table::NAMES;

// The frequency on a card whose name is new after `count` names.
fn frequency_fields(line: &[u8], names: &[u8], count: usize) -> Result<u64, Fault>
    ensures { card_gives (frequency_on line.now) result ≡ frequency_card (names_from names.now 0 count) line.now }
{
    let name = names::name_part(line, FREQUENCY_NAME);
    if names::name_blank(name) {
        return Err(only(What::Name, Trouble::Blank));
    }
    match names::find_name(name, names, count) {
        Some(_) => Err(only(What::Name, Trouble::Twice)),
        None => natural_field(line, formats::frequency()),
    }
}

// The frequency on the next card of part 1, after `count` names; none where the card ends the part.
fn frequency_card(line: &[u8], names: &[u8], count: usize) -> Result<Option<u64>, Fault>
    ensures { next_gives (frequency_on line.now) result ≡ next_frequency (names_from names.now 0 count) line.now }
{
    // No `?`: `has-the-clock` of claim_runs cannot have std's code.
    match begins(line, count, FREQUENCIES, Trouble::TooManyFrequencies) {
        Ok(Opening::Ends) => Ok(None),
        Ok(Opening::Fields) => match frequency_fields(line, names, count) {
            Ok(frequency) => Ok(Some(frequency)),
            Err(fault) => Err(fault),
        },
        Err(fault) => Err(fault),
    }
}

// Stores the name in five columns of the line at a place.
fn put_name(names: &mut [u8; NAMES], place: usize, line: &[u8], from: usize)
    requires { (place < most_frequencies) × (from ≤ most_columns) }
    ensures { names.new ≡ sets names.old (5 * place) (columns line.now from 5) }
{
    for j in 0..5 {
        names[5 * place + j] = columns::column(line, from + j);
    }
}

// The frequencies that part 1 gives, and where it ends.
#[derive(Clone, Copy)]
pub struct Frequencies {
    pub reached: Reached,
    pub count: usize,
    pub names: [u8; NAMES],
    pub speeds: [u64; FREQUENCIES],
}

// Part 1, from the file's first line on.
pub fn read_frequencies(file: &[u8]) -> Result<Frequencies, Misread>
    ensures count_value { reading_gives file.now (λ r. r.reached) (λ r. listed (frequency_of r.names r.speeds) 0 r.count) result ≡ frequencies_from (lines_of file.now) 1 [] }
    ensures within_file { IfOk result (λ r. WithinFile file.now r.reached × (r.count ≤ most_frequencies)) }
{
    let mut names = [0u8; NAMES];
    let mut speeds = [0u64; FREQUENCIES];
    let mut count = 0;
    let mut at = 0;
    let mut n = 1;
    // No iterator over the lines, and no `?`: `has-the-clock` of claim_runs cannot have std's code.
    while at < file.len() {
        let line = line_at(file, at);
        let next = after_line(file, at, line.len());
        match frequency_card(line, &names, count) {
            Ok(Some(frequency)) => {
                put_name(&mut names, count, line, FREQUENCY_NAME);
                speeds[count] = frequency;
            }
            Ok(None) => {
                return Ok(Frequencies {
                    reached: Reached {
                        at: next,
                        line: n + 1,
                    },
                    count,
                    names,
                    speeds,
                });
            }
            Err(fault) => return Err(Misread { fault, line: n }),
        }
        count += 1;
        at = next;
        n += 1;
    }
    Err(Misread {
        fault: only(What::File, Trouble::EndedInFrequencies),
        line: n,
    })
}

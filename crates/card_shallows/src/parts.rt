// The parts of a shallow-water card: coefficients and main constituents.
ghost use Rattle.std.specs.Prelude.{◌≡◌, [], ◌≤◌, ◌<◌};
ghost use Rattle.limits.specs.Limits.{most_frequencies, most_mains, most_sizes};
ghost use Rattle.columns.specs.Names.{names_from};
ghost use Rattle.card_shallows.specs.Parts as shallows;
ghost use Rattle.card_shallows.specs.Parts.{parts_on};
ghost use Rattle.card.specs.inner.Answers.{card_gives};
ghost use Rattle.card.specs.inner.Places.{places_in};
ghost use Rattle.card_shallows.specs.inner.Answers.{part_in, with_parts, in_row};

use crate::coefficients::coefficient_field;
use angles::size;
use card::faults::Fault;
use card::places::main_named;
use table::Table;

// A part: its coefficient, and its main's position.
#[derive(Clone, Copy)]
pub struct PartRead {
    pub coefficient: i8,
    pub main: u16,
}

// Part j of a card, after parts whose sizes add up to `sizes`. The table has the names of part 1 and the mains of part 3.
fn part(line: &[u8], j: usize, sizes: u64, table: &Table) -> Result<PartRead, Fault>
    requires { (j < 4) × (sizes ≤ most_sizes) × (table.now.frequencies ≤ most_frequencies) × (table.now.mains ≤ most_mains) }
    ensures { card_gives part_in result ≡ shallows.part (names_from table.now.names 0 table.now.frequencies) (places_in 3 table.now.maincards table.now.mains) sizes line.now j }
{
    // No `?`: `has-the-clock` of claim_runs cannot have std's code.
    match coefficient_field(line, j, sizes) {
        Ok(coefficient) => {
            let names = &table.names;
            match main_named(
                line,
                j,
                names,
                table.frequencies,
                &table.maincards,
                table.mains,
            ) {
                Ok(main) => Ok(PartRead { coefficient, main }),
                Err(fault) => Err(fault),
            }
        }
        Err(fault) => Err(fault),
    }
}

// A shallow-water constituent's rows: its place, the count of its parts and four mains; and its coefficients.
#[derive(Clone, Copy)]
pub struct ShallowRow {
    pub card: [u16; 6],
    pub coefficients: [i8; 4],
}

// The shallow constituent with a place and so many parts, which are read from its card.
pub fn parts_on(line: &[u8], place: u16, count: u16, table: &Table) -> Result<ShallowRow, Fault>
    requires { (count ≤ 4) × (table.now.frequencies ≤ most_frequencies) × (table.now.mains ≤ most_mains) }
    ensures { card_gives in_row result ≡ with_parts place (parts_on (names_from table.now.names 0 table.now.frequencies) (places_in 3 table.now.maincards table.now.mains) line.now [] 0 0 count) }
{
    let mut card = [place, count, 0, 0, 0, 0];
    let mut coefficients = [0i8; 4];
    let mut sizes = 0;
    for j in 0..count as usize {
        // No `?`: `has-the-clock` of claim_runs cannot have std's code.
        match part(line, j, sizes, table) {
            Ok(p) => {
                card[2 + j] = p.main;
                coefficients[j] = p.coefficient;
                sizes = sizes + size(p.coefficient as i64);
            }
            Err(fault) => return Err(fault),
        }
    }
    Ok(ShallowRow { card, coefficients })
}

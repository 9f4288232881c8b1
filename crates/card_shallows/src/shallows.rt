// Part 4 of the card file: shallow-water constituents.
ghost use Rattle.std.specs.Prelude.{◌≡◌, [], ◌≤◌, ◌+◌, ◌*◌, ◌<◌, length, drop, IfOk};
ghost use Rattle.limits.specs.Limits.{most_frequencies, most_mains, most_shallows};
ghost use Rattle.columns.specs.Names.{names_from};
ghost use Rattle.card_shallows.specs.Shallows.{shallows_from};
ghost use Rattle.card.specs.inner.Places.{places_in};
ghost use Rattle.std.proofs.lemmas.List.Edits.{sets};
ghost use Rattle.columns.specs.Lines.{lines_of};
ghost use Rattle.card.specs.inner.Lines.{reading_gives, WithinFile};
ghost use Rattle.card_shallows.specs.inner.Answers.{shallows_in};

use crate::parts::ShallowRow;
use crate::shallowcard::next_shallow;
use card::faults;
use card::faults::{Trouble, What};
use card::lines::{Misread, Reached, after_line, line_at};
use table::{COEFFICIENTS, SHALLOW_CARDS, Table};

// Where the reader of part 4 stands, and the shallow constituents that it has read.
#[derive(Clone, Copy)]
pub struct Shallows {
    pub reached: Reached,
    pub count: usize,
    pub cards: [u16; SHALLOW_CARDS],
    pub coefficients: [i8; COEFFICIENTS],
}

// Stores the rows of shallow constituent k.
fn put_shallow(
    cards: &mut [u16; SHALLOW_CARDS],
    coefficients: &mut [i8; COEFFICIENTS],
    k: usize,
    row: ShallowRow,
)
    requires { k < most_shallows }
    ensures cards_after { cards.new ≡ sets cards.old (6 * k) row.card }
    ensures coefficients_after { coefficients.new ≡ sets coefficients.old (4 * k) row.coefficients }
{
    table::put_u16(cards, 6 * k, &row.card);
    table::put_i8(coefficients, 4 * k, &row.coefficients);
}

// Part 4, from a line of the file on, after the table of the parts before it; or the line that is wrong.
pub fn read_shallows(file: &[u8], from: Reached, table: &Table) -> Result<Shallows, Misread>
    requires { WithinFile file.now from × (table.now.frequencies ≤ most_frequencies) × (table.now.mains ≤ most_mains) }
    ensures count_value { reading_gives file.now (λ r. r.reached) shallows_in result ≡ shallows_from (names_from table.now.names 0 table.now.frequencies) (places_in 3 table.now.maincards table.now.mains) (lines_of (drop from.at file.now)) from.line [] }
    ensures count_le_most_shallows { IfOk result (λ r. r.count ≤ most_shallows) }
{
    let mut read = Shallows {
        reached: from,
        count: 0,
        cards: [0u16; SHALLOW_CARDS],
        coefficients: [0i8; COEFFICIENTS],
    };
    // (No `for`: a line's end shows where the next begins, and an iterator over lines is std's code, which `has-the-clock` of claim_runs cannot have.)
    while read.reached.at < file.len() {
        let here = read.reached;
        let line = line_at(file, here.at);
        let next = Reached {
            at: after_line(file, here.at, line.len()),
            line: here.line + 1,
        };
        // No `?`, no `map_err`: `has-the-clock` of claim_runs cannot have std's code.
        match next_shallow(line, table, &read) {
            Ok(Some(row)) => put_shallow(&mut read.cards, &mut read.coefficients, read.count, row),
            Ok(None) => {
                read.reached = next;
                return Ok(read);
            }
            Err(fault) => {
                return Err(Misread {
                    fault,
                    line: here.line,
                });
            }
        }
        read.count = read.count + 1;
        read.reached = next;
    }
    Err(Misread {
        fault: faults::only(What::File, Trouble::EndedInShallows),
        line: read.reached.line,
    })
}

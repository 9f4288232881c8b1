// What stands at a place of the table: a main, a shallow-water constituent, or nothing, by its row.
ghost use Rattle.std.specs.Prelude.{◌≡◌, ◌<◌, ◌≤◌, length, get_or};
ghost use Rattle.limits.specs.Limits.{places_in_a_byte};
ghost use Rattle.table.specs.inner.Found.{place_in, FirstRows, found_by};

use crate::entries::entry_at;
use limits::PLACES;

// The row of a main or of a shallow-water constituent.
#[derive(Clone, Copy)]
pub enum Defined {
    Main(usize),
    Shallow(usize),
}

// For each place the first of so many rows that has it, or their number. (From the last row to the first, so that the first stays.)
// (No Option at each place: `FirstRows` and `found_by` have the number of rows where there is none, so that one comparison tells.)
pub fn first_rows(cards: &[u16], width: usize, rows: usize) -> [usize; PLACES]
    requires { (width ≤ 8) × (length cards.now ≤ 1024) }
    ensures { FirstRows (place_in width cards.now) rows result }
{
    let mut first = [rows; PLACES];
    for row in (0..rows).rev() {
        let place = *entry_at(cards, width, row, 0, &0) as usize;
        if place < PLACES {
            first[place] = row;
        }
    }
    first
}

// What stands at a place, by the first rows of so many mains and of so many shallow-water constituents.
pub fn find<'a>(
    mainrows: &'a [usize; PLACES],
    mains: usize,
    shallowrows: &'a [usize; PLACES],
    shallows: usize,
    place: u8,
) -> Option<Defined>
    ensures value { result ≡ found_by (get_or mainrows.now place 0) mains (get_or shallowrows.now place 0) shallows }
    ensures place_lt_places_in_abyte { place < places_in_a_byte }
{
    let main = mainrows[place as usize];
    if main < mains {
        return Some(Defined::Main(main));
    }
    let shallow = shallowrows[place as usize];
    if shallow < shallows {
        return Some(Defined::Shallow(shallow));
    }
    None
}

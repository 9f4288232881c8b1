// The places of constituents: by a name on a card, and among those defined.
ghost use Rattle.std.specs.Prelude.{◌≡◌, ◌+◌, ◌*◌, ◌≤◌, ◌<◌};
ghost use Rattle.limits.specs.Limits.{most_frequencies};
ghost use Rattle.columns.specs.Columns.{columns};
ghost use Rattle.columns.specs.Names.{names_from};
ghost use Rattle.refusals.specs.Places.{is_among};
ghost use Rattle.card.specs.Card.{place_named};
ghost use Rattle.card.specs.Places.{not_main, main_at, main_named};
ghost use Rattle.card.specs.Formats.{part_name};
ghost use Rattle.card.specs.inner.Answers.{card_gives};
ghost use Rattle.card.specs.inner.Places.{places_in};

use crate::faults;
use crate::faults::{Fault, Trouble, What};
use crate::formats::part_name;
use columns::names;

// The place of the frequency with the name in five columns of the line.
pub fn place_named(line: &[u8], from: usize, names: &[u8], count: usize) -> Result<u16, Fault>
    requires { count ≤ most_frequencies }
    ensures { card_gives (λ p. p) result ≡ place_named (names_from names.now 0 count) (columns line.now from 5) }
{
    let name = names::name_part(line, from);
    if names::name_blank(name) {
        return Err(faults::only(What::Name, Trouble::Blank));
    }
    // No `?`, no `ok_or`: `has-the-clock` of claim_runs cannot have std's code.
    match names::find_name(name, names, count) {
        Some(place) => Ok(place as u16),
        None => Err(faults::only(What::Name, Trouble::NoFrequency)),
    }
}

// Whether a place begins one of the first `count` rows of `cards`.
pub fn is_among(place: u16, cards: &[u16], width: usize, count: usize) -> bool
    requires { (width ≤ 6) × (count ≤ most_frequencies) }
    ensures { result ≡ is_among place (places_in width cards.now count) }
{
    for k in 0..count {
        if place == *table::at(cards, width * k, &0) {
            return true;
        }
    }
    false
}

// Part j of a shallow-water constituent is no main.
fn not_main(j: usize) -> Fault
    requires { j < 4 }
    ensures { result ≡ not_main j }
{
    Fault {
        what: What::PartName,
        which: Some(j + 1),
        trouble: Trouble::NotMain,
    }
}

// The main with a place, by its position, for part j.
// (A loop of its own beside `is_among`: a search for both would be a third function, with two more to turn its answer.)
pub fn main_at(j: usize, place: u16, cards: &[u16], count: usize) -> Result<u16, Fault>
    requires { (j < 4) × (count ≤ most_frequencies) }
    ensures { card_gives (λ p. p) result ≡ main_at j place (places_in 3 cards.now count) 0 }
{
    for k in 0..count {
        if place == *table::at(cards, 3 * k, &0) {
            return Ok(k as u16);
        }
    }
    Err(not_main(j))
}

// The main with the name of part j on the line, by its position.
pub fn main_named(
    line: &[u8],
    j: usize,
    names: &[u8],
    frequencies: usize,
    cards: &[u16],
    mains: usize,
) -> Result<u16, Fault>
    requires { (j < 4) × (frequencies ≤ most_frequencies) × (mains ≤ most_frequencies) }
    ensures { card_gives (λ p. p) result ≡ main_named j (names_from names.now 0 frequencies) (places_in 3 cards.now mains) (columns line.now (part_name j) 5) }
{
    // No `?`, no `ok_or`: `has-the-clock` of claim_runs cannot have std's code.
    match names::find_name(names::name_part(line, part_name(j)), names, frequencies) {
        Some(place) => main_at(j, place as u16, cards, mains),
        None => Err(not_main(j)),
    }
}

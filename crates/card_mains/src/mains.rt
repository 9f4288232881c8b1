// Part 3 of the card file: a constituent card and its fields.
ghost use Rattle.std.specs.Prelude.{◌≡◌, ◌+◌, ◌≤◌, ◌<◌, pos, nat_abs};
ghost use Rattle.limits.specs.Limits.{most_frequencies, most_mains, most_satellites};
ghost use Rattle.columns.specs.Columns.{columns};
ghost use Rattle.columns.specs.Names.{names_from};
ghost use Rattle.card.specs.Formats.{main_name, satellite_count_field};
ghost use Rattle.card.specs.Card.{new_place};
ghost use Rattle.card_mains.specs.Mains.{main_made, main_numbers, main_card, next_main};
ghost use Rattle.card.specs.inner.Answers.{card_gives};
ghost use Rattle.card.specs.inner.Lines.{next_gives};
ghost use Rattle.card.specs.inner.Places.{places_in};
ghost use Rattle.card_mains.specs.inner.Mains.{main_read};

use card::faults::{Fault, Trouble, What, only};
use card::formats::{MAIN_NAME, Row, main_phase, satellite_count};
use card::lines::{Opening, begins};
use card::places::{is_among, place_named};
use card::{natural_field, small_field, small_row};
use limits::{MAINS, SATELLITES};

// What a constituent card gives: the main's place, its Doodson numbers and phase, and how many satellites are to come.
#[derive(Clone, Copy)]
pub struct MainRead {
    pub place: u16,
    pub doodson: [i8; 6],
    pub phase: i8,
    pub count: u16,
}

// A main from its numbers, unless its satellites are too many in all.
fn main_made(
    place: u16,
    doodson: [i8; 6],
    phase: i8,
    count: u64,
    satellites: usize,
) -> Result<MainRead, Fault>
    requires { (count ≤ nat_abs satellite_count_field.high) × (satellites ≤ most_satellites) }
    ensures { card_gives main_read result ≡ main_made place doodson phase (pos count) satellites }
{
    if SATELLITES < satellites + (count as usize) {
        return Err(only(What::Card, Trouble::TooManySatellites));
    }
    Ok(MainRead {
        place,
        doodson,
        phase,
        count: count as u16,
    })
}

// The numbers of a constituent card with a place.
fn main_numbers(line: &[u8], place: u16, satellites: usize) -> Result<MainRead, Fault>
    requires { satellites ≤ most_satellites }
    ensures { card_gives main_read result ≡ main_numbers place satellites line.now }
{
    // No `?`: `has-the-clock` of claim_runs cannot have std's code.
    let doodson = match small_row(line, Row::Doodson, 6) {
        Ok(doodson) => doodson,
        Err(fault) => return Err(fault),
    };
    let phase = match small_field(line, main_phase()) {
        Ok(phase) => phase,
        Err(fault) => return Err(fault),
    };
    match natural_field(line, satellite_count()) {
        Ok(count) => main_made(place, doodson, phase, count, satellites),
        Err(fault) => Err(fault),
    }
}

// The place of a constituent card's own name, if it is new.
fn main_place(
    line: &[u8],
    names: &[u8],
    frequencies: usize,
    cards: &[u16],
    mains: usize,
) -> Result<u16, Fault>
    requires { (frequencies ≤ most_frequencies) × (mains ≤ most_mains) }
    ensures { card_gives (λ p. p) result ≡ new_place (names_from names.now 0 frequencies) (places_in 3 cards.now mains) (columns line.now main_name 5) }
{
    // No `?`: `has-the-clock` of claim_runs cannot have std's code.
    match place_named(line, MAIN_NAME, names, frequencies) {
        Ok(place) => {
            if is_among(place, cards, 3, mains) {
                return Err(only(What::Name, Trouble::Twice));
            }
            Ok(place)
        }
        Err(fault) => Err(fault),
    }
}

// A constituent card: its name, then its numbers.
fn main_card(
    line: &[u8],
    names: &[u8],
    frequencies: usize,
    cards: &[u16],
    mains: usize,
    satellites: usize,
) -> Result<MainRead, Fault>
    requires { (frequencies ≤ most_frequencies) × (mains ≤ most_mains) × (satellites ≤ most_satellites) }
    ensures { card_gives main_read result ≡ main_card (names_from names.now 0 frequencies) (places_in 3 cards.now mains) satellites line.now }
{
    // No `?`: `has-the-clock` of claim_runs cannot have std's code.
    match main_place(line, names, frequencies, cards, mains) {
        Ok(place) => main_numbers(line, place, satellites),
        Err(fault) => Err(fault),
    }
}

// The main on the next constituent card; none where the card ends the part.
pub fn next_main(
    line: &[u8],
    names: &[u8],
    frequencies: usize,
    cards: &[u16],
    mains: usize,
    satellites: usize,
) -> Result<Option<MainRead>, Fault>
    requires { (frequencies ≤ most_frequencies) × (mains ≤ most_mains) × (satellites ≤ most_satellites) }
    ensures { next_gives main_read result ≡ next_main (names_from names.now 0 frequencies) (places_in 3 cards.now mains) satellites line.now }
{
    // No `?`: `has-the-clock` of claim_runs cannot have std's code.
    match begins(line, mains, MAINS, Trouble::TooManyMains) {
        Ok(Opening::Ends) => Ok(None),
        Ok(Opening::Fields) => match main_card(line, names, frequencies, cards, mains, satellites) {
            Ok(main) => Ok(Some(main)),
            Err(fault) => Err(fault),
        },
        Err(fault) => Err(fault),
    }
}

// A shallow-water card.
ghost use Rattle.std.specs.Prelude.{◌≡◌, ◌++◌, ◌≤◌, ◌+◌};
ghost use Rattle.limits.specs.Limits.{most_frequencies, most_mains, most_shallows};
ghost use Rattle.columns.specs.Columns.{columns};
ghost use Rattle.columns.specs.Names.{names_from};
ghost use Rattle.card.specs.Card.{new_place};
ghost use Rattle.card.specs.Formats.{shallow_name};
ghost use Rattle.card_shallows.specs.Shallow.{shallow_card, next_shallow};
ghost use Rattle.card.specs.inner.Answers.{card_gives};
ghost use Rattle.card.specs.inner.Lines.{next_gives};
ghost use Rattle.card.specs.inner.Places.{places_in};
ghost use Rattle.card_shallows.specs.inner.Answers.{in_row};

use crate::parts::{ShallowRow, parts_on};
use crate::shallows::Shallows;
use card::faults::{Fault, Trouble, What};
use card::formats::SHALLOW_NAME;
use card::lines::{Opening, begins};
use card::places::{is_among, place_named};
use card::{faults, formats, natural_field};
use limits::SHALLOWS;
use table::Table;

// The place of a card's own name, if no main and no shallow constituent before it has it. The table is that of the parts before.
fn own_place(line: &[u8], table: &Table, before: &Shallows) -> Result<u16, Fault>
    requires { (table.now.frequencies ≤ most_frequencies) × (table.now.mains ≤ most_mains) × (before.now.count ≤ most_shallows) }
    ensures { card_gives (λ p. p) result ≡ new_place (names_from table.now.names 0 table.now.frequencies) (places_in 3 table.now.maincards table.now.mains ++ places_in 6 before.now.cards before.now.count) (columns line.now shallow_name 5) }
{
    // No `?`: `has-the-clock` of claim_runs cannot have std's code.
    match place_named(line, SHALLOW_NAME, &table.names, table.frequencies) {
        Ok(place) => {
            if is_among(place, &table.maincards, 3, table.mains) {
                return Err(faults::only(What::Name, Trouble::Twice));
            }
            if is_among(place, &before.cards, 6, before.count) {
                return Err(faults::only(What::Name, Trouble::Twice));
            }
            Ok(place)
        }
        Err(fault) => Err(fault),
    }
}

// The fields of a card.
fn shallow_card(line: &[u8], table: &Table, before: &Shallows) -> Result<ShallowRow, Fault>
    requires { (table.now.frequencies ≤ most_frequencies) × (table.now.mains ≤ most_mains) × (before.now.count ≤ most_shallows) }
    ensures { card_gives in_row result ≡ shallow_card (names_from table.now.names 0 table.now.frequencies) (places_in 3 table.now.maincards table.now.mains) (places_in 6 before.now.cards before.now.count) line.now }
{
    // No `?`: `has-the-clock` of claim_runs cannot have std's code.
    match own_place(line, table, before) {
        Ok(place) => match natural_field(line, formats::part_count()) {
            Ok(parts) => parts_on(line, place, parts as u16, table),
            Err(fault) => Err(fault),
        },
        Err(fault) => Err(fault),
    }
}

// The next card of part 4, after the shallow constituents before it: none where it ends the part.
pub fn next_shallow(
    line: &[u8],
    table: &Table,
    before: &Shallows,
) -> Result<Option<ShallowRow>, Fault>
    requires { (table.now.frequencies ≤ most_frequencies) × (table.now.mains ≤ most_mains) × (before.now.count ≤ most_shallows) }
    ensures { next_gives in_row result ≡ next_shallow (names_from table.now.names 0 table.now.frequencies) (places_in 3 table.now.maincards table.now.mains) (places_in 6 before.now.cards before.now.count) line.now }
{
    // No `?`: `has-the-clock` of claim_runs cannot have std's code.
    match begins(line, before.count, SHALLOWS, Trouble::TooManyShallows) {
        Ok(Opening::Ends) => Ok(None),
        Ok(Opening::Fields) => match shallow_card(line, table, before) {
            Ok(row) => Ok(Some(row)),
            Err(fault) => Err(fault),
        },
        Err(fault) => Err(fault),
    }
}

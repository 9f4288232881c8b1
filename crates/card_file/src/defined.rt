// The card file's last check: that every frequency is defined, by a main or by a shallow constituent.
ghost use Rattle.std.specs.Prelude.{◌≡◌, ◌++◌, ◌≤◌};
ghost use Rattle.limits.specs.Limits.{most_frequencies, most_mains, most_shallows};
ghost use Rattle.refusals.specs.Places.{is_among};
ghost use Rattle.card_file.specs.Cards.{first_undefined};
ghost use Rattle.card.specs.inner.Places.{places_in};

use card::places::is_among;
use table::Table;

// Whether a main or a shallow constituent has the place.
fn is_defined(place: u16, table: &Table) -> bool
    requires { (table.now.mains ≤ most_mains) × (table.now.shallows ≤ most_shallows) }
    ensures { result ≡ is_among place (places_in 3 table.now.maincards table.now.mains ++ places_in 6 table.now.shallowcards table.now.shallows) }
{
    if is_among(place, &table.maincards, 3, table.mains) {
        return true;
    }
    is_among(place, &table.shallowcards, 6, table.shallows)
}

// The first of the frequencies' places that no main and no shallow constituent has.
pub fn undefined(table: &Table) -> Option<usize>
    requires { (table.now.frequencies ≤ most_frequencies) × (table.now.mains ≤ most_mains) × (table.now.shallows ≤ most_shallows) }
    ensures { result ≡ first_undefined (places_in 3 table.now.maincards table.now.mains ++ places_in 6 table.now.shallowcards table.now.shallows) 0 table.now.frequencies }
{
    for place in 0..table.frequencies {
        if !is_defined(place as u16, table) {
            return Some(place);
        }
    }
    None
}

// Part 3 of the card file: a constituent card read into its main's row of the table, and a satellite card into the rows of its main's satellites.
ghost use Rattle.std.specs.Prelude.{◌≡◌, [], ◌∷◌, ◌+◌, ◌*◌, ◌≤◌, ◌<◌, length, get_or, set};
ghost use Rattle.std.proofs.lemmas.List.Edits.{sets};
ghost use Rattle.limits.specs.Limits.{most_frequencies, most_mains, most_satellites};
ghost use Rattle.columns.specs.Names.{names_from};
ghost use Rattle.card.specs.inner.Places.{places_in};
ghost use Rattle.card_mains.specs.Mains.{next_main};
ghost use Rattle.card_mains.specs.inner.Satellites.{SatelliteRoom};
ghost use Rattle.card_constituents.specs.inner.Rows.{MainRoom, satellites_end, Stored, MainStored, MainsKept, mains_over, SatellitesStored, Begun, Grown};

use card::faults::Fault;
use card::lines::Reached;
use card_mains::mains::{MainRead, next_main};
use card_mains::satellitecard::{at_most_three, satellite_card};
use table::{MAIN_ANGLES, MAIN_CARDS, SATELLITE_ANGLES, SATELLITE_RATIOS};

// Where part 3 is read, and how many mains and satellites are stored.
#[derive(Clone, Copy)]
pub struct Here {
    pub reached: Reached,
    pub mains: usize,
    pub satellites: usize,
}

// The table's rows of mains and of their satellites.
#[derive(Clone, Copy)]
pub struct MainRows {
    pub cards: [u16; MAIN_CARDS],
    pub angles: [i8; MAIN_ANGLES],
    pub sat: [i8; SATELLITE_ANGLES],
    pub ratios: [u32; SATELLITE_RATIOS],
}

// Stores main m: its place, no satellite yet from `first` on, and its numbers.
fn put_main(
    cards: &mut [u16; MAIN_CARDS],
    angles: &mut [i8; MAIN_ANGLES],
    m: usize,
    first: usize,
    main: MainRead,
)
    requires { (m < most_mains) × (first ≤ most_satellites) }
    ensures cards_after { cards.new ≡ sets cards.old (3 * m) (main.place ∷ first ∷ 0 ∷ []) }
    ensures angles_after { angles.new ≡ set (sets angles.old (7 * m) main.doodson) (7 * m + 6) main.phase }
{
    let card = [main.place, first as u16, 0];
    table::put_u16(cards, 3 * m, &card);
    table::put_i8(angles, 7 * m, &main.doodson);
    angles[7 * m + 6] = main.phase;
}

// Adds satellites to main m.
fn add_satellites(cards: &mut [u16; MAIN_CARDS], m: usize, more: u16)
    requires { (m < most_mains) × (get_or cards.old (3 * m + 2) 0 + more ≤ most_satellites) }
    ensures { cards.new ≡ set cards.old (3 * m + 2) (get_or cards.old (3 * m + 2) 0 + more) }
{
    cards[3 * m + 2] = cards[3 * m + 2] + more;
}

// The constituent card on the line, behind the mains stored: its main's row, with no satellite yet, and how many are to come; none where it ends
// the part. The first `known` names are those of part 1.
pub fn read_main(
    line: &[u8],
    here: Here,
    names: &[u8],
    known: usize,
    cards: &mut [u16; MAIN_CARDS],
    angles: &mut [i8; MAIN_ANGLES],
) -> Result<Option<u16>, Fault>
    requires { (known ≤ most_frequencies) × (here.mains ≤ most_mains) × (here.satellites ≤ most_satellites) × Stored cards.old here.mains here.satellites × MainRoom cards.old angles.old }
    ensures main_stored { MainStored result cards.new angles.new here.mains (next_main (names_from names.now 0 known) (places_in 3 cards.old here.mains) here.satellites line.now) }
    ensures mains_kept { MainsKept cards.new angles.new cards.old angles.old here.mains }
    ensures begun { Begun result cards.new here.mains here.satellites × MainRoom cards.new angles.new }
{
    let m = here.mains;
    let first = here.satellites;
    // No `?`: `has-the-clock` of claim_runs cannot have std's code.
    match next_main(line, names, known, cards, m, first) {
        Ok(Some(main)) => {
            put_main(cards, angles, m, first, main);
            Ok(Some(main.count))
        }
        Ok(None) => Ok(None),
        Err(fault) => Err(fault),
    }
}

// The satellite card on the line, where `due` satellites of the main behind those stored are still to come: their rows.
pub fn read_satellites(
    line: &[u8],
    here: Here,
    due: usize,
    cards: &mut [u16; MAIN_CARDS],
    sat: &mut [i8; SATELLITE_ANGLES],
    ratios: &mut [u32; SATELLITE_RATIOS],
) -> Result<(), Fault>
    requires { (here.mains < most_mains) × (here.satellites + due ≤ most_satellites) × (satellites_end cards.old here.mains ≡ here.satellites) × Stored cards.old here.mains here.satellites × (length cards.old ≡ 3 * most_mains) × SatelliteRoom sat.old ratios.old }
    ensures satellites_stored { SatellitesStored result (mains_over cards.new sat.new ratios.new) (mains_over cards.old sat.old ratios.old) here.mains due line.now }
    ensures grown { Grown result cards.new cards.old here.mains here.satellites due × (length cards.new ≡ 3 * most_mains) × SatelliteRoom sat.new ratios.new }
{
    // No `?`: `has-the-clock` of claim_runs cannot have std's code.
    match satellite_card(line, here.satellites, due, sat, ratios) {
        Ok(()) => {
            add_satellites(cards, here.mains, at_most_three(due) as u16);
            Ok(())
        }
        Err(fault) => Err(fault),
    }
}

// The whole card file: its four parts in order, then that every frequency is defined.
ghost use Rattle.std.specs.Prelude.{◌≡◌, ◌≤◌, drop};
ghost use Rattle.limits.specs.Limits.{most_frequencies, most_mains};
ghost use Rattle.columns.specs.Lines.{lines_of};
ghost use Rattle.table.specs.inner.View.{table_of};
ghost use Rattle.card.specs.inner.Lines.{WithinFile};
ghost use Rattle.card_file.specs.Cards.{read_cards, cards_outcome};
ghost use Rattle.card_file.specs.inner.Read.{parsed_gives, outcome_of, check_of};
ghost use Rattle.card_file.specs.inner.Rest.{longitudes_and, mains_and, shallows_and};

use crate::defined::undefined;
use card::faults;
use card::faults::{Fault, Trouble, What, refusal_for};
use card::formats::FiveCard;
use card::lines::{Misread, Reached};
use card_constituents::constituents::constituent_reader;
use card_constituents::rows::{Here, MainRows};
use card_frequencies::frequencies::{Frequencies, read_frequencies};
use card_frequencies::longitudes::read_five;
use card_shallows::shallows::{Shallows, read_shallows};
use refusals::Refused;
use table::{MAIN_ANGLES, MAIN_CARDS, SATELLITE_ANGLES, SATELLITE_RATIOS, Table};

// Where the reading of a card file ends, and its table.
#[derive(Clone, Copy)]
pub struct Parsed {
    pub reached: Reached,
    pub table: Table,
}

// Part 4 and the last check, after a table with no shallow constituents yet.
fn shallows_and(file: &[u8], from: Reached, table: Table) -> Result<Parsed, Misread>
    requires { WithinFile file.now from × (table.frequencies ≤ most_frequencies) × (table.mains ≤ most_mains) }
    ensures { parsed_gives file.now result ≡ shallows_and (table_of table) (lines_of (drop from.at file.now)) from.line }
{
    // No `?`: `has-the-clock` of claim_runs cannot have std's code.
    match read_shallows(file, from, &table) {
        Ok(read) => {
            let Shallows {
                reached,
                count,
                cards,
                coefficients,
            } = read;
            let whole = Table {
                shallows: count,
                shallowcards: cards,
                coefficients,
                ..table
            };
            match undefined(&whole) {
                None => Ok(Parsed {
                    reached,
                    table: whole,
                }),
                Some(place) => Err(Misread {
                    fault: faults::only(What::Name, Trouble::NoDefinition),
                    line: place + 1,
                }),
            }
        }
        Err(misread) => Err(misread),
    }
}

// Part 3 and what follows, after a table with no mains yet.
fn mains_and(file: &[u8], from: Reached, table: Table) -> Result<Parsed, Misread>
    requires { WithinFile file.now from × (table.frequencies ≤ most_frequencies) }
    ensures { parsed_gives file.now result ≡ mains_and (table_of table) (lines_of (drop from.at file.now)) from.line }
{
    let mut rows = MainRows {
        cards: [0u16; MAIN_CARDS],
        angles: [0i8; MAIN_ANGLES],
        sat: [0i8; SATELLITE_ANGLES],
        ratios: [0u32; SATELLITE_RATIOS],
    };
    let here = Here {
        reached: from,
        mains: 0,
        satellites: 0,
    };
    // No `?`: `has-the-clock` of claim_runs cannot have std's code.
    match constituent_reader(file, here, &table.names, table.frequencies, &mut rows) {
        Ok(read) => {
            let MainRows {
                cards,
                angles,
                sat,
                ratios,
            } = rows;
            let more = Table {
                mains: read.mains,
                maincards: cards,
                mainangles: angles,
                satelliteangles: sat,
                satelliteratios: ratios,
                ..table
            };
            shallows_and(file, read.reached, more)
        }
        Err(misread) => Err(misread),
    }
}

// The two longitude cards and what follows, after a table with the frequencies.
fn longitudes_and(file: &[u8], from: Reached, table: Table) -> Result<Parsed, Misread>
    requires { WithinFile file.now from × (table.frequencies ≤ most_frequencies) }
    ensures { parsed_gives file.now result ≡ longitudes_and (table_of table) (lines_of (drop from.at file.now)) from.line }
{
    // No `?`: `has-the-clock` of claim_runs cannot have std's code.
    match read_five(file, from, FiveCard::Longitudes) {
        Ok(first) => match read_five(file, first.reached, FiveCard::Increases) {
            Ok(second) => {
                let longitudes = first.values;
                let increases = second.values;
                let more = Table {
                    longitudes,
                    increases,
                    ..table
                };
                mains_and(file, second.reached, more)
            }
            Err(misread) => Err(misread),
        },
        Err(misread) => Err(misread),
    }
}

// A card file: its table, or what is wrong with it and on which line.
pub fn parse_cards(file: &[u8]) -> Result<Parsed, Misread>
    ensures { parsed_gives file.now result ≡ read_cards file.now }
{
    // No `?`: `has-the-clock` of claim_runs cannot have std's code.
    match read_frequencies(file) {
        Ok(read) => {
            let Frequencies {
                reached,
                count,
                names,
                speeds,
            } = read;
            let table = Table {
                frequencies: count,
                names,
                speeds,
                ..table::no_cards()
            };
            longitudes_and(file, reached, table)
        }
        Err(misread) => Err(misread),
    }
}

// A card file: accepted whole, with its table, or refused with 01's number and line.
pub fn read_cards(file: &[u8]) -> Result<Table, Refused>
    ensures { outcome_of result ≡ cards_outcome file.now }
{
    // No `?`, no `map_err`: `has-the-clock` of claim_runs cannot have std's code.
    match parse_cards(file) {
        Ok(parsed) => Ok(parsed.table),
        Err(misread) => Err(refusal_for(misread.fault.trouble).at(misread.line)),
    }
}

// What is wrong with a card file, if anything is.
pub fn check_of(file: &[u8]) -> Option<Fault>
    ensures { result ≡ check_of (read_cards file.now) }
{
    // No `err`, no `map`: `has-the-clock` of claim_runs cannot have std's code.
    match parse_cards(file) {
        Ok(_) => None,
        Err(misread) => Some(misread.fault),
    }
}

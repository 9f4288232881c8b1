// Part 3 of the card file: "A constituent card leads to its satellite cards, and the last of these leads to the next constituent card."
// The two readers call each other while the bytes left fall.
ghost use Rattle.std.specs.Prelude.{◌≡◌, ◌+◌, ◌≤◌, ◌<◌, length, drop, IfOk};
ghost use Rattle.limits.specs.Limits.{most_frequencies, most_mains, most_satellites};
ghost use Rattle.columns.specs.Lines.{lines_of, first_line, rest_lines};
ghost use Rattle.columns.specs.Names.{names_from};
ghost use Rattle.card.specs.Faults as spec;
ghost use Rattle.card.specs.declared.faults.What.TheVariants.{File};
ghost use Rattle.card.specs.declared.faults.Trouble.TheVariants.{EndedInMains};
ghost use Rattle.card.specs.inner.Lines.{reading_gives, WithinFile};
ghost use Rattle.card_constituents.specs.inner.Rows.{Room, satellites_end, Stored, mains_of, last_main, StoredCounted};
ghost use Rattle.card_constituents.specs.Constituents.{mains_from, satellites_from};

use crate::rows::{Here, MainRows, read_main, read_satellites};
use card::faults::{Fault, Trouble, What, only};
use card::lines::{Misread, Reached, after_line, line_at};
use limits::SATELLITES_A_CARD;

// The file ended here.
fn ended(here: Here) -> Misread
    ensures { result ≡ record { fault = spec.only File EndedInMains; line = here.reached.line } }
{
    refused(only(What::File, Trouble::EndedInMains), here)
}

// The line here has a fault.
fn refused(fault: Fault, here: Here) -> Misread
    ensures { result ≡ record { fault = fault; line = here.reached.line } }
{
    Misread {
        fault,
        line: here.reached.line,
    }
}

// The line behind the one here of that width, with as many mains and satellites stored.
fn next_card(file: &[u8], here: Here, width: usize) -> Here
    requires { (here.reached.at < length file.now) × (width ≡ length (first_line (drop here.reached.at file.now))) × (here.reached.line ≤ here.reached.at + 1) }
    ensures at_lt_at { (here.reached.at < result.reached.at) × (result.reached.at ≤ length file.now) × (drop result.reached.at file.now ≡ rest_lines (drop here.reached.at file.now)) }
    ensures n_value { (result.reached.line ≡ here.reached.line + 1) × (result.mains ≡ here.mains) × (result.satellites ≡ here.satellites) }
{
    let reached = Reached {
        at: after_line(file, here.reached.at, width),
        line: here.reached.line + 1,
    };
    Here { reached, ..here }
}

// The same line, with more mains and satellites stored.
fn with_more(here: Here, mains: usize, satellites: usize) -> Here
    requires { (here.mains + mains ≤ most_mains) × (here.satellites + satellites ≤ most_satellites) }
    ensures { result ≡ record { reached = here.reached; mains = here.mains + mains; satellites = here.satellites + satellites } }
{
    Here {
        reached: here.reached,
        mains: here.mains + mains,
        satellites: here.satellites + satellites,
    }
}

// The constituent card here, and what follows it; or the line that is wrong. The first `known` names are those of part 1.
#[cycle(constituent_reader_satellite_reader)]
pub fn constituent_reader(
    file: &[u8],
    here: Here,
    names: &[u8],
    known: usize,
    rows: &mut MainRows,
) -> Result<Here, Misread>
    requires { (here.reached.at ≤ length file.now) × (here.reached.line ≤ here.reached.at + 1) × (known ≤ most_frequencies) × (here.mains ≤ most_mains) × (here.satellites ≤ most_satellites) × Stored rows.old.cards here.mains here.satellites × Room rows.old × StoredCounted rows.old here.mains here.satellites }
    ensures mains_after { reading_gives file.now (λ r. r.reached) (λ r. mains_of rows.new r.mains) result ≡ mains_from (names_from names.now 0 known) (lines_of (drop here.reached.at file.now)) here.reached.line (mains_of rows.old here.mains) }
    ensures within_file { IfOk result (λ r. WithinFile file.now r.reached × (r.mains ≤ most_mains)) }
{
    let at = here.reached.at;
    if file.len() <= at {
        return Err(ended(here));
    }
    let line = line_at(file, at);
    let next = next_card(file, here, line.len());
    // No `?`, no `map_err`: `has-the-clock` of claim_runs cannot have std's code.
    match read_main(line, here, names, known, &mut rows.cards, &mut rows.angles) {
        Ok(None) => Ok(next),
        Ok(Some(count)) => {
            if count == 0 {
                constituent_reader(file, with_more(next, 1, 0), names, known, rows)
            } else {
                satellite_reader(file, next, count as usize, names, known, rows)
            }
        }
        Err(fault) => Err(refused(fault, here)),
    }
}

// The satellite card here, where `due` satellites of the main behind those stored are still to come, and what follows it.
#[cycle(constituent_reader_satellite_reader)]
pub fn satellite_reader(
    file: &[u8],
    here: Here,
    due: usize,
    names: &[u8],
    known: usize,
    rows: &mut MainRows,
) -> Result<Here, Misread>
    requires { (here.reached.at ≤ length file.now) × (here.reached.line ≤ here.reached.at + 1) × (known ≤ most_frequencies) × (here.mains < most_mains) × (here.satellites + due ≤ most_satellites) × (satellites_end rows.old.cards here.mains ≡ here.satellites) × Stored rows.old.cards here.mains here.satellites × Room rows.old × StoredCounted rows.old (here.mains + 1) here.satellites }
    ensures mains_after { reading_gives file.now (λ r. r.reached) (λ r. mains_of rows.new r.mains) result ≡ satellites_from (names_from names.now 0 known) (lines_of (drop here.reached.at file.now)) here.reached.line (mains_of rows.old here.mains) (last_main rows.old here.mains) due }
    ensures within_file { IfOk result (λ r. WithinFile file.now r.reached × (r.mains ≤ most_mains)) }
{
    let at = here.reached.at;
    if file.len() <= at {
        return Err(ended(here));
    }
    let line = line_at(file, at);
    let next = next_card(file, here, line.len());
    // No `?`, no `map_err`: `has-the-clock` of claim_runs cannot have std's code.
    match read_satellites(
        line,
        here,
        due,
        &mut rows.cards,
        &mut rows.sat,
        &mut rows.ratios,
    ) {
        Ok(()) => {
            if due <= SATELLITES_A_CARD {
                constituent_reader(file, with_more(next, 1, due), names, known, rows)
            } else {
                let more = with_more(next, 0, SATELLITES_A_CARD);
                satellite_reader(file, more, due - SATELLITES_A_CARD, names, known, rows)
            }
        }
        Err(fault) => Err(refused(fault, here)),
    }
}

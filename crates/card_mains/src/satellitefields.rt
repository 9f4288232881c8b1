// Part 3 of the card file: the fields of one satellite on its card.
ghost use Rattle.std.specs.Prelude.{◌≡◌, ◌<◌, length, IfOk};
ghost use Rattle.limits.specs.Limits.{satellites_a_card};
ghost use Rattle.card.specs.inner.Answers.{card_gives};
ghost use Rattle.card_mains.specs.Satellite.{satellite};
ghost use Rattle.card_mains.specs.inner.Satellite.{satellite_read};

use card::faults::Fault;
use card::formats::Row;
use card::{formats, ratio_on, small_field, small_row};

// What a satellite's fields hold.
#[derive(Clone, Copy)]
pub struct SatelliteRead {
    pub differences: [i8; 6],
    pub phase: i8,
    pub ratio: u32,
    pub mark: u8,
}

// Satellite j of the line, from 0.
pub fn satellite_fields(line: &[u8], j: usize) -> Result<SatelliteRead, Fault>
    requires { j < satellites_a_card }
    ensures { (card_gives satellite_read result ≡ satellite line.now j) × IfOk result (λ s. length s.differences ≡ 6) }
{
    // No `?`: `has-the-clock` of claim_runs cannot have std's code.
    let differences = match small_row(line, Row::Differences(j), 3) {
        Ok(differences) => differences,
        Err(fault) => return Err(fault),
    };
    let phase = match small_field(line, formats::satellite_phase(j)) {
        Ok(phase) => phase,
        Err(fault) => return Err(fault),
    };
    match ratio_on(line, j) {
        Ok(ratio) => Ok(SatelliteRead {
            differences,
            phase,
            ratio,
            mark: columns::column(line, formats::mark_column(j)),
        }),
        Err(fault) => Err(fault),
    }
}

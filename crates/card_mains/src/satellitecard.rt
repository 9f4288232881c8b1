// Part 3 of the card file: a satellite card.
ghost use Rattle.std.specs.Prelude.{◌≡◌, [], ◌∷◌, ◌+◌, ◌-◌, ◌*◌, ◌≤◌, ◌<◌, min, length, set, take};
ghost use Rattle.std.proofs.lemmas.List.Edits.{sets};
ghost use Rattle.limits.specs.Limits.{most_satellites, satellites_a_card};
ghost use Rattle.table.specs.inner.View.{listed, satellite_of};
ghost use Rattle.card_mains.specs.Satellites.{satellites_on, satellite_card};
ghost use Rattle.card.specs.inner.Answers.{card_gives};
ghost use Rattle.card_mains.specs.inner.Satellites.{AsBefore, SatelliteRoom};

use crate::satellitefields::{SatelliteRead, satellite_fields};
use card::faults::{Fault, bad_line};
use limits::SATELLITES_A_CARD;
use table::{SATELLITE_ANGLES, SATELLITE_RATIOS};

// Stores satellite k: its differences and phase, its ratio and mark.
fn put_satellite(
    angles: &mut [i8; SATELLITE_ANGLES],
    ratios: &mut [u32; SATELLITE_RATIOS],
    k: usize,
    s: SatelliteRead,
)
    requires { (k < most_satellites) × (length s.differences ≡ 6) }
    ensures angles_after { angles.new ≡ set (sets angles.old (4 * k) (take 3 s.differences)) (4 * k + 3) s.phase }
    ensures ratios_after { ratios.new ≡ sets ratios.old (2 * k) (s.ratio ∷ s.mark ∷ []) }
{
    let differences = s.differences;
    table::put_i8(angles, 4 * k, &differences[..3]);
    let phase = s.phase;
    angles[4 * k + 3] = phase;
    let pair = [s.ratio, s.mark as u32];
    table::put_u32(ratios, 2 * k, &pair);
}

// The first `count` satellites of the line, stored from satellite `first` on.
fn satellites_on(
    line: &[u8],
    first: usize,
    count: usize,
    angles: &mut [i8; SATELLITE_ANGLES],
    ratios: &mut [u32; SATELLITE_RATIOS],
) -> Result<(), Fault>
    requires { (first + count ≤ most_satellites) × (count ≤ satellites_a_card) × SatelliteRoom angles.old ratios.old }
    ensures count_after { card_gives (λ _. listed (satellite_of angles.new ratios.new) first count) result ≡ satellites_on line.now [] 0 count }
    ensures as_before { AsBefore (satellite_of angles.new ratios.new) (satellite_of angles.old ratios.old) first × SatelliteRoom angles.new ratios.new }
{
    for j in 0..count {
        // No `?`: `has-the-clock` of claim_runs cannot have std's code.
        match satellite_fields(line, j) {
            Ok(s) => put_satellite(angles, ratios, first + j, s),
            Err(fault) => return Err(fault),
        }
    }
    Ok(())
}

// How many satellites stand on the next card. (No `min`: `has-the-clock` of claim_runs cannot have std's code.)
// (Nor an own `min` of two numbers: a call of it would be no plainer than the `if`.)
pub fn at_most_three(count: usize) -> usize
    ensures { result ≡ min count satellites_a_card }
{
    if count < SATELLITES_A_CARD {
        count
    } else {
        SATELLITES_A_CARD
    }
}

// The satellite card where `count` are still to come, stored from satellite `first` on.
pub fn satellite_card(
    line: &[u8],
    first: usize,
    count: usize,
    angles: &mut [i8; SATELLITE_ANGLES],
    ratios: &mut [u32; SATELLITE_RATIOS],
) -> Result<(), Fault>
    requires { (first + count ≤ most_satellites) × SatelliteRoom angles.old ratios.old }
    ensures satellites_acard_after { card_gives (λ _. listed (satellite_of angles.new ratios.new) first (min count satellites_a_card)) result ≡ satellite_card count line.now }
    ensures as_before { AsBefore (satellite_of angles.new ratios.new) (satellite_of angles.old ratios.old) first × SatelliteRoom angles.new ratios.new }
{
    if columns::line_good(line) {
        return satellites_on(line, first, at_most_three(count), angles, ratios);
    }
    Err(bad_line(line))
}

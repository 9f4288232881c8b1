// The coefficients of a shallow-water card: whole numbers in hundredths.
ghost use Rattle.std.specs.Prelude.{◌≡◌, ◌≤◌, ◌<◌, nat_abs};
ghost use Rattle.limits.specs.Limits.{most_sizes};
ghost use Rattle.card_shallows.specs.Coefficients.{coefficient, coefficient_in};
ghost use Rattle.card.specs.inner.Answers.{card_gives};

use angles::size;
use card::faults::{Fault, Trouble};
use card::formats::{NumberField, fault_in};
use card::{field_on, formats};
use limits::SIZES;

// The coefficient of so many hundredths in a field, after parts whose sizes add up to `sizes`.
fn whole_coefficient(f: NumberField, hundredths: i64, sizes: u64) -> Result<i8, Fault>
    requires { (nat_abs hundredths ≤ 900) × (sizes ≤ most_sizes) }
    ensures { card_gives (λ c. c) result ≡ coefficient f sizes hundredths }
{
    let n = size(hundredths);
    if n == 0 {
        return Err(fault_in(f, Trouble::OutOfRange));
    }
    if 0 < n % 100 {
        return Err(fault_in(f, Trouble::NotWhole));
    }
    if SIZES < sizes + n / 100 {
        return Err(fault_in(f, Trouble::PastTwelve));
    }
    Ok((hundredths / 100) as i8)
}

// The coefficient of part j on the line.
pub fn coefficient_field(line: &[u8], j: usize, sizes: u64) -> Result<i8, Fault>
    requires { (j < 4) × (sizes ≤ most_sizes) }
    ensures { card_gives (λ c. c) result ≡ coefficient_in sizes line.now j }
{
    let f = formats::coefficient(j);
    // No `?`, no `map_err`: `has-the-clock` of claim_runs cannot have std's code.
    match field_on(line, f) {
        Ok(hundredths) => whole_coefficient(f, hundredths, sizes),
        Err(error) => Err(fault_in(f, Trouble::from(error))),
    }
}

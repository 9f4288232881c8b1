// The kind of a station's tides, by its daily and half-daily amplitudes, as the stride that it gives the search.
ghost use Rattle.std.specs.Prelude.{◌≡◌, false, ◌≤◌, ◌<◌};
ghost use Rattle.limits.specs.Limits.{most_stride};
ghost use Rattle.station.specs.Strides.{strides_outside};
ghost use Rattle.turns.specs.Stride.{stride_of, tides_of};

use station::strides::Strides;

// The stride of the search in minutes: of the three lengths the one for the tides that the amplitudes of K1, O1, M2 and S2 (0 where absent) make.
pub fn stride(strides: Strides, k1: u16, o1: u16, m2: u16, s2: u16) -> u64
    requires { strides_outside strides ≡ false }
    ensures value { result ≡ stride_of strides (tides_of k1 o1 m2 s2) }
    ensures result_nonzero { (0 < result) × (result ≤ most_stride) }
{
    let daily = k1 as u64 + o1 as u64;
    let twice = m2 as u64 + s2 as u64;
    if 4 * daily <= twice {
        return strides.semidiurnal as u64;
    }
    if 3 * twice < daily {
        return strides.diurnal as u64;
    }
    strides.mixed as u64
}

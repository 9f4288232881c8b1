// The three stride lengths that a station carries for the search for turns.
ghost use Rattle.std.specs.Prelude.{◌≡◌};
ghost use Rattle.station.specs.Strides.{stride_outside, strides_outside, usual_strides};

use limits::STRIDE;

// The length of a stride in minutes, for semidiurnal, mixed and diurnal tides.
#[repr(C)]
#[derive(Clone, Copy)]
pub struct Strides {
    pub semidiurnal: u32,
    pub mixed: u32,
    pub diurnal: u32,
}

// 01's own lengths.
pub fn usual() -> Strides
    ensures { result ≡ usual_strides }
{
    Strides {
        semidiurnal: 180,
        mixed: 30,
        diurnal: 360,
    }
}

// Whether a length is out of range.
fn stride_outside(minutes: u32) -> bool
    ensures { result ≡ stride_outside minutes }
{
    if minutes < 1 {
        return true;
    }
    STRIDE < minutes
}

// Whether one of the three lengths is out of range.
pub fn strides_outside(strides: Strides) -> bool
    ensures { result ≡ strides_outside strides }
{
    if stride_outside(strides.semidiurnal) {
        return true;
    }
    if stride_outside(strides.mixed) {
        return true;
    }
    stride_outside(strides.diurnal)
}

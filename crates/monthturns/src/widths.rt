// How wide the searches over the last minutes are: as the station's own strides, the widest first.
ghost use Rattle.std.specs.Prelude.{◌≡◌};
ghost use Rattle.monthturns.specs.Widths.{widest_first};

use station::strides::Strides;

// Three widths in minutes.
#[derive(Clone, Copy)]
pub struct Widths {
    pub far: u32,
    pub near: u32,
    pub end: u32,
}

// A station's strides, the widest first.
#[tactic(auto, unfolding(crate::specs::Widths::widest_first))]
pub fn widest_first(strides: Strides) -> Widths
    ensures { result ≡ widest_first strides }
{
    let wide = strides.semidiurnal.max(strides.mixed);
    let narrow = strides.semidiurnal.min(strides.mixed);
    Widths {
        far: wide.max(strides.diurnal),
        near: narrow.max(wide.min(strides.diurnal)),
        end: narrow.min(strides.diurnal),
    }
}

// The heights at a list of minutes, in any order and with repeats.
ghost use Rattle.std.specs.Prelude.{◌≡◌, map, length};
ghost use Rattle.limits.specs.Limits.{most_minutes};
ghost use Rattle.heights.specs.Height.{height_at};
ghost use Rattle.heights.specs.inner.Lent.{IsLent, constituents_lent};
ghost use Rattle.heights.specs.inner.Places.{AllWithin};

use crate::Lent;

// The height at each minute, at its place.
pub fn heights_at(lent: Lent, minutes: &[u32], out: &mut [i64])
    requires lent { IsLent lent }
    requires all_within { AllWithin most_minutes minutes.now × (length out.old ≡ length minutes.now) }
    ensures { out.new ≡ map (height_at (constituents_lent lent.entry)) minutes.now }
{
    for n in 0..out.len() {
        out[n] = crate::height(lent, minutes[n] as u64);
    }
}

// The sense of a slope: rising or falling.
ghost use Rattle.std.specs.Prelude.{◌≡◌};
ghost use Rattle.turns.specs.Sense.{rising, differ};

// Whether a slope rises.
pub fn rises(slope: i64) -> bool
    ensures { result ≡ rising slope }
{
    0 <= slope
}

// Whether two slopes differ in sense.
pub fn differs(a: i64, b: i64) -> bool
    ensures { result ≡ differ a b }
{
    if rises(a) { !rises(b) } else { rises(b) }
}

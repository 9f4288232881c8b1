// A constituent's share of the height at an angle. The table of cosines is lent.
ghost use Rattle.std.specs.Prelude.{◌≡◌, ◌≤◌, ◌^◌, nat_abs, ◌*ℤ◌};
ghost use Rattle.cosine.specs.Fixed.{one, IsTable};
ghost use Rattle.heights.specs.Share.{share};

use cosine::ENTRIES;

// A weight times a fixed cosine or sine.
pub fn weigh(weight: i32, wave: i64) -> i64
    requires { nat_abs wave ≤ one }
    ensures value { result ≡ weight *ℤ wave }
    ensures result_bound { nat_abs result ≤ 2 ^ 61 }
{
    weight as i64 * wave
}

// The share of weights P and Q at an angle.
pub fn share_at(table: &[u32; ENTRIES], angle: u64, p: i32, q: i32) -> i64
    requires { IsTable table.now }
    ensures value { result ≡ share p q angle }
    ensures result_bound { nat_abs result ≤ 2 ^ 32 }
{
    let w = cosine::wave(table, angle);
    (weigh(p, w.cosine) - weigh(q, w.sine)) >> 30
}

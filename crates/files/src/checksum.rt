// CRC-32: the checksum by which two files that differ show it.
ghost use Rattle.std.specs.Prelude.{◌≡◌};
ghost use Rattle.files.specs.Crc as crc;
ghost use Rattle.files.specs.Crc.{bits_of, divided};

// The register after one bit of the message.
#[tactic(auto, unfolding(crate::specs::Crc::step))]
fn step(register: u32, bit: u8) -> u32
    ensures { result ≡ crc.step register bit }
{
    let half = register / 2;
    if register % 2 == bit as u32 {
        return half;
    }
    half ^ 0xEDB8_8320
}

// The register after the eight bits of a byte, the lowest first.
fn byte(register: u32, b: u8) -> u32
    ensures { result ≡ divided register (bits_of 8 b) }
{
    let mut r = register;
    let mut rest = b;
    for _i in 0..8usize {
        r = step(r, rest % 2);
        rest /= 2;
    }
    r
}

// The CRC-32 of the bytes, as zlib and gzip have it.
pub fn crc32(bytes: &[u8]) -> u32
    ensures { result ≡ crc.crc bytes.now }
{
    let mut r: u32 = 0xFFFF_FFFF;
    for b in bytes {
        r = byte(r, *b);
    }
    !r
}
